//! What the outside answers where it refuses.
use std::alloc::AllocError;
use thiserror::Error;

/// Why a file was not read or written.
#[derive(Clone, Copy, Debug, PartialEq, Eq, Error)]
pub enum FileFault {
    /// The system refused, or the name isn't there. The count of faults rose.
    #[error("failed")]
    Failed,
    /// The file has more bytes than the call allows.
    #[error("too long")]
    TooLong,
    /// There was no memory.
    #[error("out of memory")]
    OutOfMemory,
}

impl From<AllocError> for FileFault {
    ghost use Rattle.sn_outside.specs.declared.fault.FileFault.TheVariants.{OutOfMemory};
    ghost use Rattle.std.specs.Prelude.{◌≡◌};

    ghost from_gives = { λ _ e. e ≡ OutOfMemory };

    fn from(_fault: AllocError) -> FileFault {
        FileFault::OutOfMemory
    }
}

/// Why a sink took nothing.
#[derive(Clone, Copy, Debug, PartialEq, Eq, Error)]
pub enum SinkFault {
    /// The device refused. The count of faults rose.
    #[error("failed")]
    Failed,
}
