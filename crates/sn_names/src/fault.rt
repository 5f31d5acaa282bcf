//! Why a text is no name.
ghost use Rattle.sn_names.specs.declared.fault.NameFault.TheVariants.{OutOfMemory};
ghost use Rattle.std.specs.Prelude.{◌≡◌};

use std::alloc::AllocError;
use thiserror::Error;

/// Why a text was not read.
#[derive(Debug, Drop, Error)]
pub enum NameFault {
    /// The text isn't of the form. The number is the length in bytes of its longest prefix that
    /// some text of the form begins with.
    #[error("no text of this form goes on after byte {0}")]
    At(usize),
    /// There was no memory for the copy.
    #[error("out of memory")]
    OutOfMemory,
}

impl From<AllocError> for NameFault {
    ghost from_gives = { λ _ e. e ≡ OutOfMemory };

    fn from(_fault: AllocError) -> NameFault {
        NameFault::OutOfMemory
    }
}
