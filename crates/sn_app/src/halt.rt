//! Why a call didn't go on.
ghost use Rattle.std.specs.Prelude.{◌≡◌};
ghost use Rattle.sn_app.specs.declared.halt.Halt.TheVariants.{OutOfMemory};

use std::alloc::AllocError;

/// Why a call of a context, and so of an app, didn't go on.
#[derive(Clone, Copy, Debug, PartialEq, Eq)]
pub enum Halt {
    /// The worker was stopped at a gate, or a script had no entry that could be read.
    Stopped,
    /// There was no memory. What the call had done so far stands.
    OutOfMemory,
}

impl From<AllocError> for Halt {
    ghost from_gives = { λ _ halt. halt ≡ OutOfMemory };

    fn from(_: AllocError) -> Halt {
        Halt::OutOfMemory
    }
}
