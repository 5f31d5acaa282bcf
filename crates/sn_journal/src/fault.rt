//! Why a text isn't a journal's.
ghost use Rattle.sn_journal.specs.declared.fault.OutlineFault.TheVariants.{OutOfMemory};
ghost use Rattle.std.specs.Prelude.{◌≡◌};

use std::alloc::{AllocError, AllocFailed};
use thiserror::Error;

/// Why a text isn't read as a journal's.
#[derive(Debug, Drop, Error, PartialEq, Eq)]
pub enum OutlineFault {
    /// The line of this number, counted from 1, is the first that isn't of the form.
    #[error("line {0} isn't one of a journal")]
    Line(u64),
    /// There was no memory.
    #[error("out of memory")]
    OutOfMemory,
}

impl From<AllocError> for OutlineFault {
    ghost from_gives = { λ _ e. e ≡ OutOfMemory };

    fn from(_fault: AllocError) -> OutlineFault {
        OutlineFault::OutOfMemory
    }
}

impl<T: Drop> From<AllocFailed<T>> for OutlineFault {
    ghost from_gives = { λ _ e. e ≡ OutOfMemory };

    fn from(_fault: AllocFailed<T>) -> OutlineFault {
        OutlineFault::OutOfMemory
    }
}
