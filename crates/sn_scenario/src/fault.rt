//! Why a scenario isn't read.
ghost use Rattle.sn_scenario.specs.declared.fault.LineFault.TheVariants.{OutOfMemory};
ghost use Rattle.std.specs.Prelude.{◌≡◌};

use crate::Why;
use std::alloc::{AllocError, AllocFailed};
use thiserror::Error;

/// The first faulty line of a scenario, and its first failing check.
#[derive(Clone, Copy, Debug, PartialEq, Eq)]
pub struct ScenarioFault {
    /// The line's number, counted from 1. What fails at the end of the text is on the line after
    /// the last.
    pub line: u64,
    /// The check.
    pub why: Why,
}

/// Why a scenario isn't read.
#[derive(Debug, Drop, Error)]
pub enum ParseFault {
    /// A line is faulty.
    #[error("a line of the scenario is faulty")]
    Bad(ScenarioFault),
    /// There was no memory.
    #[error("out of memory")]
    OutOfMemory,
}

/// Why a line isn't read.
#[derive(Debug, Drop)]
pub(crate) enum LineFault {
    /// It fails a check.
    Bad(Why),
    /// There was no memory.
    OutOfMemory,
}

impl From<AllocError> for LineFault {
    ghost from_gives = { λ _ e. e ≡ OutOfMemory };

    fn from(_fault: AllocError) -> LineFault {
        LineFault::OutOfMemory
    }
}

impl<T: Drop> From<AllocFailed<T>> for LineFault {
    ghost from_gives = { λ _ e. e ≡ OutOfMemory };

    fn from(_fault: AllocFailed<T>) -> LineFault {
        LineFault::OutOfMemory
    }
}
