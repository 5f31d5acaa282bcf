//! What an app of a configuration is.
ghost use Rattle.std.specs.Prelude.{IfOk, ◌≡◌};

use sn_names::{Arg, Class};
use std::alloc::{AllocError, Global};

/// An app's class and argument.
#[derive(Debug, Drop, PartialEq, Eq)]
pub struct AppSpec {
    /// The class.
    pub class: Class,
    /// The argument, which the class takes.
    pub arg: Arg,
}

impl AppSpec {
    /// An equal one.
    ///
    /// # Errors
    /// Want of memory.
    pub fn copy(&self, alloc: Global) -> Result<AppSpec, AllocError>
        ensures { IfOk result (λ spec. spec ≡ self.now) }
    {
        Ok(AppSpec {
            class: self.class,
            arg: self.arg.copy(alloc)?,
        })
    }
}
