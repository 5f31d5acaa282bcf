//! The arguments of apps.
ghost use Rattle.std.specs.Prelude.{IfOk, ◌≡◌};

use crate::{FileName, Name};
use std::alloc::{AllocError, Global};

/// What an app is given beside its class.
#[derive(Debug, Drop, PartialEq, Eq)]
pub enum Arg {
    /// No argument.
    Nothing,
    /// A number.
    Number(u64),
    /// A byte at a place of a packet.
    Byte {
        /// The place, counted from 0.
        offset: u32,
        /// The byte.
        value: u8,
    },
    /// A file.
    File(FileName),
    /// An interlink.
    Lane(Name),
}

impl Arg {
    /// An equal argument.
    ///
    /// # Errors
    /// Want of memory.
    pub fn copy(&self, alloc: Global) -> Result<Arg, AllocError>
        ensures { IfOk result (λ arg. arg ≡ self.now) }
    {
        match self {
            Arg::Nothing => Ok(Arg::Nothing),
            Arg::Number(number) => Ok(Arg::Number(*number)),
            Arg::Byte { offset, value } => Ok(Arg::Byte {
                offset: *offset,
                value: *value,
            }),
            Arg::File(name) => Ok(Arg::File(name.copy(alloc)?)),
            Arg::Lane(name) => Ok(Arg::Lane(name.copy(alloc)?)),
        }
    }
}
