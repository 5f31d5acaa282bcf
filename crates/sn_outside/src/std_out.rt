//! The adapter to standard output.
ghost use Rattle.std.specs.Prelude.{Bool, [], false};

use crate::streams::write_some;
use crate::{Sink, SinkFault};
use std::io;

/// Standard output, which tells nothing of what it takes.
#[derive(Drop)]
pub struct StdOut<'a, R: Print> {
    rt: &'a R,
    faults: u64,
}

impl<'a, R: Print> StdOut<'a, R> {
    /// The standard output of this runtime.
    pub fn new(rt: &'a R) -> StdOut<'a, R> {
        StdOut { rt, faults: 0 }
    }
}

impl<'a, R: Print> Sink for StdOut<'a, R> {
    ghost tells = { false };

    ghost state = { λ s. record { taken = []; faults = s.faults } };

    fn write(&mut self, bytes: &[u8]) -> Result<usize, SinkFault> {
        write_some(&mut io::writer(self.rt), bytes, &mut self.faults)
    }
}
