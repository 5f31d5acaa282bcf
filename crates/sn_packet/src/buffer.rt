//! The bytes of a packet, in memory that is taken once.

ghost use Rattle.std.specs.Prelude.{◌≡◌, ◌≤◌, [], length, replicate, take, IfOk};

use std::alloc::{AllocError, Global};
use std::marker::Model;

/// The most bytes of a packet, as Snabb has it (`packet.max_payload`): a jumbo frame of Ethernet, with headers around it.
pub const MAX_PAYLOAD: u32 = 10_240;

/// At most `MAX_PAYLOAD` bytes, with memory for as many. Contracts see the bytes.
#[derive(Drop)]
pub(crate) struct Buffer {
    bytes: Vec<u8>,
}

impl Model for Buffer {
    ghost use Rattle.std.specs.Prelude.{ℕ, ◌≤◌, List, length, vec_capacity};

    ghost Value = { List ℕ };

    ghost view = { λ b. b.bytes.items };

    ghost invariant = { λ b. (length b.bytes.items ≤ 10240) × (10240 ≤ vec_capacity b.bytes) };
}

impl Buffer {
    /// A buffer with no bytes, and with memory for `MAX_PAYLOAD`.
    pub(crate) fn new(alloc: Global) -> Result<Buffer, AllocError>
        ensures { IfOk result (λ buffer. buffer ≡ []) }
    {
        Ok(Buffer {
            bytes: Vec::with_capacity(alloc, MAX_PAYLOAD as usize)?,
        })
    }

    pub(crate) fn bytes(&self) -> &[u8]
        ensures value { result.now ≡ self.now }
        ensures short { length result.now ≤ 10240 }
    {
        &self.bytes
    }

    /// Writes zeros, and nothing behind them.
    pub(crate) fn zeros(&mut self, len: u32)
        requires { len ≤ 10240 }
        ensures { self.new ≡ replicate len 0 }
    {
        self.bytes.clear();
        match self.bytes.resize(len as usize, 0) {
            Ok(()) => (),
            Err(_) => unreachable!(),
        }
    }

    /// Writes these bytes.
    pub(crate) fn fill(&mut self, bytes: &[u8])
        requires { length bytes.now ≤ 10240 }
        ensures { self.new ≡ bytes.now }
    {
        self.bytes.clear();
        match self.bytes.extend_from_slice(bytes) {
            Ok(()) => (),
            Err(_) => unreachable!(),
        }
    }

    /// Leaves the first bytes. No byte moves.
    pub(crate) fn cut(&mut self, len: u32)
        ensures { self.new ≡ take len self.old }
    {
        self.bytes.truncate(len as usize);
    }
}
