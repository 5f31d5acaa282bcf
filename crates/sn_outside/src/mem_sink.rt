//! A sink in memory, for tests: it tells what it took, takes a piece at a time, and fails at chosen
//! calls.
ghost use Rattle.sn_outside.specs.Counts.{SinkHasCause};
ghost use Rattle.sn_outside.specs.Memory.{SinkFailsNext, takes_next};
ghost use Rattle.sn_outside.specs.Told.{ToldTaken};
ghost use Rattle.std.specs.Prelude.{ℕ, Bool, List, [], ◌++◌, true, Contains, IfOk, IsErr, IsTrue, OnErr, length, min, take, ◌+◌, ◌-◌, ◌≡◌, ◌<◌, ◌≤◌, ◌⊎◌, ◌↔◌, ◌^◌};

use crate::{Sink, SinkFault};
use std::alloc::{AllocError, Global};
use std::marker::Model;

/// A sink in memory. Calls are numbered from 1, and the numbers stand still at the greatest u64.
#[derive(Drop)]
pub struct MemSink {
    taken: Vec<u8>,
    piece: usize,
    room: usize,
    next: u64,
    failing: Vec<u64>,
    faults: u64,
}

impl Model for MemSink {
    ghost use Rattle.sn_outside.specs.Memory.{MemSinkView};
    ghost use Rattle.std.specs.Prelude.{vec_len, vec_capacity, ◌<◌, ◌≤◌};

    ghost Value = { MemSinkView };

    ghost view = { λ s. record {
      state = record { taken = s.taken.items; faults = s.faults };
      piece = s.piece;
      room = s.room;
      next = s.next;
      failing = s.failing.items;
    } };

    ghost invariant = { λ s. (0 < s.piece) × (vec_len s.taken ≤ s.room) × (s.room ≤ vec_capacity s.taken) };
}

impl MemSink {
    /// An empty sink that takes at most `piece` bytes a call and `room` bytes in all. The calls
    /// whose numbers are in `failing` will fail.
    ///
    /// # Errors
    /// Want of memory: the room is taken here.
    pub fn new(
        alloc: Global,
        piece: usize,
        room: usize,
        failing: Vec<u64>,
    ) -> Result<MemSink, AllocError>
        requires { 0 < piece }
        ensures { IfOk result (λ sink. sink ≡ record {
          state = record { taken = []; faults = 0 };
          piece = piece;
          room = room;
          next = 1;
          failing = failing.items;
        }) }
    {
        let taken = Vec::with_capacity(alloc, room)?;
        Ok(MemSink {
            taken,
            piece,
            room,
            next: 1,
            failing,
            faults: 0,
        })
    }

    /// All bytes taken so far.
    pub fn taken(&self) -> &[u8]
        ensures { result.now ≡ self.now.state.taken }
    {
        &self.taken
    }
}

impl Sink for MemSink {
    ghost tells = { true };

    ghost state = { λ s. s.state };

    /// As for all sinks; it fails exactly where the call's number is one of those that fail, or the
    /// room is full, and else takes as much as piece and room allow.
    fn write(&mut self, bytes: &[u8]) -> Result<usize, SinkFault>
        requires { 0 < length bytes.now }
        ensures cause { SinkHasCause self.old.state self.new.state result }
        ensures some { IfOk result (λ n. 0 < n) }
        ensures within { IfOk result (λ n. n ≤ length bytes.now) }
        ensures told { true ≡ true → ToldTaken self.old.state self.new.state bytes.now result }
        ensures fails { OnErr result (SinkFailsNext self.old) }
        ensures count { IfOk result (λ n. n ≡ takes_next self.old (length bytes.now)) }
        ensures takes { SinkFailsNext self.old → IsErr result }
        ensures stays { self.new ≡ record self.old { state = self.new.state; next = min (self.old.next + 1) (2 ^ 64 - 1) } }
    {
        let number = self.next;
        self.next = self.next.saturating_add(1);
        if self.failing.contains(&number) || self.taken.len() >= self.room {
            self.faults = self.faults.saturating_add(1);
            return Err(SinkFault::Failed);
        }
        let n = bytes
            .len()
            .min(self.piece)
            .min(self.room - self.taken.len());
        if self.taken.extend_from_slice(&bytes[..n]).is_err() {
            unreachable!()
        }
        Ok(n)
    }
}
