//! The list of a worker's entries, with room for more.
ghost use Rattle.sn_journal.specs.Cost.{cost_of};
ghost use Rattle.std.specs.Prelude.{OnErr, OnOk, IsOk, [], ◌+◌, ◌++◌, ◌∷◌, ◌≡◌, ◌≤◌};

use crate::Entry;
use std::alloc::{AllocError, Global};
use std::marker::Model;

/// The entries of a worker, in the order in which they were added. Contracts see the entries, and for how many more there is
/// room.
#[derive(Debug, Drop)]
pub struct Journal {
    entries: Vec<Entry>,
    cost: u64,
}

impl Model for Journal {
    ghost use Rattle.std.specs.Prelude.{vec_capacity, vec_len, ◌-◌, ◌≡◌};
    ghost use Rattle.sn_journal.specs.Cost.{cost_of};
    ghost use Rattle.sn_journal.specs.JournalState.{JournalState};

    ghost Value = { JournalState };

    ghost view = { λ j. record { entries = j.entries.items; room = vec_capacity j.entries - vec_len j.entries } };

    ghost invariant = { λ j. j.cost ≡ cost_of j.entries.items };
}

impl Journal {
    /// A journal of no entries. It takes no memory.
    pub fn new(alloc: Global) -> Journal
        ensures { result.entries ≡ [] }
    {
        Journal {
            entries: Vec::new(alloc),
            cost: 0,
        }
    }

    /// Makes room for one entry.
    ///
    /// # Errors
    /// Want of memory, and nothing changes.
    pub fn reserve(&mut self) -> Result<(), AllocError>
        ensures room { OnOk result (1 ≤ self.new.room) }
        ensures more { self.old.room ≤ self.new.room }
        ensures entries { self.new.entries ≡ self.old.entries }
        ensures refused { OnErr result (self.new ≡ self.old) }
        ensures there { 1 ≤ self.old.room → IsOk result }
    {
        self.reserve_more(1)
    }

    /// Makes room for `n` entries.
    ///
    /// # Errors
    /// Want of memory, and nothing changes.
    pub fn reserve_more(&mut self, n: u32) -> Result<(), AllocError>
        ensures room { OnOk result (n ≤ self.new.room) }
        ensures more { self.old.room ≤ self.new.room }
        ensures entries { self.new.entries ≡ self.old.entries }
        ensures refused { OnErr result (self.new ≡ self.old) }
        ensures there { n ≤ self.old.room → IsOk result }
    {
        self.entries.reserve(n as usize)
    }

    /// Adds an entry behind the others, into the room that was made. It takes no memory.
    pub fn add(&mut self, entry: Entry)
        requires { 1 ≤ self.old.room }
        ensures added { self.new.entries ≡ self.old.entries ++ entry ∷ [] }
        ensures room { self.new.room + 1 ≡ self.old.room }
    {
        self.cost = self.cost.saturating_add(entry.cost());
        self.entries.push_reserved(entry);
    }

    /// The entries, the first one first.
    pub fn entries(&self) -> &[Entry]
        ensures { result.now ≡ self.now.entries }
    {
        &self.entries
    }

    /// What the entries cost: 96 for each and one for each byte of its payload, and never more than 2^64 - 1.
    pub fn cost(&self) -> u64
        ensures { result ≡ cost_of self.now.entries }
    {
        self.cost
    }
}
