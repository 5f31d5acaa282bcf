//! What an entry of a journal says.
ghost use Rattle.sn_journal.specs.Cost.{entry_cost};
ghost use Rattle.std.specs.Prelude.{IfOk, ◌≡◌};

use crate::Payload;
use std::alloc::{AllocError, Global};

/// What an entry costs beside its payload's bytes.
const ENTRY_COST: u64 = 96;

/// One thing that a worker did. Interlinks and packets go by their numbers, places in an interlink by their position, counted
/// from 0. A packet's turn says how often it was handed over: `Put` and `Gave` have the raised turn, `Take`, `Drain` and
/// `Got` the turn that was found, `Full` and `Worn` the turn at which it is held.
#[derive(Debug, Drop, PartialEq, Eq)]
pub enum Entry {
    /// A running slot begins the round of this number.
    Round(u32),
    /// The worker heard that so many actions are due.
    Hear(u64),
    /// A breath begins.
    Breath,
    /// The end of an interlink attached: the interlink, and the state word that was found.
    Attach(u32, u64),
    /// The end of an interlink couldn't attach: the interlink, the state word that was loaded, and the one that was found
    /// instead. Both are equal where the loaded word was down.
    Unattached(u32, u64, u64),
    /// The end of an interlink detached: the interlink, and the old state word.
    Detach(u32, u64),
    /// The closing end set the interlink free.
    Reset(u32),
    /// The receiver saw so many packets: the interlink, and how many.
    Seen(u32, u32),
    /// The transmitter saw room for so many packets: the interlink, and how many.
    Room(u32, u32),
    /// A packet was published: the interlink, the position, the packet, its turn, and its bytes.
    Put(u32, u64, u32, u64, Payload),
    /// A packet was taken: the interlink, the position, the packet, its turn, and its bytes.
    Take(u32, u64, u32, u64, Payload),
    /// A closing end took a packet out: the interlink, the position, the packet, and its turn.
    Drain(u32, u64, u32, u64),
    /// A packet was claimed from the group: the packet, and its turn.
    Got(u32, u64),
    /// The group had no packet.
    Dry,
    /// A packet was given to the group: the packet, and its turn.
    Gave(u32, u64),
    /// The group had no room for a packet: the packet, and its turn.
    Full(u32, u64),
    /// A packet is at the highest turn, and can't be given: the packet, and its turn.
    Worn(u32, u64),
    /// The journal's cost is at its limit.
    Spent,
    /// A stop was injected.
    Stop,
    /// A running slot is closed.
    Close,
    /// A reclamation ended.
    Reclaimed,
    /// A new life begins.
    Restart,
}

impl Entry {
    /// What the entry costs.
    pub(crate) fn cost(&self) -> u64
        ensures { result ≡ entry_cost self.now }
    {
        match self {
            Entry::Put(_, _, _, _, bytes) => ENTRY_COST + bytes.bytes().len() as u64,
            Entry::Take(_, _, _, _, bytes) => ENTRY_COST + bytes.bytes().len() as u64,
            _ => ENTRY_COST,
        }
    }

    /// An equal entry.
    ///
    /// # Errors
    /// Want of memory.
    pub fn copy(&self, alloc: Global) -> Result<Entry, AllocError>
        ensures { IfOk result (λ entry. entry ≡ self.now) }
    {
        match self {
            Entry::Round(round) => Ok(Entry::Round(*round)),
            Entry::Hear(due) => Ok(Entry::Hear(*due)),
            Entry::Breath => Ok(Entry::Breath),
            Entry::Attach(lane, found) => Ok(Entry::Attach(*lane, *found)),
            Entry::Unattached(lane, loaded, found) => Ok(Entry::Unattached(*lane, *loaded, *found)),
            Entry::Detach(lane, old) => Ok(Entry::Detach(*lane, *old)),
            Entry::Reset(lane) => Ok(Entry::Reset(*lane)),
            Entry::Seen(lane, seen) => Ok(Entry::Seen(*lane, *seen)),
            Entry::Room(lane, room) => Ok(Entry::Room(*lane, *room)),
            Entry::Put(lane, at, packet, turn, bytes) => {
                let bytes = bytes.copy(alloc)?;
                Ok(Entry::Put(*lane, *at, *packet, *turn, bytes))
            }
            Entry::Take(lane, at, packet, turn, bytes) => {
                let bytes = bytes.copy(alloc)?;
                Ok(Entry::Take(*lane, *at, *packet, *turn, bytes))
            }
            Entry::Drain(lane, at, packet, turn) => Ok(Entry::Drain(*lane, *at, *packet, *turn)),
            Entry::Got(packet, turn) => Ok(Entry::Got(*packet, *turn)),
            Entry::Dry => Ok(Entry::Dry),
            Entry::Gave(packet, turn) => Ok(Entry::Gave(*packet, *turn)),
            Entry::Full(packet, turn) => Ok(Entry::Full(*packet, *turn)),
            Entry::Worn(packet, turn) => Ok(Entry::Worn(*packet, *turn)),
            Entry::Spent => Ok(Entry::Spent),
            Entry::Stop => Ok(Entry::Stop),
            Entry::Close => Ok(Entry::Close),
            Entry::Reclaimed => Ok(Entry::Reclaimed),
            Entry::Restart => Ok(Entry::Restart),
        }
    }
}
