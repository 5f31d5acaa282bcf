//! A seat taken apart, once its worker is done.

use crate::ledger::Ledger;
use crate::seat::Seat;
use crate::seat_end::SeatEnd;
use sn_app::{Counters, Output};
use sn_group::GroupSeat;
use sn_journal::Journal;
use sn_packet::Hold;

/// What a seat was: its journal, what its apps and links have counted, the files by their rows, the packets that it holds, its
/// ends of interlinks with their numbers, and its seat of the group.
#[derive(Drop)]
pub struct SeatParts {
    pub journal: Journal,
    pub counters: Counters,
    pub files: Vec<Output>,
    pub hold: Hold,
    pub ends: Vec<(u32, SeatEnd)>,
    pub group: GroupSeat,
}

impl Ledger {
    ghost use Rattle.std.specs.Prelude.{◌≡◌};

    /// The ledger taken apart.
    fn into_parts(self, counters: Counters, files: Vec<Output>) -> SeatParts
        ensures journal { result.journal ≡ self.journal }
        ensures counters { result.counters ≡ counters }
        ensures files { result.files.items ≡ files.items }
        ensures hold { result.hold ≡ self.hold }
        ensures ends { result.ends.items ≡ self.ends.items }
        ensures group { result.group ≡ self.group }
    {
        let Ledger {
            journal,
            hold,
            ends,
            group,
            listener: _,
        } = self;
        SeatParts {
            journal,
            counters,
            files,
            hold,
            ends,
            group,
        }
    }
}

impl Seat {
    ghost use Rattle.std.specs.Prelude.{◌≡◌, List, ℕ};
    ghost use Rattle.sn_seat.specs.Tellings.{TellsAll, seat_ends, seat_group, seat_hold};
    ghost use Rattle.sn_seat.specs.Trays.{seat_tray};

    /// The seat taken apart.
    pub fn into_parts(self) -> SeatParts
        ensures entries { (captures : List (List ℕ)) → result.journal.entries ≡ (seat_tray captures self).log.past }
        ensures told { TellsAll result.journal.entries self }
        ensures counters { (captures : List (List ℕ)) → result.counters ≡ (seat_tray captures self).counters }
        ensures files { (captures : List (List ℕ)) → result.files.items ≡ (seat_tray captures self).files }
        ensures hold { result.hold ≡ seat_hold self }
        ensures ends { result.ends.items ≡ seat_ends self }
        ensures group { result.group ≡ seat_group self }
    {
        let Seat {
            alloc: _,
            worker: _,
            ledger,
            gates: _,
            stops: _,
            counters,
            files,
            roster: _,
        } = self;
        ledger.into_parts(counters, files)
    }
}
