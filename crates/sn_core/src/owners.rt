//! Where a packet stands in the machine.

ghost use Rattle.std.specs.Prelude.{◌≡◌, ◌<◌, position, is_some};
ghost use Rattle.std.specs.List.{list_any};
ghost use Rattle.sn_core.specs.declared.events.Owner.{Owner};
ghost use Rattle.sn_core.specs.Core.{pool};
ghost use Rattle.sn_core.specs.Ownership.{owned_packets, cell_has, place_has, lane_has, seat_has};
ghost use Rattle.sn_core.specs.Sound.{count_of};
ghost use Rattle.sn_core.specs.Invariant.{IsKept};
ghost use Rattle.sn_core.specs.State.{core_of};

use crate::events::Owner;
use crate::machine::Machine;
use crate::parts::Cell;

impl Machine {
    /// The owner of the packet of this number.
    pub fn owner(&self, number: u32) -> Owner
        requires kept { IsKept (core_of self.now) }
        requires number { number < pool (core_of self.now) }
        ensures stands { count_of number (owned_packets (core_of self.now) result) ≡ 1 }
    {
        if let Some(seat) = self.seat_with(number) {
            return Owner::Seat(seat as u32);
        }
        if let Some(cell) = self.cell_with(number) {
            return Owner::Cell(cell as u32);
        }
        match self.lane_with(number) {
            Some(lane) => Owner::Lane(lane as u32),
            None => unreachable!(),
        }
    }

    fn seat_with(&self, number: u32) -> Option<usize>
        ensures { result ≡ position (seat_has number) (core_of self.now).seats }
    {
        self.seats.iter().position(|seat| seat.has(number))
    }

    fn cell_with(&self, number: u32) -> Option<usize>
        ensures { result ≡ position (cell_has number) (core_of self.now).cells }
    {
        self.cells.iter().position(|cell| cell.has(number))
    }

    fn lane_with(&self, number: u32) -> Option<usize>
        ensures { result ≡ position (lane_has number) (core_of self.now).lanes }
    {
        self.lanes.iter().position(|lane| lane.has(number))
    }
}

impl Cell {
    /// Whether the cell is full with the packet of this number.
    fn has(&self, number: u32) -> bool
        ensures { result ≡ cell_has number self.now }
    {
        match self {
            Cell::Full(packet) => packet.number == number,
            _ => false,
        }
    }
}
