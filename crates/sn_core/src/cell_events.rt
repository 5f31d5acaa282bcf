//! The events of cells.

ghost use Rattle.std.specs.Prelude.{◌≡◌};
ghost use Rattle.sn_core.specs.Core.{Core, IsStep};
ghost use Rattle.sn_core.specs.Invariant.{IsKept};
ghost use Rattle.sn_core.specs.State.{core_of};

use crate::events::{Event, Stepped};
use crate::machine::Machine;
use crate::parts::Cell;

impl Machine {
    /// A seat claims a full cell, and its packet with it.
    pub fn take_claim(&mut self, seat: u32, cell: u32) -> Stepped
        requires { IsKept (core_of self.old) }
        ensures { IsStep (core_of self.old) (Event.TakeClaim seat cell) result (core_of self.new) }
    {
        let s = seat as usize;
        let c = cell as usize;
        if s >= self.seats.len() || c >= self.cells.len() || !self.seats[s].is_idle() {
            return Stepped::NotEnabled;
        }
        let Cell::Full(packet) = self.cells[c] else {
            return Stepped::NotEnabled;
        };
        self.cells[c] = Cell::Busy(seat);
        self.seats[s].begin_taking(packet, cell);
        Stepped::Done
    }

    /// The claimed cell is empty.
    pub fn take_done(&mut self, seat: u32) -> Stepped
        requires { IsKept (core_of self.old) }
        ensures { IsStep (core_of self.old) (Event.TakeDone seat) result (core_of self.new) }
    {
        let s = seat as usize;
        if s >= self.seats.len() || !self.seats[s].is_all_out() {
            return Stepped::NotEnabled;
        }
        let Some(claim) = self.seats[s].claim() else {
            unreachable!();
        };
        self.cells[claim.cell as usize] = Cell::Empty;
        self.seats[s].end_taking();
        Stepped::Done
    }

    /// A seat claims an empty cell for a packet that it holds.
    pub fn give_claim(&mut self, seat: u32, cell: u32, packet: u32) -> Stepped
        ensures { IsStep (core_of self.old) (Event.GiveClaim seat cell packet) result (core_of self.new) }
    {
        let s = seat as usize;
        if s >= self.seats.len() || cell as usize >= self.cells.len() {
            return Stepped::NotEnabled;
        }
        if self.cells[cell as usize] != Cell::Empty
            || !self.seats[s].is_idle()
            || !self.may_hand_over(packet, s)
        {
            return Stepped::NotEnabled;
        }
        self.cells[cell as usize] = Cell::Busy(seat);
        self.seats[s].begin_giving(packet, cell);
        Stepped::Done
    }

    /// The claimed cell is full, with the packet's turn raised.
    pub fn give_done(&mut self, seat: u32) -> Stepped
        requires { IsKept (core_of self.old) }
        ensures { IsStep (core_of self.old) (Event.GiveDone seat) result (core_of self.new) }
    {
        let s = seat as usize;
        if s >= self.seats.len() || !self.seats[s].is_given_in() {
            return Stepped::NotEnabled;
        }
        let Some(claim) = self.seats[s].claim() else {
            return Stepped::NotEnabled;
        };
        let packet = self.seats[s].handed_over(claim.packet);
        self.cells[claim.cell as usize] = Cell::Full(packet);
        self.seats[s].end_giving(claim.packet);
        Stepped::Done
    }
}
