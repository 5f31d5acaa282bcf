//! The events of seats alone.

ghost use Rattle.std.specs.Prelude.{◌≡◌, ◌<◌, ◌≤◌, length, Some, None};
ghost use Rattle.sn_core.specs.Core.{Core, IsStep, is_in_use};
ghost use Rattle.std.specs.List.{list_any};
ghost use Rattle.sn_core.specs.Invariant.{IsKept};
ghost use Rattle.sn_core.specs.State.{core_of};

use crate::events::{Event, Side, Stepped};
use crate::machine::Machine;

impl Machine {
    /// A number is said to a worker.
    pub fn say(&mut self, worker: u32, n: u64) -> Stepped
        ensures { IsStep (core_of self.old) (Event.Say worker n) result (core_of self.new) }
    {
        let s = worker as usize;
        if s >= self.seats.len() || self.seats[s].said() > n {
            return Stepped::NotEnabled;
        }
        self.seats[s].say(n);
        Stepped::Done
    }

    /// A worker hears the number that was said last.
    pub fn hear(&mut self, worker: u32) -> Stepped
        ensures { IsStep (core_of self.old) (Event.Hear worker) result (core_of self.new) }
    {
        let s = worker as usize;
        if s >= self.seats.len() {
            return Stepped::NotEnabled;
        }
        self.seats[s].hear();
        Stepped::Done
    }

    /// A seat's work stops; nothing moves.
    pub fn stop(&mut self, seat: u32) -> Stepped
        ensures { IsStep (core_of self.old) (Event.Stop seat) result (core_of self.new) }
    {
        if seat as usize >= self.seats.len() {
            return Stepped::NotEnabled;
        }
        Stepped::Done
    }

    /// A seat begins again; nothing moves.
    pub fn restart(&mut self, seat: u32) -> Stepped
        ensures { IsStep (core_of self.old) (Event.Restart seat) result (core_of self.new) }
    {
        let s = seat as usize;
        if s >= self.seats.len() || !self.seats[s].is_idle() || self.is_in_use(seat) {
            return Stepped::NotEnabled;
        }
        Stepped::Done
    }

    /// Whether the seat has an end that is up or closes.
    fn is_in_use(&self, seat: u32) -> bool
        ensures { result ≡ list_any (is_in_use seat) (core_of self.now).lanes }
    {
        self.lanes.iter().any(|lane| lane.is_in_use(seat))
    }

    /// The packet of the next claimed cell is out.
    pub fn take_out(&mut self, seat: u32) -> Stepped
        ensures { IsStep (core_of self.old) (Event.TakeOut seat) result (core_of self.new) }
    {
        let s = seat as usize;
        if s >= self.seats.len() || !self.seats[s].can_take_out() {
            return Stepped::NotEnabled;
        }
        self.seats[s].take_out();
        Stepped::Done
    }

    /// The packet is in the claimed cell.
    pub fn give_in(&mut self, seat: u32) -> Stepped
        ensures { IsStep (core_of self.old) (Event.GiveIn seat) result (core_of self.new) }
    {
        let s = seat as usize;
        if s >= self.seats.len() || !self.seats[s].can_give_in() {
            return Stepped::NotEnabled;
        }
        self.seats[s].give_in();
        Stepped::Done
    }
}
