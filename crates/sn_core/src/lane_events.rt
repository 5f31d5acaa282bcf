//! The events of lanes.

ghost use Rattle.std.specs.Prelude.{◌≡◌, ◌<◌, ◌≤◌, ℕ, List, [], ◌∷◌, Some, length, slice_get};
ghost use Rattle.sn_core.specs.Core.{Core, IsStep, take_first, with_lane, with_seat};
ghost use Rattle.sn_core.specs.Lane.{LaneState, published_some};
ghost use Rattle.sn_core.specs.Seat.{SeatState, handed_over, without_packet};
ghost use Rattle.sn_core.specs.Invariant.{IsKept};
ghost use Rattle.sn_core.specs.State.{core_of};

use crate::events::{Event, Side, Stepped};
use crate::machine::Machine;

impl Machine {
    /// An end comes up.
    pub fn attach(&mut self, lane: u32, side: Side) -> Stepped
        ensures { IsStep (core_of self.old) (Event.Attach lane side) result (core_of self.new) }
    {
        let i = lane as usize;
        if i >= self.lanes.len() || !self.lanes[i].can_attach(side) {
            return Stepped::NotEnabled;
        }
        self.lanes[i].attach(side);
        Stepped::Done
    }

    /// An end goes, and closes the lane where it is down then.
    pub fn detach(&mut self, lane: u32, side: Side) -> Stepped
        ensures { IsStep (core_of self.old) (Event.Detach lane side) result (core_of self.new) }
    {
        let i = lane as usize;
        if i >= self.lanes.len() || !self.lanes[i].can_detach(side) {
            return Stepped::NotEnabled;
        }
        self.lanes[i].detach(side);
        Stepped::Done
    }

    /// The closing end frees the lane.
    pub fn reset(&mut self, lane: u32, side: Side) -> Stepped
        ensures { IsStep (core_of self.old) (Event.Reset lane side) result (core_of self.new) }
    {
        let i = lane as usize;
        if i >= self.lanes.len() || !self.lanes[i].can_reset(side) {
            return Stepped::NotEnabled;
        }
        self.lanes[i].reset();
        Stepped::Done
    }

    /// The receiver gives all emptied places back.
    pub fn release(&mut self, lane: u32) -> Stepped
        requires { IsKept (core_of self.old) }
        ensures { IsStep (core_of self.old) (Event.Release lane) result (core_of self.new) }
    {
        let i = lane as usize;
        if i >= self.lanes.len() || !self.lanes[i].can_release() {
            return Stepped::NotEnabled;
        }
        self.lanes[i].release();
        Stepped::Done
    }

    /// The transmitter takes the packet back that was laid last.
    pub fn take_back(&mut self, lane: u32) -> Stepped
        ensures { IsStep (core_of self.old) (Event.TakeBack lane) result (core_of self.new) }
    {
        let i = lane as usize;
        if i >= self.lanes.len() || !self.lanes[i].has_laid() {
            return Stepped::NotEnabled;
        }
        self.lanes[i].take_back();
        Stepped::Done
    }

    /// The closing end gives all emptied places back.
    pub fn drain_release(&mut self, lane: u32, side: Side) -> Stepped
        requires { IsKept (core_of self.old) }
        ensures { IsStep (core_of self.old) (Event.DrainRelease lane side) result (core_of self.new) }
    {
        let i = lane as usize;
        if i >= self.lanes.len() || !self.lanes[i].can_drain_release(side) {
            return Stepped::NotEnabled;
        }
        self.lanes[i].release();
        Stepped::Done
    }

    /// The receiver takes the first packet.
    pub fn take(&mut self, lane: u32) -> Stepped
        requires { IsKept (core_of self.old) }
        ensures { IsStep (core_of self.old) (Event.Take lane) result (core_of self.new) }
    {
        let i = lane as usize;
        if i >= self.lanes.len() || !self.lanes[i].can_take() {
            return Stepped::NotEnabled;
        }
        self.move_first(i, Side::Rx);
        Stepped::Done
    }

    /// The closing end takes the first packet.
    pub fn drain_take(&mut self, lane: u32, side: Side) -> Stepped
        requires { IsKept (core_of self.old) }
        ensures { IsStep (core_of self.old) (Event.DrainTake lane side) result (core_of self.new) }
    {
        let i = lane as usize;
        if i >= self.lanes.len() || !self.lanes[i].can_drain(side) {
            return Stepped::NotEnabled;
        }
        self.move_first(i, side);
        Stepped::Done
    }

    /// The transmitter lays a packet that it holds.
    pub fn lay(&mut self, lane: u32, packet: u32) -> Stepped
        requires { IsKept (core_of self.old) }
        ensures { IsStep (core_of self.old) (Event.Lay lane packet) result (core_of self.new) }
    {
        let i = lane as usize;
        if i >= self.lanes.len() {
            return Stepped::NotEnabled;
        }
        let seat = self.lanes[i].seat(Side::Tx) as usize;
        if !self.lanes[i].can_lay()
            || !self.may_hand_over(packet, seat)
            || self.seats[seat].has_claimed(packet)
        {
            return Stepped::NotEnabled;
        }
        self.lanes[i].lay(packet);
        Stepped::Done
    }

    /// All laid packets join the queue, with their turns raised.
    pub fn publish(&mut self, lane: u32) -> Stepped
        requires { IsKept (core_of self.old) }
        ensures { IsStep (core_of self.old) (Event.Publish lane) result (core_of self.new) }
    {
        let i = lane as usize;
        if i >= self.lanes.len() || !self.lanes[i].has_laid() {
            return Stepped::NotEnabled;
        }
        for _packet in 0..self.lanes[i].laid_len() {
            self.publish_first(i);
        }
        Stepped::Done
    }

    /// The packet that was laid first joins the queue, with its turn raised.
    fn publish_first(&mut self, lane: usize)
        requires kept { IsKept (core_of self.old) }
        requires lane_in { lane < length (core_of self.old).lanes }
        ensures { (state : LaneState) (seat : SeatState) (n : ℕ) (rest : List ℕ) →
            slice_get (core_of self.old).lanes lane ≡ Some state →
            slice_get (core_of self.old).seats state.tx_seat ≡ Some seat → state.laid ≡ n ∷ rest →
            core_of self.new ≡ with_seat (with_lane (core_of self.old) lane
            (published_some (handed_over seat n ∷ []) rest state)) state.tx_seat (without_packet n seat) }
    {
        let Some(number) = self.lanes[lane].first_laid() else {
            return;
        };
        let seat = self.lanes[lane].seat(Side::Tx) as usize;
        let packet = self.seats[seat].handed_over(number);
        self.lanes[lane].publish_first(packet);
        self.seats[seat].remove(number);
    }
}
