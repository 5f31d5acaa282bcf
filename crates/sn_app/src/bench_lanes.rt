//! What a bench does at the ends of its interlinks.
ghost use Rattle.std.specs.Prelude.{◌≡◌, ◌≢◌, ◌<◌, ◌+◌, ℕ, IfOk, IsSome, IsTrue, None, Ok, OnOk, if◌then◌else◌, length};
ghost use Rattle.sn_packet.specs.Hold.{put_at, used_of};
ghost use Rattle.sn_app.specs.Bench.{Played, ends_of, tray_of};
ghost use Rattle.sn_app.specs.Calls.{AfterPut, AfterTake, IsFresh, IsUp, Knows, LeavesOtherEnds, known_at, packet_there};
ghost use Rattle.sn_app.specs.Desk.{closing_end, out_end};
ghost use Rattle.sn_app.specs.Gates.{working};
ghost use Rattle.sn_app.specs.Reader.{repeated};
ghost use Rattle.sn_app.specs.Rows.{close_lane, drain_one, row_attach, row_detach, row_look, row_put, row_room, row_take};
ghost use Rattle.sn_app.specs.World.{packet_at};
ghost use Rattle.sn_app.specs.declared.end_state.EndState.TheVariants.{Out};
ghost use Rattle.sn_core.specs.declared.events.Side.TheVariants.{Rx, Tx};

use crate::arrivals::{lay_filled, lay_free};
use crate::lanes::{lay_at, learn_at, publish_at, reserve_at, settle_at, state_at, take_at};
use crate::{Bench, EndState, Halt};
use sn_core::Side;
use sn_packet::Packet;

impl Bench {
    /// How many packets the receiver of an interlink can take, as the next entry says.
    pub(crate) fn look(&mut self, lane: u32) -> Result<u32, Halt>
        requires { IsTrue ((tray_of self.old).log.constants.has_end lane Rx) }
        ensures plays { Played (row_look lane) (tray_of self.old) (tray_of self.new) self.old.script self.new.script result }
        ensures known { IfOk result (Knows lane Rx (tray_of self.old) (tray_of self.new)) }
        ensures leaves { LeavesOtherEnds lane Rx (tray_of self.old) (tray_of self.new) }
        ensures rest { self.new ≡ record self.old { past = self.new.past; script = self.new.script; lanes = self.new.lanes } }
    {
        self.tape.reserve()?;
        let Some(seen) = self.tape.next_seen(lane) else {
            return Err(Halt::Stopped);
        };
        self.tape.advance();
        learn_at(&mut self.lanes, lane, Side::Rx, seen);
        Ok(seen)
    }

    /// For how many packets the transmitter of an interlink has room, as the next entry says.
    pub(crate) fn room(&mut self, lane: u32) -> Result<u32, Halt>
        requires { IsTrue ((tray_of self.old).log.constants.has_end lane Tx) }
        ensures plays { Played (row_room lane) (tray_of self.old) (tray_of self.new) self.old.script self.new.script result }
        ensures known { IfOk result (Knows lane Tx (tray_of self.old) (tray_of self.new)) }
        ensures leaves { LeavesOtherEnds lane Tx (tray_of self.old) (tray_of self.new) }
        ensures rest { self.new ≡ record self.old { past = self.new.past; script = self.new.script; lanes = self.new.lanes } }
    {
        self.tape.reserve()?;
        let Some(room) = self.tape.next_room(lane) else {
            return Err(Halt::Stopped);
        };
        self.tape.advance();
        learn_at(&mut self.lanes, lane, Side::Tx, room);
        Ok(room)
    }

    /// Takes the packet that the next entry names, which comes into being.
    pub(crate) fn take(&mut self, lane: u32) -> Result<u32, Halt>
        requires end { IsTrue ((tray_of self.old).log.constants.has_end lane Rx) }
        requires known { 0 < known_at lane Rx (tray_of self.old) }
        ensures plays { Played (row_take lane) (tray_of self.old) (tray_of self.new) self.old.script self.new.script
            (packet_there (used_of self.new.held) result) }
        ensures fresh { IfOk result (IsFresh (used_of self.old.held) (used_of self.new.held)) }
        ensures others { (q : ℕ) → result ≢ Ok q → used_of self.new.held q ≡ used_of self.old.held q }
        ensures known { OnOk result (AfterTake lane (tray_of self.old) (tray_of self.new)) }
        ensures leaves { LeavesOtherEnds lane Rx (tray_of self.old) (tray_of self.new) }
        ensures rest { self.new
            ≡ record self.old { held = self.new.held; past = self.new.past; script = self.new.script; lanes = self.new.lanes } }
    {
        self.hold.reserve(1)?;
        self.tape.reserve()?;
        let Some((number, turn, bytes)) = self.tape.next_taken(lane) else {
            return Err(Halt::Stopped);
        };
        let packet = Packet::new(self.alloc, number, turn)?;
        let place = lay_filled(&mut self.hold, packet, bytes);
        self.tape.advance();
        take_at(&mut self.lanes, lane);
        Ok(place)
    }

    /// Puts the packet at a place, where the next entry says so. Else the packet stays laid.
    pub(crate) fn put(&mut self, lane: u32, place: u32) -> Result<(), Halt>
        requires end { IsTrue ((tray_of self.old).log.constants.has_end lane Tx) }
        requires known { 0 < known_at lane Tx (tray_of self.old) }
        requires place { IsSome (used_of self.old.held place) }
        ensures plays { Played (row_put lane (packet_at (used_of self.old.held) place)) (tray_of self.old) (tray_of self.new)
            self.old.script self.new.script result }
        ensures gone { OnOk result (used_of self.new.held ≡ put_at place None (used_of self.old.held)) }
        ensures others { (q : ℕ) → q ≢ place → used_of self.new.held q ≡ used_of self.old.held q }
        ensures known { OnOk result
            (AfterPut lane (packet_at (used_of self.old.held) place) (tray_of self.old) (tray_of self.new)) }
        ensures leaves { LeavesOtherEnds lane Tx (tray_of self.old) (tray_of self.new) }
        ensures rest { self.new
            ≡ record self.old { held = self.new.held; past = self.new.past; script = self.new.script; lanes = self.new.lanes } }
    {
        self.tape.reserve()?;
        reserve_at(&mut self.lanes, lane)?;
        let goes = self.tape.next_is_put(lane, self.hold.packet(place));
        let packet = self.hold.lift(place);
        lay_at(&mut self.lanes, lane, packet);
        if !goes {
            return Err(Halt::Stopped);
        }
        self.tape.advance();
        publish_at(&mut self.lanes, lane);
        Ok(())
    }

    /// Brings an end of an interlink up, if it isn't, as the next entry says.
    pub(crate) fn attach(&mut self, lane: u32, side: Side) -> Result<bool, Halt>
        requires { IsTrue ((tray_of self.old).log.constants.has_end lane side) }
        ensures plays { Played (row_attach lane side) (tray_of self.old) (tray_of self.new)
            self.old.script self.new.script result }
        ensures up { IfOk result (λ came_up. IsTrue came_up → IsUp lane side (tray_of self.new)) }
        ensures leaves { LeavesOtherEnds lane side (tray_of self.old) (tray_of self.new) }
        ensures rest { self.new ≡ record self.old { past = self.new.past; script = self.new.script; lanes = self.new.lanes } }
    {
        match state_at(&self.lanes, lane, side) {
            EndState::Up => return Ok(true),
            _ => (),
        }
        self.tape.reserve()?;
        if self.tape.next_is_down(lane) {
            self.tape.advance();
            return Ok(false);
        }
        let Some(came_up) = self.tape.next_attached(lane, side) else {
            return Err(Halt::Stopped);
        };
        self.tape.advance();
        if came_up {
            settle_at(&mut self.lanes, lane, side, EndState::Up);
            return Ok(true);
        }
        Ok(false)
    }

    /// Takes an end of an interlink down, if it isn't, as the next entries say. The last of both ends empties the interlink.
    pub(crate) fn detach(&mut self, lane: u32, side: Side) -> Result<(), Halt>
        requires { IsTrue ((tray_of self.old).log.constants.has_end lane side) }
        ensures plays { Played (row_detach working lane side) (tray_of self.old) (tray_of self.new)
            self.old.script self.new.script result }
        ensures out { OnOk result (((tray_of self.new).ends lane side).state ≡ Out) }
        ensures used { used_of self.new.held ≡ used_of self.old.held }
        ensures leaves { LeavesOtherEnds lane side (tray_of self.old) (tray_of self.new) }
        ensures rest { self.new
            ≡ record self.old { held = self.new.held; past = self.new.past; script = self.new.script; lanes = self.new.lanes } }
    {
        match state_at(&self.lanes, lane, side) {
            EndState::Out => return Ok(()),
            _ => (),
        }
        self.tape.reserve()?;
        let Some(closes) = self.tape.next_detached(lane, side) else {
            return Err(Halt::Stopped);
        };
        self.tape.advance();
        if closes {
            settle_at(&mut self.lanes, lane, side, EndState::Closing);
            return self.close(lane, side);
        }
        settle_at(&mut self.lanes, lane, side, EndState::Out);
        Ok(())
    }

    /// A closing end loads the far position, and then empties the interlink and is out.
    fn close(&mut self, lane: u32, side: Side) -> Result<(), Halt>
        requires end { IsTrue ((tray_of self.old).log.constants.has_end lane side) }
        requires closing { ends_of self.old.lanes lane side ≡ closing_end 0 }
        ensures plays { Played (close_lane working lane side) (tray_of self.old) (tray_of self.new)
            self.old.script self.new.script result }
        ensures out { OnOk result (ends_of self.new.lanes lane side ≡ out_end) }
        ensures used { used_of self.new.held ≡ used_of self.old.held }
        ensures leaves { LeavesOtherEnds lane side (tray_of self.old) (tray_of self.new) }
        ensures rest { self.new
            ≡ record self.old { held = self.new.held; past = self.new.past; script = self.new.script; lanes = self.new.lanes } }
    {
        self.tape.reserve()?;
        match self.tape.next_far(lane, side) {
            Some(_) => (),
            None => return Err(Halt::Stopped),
        }
        self.tape.advance();
        self.empty(lane, side)
    }

    /// Takes out what an interlink still has, and sets it free.
    fn empty(&mut self, lane: u32, side: Side) -> Result<(), Halt>
        requires end { IsTrue ((tray_of self.old).log.constants.has_end lane side) }
        requires closing { ends_of self.old.lanes lane side ≡ closing_end 0 }
        ensures plays { Played (repeated (drain_one working lane side)) (tray_of self.old) (tray_of self.new)
            self.old.script self.new.script result }
        ensures out { OnOk result (ends_of self.new.lanes lane side ≡ out_end) }
        ensures used { used_of self.new.held ≡ used_of self.old.held }
        ensures leaves { LeavesOtherEnds lane side (tray_of self.old) (tray_of self.new) }
        ensures rest { self.new
            ≡ record self.old { held = self.new.held; past = self.new.past; script = self.new.script; lanes = self.new.lanes } }
    {
        while self.drain(lane, side)? {}
        Ok(())
    }

    /// Takes out one packet, which becomes free. False where there was none, and the end is out.
    fn drain(&mut self, lane: u32, side: Side) -> Result<bool, Halt>
        requires end { IsTrue ((tray_of self.old).log.constants.has_end lane side) }
        requires closing { ends_of self.old.lanes lane side ≡ closing_end 0 }
        ensures plays { Played (drain_one working lane side) (tray_of self.old) (tray_of self.new)
            self.old.script self.new.script result }
        ensures one_more { OnOk result (length self.new.past ≡ length self.old.past + 1) }
        ensures one_less { OnOk result (length self.new.script + 1 ≡ length self.old.script) }
        ensures ends { IfOk result (λ more. ends_of self.new.lanes lane side ≡ (if more then closing_end 0 else out_end)) }
        ensures used { used_of self.new.held ≡ used_of self.old.held }
        ensures leaves { LeavesOtherEnds lane side (tray_of self.old) (tray_of self.new) }
        ensures rest { self.new
            ≡ record self.old { held = self.new.held; past = self.new.past; script = self.new.script; lanes = self.new.lanes } }
    {
        self.hold.reserve(1)?;
        self.tape.reserve()?;
        let Some(told) = self.tape.next_drained(lane) else {
            return Err(Halt::Stopped);
        };
        match told {
            Some((number, turn)) => {
                let packet = Packet::new(self.alloc, number, turn)?;
                self.tape.advance();
                lay_free(&mut self.hold, packet);
                Ok(true)
            }
            None => {
                self.tape.advance();
                settle_at(&mut self.lanes, lane, side, EndState::Out);
                Ok(false)
            }
        }
    }
}
