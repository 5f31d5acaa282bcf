//! How an end of an interlink goes, and how the closing end empties the interlink.
use crate::gates::Before;
use crate::ledger_ends::state_at;
use crate::seat::Seat;
use crate::seat_lanes::link_of;
use crate::shared::Shared;
use sn_app::Halt;
use sn_core::Side;
use sn_interlink::{Detached, EndState};
use std::alloc::AllocError;

impl Seat {
    ghost use Rattle.std.specs.Prelude.{◌≡◌, ◌<◌, ◌≤◌, ◌+◌, IfErr, IfOk, IsSome, IsTrue, List, OnOk, false, length, ℕ};
    ghost use Rattle.sn_packet.specs.Hold.{at_of, frees_of};
    ghost use Rattle.sn_app.specs.Answers.{OnTray};
    ghost use Rattle.sn_app.specs.Calls.{LeavesOtherEnds};
    ghost use Rattle.sn_app.specs.Gates.{working};
    ghost use Rattle.sn_app.specs.Reader.{repeated};
    ghost use Rattle.sn_app.specs.Rows.{close_lane, drain_one, row_detach};
    ghost use Rattle.sn_app.specs.declared.end_state.EndState.TheVariants.{Closing, Out, Up};
    ghost use Rattle.sn_app.specs.declared.halt.Halt.TheVariants.{OutOfMemory};
    ghost use Rattle.sn_seat.specs.LaneSteps.{AtEnd, HasEnd, Stands};
    ghost use Rattle.sn_seat.specs.SeatEnds.{reach_in};
    ghost use Rattle.sn_seat.specs.Settling.{leaving, phase_by};
    ghost use Rattle.sn_seat.specs.Trays.{Fits, bond_of, seat_tray, seat_used, tray_in};

    /// Makes room for a packet and for an entry.
    pub(crate) fn room_for_packet(&mut self) -> Result<(), AllocError>
        ensures place { OnOk result (1 ≤ self.new.ledger.hold.room) }
        ensures room { OnOk result (2 ≤ self.new.ledger.journal.room) }
        ensures tray { (captures : List (List ℕ)) → seat_tray captures self.new ≡ seat_tray captures self.old }
        ensures used { seat_used self.new ≡ seat_used self.old }
        ensures held { at_of self.new.ledger.hold ≡ at_of self.old.ledger.hold }
        ensures frees { frees_of self.new.ledger.hold ≡ frees_of self.old.ledger.hold }
        ensures ends { self.new.ledger.ends ≡ self.old.ledger.ends }
        ensures kept { bond_of self.new ≡ bond_of self.old }
    {
        self.ledger.reserve_place()?;
        self.ledger.reserve()
    }

    /// The closing end takes the next packet out, which becomes free, or stays held and not free. False where nothing was left:
    /// the end is out then.
    fn drain(&mut self, shared: &Shared, lane: u32, side: Side, freeing: bool) -> Result<bool, Halt>
        requires fits { Fits self.old shared.now }
        requires end { HasEnd self.old.ledger.ends.items lane side }
        requires closing { Stands self.old.ledger.ends.items lane side Closing }
        requires loaded { AtEnd self.old.ledger.ends.items lane side (λ e. IsSome e.reach) }
        ensures reads { OnTray (drain_one (phase_by freeing) lane side) (tray_in shared.now self.old)
            (tray_in shared.now self.new) result }
        ensures one_more { OnOk result (length self.new.ledger.journal.entries ≡ length self.old.ledger.journal.entries + 1) }
        ensures memory { IfErr result (λ halt. halt ≡ OutOfMemory) }
        ensures closing { IfOk result (λ more. IsTrue more → Stands self.new.ledger.ends.items lane side Closing) }
        ensures out { IfOk result (λ more. (more ≡ false) → Stands self.new.ledger.ends.items lane side Out) }
        ensures loaded { IfOk result (λ more. IsTrue more → AtEnd self.new.ledger.ends.items lane side (λ e. IsSome e.reach)) }
        ensures less { IfOk result (λ more. IsTrue more
            → reach_in self.new.ledger.ends.items lane side < reach_in self.old.ledger.ends.items lane side) }
        ensures used { IsTrue freeing → seat_used self.new ≡ seat_used self.old }
        ensures frees { freeing ≡ false → frees_of self.new.ledger.hold ≡ frees_of self.old.ledger.hold }
        ensures leaves { LeavesOtherEnds lane side (tray_in shared.now self.old) (tray_in shared.now self.new) }
        ensures kept { bond_of self.new ≡ bond_of self.old }
    {
        self.room_for_packet()?;
        match self.ledger.drain(lane, side, link_of(shared, lane)) {
            None => {
                self.gates = 0;
                Ok(false)
            }
            Some(place) => {
                self.gates = 0;
                if !freeing {
                    return Ok(true);
                }
                self.ledger.hold.free(place);
                Ok(true)
            }
        }
    }

    /// The closing end takes all out that is left, and the interlink is free then.
    fn empty(&mut self, shared: &Shared, lane: u32, side: Side, freeing: bool) -> Result<(), Halt>
        requires fits { Fits self.old shared.now }
        requires end { HasEnd self.old.ledger.ends.items lane side }
        requires closing { Stands self.old.ledger.ends.items lane side Closing }
        requires loaded { AtEnd self.old.ledger.ends.items lane side (λ e. IsSome e.reach) }
        ensures reads { OnTray (repeated (drain_one (phase_by freeing) lane side)) (tray_in shared.now self.old)
            (tray_in shared.now self.new) result }
        ensures memory { IfErr result (λ halt. halt ≡ OutOfMemory) }
        ensures out { OnOk result (Stands self.new.ledger.ends.items lane side Out) }
        ensures used { IsTrue freeing → seat_used self.new ≡ seat_used self.old }
        ensures frees { freeing ≡ false → frees_of self.new.ledger.hold ≡ frees_of self.old.ledger.hold }
        ensures leaves { LeavesOtherEnds lane side (tray_in shared.now self.old) (tray_in shared.now self.new) }
        ensures kept { bond_of self.new ≡ bond_of self.old }
    {
        while self.drain(shared, lane, side, freeing)? {}
        Ok(())
    }

    /// The closing end sees how many packets are left, and takes them out.
    pub(crate) fn close(
        &mut self,
        shared: &Shared,
        lane: u32,
        side: Side,
        freeing: bool,
    ) -> Result<(), Halt>
        requires fits { Fits self.old shared.now }
        requires end { HasEnd self.old.ledger.ends.items lane side }
        requires closing { Stands self.old.ledger.ends.items lane side Closing }
        ensures reads { OnTray (close_lane (phase_by freeing) lane side) (tray_in shared.now self.old)
            (tray_in shared.now self.new) result }
        ensures memory { IfErr result (λ halt. halt ≡ OutOfMemory) }
        ensures out { OnOk result (Stands self.new.ledger.ends.items lane side Out) }
        ensures used { IsTrue freeing → seat_used self.new ≡ seat_used self.old }
        ensures frees { freeing ≡ false → frees_of self.new.ledger.hold ≡ frees_of self.old.ledger.hold }
        ensures leaves { LeavesOtherEnds lane side (tray_in shared.now self.old) (tray_in shared.now self.new) }
        ensures kept { bond_of self.new ≡ bond_of self.old }
    {
        self.ledger.reserve()?;
        self.ledger.look_left(lane, side, link_of(shared, lane));
        self.gates = 0;
        self.empty(shared, lane, side, freeing)
    }

    /// An end that is up goes, behind its gate.
    pub(crate) fn leave(
        &mut self,
        shared: &Shared,
        lane: u32,
        side: Side,
        freeing: bool,
    ) -> Result<(), Halt>
        requires fits { Fits self.old shared.now }
        requires end { HasEnd self.old.ledger.ends.items lane side }
        requires up { Stands self.old.ledger.ends.items lane side Up }
        requires room { 2 ≤ self.old.ledger.journal.room }
        ensures reads { OnTray (leaving (phase_by freeing) lane side) (tray_in shared.now self.old)
            (tray_in shared.now self.new) result }
        ensures memory { IfErr result (λ halt. halt ≡ OutOfMemory) }
        ensures out { OnOk result (Stands self.new.ledger.ends.items lane side Out) }
        ensures used { IsTrue freeing → seat_used self.new ≡ seat_used self.old }
        ensures frees { freeing ≡ false → frees_of self.new.ledger.hold ≡ frees_of self.old.ledger.hold }
        ensures leaves { LeavesOtherEnds lane side (tray_in shared.now self.old) (tray_in shared.now self.new) }
        ensures kept { bond_of self.new ≡ bond_of self.old }
    {
        let answer = self.ledger.detach(lane, side, link_of(shared, lane));
        self.gates = 0;
        match answer {
            Detached::Other(_) => Ok(()),
            Detached::Closer(_) => self.close(shared, lane, side, freeing),
        }
    }

    /// Takes down an end that is up.
    fn bring_down<G: Before>(
        &mut self,
        shared: &Shared,
        gate: &G,
        lane: u32,
        side: Side,
    ) -> Result<(), Halt>
        requires fits { Fits self.old shared.now }
        requires end { HasEnd self.old.ledger.ends.items lane side }
        requires up { Stands self.old.ledger.ends.items lane side Up }
        ensures reads { OnTray (row_detach working lane side) (tray_in shared.now self.old) (tray_in shared.now self.new) result }
        ensures out { OnOk result (Stands self.new.ledger.ends.items lane side Out) }
        ensures used { seat_used self.new ≡ seat_used self.old }
        ensures leaves { LeavesOtherEnds lane side (tray_in shared.now self.old) (tray_in shared.now self.new) }
        ensures kept { bond_of self.new ≡ bond_of self.old }
    {
        self.gate(gate)?;
        self.leave(shared, lane, side, true)
    }

    /// Takes an end of an interlink down, if it isn't. The last of both ends empties the interlink and frees its packets.
    ///
    /// An end that closes is left so by a refusal of memory alone, which is answered again.
    pub(crate) fn lane_detach<G: Before>(
        &mut self,
        shared: &Shared,
        gate: &G,
        lane: u32,
        side: Side,
    ) -> Result<(), Halt>
        requires fits { Fits self.old shared.now }
        requires end { HasEnd self.old.ledger.ends.items lane side }
        ensures reads { OnTray (row_detach working lane side) (tray_in shared.now self.old) (tray_in shared.now self.new) result }
        ensures out { OnOk result (Stands self.new.ledger.ends.items lane side Out) }
        ensures used { seat_used self.new ≡ seat_used self.old }
        ensures leaves { LeavesOtherEnds lane side (tray_in shared.now self.old) (tray_in shared.now self.new) }
        ensures kept { bond_of self.new ≡ bond_of self.old }
    {
        match state_at(&self.ledger, lane, side) {
            EndState::Out => Ok(()),
            EndState::Closing => Err(Halt::OutOfMemory),
            EndState::Up => self.bring_down(shared, gate, lane, side),
        }
    }
}
