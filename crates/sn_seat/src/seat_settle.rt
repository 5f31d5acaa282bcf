//! How a reclamation settles the ends of a seat's interlinks. No gate stands in it, and what it drains stays held and not free.
ghost use Rattle.std.specs.Prelude.{◌≡◌};
ghost use Rattle.sn_seat.specs.SeatEnds.{desk_state, ends_in};

use crate::ledger::Ledger;
use crate::ledger_ends::find_end;
use crate::seat::Seat;
use crate::shared::Shared;
use sn_app::Halt;
use sn_core::Side;
use sn_interlink::EndState;
use std::alloc::AllocError;

/// How the end of an interlink on a side stands, and that it is out where the worker hasn't got it.
fn state_or_out(ledger: &Ledger, number: u32, side: Side) -> EndState
    ensures { (ends_in ledger.now.ends.items number side).state ≡ desk_state result }
{
    match find_end(&ledger.ends, number, side) {
        None => EndState::Out,
        Some(place) => ledger.ends[place].1.state(),
    }
}

impl Seat {
    ghost use Rattle.std.specs.Prelude.{◌≡◌, ◌<◌, ◌≤◌, [], IfErr, List, OnOk, length, ℕ};
    ghost use Rattle.sn_core.specs.declared.events.Side.{Side};
    ghost use Rattle.sn_packet.specs.Hold.{at_of, frees_of};
    ghost use Rattle.sn_app.specs.Answers.{OnTray};
    ghost use Rattle.sn_app.specs.Calls.{LeavesOtherEnds};
    ghost use Rattle.sn_app.specs.declared.end_state.EndState.TheVariants.{Out};
    ghost use Rattle.sn_app.specs.declared.halt.Halt.TheVariants.{OutOfMemory};
    ghost use Rattle.sn_seat.specs.LaneSteps.{Stands};
    ghost use Rattle.sn_seat.specs.Settling.{LeavesFiles, LeavesOtherLanes, settles_end, settles_from, settles_lane};
    ghost use Rattle.sn_seat.specs.Settling.{settles_lanes};
    ghost use Rattle.sn_seat.specs.Tellings.{seat_hold};
    ghost use Rattle.sn_seat.specs.Trays.{Fits, bond_of, seat_tray, seat_used, tray_in};

    /// Makes room for an entry.
    fn room_for_entry(&mut self) -> Result<(), AllocError>
        ensures room { OnOk result (2 ≤ self.new.ledger.journal.room) }
        ensures tray { (captures : List (List ℕ)) → seat_tray captures self.new ≡ seat_tray captures self.old }
        ensures hold { self.new.ledger.hold ≡ self.old.ledger.hold }
        ensures ends { self.new.ledger.ends ≡ self.old.ledger.ends }
        ensures kept { bond_of self.new ≡ bond_of self.old }
    {
        self.ledger.reserve()
    }

    /// Settles an end: one that is up goes, one that closes already goes on with its closing.
    fn settle_end(&mut self, shared: &Shared, lane: u32, side: Side) -> Result<(), Halt>
        requires fits { Fits self.old shared.now }
        ensures reads { OnTray (settles_end lane side) (tray_in shared.now self.old) (tray_in shared.now self.new) result }
        ensures memory { IfErr result (λ halt. halt ≡ OutOfMemory) }
        ensures out { OnOk result (Stands self.new.ledger.ends.items lane side Out) }
        ensures frees { frees_of self.new.ledger.hold ≡ frees_of self.old.ledger.hold }
        ensures leaves { LeavesOtherEnds lane side (tray_in shared.now self.old) (tray_in shared.now self.new) }
        ensures kept { bond_of self.new ≡ bond_of self.old }
    {
        match state_or_out(&self.ledger, lane, side) {
            EndState::Out => Ok(()),
            EndState::Closing => self.close(shared, lane, side, false),
            EndState::Up => {
                self.room_for_entry()?;
                self.leave(shared, lane, side, false)
            }
        }
    }

    /// Settles both ends of an interlink, where the worker has them.
    fn settle_lane(&mut self, shared: &Shared, lane: u32) -> Result<(), Halt>
        requires fits { Fits self.old shared.now }
        ensures reads { OnTray (settles_lane lane) (tray_in shared.now self.old) (tray_in shared.now self.new) result }
        ensures memory { IfErr result (λ halt. halt ≡ OutOfMemory) }
        ensures out { OnOk result ((side : Side) → Stands self.new.ledger.ends.items lane side Out) }
        ensures frees { frees_of self.new.ledger.hold ≡ frees_of self.old.ledger.hold }
        ensures leaves { LeavesOtherLanes lane (tray_in shared.now self.old) (tray_in shared.now self.new) }
        ensures kept { bond_of self.new ≡ bond_of self.old }
    {
        self.settle_end(shared, lane, Side::Tx)?;
        self.settle_end(shared, lane, Side::Rx)
    }

    /// Settles the ends of the first so many interlinks.
    fn settle_first(&mut self, shared: &Shared, lanes: u32) -> Result<(), Halt>
        requires fits { Fits self.old shared.now }
        ensures reads { OnTray (settles_from lanes 0) (tray_in shared.now self.old) (tray_in shared.now self.new) result }
        ensures memory { IfErr result (λ halt. halt ≡ OutOfMemory) }
        ensures out { OnOk result ((lane : ℕ) (side : Side) → lane < lanes → Stands self.new.ledger.ends.items lane side Out) }
        ensures frees { frees_of self.new.ledger.hold ≡ frees_of self.old.ledger.hold }
        ensures leaves { LeavesFiles (tray_in shared.now self.old) (tray_in shared.now self.new) }
        ensures kept { bond_of self.new ≡ bond_of self.old }
    {
        for lane in 0..lanes {
            self.settle_lane(shared, lane)?;
        }
        Ok(())
    }

    /// How many interlinks the worker knows.
    fn lanes(&self) -> u32
        ensures { result ≡ length self.now.roster.lanes }
    {
        self.roster.lanes.len() as u32
    }

    /// Settles the ends of each interlink: one that is up goes, and one that closes already goes on with its closing. All are out
    /// then. What is drained stays held, and isn't free. No gate stands in it.
    ///
    /// # Errors
    /// Want of memory.
    pub fn settle_lanes(&mut self, shared: &Shared) -> Result<(), Halt>
        requires fits { Fits self.old shared.now }
        requires none { (tray_in shared.now self.old).free ≡ [] }
        ensures reads { OnTray settles_lanes (tray_in shared.now self.old) (tray_in shared.now self.new) result }
        ensures memory { IfErr result (λ halt. halt ≡ OutOfMemory) }
        ensures out { OnOk result ((lane : ℕ) (side : Side) → ((tray_in shared.now self.new).ends lane side).state ≡ Out) }
        ensures none { (tray_in shared.now self.new).free ≡ [] }
        ensures used { seat_used self.new ≡ at_of (seat_hold self.new) }
        ensures leaves { LeavesFiles (tray_in shared.now self.old) (tray_in shared.now self.new) }
        ensures kept { bond_of self.new ≡ bond_of self.old }
    {
        let lanes = self.lanes();
        self.settle_first(shared, lanes)
    }
}
