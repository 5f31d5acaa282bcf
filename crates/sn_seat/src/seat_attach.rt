//! How an end of an interlink comes up.
ghost use Rattle.std.specs.Prelude.{◌≡◌};
ghost use Rattle.sn_seat.specs.AttachReads.{is_come};

use crate::gates::Before;
use crate::ledger_ends::state_at;
use crate::seat::Seat;
use crate::seat_lanes::link_of;
use crate::shared::Shared;
use sn_app::Halt;
use sn_core::Side;
use sn_interlink::{Attached, EndState, is_down};

/// Whether an attaching brought the end up.
fn came_up(answer: Attached) -> bool
    ensures { result ≡ is_come answer }
{
    match answer {
        Attached::Up => true,
        Attached::Again(_) => false,
    }
}

impl Seat {
    ghost use Rattle.std.specs.Prelude.{◌≡◌, ◌≤◌, IfOk, IsTrue, Some, false};
    ghost use Rattle.sn_interlink.specs.Course.{is_down};
    ghost use Rattle.sn_app.specs.Answers.{OnTray};
    ghost use Rattle.sn_app.specs.Calls.{IsUp, LeavesOtherEnds};
    ghost use Rattle.sn_app.specs.Rows.{row_attach};
    ghost use Rattle.sn_app.specs.declared.end_state.EndState.TheVariants.{Out};
    ghost use Rattle.sn_seat.specs.AttachReads.{NotesOther, row_looked, row_try};
    ghost use Rattle.sn_seat.specs.LaneSteps.{AtEnd, FoundAs, HasEnd, Stands};
    ghost use Rattle.sn_seat.specs.Trays.{Fits, bond_of, seat_used, tray_in};

    /// A gate, and then an end that is out comes up, unless the state word is another than the one that it saw. That one
    /// wasn't down.
    fn try_up<G: Before>(
        &mut self,
        shared: &Shared,
        gate: &G,
        lane: u32,
        side: Side,
        seen: u64,
    ) -> Result<bool, Halt>
        requires fits { Fits self.old shared.now }
        requires end { HasEnd self.old.ledger.ends.items lane side }
        requires out { Stands self.old.ledger.ends.items lane side Out }
        requires saw { AtEnd self.old.ledger.ends.items lane side (λ e. e.seen ≡ Some seen) }
        requires word { FoundAs side false seen }
        requires open_yet { is_down seen ≡ false }
        ensures reads { OnTray (row_try lane side) (tray_in shared.now self.old) (tray_in shared.now self.new) result }
        ensures notes { NotesOther lane self.old.ledger.journal.entries result self.new.ledger.journal.entries }
        ensures up { IfOk result (λ up. IsTrue up → IsUp lane side (tray_in shared.now self.new)) }
        ensures used { seat_used self.new ≡ seat_used self.old }
        ensures leaves { LeavesOtherEnds lane side (tray_in shared.now self.old) (tray_in shared.now self.new) }
        ensures kept { bond_of self.new ≡ bond_of self.old }
    {
        self.gate(gate)?;
        let answer = self.ledger.attach(lane, side, link_of(shared, lane), seen);
        self.gates = 0;
        Ok(came_up(answer))
    }

    /// Looks at the state word, for an end that is out, and tries to come up where the interlink isn't down.
    fn look_and_try<G: Before>(
        &mut self,
        shared: &Shared,
        gate: &G,
        lane: u32,
        side: Side,
    ) -> Result<bool, Halt>
        requires fits { Fits self.old shared.now }
        requires end { HasEnd self.old.ledger.ends.items lane side }
        requires out { Stands self.old.ledger.ends.items lane side Out }
        requires room { 2 ≤ self.old.ledger.journal.room }
        ensures reads { OnTray (row_looked lane side) (tray_in shared.now self.old) (tray_in shared.now self.new) result }
        ensures up { IfOk result (λ up. IsTrue up → IsUp lane side (tray_in shared.now self.new)) }
        ensures used { seat_used self.new ≡ seat_used self.old }
        ensures leaves { LeavesOtherEnds lane side (tray_in shared.now self.old) (tray_in shared.now self.new) }
        ensures kept { bond_of self.new ≡ bond_of self.old }
    {
        let seen = self.ledger.look_state(lane, side, link_of(shared, lane));
        if is_down(seen) {
            self.gates = 0;
            return Ok(false);
        }
        self.try_up(shared, gate, lane, side, seen)
    }

    /// Brings up an end that is out.
    fn bring_up<G: Before>(
        &mut self,
        shared: &Shared,
        gate: &G,
        lane: u32,
        side: Side,
    ) -> Result<bool, Halt>
        requires fits { Fits self.old shared.now }
        requires end { HasEnd self.old.ledger.ends.items lane side }
        requires out { Stands self.old.ledger.ends.items lane side Out }
        ensures reads { OnTray (row_attach lane side) (tray_in shared.now self.old) (tray_in shared.now self.new) result }
        ensures up { IfOk result (λ up. IsTrue up → IsUp lane side (tray_in shared.now self.new)) }
        ensures used { seat_used self.new ≡ seat_used self.old }
        ensures leaves { LeavesOtherEnds lane side (tray_in shared.now self.old) (tray_in shared.now self.new) }
        ensures kept { bond_of self.new ≡ bond_of self.old }
    {
        self.gate(gate)?;
        self.look_and_try(shared, gate, lane, side)
    }

    /// Brings an end of an interlink up, if it isn't. False where the interlink was down, or its state had changed meanwhile.
    ///
    /// An end that closes is left so by a refusal of memory alone, which is answered again.
    pub(crate) fn lane_attach<G: Before>(
        &mut self,
        shared: &Shared,
        gate: &G,
        lane: u32,
        side: Side,
    ) -> Result<bool, Halt>
        requires fits { Fits self.old shared.now }
        requires end { HasEnd self.old.ledger.ends.items lane side }
        ensures reads { OnTray (row_attach lane side) (tray_in shared.now self.old) (tray_in shared.now self.new) result }
        ensures up { IfOk result (λ up. IsTrue up → IsUp lane side (tray_in shared.now self.new)) }
        ensures used { seat_used self.new ≡ seat_used self.old }
        ensures leaves { LeavesOtherEnds lane side (tray_in shared.now self.old) (tray_in shared.now self.new) }
        ensures kept { bond_of self.new ≡ bond_of self.old }
    {
        match state_at(&self.ledger, lane, side) {
            EndState::Up => Ok(true),
            EndState::Closing => Err(Halt::OutOfMemory),
            EndState::Out => self.bring_up(shared, gate, lane, side),
        }
    }
}
