//! How a seat allocates: where no packet is free, it claims some from the group.
use crate::gates::Before;
use crate::seat::Seat;
use crate::shared::Shared;
use sn_app::Halt;
use std::alloc::AllocError;

/// The most packets of one refill.
const MOST_REFILLED: u32 = 64;

impl Seat {
    ghost use Rattle.std.specs.Prelude.{◌≡◌, ◌≢◌, ◌≤◌, IfOk, IfSome, List, Ok, OnOk, Some, ℕ};
    ghost use Rattle.sn_packet.specs.Hold.{at_of};
    ghost use Rattle.sn_app.specs.Answers.{OnTray};
    ghost use Rattle.sn_app.specs.Calls.{IsFresh, LeavesEnds, named};
    ghost use Rattle.sn_app.specs.Rows.{refill, refill_one, refill_where, row_allocate, take_last};
    ghost use Rattle.sn_seat.specs.ClaimReads.{ClaimRead};
    ghost use Rattle.sn_seat.specs.Tellings.{seat_hold};
    ghost use Rattle.sn_seat.specs.Trays.{Fits, bond_of, seat_tray, seat_used, tray_in};

    /// Makes room for a packet that comes.
    pub(crate) fn room_for_one(&mut self) -> Result<(), AllocError>
        ensures room { OnOk result (1 ≤ self.new.ledger.hold.room) }
        ensures tray { (captures : List (List ℕ)) → seat_tray captures self.new ≡ seat_tray captures self.old }
        ensures used { seat_used self.new ≡ seat_used self.old }
        ensures held { at_of (seat_hold self.new) ≡ at_of (seat_hold self.old) }
        ensures ends { self.new.ledger.ends ≡ self.old.ledger.ends }
        ensures kept { bond_of self.new ≡ bond_of self.old }
    {
        self.ledger.reserve_place()
    }

    /// Claims a packet, which becomes free. False where the group had none.
    fn claim_one(&mut self, shared: &Shared) -> bool
        requires fits { Fits self.old shared.now }
        requires place { 1 ≤ self.old.ledger.hold.room }
        requires room { 2 ≤ self.old.ledger.journal.room }
        ensures step { (captures : List (List ℕ)) → ClaimRead (seat_tray captures self.old) result (seat_tray captures self.new) }
        ensures used { seat_used self.new ≡ seat_used self.old }
        ensures kept { bond_of self.new ≡ bond_of self.old }
    {
        match self.ledger.claim(&shared.group) {
            None => {
                self.gates = 0;
                false
            }
            Some(place) => {
                self.ledger.hold.free(place);
                self.gates = 0;
                true
            }
        }
    }

    /// A gate, and then a claim.
    fn claim<G: Before>(&mut self, shared: &Shared, gate: &G) -> Result<bool, Halt>
        requires fits { Fits self.old shared.now }
        ensures reads { OnTray refill_one (tray_in shared.now self.old) (tray_in shared.now self.new) result }
        ensures used { seat_used self.new ≡ seat_used self.old }
        ensures leaves { LeavesEnds (tray_in shared.now self.old) (tray_in shared.now self.new) }
        ensures kept { bond_of self.new ≡ bond_of self.old }
    {
        self.room_for_one()?;
        self.gate(gate)?;
        Ok(self.claim_one(shared))
    }

    /// Claims packets, until the group had none or as many came as one refill claims at most. Whether so many did.
    fn refill<G: Before>(&mut self, shared: &Shared, gate: &G) -> Result<bool, Halt>
        requires fits { Fits self.old shared.now }
        ensures reads { OnTray refill (tray_in shared.now self.old) (tray_in shared.now self.new) result }
        ensures used { seat_used self.new ≡ seat_used self.old }
        ensures leaves { LeavesEnds (tray_in shared.now self.old) (tray_in shared.now self.new) }
        ensures kept { bond_of self.new ≡ bond_of self.old }
    {
        for _turn in 0..MOST_REFILLED {
            if !self.claim(shared, gate)? {
                return Ok(false);
            }
        }
        Ok(true)
    }

    /// Refills where no packet is free.
    fn refill_where_empty<G: Before>(&mut self, shared: &Shared, gate: &G) -> Result<bool, Halt>
        requires fits { Fits self.old shared.now }
        ensures reads { OnTray (refill_where ((tray_in shared.now self.old).free)) (tray_in shared.now self.old)
            (tray_in shared.now self.new) result }
        ensures used { seat_used self.new ≡ seat_used self.old }
        ensures leaves { LeavesEnds (tray_in shared.now self.old) (tray_in shared.now self.new) }
        ensures kept { bond_of self.new ≡ bond_of self.old }
    {
        if self.ledger.hold.frees() > 0 {
            return Ok(true);
        }
        self.refill(shared, gate)
    }

    /// The place of the packet that was freed last, which is no longer free.
    fn take_last(&mut self) -> Option<u32>
        ensures reads { (captures : List (List ℕ)) → OnTray take_last (seat_tray captures self.old) (seat_tray captures self.new)
            (named (seat_used self.new) (Ok result)) }
        ensures fresh { IfSome result (IsFresh (seat_used self.old) (seat_used self.new)) }
        ensures others { (q : ℕ) → result ≢ Some q → seat_used self.new q ≡ seat_used self.old q }
        ensures leaves { (captures : List (List ℕ)) → LeavesEnds (seat_tray captures self.old) (seat_tray captures self.new) }
        ensures kept { bond_of self.new ≡ bond_of self.old }
    {
        self.ledger.hold.take_free()
    }

    /// A free packet at its place. Where there is none, up to 64 are claimed first. None where none came.
    pub(crate) fn allocate<G: Before>(
        &mut self,
        shared: &Shared,
        gate: &G,
    ) -> Result<Option<u32>, Halt>
        requires fits { Fits self.old shared.now }
        ensures reads { OnTray row_allocate (tray_in shared.now self.old) (tray_in shared.now self.new)
            (named (seat_used self.new) result) }
        ensures fresh { IfOk result (λ place. IfSome place (IsFresh (seat_used self.old) (seat_used self.new))) }
        ensures others { (q : ℕ) → result ≢ Ok (Some q) → seat_used self.new q ≡ seat_used self.old q }
        ensures leaves { LeavesEnds (tray_in shared.now self.old) (tray_in shared.now self.new) }
        ensures kept { bond_of self.new ≡ bond_of self.old }
    {
        self.refill_where_empty(shared, gate)?;
        Ok(self.take_last())
    }
}
