//! How packets go from a ledger to the group, and which are free.
use crate::gave::Gave;
use crate::ledger::Ledger;
use sn_group::{GiveClaim, Group};
use sn_journal::Entry;

impl Ledger {
    ghost use Rattle.std.specs.Prelude.{◌≡◌, ◌≢◌, ◌≤◌, ◌∷◌, ◌++◌, [], IsSome, false, ℕ};
    ghost use Rattle.sn_packet.specs.Hold.{at_of, frees_of, used_of};
    ghost use Rattle.sn_packet.specs.Packet.{is_worn};
    ghost use Rattle.sn_app.specs.World.{packet_at};
    ghost use Rattle.sn_seat.specs.GiveSteps.{gave_entry, is_worn_gave, used_after};
    ghost use Rattle.sn_seat.specs.Ledgers.{wiring_of};

    /// Gives the packet at a place to the group, unless that has no room.
    pub(crate) fn give(&mut self, group: &Group, place: u32) -> Gave
        requires group { self.old.group.group ≡ group.now.id }
        requires place { IsSome (used_of self.old.hold place) }
        requires worn { is_worn (packet_at (used_of self.old.hold) place) ≡ false }
        requires spare { 1 ≤ self.old.hold.room }
        requires room { 2 ≤ self.old.journal.room }
        ensures entries { self.new.journal.entries
            ≡ self.old.journal.entries ++ gave_entry (packet_at (used_of self.old.hold) place) result ∷ [] }
        ensures used { used_of self.new.hold ≡ used_after place result (used_of self.old.hold) }
        ensures held { (q : ℕ) → q ≢ place → at_of self.new.hold q ≡ at_of self.old.hold q }
        ensures frees { frees_of self.new.hold ≡ frees_of self.old.hold }
        ensures fresh { is_worn_gave result ≡ false }
        ensures ends { self.new.ends ≡ self.old.ends }
        ensures wiring { wiring_of self.new ≡ wiring_of self.old }
    {
        let packet = self.hold.lift(place);
        let number = packet.number();
        let turn = packet.turn();
        match self.group.give_claim(group, packet) {
            GiveClaim::Claimed => {
                self.group.give_in(group);
                let given = self.group.give_done(group);
                self.journal.add(Entry::Gave(given.0, given.1));
                Gave::Done
            }
            GiveClaim::Full(back) => {
                self.hold.lay(back);
                self.journal.add(Entry::Full(number, turn));
                Gave::Full
            }
        }
    }

    /// No packet is free any more. All stay held.
    pub(crate) fn clear_free(&mut self)
        ensures journal { self.new.journal ≡ self.old.journal }
        ensures hold { self.new.hold ≡ record self.old.hold { free = [] } }
        ensures ends { self.new.ends ≡ self.old.ends }
        ensures wiring { wiring_of self.new ≡ wiring_of self.old }
    {
        self.hold.clear_free();
    }
}
