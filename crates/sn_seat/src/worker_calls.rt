//! What a worker does with its seat beside its apps' calls.
ghost use Rattle.std.specs.Prelude.{◌≡◌, ◌<◌, Some, length, slice_get};

use crate::gates::Before;
use crate::gave::Gave;
use crate::seat::Seat;
use crate::shared::Shared;
use sn_app::Halt;
use sn_channel::{Channel, Speaker};
use sn_journal::Entry;
use std::alloc::AllocError;

/// The channel of this worker.
fn channel_of(shared: &Shared, worker: u32) -> &Channel
    requires { worker < length shared.now.channels.items }
    ensures { slice_get shared.now.channels.items worker ≡ Some result.now }
{
    &shared.channels[worker as usize]
}

impl Seat {
    ghost use Rattle.std.specs.Prelude.{◌≡◌, ◌≢◌, ◌≤◌, ◌<◌, [], All, IfNone, IfOk, IfSome, IsOk, IsSome, List, None};
    ghost use Rattle.std.specs.Prelude.{OnErr, OnOk, Some, length, slice_get, true, ℕ};
    ghost use Rattle.sn_packet.specs.Hold.{at_of};
    ghost use Rattle.sn_packet.specs.Packet.{is_worn};
    ghost use Rattle.sn_app.specs.Answers.{OnTray};
    ghost use Rattle.sn_app.specs.Calls.{LeavesEnds};
    ghost use Rattle.sn_app.specs.Desk.{after_entry, name_of};
    ghost use Rattle.sn_app.specs.Rows.{row_give, row_hear};
    ghost use Rattle.sn_app.specs.World.{packet_at};
    ghost use Rattle.sn_channel.specs.Ends.{IsRising, IsSaid, last_said};
    ghost use Rattle.sn_seat.specs.GiveSteps.{gave_entry, given_answer, is_worn_gave, used_after};
    ghost use Rattle.sn_seat.specs.Fitting.{met_again};
    ghost use Rattle.sn_seat.specs.declared.gave.Gave.TheVariants.{Worn};
    ghost use Rattle.sn_seat.specs.Notes.{IsPlain};
    ghost use Rattle.sn_seat.specs.Settling.{as_halt, gives_back};
    ghost use Rattle.sn_seat.specs.Tellings.{seat_hold, seat_listener};
    ghost use Rattle.sn_seat.specs.Told.{of_channel};
    ghost use Rattle.sn_seat.specs.Trays.{Fits, bond_of, seat_tray, seat_used, tray_in};

    /// Adds an entry that tells of no shared object and of no packet.
    ///
    /// # Errors
    /// Want of memory, and nothing changes.
    pub fn note(&mut self, entry: Entry) -> Result<(), AllocError>
        requires { IsPlain entry }
        ensures noted { OnOk result ((captures : List (List ℕ))
            → seat_tray captures self.new ≡ after_entry entry (seat_tray captures self.old)) }
        ensures refused { OnErr result ((captures : List (List ℕ)) → seat_tray captures self.new ≡ seat_tray captures self.old) }
        ensures used { seat_used self.new ≡ seat_used self.old }
        ensures held { at_of (seat_hold self.new) ≡ at_of (seat_hold self.old) }
        ensures kept { bond_of self.new ≡ bond_of self.old }
    {
        self.ledger.reserve()?;
        self.ledger.note(entry);
        self.gates = 0;
        Ok(())
    }

    /// How many packets are free.
    pub fn frees(&self) -> u64
        ensures { (captures : List (List ℕ)) → result ≡ length (seat_tray captures self.now).free }
    {
        self.ledger.hold.frees()
    }

    /// The least held place that isn't below `from`.
    pub fn held(&self, from: u32) -> Option<u32>
        ensures held { IfSome result (λ place. IsSome (at_of (seat_hold self.now) place)) }
        ensures from { IfSome result (λ place. from ≤ place) }
        ensures least { IfSome result (λ place.
            (other : ℕ) → from ≤ other → other < place → at_of (seat_hold self.now) other ≡ None) }
        ensures none { IfNone result ((other : ℕ) → from ≤ other → at_of (seat_hold self.now) other ≡ None) }
    {
        self.ledger.hold.held_from(from)
    }

    /// Hears how many actions are due.
    ///
    /// # Errors
    /// A stop, or want of memory.
    pub fn hear<G: Before>(&mut self, shared: &Shared, gate: &G) -> Result<u64, Halt>
        requires fits { Fits self.old shared.now }
        ensures reads { OnTray row_hear (tray_in shared.now self.old) (tray_in shared.now self.new) result }
        ensures met { IfOk result (λ n. (seat_listener self.old).met ≤ n) }
        ensures rising { IfOk result (λ n. All (λ m. m ≤ n) (of_channel (tray_in shared.now self.old).log.past)) }
        ensures used { seat_used self.new ≡ seat_used self.old }
        ensures leaves { LeavesEnds (tray_in shared.now self.old) (tray_in shared.now self.new) }
        ensures kept { bond_of self.new ≡ bond_of self.old }
    {
        self.gate(gate)?;
        let due = self.ledger.hear(channel_of(shared, self.worker));
        self.gates = 0;
        Ok(due)
    }

    /// Notes that the packet at a place is worn.
    fn note_worn(&mut self, place: u32) -> Result<(), AllocError>
        requires place { IsSome (seat_used self.old place) }
        ensures noted { OnOk result ((captures : List (List ℕ)) → seat_tray captures self.new
            ≡ after_entry (gave_entry (packet_at (seat_used self.old) place) Worn) (seat_tray captures self.old)) }
        ensures refused { OnErr result ((captures : List (List ℕ)) → seat_tray captures self.new ≡ seat_tray captures self.old) }
        ensures used { seat_used self.new ≡ seat_used self.old }
        ensures held { at_of (seat_hold self.new) ≡ at_of (seat_hold self.old) }
        ensures kept { bond_of self.new ≡ bond_of self.old }
    {
        let packet = self.ledger.hold.packet(place);
        let entry = Entry::Worn(packet.number(), packet.turn());
        self.note(entry)
    }

    /// A worn packet stays held, and that is noted.
    fn keep_worn(&mut self, place: u32) -> Result<Gave, Halt>
        requires place { IsSome (seat_used self.old place) }
        requires worn { is_worn (packet_at (seat_used self.old) place) ≡ true }
        ensures reads { (captures : List (List ℕ)) → OnTray (row_give (name_of (packet_at (seat_used self.old) place)))
            (seat_tray captures self.old) (seat_tray captures self.new) (given_answer result) }
        ensures answer { IfOk result (λ gave. gave ≡ Worn) }
        ensures used { seat_used self.new ≡ seat_used self.old }
        ensures held { at_of (seat_hold self.new) ≡ at_of (seat_hold self.old) }
        ensures leaves { (captures : List (List ℕ)) → LeavesEnds (seat_tray captures self.old) (seat_tray captures self.new) }
        ensures kept { bond_of self.new ≡ bond_of self.old }
    {
        self.note_worn(place)?;
        Ok(Gave::Worn)
    }

    /// Gives the packet at a place to the group. Where the group has no room, or the packet is worn, it stays held at the same
    /// place, and isn't free.
    ///
    /// # Errors
    /// A stop, or want of memory.
    pub fn give<G: Before>(&mut self, shared: &Shared, gate: &G, place: u32) -> Result<Gave, Halt>
        requires fits { Fits self.old shared.now }
        requires place { IsSome (seat_used self.old place) }
        ensures reads { OnTray (row_give (name_of (packet_at (seat_used self.old) place)))
            (tray_in shared.now self.old) (tray_in shared.now self.new) (given_answer result) }
        ensures worn { IfOk result (λ gave. is_worn (packet_at (seat_used self.old) place) ≡ is_worn_gave gave) }
        ensures used { IfOk result (λ gave. seat_used self.new ≡ used_after place gave (seat_used self.old)) }
        ensures refused { OnErr result (seat_used self.new ≡ seat_used self.old) }
        ensures held { (q : ℕ) → q ≢ place → at_of (seat_hold self.new) q ≡ at_of (seat_hold self.old) q }
        ensures leaves { LeavesEnds (tray_in shared.now self.old) (tray_in shared.now self.new) }
        ensures kept { bond_of self.new ≡ bond_of self.old }
    {
        if self.worn(place) {
            return self.keep_worn(place);
        }
        self.room_for_one()?;
        self.gate(gate)?;
        let gave = self.ledger.give(&shared.group, place);
        self.gates = 0;
        Ok(gave)
    }

    /// Gives the packet at a place to the group in a reclamation, where no gate stands. Where the group has no room, or the
    /// packet is worn, it stays held at the same place, and isn't free.
    ///
    /// # Errors
    /// Want of memory.
    pub fn give_back(&mut self, shared: &Shared, place: u32) -> Result<Gave, AllocError>
        requires fits { Fits self.old shared.now }
        requires place { IsSome (seat_used self.old place) }
        ensures reads { OnTray (gives_back (name_of (packet_at (seat_used self.old) place)))
            (tray_in shared.now self.old) (tray_in shared.now self.new) (given_answer (as_halt result)) }
        ensures noted { IfOk result (λ gave. tray_in shared.now self.new
            ≡ after_entry (gave_entry (packet_at (seat_used self.old) place) gave) (tray_in shared.now self.old)) }
        ensures worn { IfOk result (λ gave. is_worn (packet_at (seat_used self.old) place) ≡ is_worn_gave gave) }
        ensures used { IfOk result (λ gave. seat_used self.new ≡ used_after place gave (seat_used self.old)) }
        ensures refused { OnErr result (seat_used self.new ≡ seat_used self.old) }
        ensures held { (q : ℕ) → q ≢ place → at_of (seat_hold self.new) q ≡ at_of (seat_hold self.old) q }
        ensures leaves { LeavesEnds (tray_in shared.now self.old) (tray_in shared.now self.new) }
        ensures kept { bond_of self.new ≡ bond_of self.old }
    {
        if self.worn(place) {
            self.note_worn(place)?;
            return Ok(Gave::Worn);
        }
        self.room_for_packet()?;
        let gave = self.ledger.give(&shared.group, place);
        self.gates = 0;
        Ok(gave)
    }

    /// No packet is free any more, and all stay held. Nothing is under way at the group between two calls.
    ///
    /// # Errors
    /// None yet.
    pub fn settle(&mut self) -> Result<(), Halt>
        ensures ok { IsOk result }
        ensures tray { (captures : List (List ℕ)) → seat_tray captures self.new ≡ record (seat_tray captures self.old)
            { free = [] } }
        ensures used { seat_used self.new ≡ at_of (seat_hold self.old) }
        ensures kept { bond_of self.new ≡ bond_of self.old }
    {
        self.ledger.clear_free();
        Ok(())
    }

    /// The seat's listener meets the speaker of its channel. From now on it hears at least what the speaker has said last.
    pub fn meet(&mut self, shared: &Shared, speaker: &mut Speaker)
        requires fits { Fits self.old shared.now }
        requires speaker { slice_get shared.now.channels.items (bond_of self.old).worker ≡ Some speaker.old.channel }
        ensures met { (seat_listener self.new).met ≡ last_said speaker.old.said }
        ensures among { (captures : List (List ℕ))
            → All (IsSaid speaker.old.said) (of_channel (seat_tray captures self.old).log.past) }
        ensures most { (captures : List (List ℕ))
            → All (λ n. n ≤ last_said speaker.old.said) (of_channel (seat_tray captures self.old).log.past) }
        ensures rises { (captures : List (List ℕ)) → IsRising (of_channel (seat_tray captures self.old).log.past) }
        ensures tray { (captures : List (List ℕ)) → seat_tray captures self.new ≡ seat_tray captures self.old }
        ensures used { seat_used self.new ≡ seat_used self.old }
        ensures speaker { speaker.new ≡ speaker.old }
        ensures kept { bond_of self.new ≡ met_again (last_said speaker.old.said) (bond_of self.old) }
        ensures fits { Fits self.new shared.now }
    {
        let channel = &shared.channels[self.worker as usize];
        self.ledger.meet(channel, speaker);
    }
}
