//! A seat at work: a context over shared objects.
ghost use Rattle.sn_seat.specs.Trays.{Fits};

use crate::gates::Turnstile;
use crate::gave::Gave;
use crate::seat::Seat;
use crate::shared::Shared;
use sn_app::Halt;
use sn_journal::Entry;
use sn_outside::Gate;
use std::alloc::AllocError;

/// A seat with what it shares and with what is called at its gates.
#[derive(Drop)]
pub struct Live<'a, G: Gate> {
    pub seat: &'a mut Seat,
    pub shared: &'a Shared,
    pub gate: &'a G,
    ghost fits: { Fits seat.now shared.now },
}

impl<'a, G: Gate> Live<'a, G> {
    ghost use Rattle.std.specs.Prelude.{◌≡◌, ◌≢◌, ◌≤◌, ◌<◌, [], All, IfErr, IfNone, IfOk, IfSome, IsOk, IsSome};
    ghost use Rattle.std.specs.Prelude.{None, OnErr, OnOk, length, ℕ};
    ghost use Rattle.sn_core.specs.declared.events.Side.{Side};
    ghost use Rattle.sn_packet.specs.Hold.{at_of};
    ghost use Rattle.sn_packet.specs.Packet.{is_worn};
    ghost use Rattle.sn_app.specs.Answers.{OnTray};
    ghost use Rattle.sn_app.specs.Calls.{LeavesEnds};
    ghost use Rattle.sn_app.specs.Desk.{after_entry, name_of};
    ghost use Rattle.sn_app.specs.Rows.{row_give, row_hear};
    ghost use Rattle.sn_app.specs.World.{packet_at};
    ghost use Rattle.sn_app.specs.declared.end_state.EndState.TheVariants.{Out};
    ghost use Rattle.sn_app.specs.declared.halt.Halt.TheVariants.{OutOfMemory};
    ghost use Rattle.sn_seat.specs.GiveSteps.{gave_entry, given_answer, is_worn_gave, used_after};
    ghost use Rattle.sn_seat.specs.Lives.{live_tray, live_used};
    ghost use Rattle.sn_seat.specs.Notes.{IsPlain};
    ghost use Rattle.sn_seat.specs.Settling.{LeavesFiles, as_halt, gives_back, settles_lanes};
    ghost use Rattle.sn_seat.specs.Tellings.{seat_hold, seat_listener};
    ghost use Rattle.sn_seat.specs.Told.{of_channel};
    ghost use Rattle.sn_seat.specs.Trays.{bond_of};

    /// Adds an entry of the worker's own: a round, a breath, that the journal is at its limit, that the slot is closed, that a
    /// reclamation ended, or that a new life begins.
    ///
    /// # Errors
    /// Want of memory, and nothing changes.
    pub fn note(&mut self, entry: Entry) -> Result<(), AllocError>
        requires { IsPlain entry }
        ensures noted { OnOk result (live_tray self.new ≡ after_entry entry (live_tray self.old)) }
        ensures refused { OnErr result (live_tray self.new ≡ live_tray self.old) }
        ensures used { live_used self.new ≡ live_used self.old }
        ensures lent { self.new.seat.ghost_name ≡ self.old.seat.ghost_name }
        ensures kept { bond_of self.new.seat.now ≡ bond_of self.old.seat.now }
        ensures met { (seat_listener self.new.seat.now).met ≡ (seat_listener self.old.seat.now).met }
        ensures shared { self.new.shared.now ≡ self.old.shared.now }
    {
        self.seat.note(entry)
    }

    /// How many packets are free.
    pub fn frees(&self) -> u64
        ensures { result ≡ length (live_tray self.now).free }
    {
        self.seat.frees()
    }

    /// The least held place that isn't below `from`, also where its packet is free.
    pub fn held(&self, from: u32) -> Option<u32>
        ensures held { IfSome result (λ place. IsSome (at_of (seat_hold self.now.seat.now) place)) }
        ensures from { IfSome result (λ place. from ≤ place) }
        ensures least { IfSome result (λ place.
            (other : ℕ) → from ≤ other → other < place → at_of (seat_hold self.now.seat.now) other ≡ None) }
        ensures none { IfNone result ((other : ℕ) → from ≤ other → at_of (seat_hold self.now.seat.now) other ≡ None) }
    {
        self.seat.held(from)
    }

    /// Hears how many actions are due.
    ///
    /// # Errors
    /// A stop, or want of memory.
    pub fn hear(&mut self) -> Result<u64, Halt>
        ensures reads { OnTray row_hear (live_tray self.old) (live_tray self.new) result }
        ensures heard { IfOk result (λ n. (seat_listener self.old.seat.now).met ≤ n) }
        ensures rising { IfOk result (λ n. All (λ m. m ≤ n) (of_channel (live_tray self.old).log.past)) }
        ensures used { live_used self.new ≡ live_used self.old }
        ensures leaves { LeavesEnds (live_tray self.old) (live_tray self.new) }
        ensures lent { self.new.seat.ghost_name ≡ self.old.seat.ghost_name }
        ensures kept { bond_of self.new.seat.now ≡ bond_of self.old.seat.now }
        ensures met { (seat_listener self.new.seat.now).met ≡ (seat_listener self.old.seat.now).met }
        ensures shared { self.new.shared.now ≡ self.old.shared.now }
    {
        self.seat.hear(self.shared, &Turnstile { gate: self.gate })
    }

    /// Gives the packet at a place to the group. Where the group has no room, or the packet is worn, it stays held at the same
    /// place, and isn't free.
    ///
    /// # Errors
    /// A stop, or want of memory.
    pub fn give(&mut self, place: u32) -> Result<Gave, Halt>
        requires { IsSome (live_used self.old place) }
        ensures reads { OnTray (row_give (name_of (packet_at (live_used self.old) place))) (live_tray self.old)
            (live_tray self.new) (given_answer result) }
        ensures worn { IfOk result (λ gave. is_worn (packet_at (live_used self.old) place) ≡ is_worn_gave gave) }
        ensures used { IfOk result (λ gave. live_used self.new ≡ used_after place gave (live_used self.old)) }
        ensures refused { OnErr result (live_used self.new ≡ live_used self.old) }
        ensures held { (q : ℕ) → q ≢ place
            → at_of (seat_hold self.new.seat.now) q ≡ at_of (seat_hold self.old.seat.now) q }
        ensures leaves { LeavesEnds (live_tray self.old) (live_tray self.new) }
        ensures lent { self.new.seat.ghost_name ≡ self.old.seat.ghost_name }
        ensures kept { bond_of self.new.seat.now ≡ bond_of self.old.seat.now }
        ensures met { (seat_listener self.new.seat.now).met ≡ (seat_listener self.old.seat.now).met }
        ensures shared { self.new.shared.now ≡ self.old.shared.now }
    {
        self.seat
            .give(self.shared, &Turnstile { gate: self.gate }, place)
    }

    /// No packet is free any more, and all stay held. Nothing is under way at the group between two calls.
    ///
    /// # Errors
    /// None yet.
    pub fn settle(&mut self) -> Result<(), Halt>
        ensures ok { IsOk result }
        ensures tray { live_tray self.new ≡ record (live_tray self.old) { free = [] } }
        ensures used { live_used self.new ≡ at_of (seat_hold self.old.seat.now) }
        ensures lent { self.new.seat.ghost_name ≡ self.old.seat.ghost_name }
        ensures kept { bond_of self.new.seat.now ≡ bond_of self.old.seat.now }
        ensures met { (seat_listener self.new.seat.now).met ≡ (seat_listener self.old.seat.now).met }
        ensures shared { self.new.shared.now ≡ self.old.shared.now }
    {
        self.seat.settle()
    }

    /// Settles each end of the seat: one that is up goes, and one that closes already goes on with its closing. All are out then.
    /// What is drained stays held, and isn't free. No gate stands in it.
    ///
    /// # Errors
    /// Want of memory.
    pub fn settle_lanes(&mut self) -> Result<(), Halt>
        requires none { (live_tray self.old).free ≡ [] }
        ensures reads { OnTray settles_lanes (live_tray self.old) (live_tray self.new) result }
        ensures memory { IfErr result (λ halt. halt ≡ OutOfMemory) }
        ensures out { OnOk result ((lane : ℕ) (side : Side) → ((live_tray self.new).ends lane side).state ≡ Out) }
        ensures none { (live_tray self.new).free ≡ [] }
        ensures used { live_used self.new ≡ at_of (seat_hold self.new.seat.now) }
        ensures leaves { LeavesFiles (live_tray self.old) (live_tray self.new) }
        ensures lent { self.new.seat.ghost_name ≡ self.old.seat.ghost_name }
        ensures kept { bond_of self.new.seat.now ≡ bond_of self.old.seat.now }
        ensures met { (seat_listener self.new.seat.now).met ≡ (seat_listener self.old.seat.now).met }
        ensures shared { self.new.shared.now ≡ self.old.shared.now }
    {
        self.seat.settle_lanes(self.shared)
    }

    /// Gives the packet at a place to the group in a reclamation, where no gate stands. Where the group has no room, or the
    /// packet is worn, it stays held at the same place, and isn't free.
    ///
    /// # Errors
    /// Want of memory.
    pub fn give_back(&mut self, place: u32) -> Result<Gave, AllocError>
        requires { IsSome (live_used self.old place) }
        ensures reads { OnTray (gives_back (name_of (packet_at (live_used self.old) place))) (live_tray self.old)
            (live_tray self.new) (given_answer (as_halt result)) }
        ensures noted { IfOk result (λ gave. live_tray self.new
            ≡ after_entry (gave_entry (packet_at (live_used self.old) place) gave) (live_tray self.old)) }
        ensures worn { IfOk result (λ gave. is_worn (packet_at (live_used self.old) place) ≡ is_worn_gave gave) }
        ensures used { IfOk result (λ gave. live_used self.new ≡ used_after place gave (live_used self.old)) }
        ensures refused { OnErr result (live_used self.new ≡ live_used self.old) }
        ensures held { (q : ℕ) → q ≢ place
            → at_of (seat_hold self.new.seat.now) q ≡ at_of (seat_hold self.old.seat.now) q }
        ensures leaves { LeavesEnds (live_tray self.old) (live_tray self.new) }
        ensures lent { self.new.seat.ghost_name ≡ self.old.seat.ghost_name }
        ensures kept { bond_of self.new.seat.now ≡ bond_of self.old.seat.now }
        ensures met { (seat_listener self.new.seat.now).met ≡ (seat_listener self.old.seat.now).met }
        ensures shared { self.new.shared.now ≡ self.old.shared.now }
    {
        self.seat.give_back(self.shared, place)
    }
}
