//! What a ledger does at the ends of its interlinks with state words and positions.
ghost use Rattle.std.specs.Prelude.{◌≡◌, ◌<◌, ◌≤◌, ◌+◌, ◌++◌, IsTrue, length, position};
ghost use Rattle.sn_interlink.specs.Answers.{left_word};
ghost use Rattle.sn_seat.specs.LaneSteps.{Stands, attach_entry, far_entry_of, look_entries};
ghost use Rattle.sn_seat.specs.SeatEnds.{desk_state, has_wire, is_at, wires};
ghost use Rattle.sn_app.specs.Desk.{same_side};
ghost use Rattle.sn_seat.specs.Places.{IsEndAt};

use crate::ledger::Ledger;
use crate::seat_end::SeatEnd;
use sn_core::Side;
use sn_interlink::{Attached, Detached, EndState, Interlink, is_down};
use sn_journal::{Entry, Journal};

fn is_side(side: Side, other: Side) -> bool
    ensures { result ≡ same_side side other }
{
    match (side, other) {
        (Side::Tx, Side::Tx) => true,
        (Side::Rx, Side::Rx) => true,
        _ => false,
    }
}

/// The first place where an interlink's end of this side stands.
pub(crate) fn find_end(ends: &Vec<(u32, SeatEnd)>, number: u32, side: Side) -> Option<usize>
    ensures { result ≡ position (is_at number side) ends.now.items }
{
    ends.iter()
        .position(|end| end.0 == number && is_side(end.1.side(), side))
}

/// The place of an interlink's end of this side.
pub(crate) fn end_place(ends: &Vec<(u32, SeatEnd)>, number: u32, side: Side) -> usize
    requires { IsTrue (has_wire (wires ends.now.items) number side) }
    ensures at { IsEndAt number side ends.now.items result }
    ensures within { result < length ends.now.items }
{
    match find_end(ends, number, side) {
        Some(place) => place,
        None => unreachable!(),
    }
}

/// How the end of an interlink on a side stands.
pub(crate) fn state_at(ledger: &Ledger, number: u32, side: Side) -> EndState
    requires { IsTrue (has_wire (wires ledger.now.ends.items) number side) }
    ensures { Stands ledger.now.ends.items number side (desk_state result) }
{
    let place = end_place(&ledger.ends, number, side);
    ledger.ends[place].1.state()
}

/// Adds what a load of the state word says to a journal.
fn note_look(journal: &mut Journal, number: u32, word: u64)
    requires room { 1 ≤ journal.old.room }
    ensures entries { journal.new.entries ≡ journal.old.entries ++ look_entries number word }
    ensures room { journal.old.room ≤ journal.new.room + 1 }
{
    if is_down(word) {
        journal.add(Entry::Unattached(number, word, word));
    }
}

/// The entry of an attaching.
fn attach_entry_of(number: u32, seen: u64, answer: Attached) -> Entry
    ensures { result ≡ attach_entry number seen answer }
{
    match answer {
        Attached::Up => Entry::Attach(number, seen),
        Attached::Again(found) => Entry::Unattached(number, seen, found),
    }
}

/// The state word that an end left.
fn word_of(answer: Detached) -> u64
    ensures { result ≡ left_word answer }
{
    match answer {
        Detached::Other(word) => word,
        Detached::Closer(word) => word,
    }
}

/// The entry of a load of the far word.
fn far_entry_at(number: u32, side: Side, seen: u32) -> Entry
    ensures { result ≡ far_entry_of number side seen }
{
    match side {
        Side::Tx => Entry::Room(number, seen),
        Side::Rx => Entry::Seen(number, seen),
    }
}

impl Ledger {
    ghost use Rattle.std.specs.Prelude.{◌≡◌, ◌≤◌, ◌∷◌, ◌++◌, [], Some, IsSome, false, true};
    ghost use Rattle.sn_interlink.specs.Answers.{found_in, left_word};
    ghost use Rattle.sn_interlink.specs.Course.{is_down};
    ghost use Rattle.sn_journal.specs.declared.entry.Entry.TheVariants.{Detach};
    ghost use Rattle.sn_seat.specs.LaneSteps.{AtEnd, Differs, FoundAs, HasEnd, LeavesAs, Links, Stands, attach_entry};
    ghost use Rattle.sn_seat.specs.LaneSteps.{attached_ends, far_entry_of};
    ghost use Rattle.sn_seat.specs.LaneSteps.{left_end, look_entries};
    ghost use Rattle.sn_seat.specs.Ledgers.{wiring_of};
    ghost use Rattle.sn_seat.specs.SeatEnds.{ends_in};
    ghost use Rattle.sn_app.specs.Desk.{set_end, with_known};
    ghost use Rattle.sn_app.specs.declared.end_state.EndState.TheVariants.{Closing, Out, Up};

    /// The state word, as one load finds it, for an end that is out.
    pub(crate) fn look_state(&mut self, number: u32, side: Side, link: &Interlink) -> u64
        requires has { HasEnd self.old.ends.items number side }
        requires link { Links self.old.ends.items number link.now }
        requires out { Stands self.old.ends.items number side Out }
        requires room { 2 ≤ self.old.journal.room }
        ensures word { FoundAs side false result }
        ensures saw { AtEnd self.new.ends.items number side (λ e. e.seen ≡ Some result) }
        ensures entries { self.new.journal.entries ≡ self.old.journal.entries ++ look_entries number result }
        ensures hold { self.new.hold ≡ self.old.hold }
        ensures ends { ends_in self.new.ends.items ≡ ends_in self.old.ends.items }
        ensures wiring { wiring_of self.new ≡ wiring_of self.old }
    {
        let place = end_place(&self.ends, number, side);
        let end = &mut self.ends[place];
        let word = end.1.look_state(link);
        note_look(&mut self.journal, number, word);
        word
    }

    /// An end that is out comes up, unless the state word is another than the one that it saw.
    pub(crate) fn attach(
        &mut self,
        number: u32,
        side: Side,
        link: &Interlink,
        seen: u64,
    ) -> Attached
        requires has { HasEnd self.old.ends.items number side }
        requires link { Links self.old.ends.items number link.now }
        requires out { Stands self.old.ends.items number side Out }
        requires seen { AtEnd self.old.ends.items number side (λ e. e.seen ≡ Some seen) }
        requires open_yet { is_down seen ≡ false }
        requires room { 2 ≤ self.old.journal.room }
        ensures word { FoundAs side false (found_in seen result) }
        ensures differs { Differs seen result }
        ensures entries { self.new.journal.entries ≡ self.old.journal.entries ++ attach_entry number seen result ∷ [] }
        ensures hold { self.new.hold ≡ self.old.hold }
        ensures ends { ends_in self.new.ends.items ≡ attached_ends number side result (ends_in self.old.ends.items) }
        ensures wiring { wiring_of self.new ≡ wiring_of self.old }
    {
        let place = end_place(&self.ends, number, side);
        let end = &mut self.ends[place];
        let answer = end.1.attach(link, seen);
        self.journal.add(attach_entry_of(number, seen, answer));
        answer
    }

    /// An end that is up goes.
    pub(crate) fn detach(&mut self, number: u32, side: Side, link: &Interlink) -> Detached
        requires has { HasEnd self.old.ends.items number side }
        requires link { Links self.old.ends.items number link.now }
        requires up { Stands self.old.ends.items number side Up }
        requires room { 2 ≤ self.old.journal.room }
        ensures word { FoundAs side true (left_word result) }
        ensures closer { LeavesAs side result }
        ensures entries { self.new.journal.entries ≡ self.old.journal.entries ++ Detach number (left_word result) ∷ [] }
        ensures hold { self.new.hold ≡ self.old.hold }
        ensures ends { ends_in self.new.ends.items ≡ set_end number side (left_end result) (ends_in self.old.ends.items) }
        ensures wiring { wiring_of self.new ≡ wiring_of self.old }
    {
        let place = end_place(&self.ends, number, side);
        let end = &mut self.ends[place];
        let answer = end.1.detach(link);
        self.journal.add(Entry::Detach(number, word_of(answer)));
        answer
    }

    /// How many places an end that is up sees.
    pub(crate) fn look_far(&mut self, number: u32, side: Side, link: &Interlink) -> u32
        requires has { HasEnd self.old.ends.items number side }
        requires link { Links self.old.ends.items number link.now }
        requires up { Stands self.old.ends.items number side Up }
        requires room { 2 ≤ self.old.journal.room }
        ensures few { result ≤ 1023 }
        ensures entries { self.new.journal.entries ≡ self.old.journal.entries ++ far_entry_of number side result ∷ [] }
        ensures hold { self.new.hold ≡ self.old.hold }
        ensures ends { ends_in self.new.ends.items
            ≡ set_end number side (with_known result (ends_in self.old.ends.items number side)) (ends_in self.old.ends.items) }
        ensures wiring { wiring_of self.new ≡ wiring_of self.old }
    {
        let place = end_place(&self.ends, number, side);
        let end = &mut self.ends[place];
        let seen = end.1.look_far(link);
        self.journal.add(far_entry_at(number, side, seen));
        seen
    }

    /// How many places an end that closes has left.
    pub(crate) fn look_left(&mut self, number: u32, side: Side, link: &Interlink) -> u32
        requires has { HasEnd self.old.ends.items number side }
        requires link { Links self.old.ends.items number link.now }
        requires closing { Stands self.old.ends.items number side Closing }
        requires room { 2 ≤ self.old.journal.room }
        ensures few { result ≤ 1023 }
        ensures loaded { AtEnd self.new.ends.items number side (λ e. IsSome e.reach) }
        ensures entries { self.new.journal.entries ≡ self.old.journal.entries ++ far_entry_of number side result ∷ [] }
        ensures hold { self.new.hold ≡ self.old.hold }
        ensures ends { ends_in self.new.ends.items ≡ ends_in self.old.ends.items }
        ensures wiring { wiring_of self.new ≡ wiring_of self.old }
    {
        let place = end_place(&self.ends, number, side);
        let end = &mut self.ends[place];
        let seen = end.1.look_far(link);
        self.journal.add(far_entry_at(number, side, seen));
        seen
    }
}
