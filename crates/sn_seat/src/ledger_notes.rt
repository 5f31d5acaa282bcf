//! What a ledger does at no interlink and with no packet: it makes room, notes entries, and hears.
use crate::ledger::Ledger;
use sn_channel::{Channel, Speaker};
use sn_journal::Entry;
use std::alloc::AllocError;

impl Ledger {
    ghost use Rattle.std.specs.Prelude.{◌≡◌, ◌≤◌, ◌∷◌, ◌++◌, [], All, OnOk};
    ghost use Rattle.sn_channel.specs.Ends.{IsRising, IsSaid, last_said};
    ghost use Rattle.sn_seat.specs.Ledgers.{SameBook, wiring_of};
    ghost use Rattle.sn_seat.specs.Notes.{IsPlain};
    ghost use Rattle.sn_seat.specs.Told.{of_channel};
    ghost use Rattle.sn_journal.specs.declared.entry.Entry.TheVariants.{Hear};

    /// Makes room for one entry, beside the place for Stop.
    pub(crate) fn reserve(&mut self) -> Result<(), AllocError>
        ensures room { OnOk result (2 ≤ self.new.journal.room) }
        ensures same { SameBook self.old self.new }
    {
        self.journal.reserve_more(2)
    }

    /// Makes room for a packet.
    pub(crate) fn reserve_place(&mut self) -> Result<(), AllocError>
        ensures room { OnOk result (1 ≤ self.new.hold.room) }
        ensures rest { self.new.hold ≡ record self.old.hold { room = self.new.hold.room } }
        ensures journal { self.new.journal ≡ self.old.journal }
        ensures ends { self.new.ends ≡ self.old.ends }
        ensures group { self.new.group ≡ self.old.group }
        ensures listener { self.new.listener ≡ self.old.listener }
    {
        self.hold.reserve(1)
    }

    /// Notes an entry that tells of no shared object and of no packet that comes or goes.
    pub(crate) fn note(&mut self, entry: Entry)
        requires room { 2 ≤ self.old.journal.room }
        requires plain { IsPlain entry }
        ensures entries { self.new.journal.entries ≡ self.old.journal.entries ++ entry ∷ [] }
        ensures hold { self.new.hold ≡ self.old.hold }
        ensures ends { self.new.ends ≡ self.old.ends }
        ensures group { self.new.group ≡ self.old.group }
        ensures listener { self.new.listener ≡ self.old.listener }
    {
        self.journal.add(entry);
    }

    /// Hears how many actions are due.
    pub(crate) fn hear(&mut self, channel: &Channel) -> u64
        requires channel { self.old.listener.channel ≡ channel.now }
        requires room { 2 ≤ self.old.journal.room }
        ensures met { self.old.listener.met ≤ result }
        ensures rising { All (λ n. n ≤ result) (of_channel self.old.journal.entries) }
        ensures entries { self.new.journal.entries ≡ self.old.journal.entries ++ Hear result ∷ [] }
        ensures hold { self.new.hold ≡ self.old.hold }
        ensures ends { self.new.ends ≡ self.old.ends }
        ensures wiring { wiring_of self.new ≡ wiring_of self.old }
    {
        let due = self.listener.hear(channel);
        self.journal.add(Entry::Hear(due));
        due
    }

    /// Meets the speaker of the channel.
    pub(crate) fn meet(&mut self, channel: &Channel, speaker: &mut Speaker)
        requires listener { self.old.listener.channel ≡ channel.now }
        requires speaker { speaker.old.channel ≡ channel.now }
        ensures met { self.new.listener.met ≡ last_said speaker.old.said }
        ensures among { All (IsSaid speaker.old.said) (of_channel self.old.journal.entries) }
        ensures most { All (λ n. n ≤ last_said speaker.old.said) (of_channel self.old.journal.entries) }
        ensures rises { IsRising (of_channel self.old.journal.entries) }
        ensures journal { self.new.journal ≡ self.old.journal }
        ensures hold { self.new.hold ≡ self.old.hold }
        ensures ends { self.new.ends ≡ self.old.ends }
        ensures wiring { wiring_of self.new ≡ record (wiring_of self.old) { met = last_said speaker.old.said } }
        ensures speaker { speaker.new ≡ speaker.old }
    {
        self.listener.meet(channel, speaker);
    }
}
