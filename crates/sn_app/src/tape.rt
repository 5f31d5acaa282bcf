//! The entries of a bench: those that it read and added, and those still to be read.
ghost use Rattle.std.specs.Prelude.{◌≡◌, ◌+◌, ◌++◌, ◌<◌, ◌≤◌, ◌∷◌, [], IfNone, IfSome, OnOk, drop, is_some, length, option_map};
ghost use Rattle.sn_app.specs.Bench.{Advanced, first_is, first_of};
ghost use Rattle.sn_app.specs.Rows.{a_detach, a_far, a_put, a_room, a_seen, a_take};
ghost use Rattle.sn_app.specs.Rows.{attach_or_not, drain_or_reset_of, is_down_entry, packet_of};
ghost use Rattle.sn_packet.specs.Packet.{highest_turn, most_bytes, most_packets};

use crate::peeks::{
    attach_in, detach_in, down_in, drain_in, far_in, put_in, room_in, seen_in, take_in,
};
use sn_core::Side;
use sn_journal::{Entry, Journal};
use sn_packet::Packet;
use std::alloc::{AllocError, Global};
use std::collections::VecDeque;
use std::marker::Model;

/// A journal, and the script from which its next entries come.
#[derive(Drop)]
pub(crate) struct Tape {
    journal: Journal,
    script: VecDeque<Entry>,
}

impl Model for Tape {
    ghost use Rattle.sn_app.specs.Bench.{TapeState};

    ghost Value = { TapeState };

    ghost view = { λ t. record {
      past = t.journal.entries;
      room = t.journal.room;
      script = t.script.items;
    } };
}

impl Tape {
    /// A tape on which nothing was read. It takes no memory.
    pub(crate) fn new(alloc: Global, script: Vec<Entry>) -> Tape
        ensures past { result.past ≡ [] }
        ensures script { result.script ≡ script.items }
    {
        Tape {
            journal: Journal::new(alloc),
            script: VecDeque::from_vec(script),
        }
    }

    /// The entries that were read and added.
    pub(crate) fn journal(&self) -> &Journal
        ensures { result.now.entries ≡ self.now.past }
    {
        &self.journal
    }

    /// The journal of these entries.
    pub(crate) fn into_journal(self) -> Journal
        ensures { result.entries ≡ self.past }
    {
        self.journal
    }

    /// Makes room for one entry more.
    pub(crate) fn reserve(&mut self) -> Result<(), AllocError>
        ensures room { OnOk result (1 ≤ self.new.room) }
        ensures past { self.new.past ≡ self.old.past }
        ensures script { self.new.script ≡ self.old.script }
    {
        self.journal.reserve()
    }

    /// The next entry of the script.
    pub(crate) fn next(&self) -> Option<&Entry>
        ensures some { IfSome result (λ entry. self.now.script ≡ entry.now ∷ drop 1 self.now.script) }
        ensures none { IfNone result (self.now.script ≡ []) }
    {
        self.script.front()
    }

    /// How many packets the receiver of an interlink sees next.
    pub(crate) fn next_seen(&self, lane: u32) -> Option<u32>
        ensures { result ≡ first_of (a_seen lane) self.now.script }
    {
        match self.next() {
            Some(entry) => seen_in(entry, lane),
            None => None,
        }
    }

    /// For how many packets the transmitter of an interlink sees room next.
    pub(crate) fn next_room(&self, lane: u32) -> Option<u32>
        ensures { result ≡ first_of (a_room lane) self.now.script }
    {
        match self.next() {
            Some(entry) => room_in(entry, lane),
            None => None,
        }
    }

    /// The packet that the receiver of an interlink takes next: its number, its turn and its bytes.
    pub(crate) fn next_taken(&self, lane: u32) -> Option<(u32, u64, &[u8])>
        ensures packet { option_map (λ told. packet_of told.0 told.1 told.2.now) result ≡ first_of (a_take lane) self.now.script }
        ensures number { IfSome result (λ told. told.0 < most_packets) }
        ensures turn { IfSome result (λ told. told.1 ≤ highest_turn) }
        ensures bytes { IfSome result (λ told. length told.2.now ≤ most_bytes) }
    {
        match self.next() {
            Some(entry) => take_in(entry, lane),
            None => None,
        }
    }

    /// Whether this packet goes into an interlink next.
    pub(crate) fn next_is_put(&self, lane: u32, packet: &Packet) -> bool
        ensures { result ≡ is_some (first_of (a_put lane packet.now) self.now.script) }
    {
        match self.next() {
            Some(entry) => put_in(entry, lane, packet),
            None => false,
        }
    }

    /// Whether an interlink is found down next.
    pub(crate) fn next_is_down(&self, lane: u32) -> bool
        ensures { result ≡ first_is (is_down_entry lane) self.now.script }
    {
        match self.next() {
            Some(entry) => down_in(entry, lane),
            None => false,
        }
    }

    /// Whether an end of an interlink comes up next, or doesn't, since its state word changed.
    pub(crate) fn next_attached(&self, lane: u32, side: Side) -> Option<bool>
        ensures { result ≡ first_of (attach_or_not lane side) self.now.script }
    {
        match self.next() {
            Some(entry) => attach_in(entry, lane, side),
            None => None,
        }
    }

    /// Whether an end of an interlink that detaches next closes it.
    pub(crate) fn next_detached(&self, lane: u32, side: Side) -> Option<bool>
        ensures { result ≡ first_of (a_detach lane side) self.now.script }
    {
        match self.next() {
            Some(entry) => detach_in(entry, lane, side),
            None => None,
        }
    }

    /// The far position that a closer loads next.
    pub(crate) fn next_far(&self, lane: u32, side: Side) -> Option<u32>
        ensures { result ≡ first_of (a_far lane side) self.now.script }
    {
        match self.next() {
            Some(entry) => far_in(entry, lane, side),
            None => None,
        }
    }

    /// What a closer takes out next: a packet by its number and its turn, or nothing more.
    pub(crate) fn next_drained(&self, lane: u32) -> Option<Option<(u32, u64)>>
        ensures told { result ≡ first_of (drain_or_reset_of lane) self.now.script }
        ensures number { IfSome result (λ told. IfSome told (λ name. name.0 < most_packets)) }
        ensures turn { IfSome result (λ told. IfSome told (λ name. name.1 ≤ highest_turn)) }
    {
        match self.next() {
            Some(entry) => drain_in(entry, lane),
            None => None,
        }
    }

    /// The next entry of the script is read: it goes to the journal.
    pub(crate) fn advance(&mut self)
        requires room { 1 ≤ self.old.room }
        requires more { 0 < length self.old.script }
        ensures read { Advanced self.old self.new }
    {
        let Some(entry) = self.script.pop_front() else {
            unreachable!()
        };
        self.journal.add(entry);
    }

    /// An entry that isn't the script's is added.
    pub(crate) fn note(&mut self, entry: Entry)
        requires { 1 ≤ self.old.room }
        ensures past { self.new.past ≡ self.old.past ++ entry ∷ [] }
        ensures script { self.new.script ≡ self.old.script }
    {
        self.journal.add(entry);
    }
}
