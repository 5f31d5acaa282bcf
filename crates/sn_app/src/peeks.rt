//! What an entry tells a call that may read it.
ghost use Rattle.std.specs.Prelude.{◌≡◌, ◌<◌, ◌≤◌, IfSome, is_some, length, option_map};
ghost use Rattle.sn_packet.specs.Packet.{highest_turn, most_bytes, most_packets};
ghost use Rattle.sn_app.specs.Rows.{a_detach, a_far, a_put, a_room, a_seen, a_take};
ghost use Rattle.sn_app.specs.Rows.{attach_or_not, drain_or_reset_of, is_down_entry, packet_of};
ghost use Rattle.sn_app.specs.Words.{field_in, is_closer, is_down, is_held_by, is_open_to, is_word};

use sn_core::Side;
use sn_journal::Entry;
use sn_link::MAX_QUEUED;
use sn_packet::{MAX_PACKETS, MAX_TURN, Packet};

/// The field of an end in a state word.
fn field_of(side: Side, word: u64) -> u64
    ensures { result ≡ field_in side word }
{
    match side {
        Side::Tx => word / 4,
        Side::Rx => word % 4,
    }
}

/// Whether both fields are 0, 1 or 2.
fn has_fields(word: u64) -> bool
    ensures { result ≡ is_word word }
{
    word / 4 < 3 && word % 4 < 3
}

/// Whether no end is up, and one is gone.
fn both_down(word: u64) -> bool
    ensures { result ≡ is_down word }
{
    has_fields(word) && word != 0 && word / 4 != 1 && word % 4 != 1
}

/// Whether an end may attach from this word.
fn is_open(side: Side, word: u64) -> bool
    ensures { result ≡ is_open_to side word }
{
    has_fields(word) && !both_down(word) && field_of(side, word) != 1
}

/// Whether an end may detach from this word.
fn is_held(side: Side, word: u64) -> bool
    ensures { result ≡ is_held_by side word }
{
    has_fields(word) && field_of(side, word) == 1
}

/// Whether an end that detaches from this word closes the interlink.
fn closes(side: Side, word: u64) -> bool
    ensures { result ≡ is_closer side word }
{
    match side {
        Side::Tx => field_of(Side::Rx, word) != 1,
        Side::Rx => field_of(Side::Tx, word) != 1,
    }
}

/// How many packets the receiver of an interlink saw.
pub(crate) fn seen_in(entry: &Entry, lane: u32) -> Option<u32>
    ensures { result ≡ a_seen lane entry.now }
{
    match entry {
        Entry::Seen(l, n) => {
            if *l == lane && *n <= MAX_QUEUED {
                Some(*n)
            } else {
                None
            }
        }
        _ => None,
    }
}

/// For how many packets the transmitter of an interlink saw room.
pub(crate) fn room_in(entry: &Entry, lane: u32) -> Option<u32>
    ensures { result ≡ a_room lane entry.now }
{
    match entry {
        Entry::Room(l, n) => {
            if *l == lane && *n <= MAX_QUEUED {
                Some(*n)
            } else {
                None
            }
        }
        _ => None,
    }
}

/// The packet that the receiver of an interlink took: its number, its turn and its bytes.
pub(crate) fn take_in<'a>(entry: &'a Entry, lane: u32) -> Option<(u32, u64, &'a [u8])>
    ensures packet { option_map (λ told. packet_of told.0 told.1 told.2.now) result ≡ a_take lane entry.now }
    ensures number { IfSome result (λ told. told.0 < most_packets) }
    ensures turn { IfSome result (λ told. told.1 ≤ highest_turn) }
    ensures bytes { IfSome result (λ told. length told.2.now ≤ most_bytes) }
{
    match entry {
        Entry::Take(l, _, number, turn, bytes) => {
            if *l == lane && *number < MAX_PACKETS && *turn <= MAX_TURN {
                Some((*number, *turn, bytes.bytes()))
            } else {
                None
            }
        }
        _ => None,
    }
}

/// Whether this packet was put into an interlink, with its turn raised.
pub(crate) fn put_in(entry: &Entry, lane: u32, packet: &Packet) -> bool
    ensures { result ≡ is_some (a_put lane packet.now entry.now) }
{
    match entry {
        Entry::Put(l, _, number, turn, bytes) => {
            *l == lane
                && *number == packet.number()
                && *turn == packet.turn() + 1
                && bytes.bytes() == packet.bytes()
        }
        _ => false,
    }
}

/// Whether an interlink was down, so that nobody could attach.
pub(crate) fn down_in(entry: &Entry, lane: u32) -> bool
    ensures { result ≡ is_down_entry lane entry.now }
{
    match entry {
        Entry::Unattached(l, loaded, found) => *l == lane
            && *loaded == *found
            && both_down(*loaded),
        _ => false,
    }
}

/// Whether an end of an interlink came up, or its state word had changed meanwhile.
pub(crate) fn attach_in(entry: &Entry, lane: u32, side: Side) -> Option<bool>
    ensures { result ≡ attach_or_not lane side entry.now }
{
    match entry {
        Entry::Attach(l, found) => {
            if *l == lane && is_open(side, *found) {
                Some(true)
            } else {
                None
            }
        }
        Entry::Unattached(l, loaded, found) => {
            if *l == lane && is_open(side, *loaded) && has_fields(*found) && *loaded != *found {
                Some(false)
            } else {
                None
            }
        }
        _ => None,
    }
}

/// Whether the end of an interlink that detached closes it.
pub(crate) fn detach_in(entry: &Entry, lane: u32, side: Side) -> Option<bool>
    ensures { result ≡ a_detach lane side entry.now }
{
    match entry {
        Entry::Detach(l, old) => {
            if *l == lane && is_held(side, *old) {
                Some(closes(side, *old))
            } else {
                None
            }
        }
        _ => None,
    }
}

/// The far position that a closer loaded.
pub(crate) fn far_in(entry: &Entry, lane: u32, side: Side) -> Option<u32>
    ensures { result ≡ a_far lane side entry.now }
{
    match side {
        Side::Tx => room_in(entry, lane),
        Side::Rx => seen_in(entry, lane),
    }
}

/// What a closer took out: a packet by its number and its turn, or nothing, since the interlink is empty and set free.
pub(crate) fn drain_in(entry: &Entry, lane: u32) -> Option<Option<(u32, u64)>>
    ensures told { result ≡ drain_or_reset_of lane entry.now }
    ensures number { IfSome result (λ told. IfSome told (λ name. name.0 < most_packets)) }
    ensures turn { IfSome result (λ told. IfSome told (λ name. name.1 ≤ highest_turn)) }
{
    match entry {
        Entry::Drain(l, _, number, turn) => {
            if *l == lane && *number < MAX_PACKETS && *turn <= MAX_TURN {
                Some(Some((*number, *turn)))
            } else {
                None
            }
        }
        Entry::Reset(l) => { if *l == lane { Some(None) } else { None } }
        _ => None,
    }
}
