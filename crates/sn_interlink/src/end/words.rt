//! What an end does with the words of an interlink, as plain numbers.
ghost use Rattle.std.specs.Prelude.{◌≡◌, ◌≤◌, ◌+◌, ◌%◌, ◌^◌, false};
ghost use Rattle.sn_interlink.specs.Course.{came_word, is_down, state_after, unit};
ghost use Rattle.sn_interlink.specs.Ends.{if_known, is_tx, synced_left};
ghost use Rattle.sn_interlink.specs.Plays.{room_by};

use crate::interlink::PLACES;
use crate::view::EndState;
use sn_core::Side;

/// The most positions: room ends there.
const POSITIONS: u64 = 1 << 62;

/// What an end adds to the state word as it goes: one to its own field.
pub(super) fn unit_of(side: Side) -> u64
    ensures { result ≡ unit side }
{
    match side {
        Side::Tx => 4,
        Side::Rx => 1,
    }
}

/// The state word with the end up.
pub(super) fn up_word(side: Side, word: u64) -> u64
    requires { is_down word ≡ false }
    ensures { result ≡ came_word side word }
{
    match side {
        Side::Tx => word % 4 + 4,
        Side::Rx => word - word % 4 + 1,
    }
}

/// What an end that goes from this word is then.
pub(super) fn left_state(side: Side, word: u64) -> EndState
    ensures { result ≡ state_after side word }
{
    let other = match side {
        Side::Tx => word % 4,
        Side::Rx => word / 4,
    };
    if other == 1 {
        EndState::Out
    } else {
        EndState::Closing
    }
}

pub(super) fn is_transmitter(side: Side) -> bool
    ensures { result ≡ is_tx side }
{
    match side {
        Side::Tx => true,
        Side::Rx => false,
    }
}

/// Whether an end that is this then still knows its position.
pub(super) fn still_synced(left: EndState, side: Side, synced: bool) -> bool
    ensures { result ≡ synced_left left side synced }
{
    match left {
        EndState::Out => is_transmitter(side),
        EndState::Up => synced,
        EndState::Closing => synced,
    }
}

/// The room at this position, where the other end reads next at `read`.
pub(super) fn room_of(own: u64, read: u64) -> u32
    requires behind { read ≤ own }
    requires near { own ≤ read + 1023 }
    requires below { own ≤ 2 ^ 62 }
    ensures { result ≡ room_by own read }
{
    let free = PLACES as u64 - 1 - (own - read);
    let left = POSITIONS - own;
    if left < free {
        left as u32
    } else {
        free as u32
    }
}

/// The slot of a position.
pub(super) fn slot_of(place: u64) -> usize
    ensures { result ≡ place % 1024 }
{
    (place % PLACES as u64) as usize
}

/// The bound where one is known, else the place.
pub(super) fn known_bound(loaded: bool, bound: u64, place: u64) -> u64
    ensures { result ≡ if_known loaded bound place }
{
    if loaded { bound } else { place }
}
