//! A packet's number and turn as the word of a full cell.

ghost use Rattle.std.specs.Prelude.{◌≡◌, ◌<◌, ◌≤◌, ◌+◌};
ghost use Rattle.sn_packet.specs.Packet.{most_packets, highest_turn};
ghost use Rattle.sn_group.specs.Cells.{full_word, number_in, turn_in};

use sn_packet::MAX_PACKETS;

/// The word of an empty cell.
pub const EMPTY: u64 = 0;

/// The word of a claimed cell.
pub const BUSY: u64 = 1;

/// The least word of a full cell.
pub const FULL: u64 = 2;

/// The word of a cell that is full with a packet of this number and turn.
pub fn full(number: u32, turn: u64) -> u64
    requires number { number < most_packets }
    requires turn { turn ≤ highest_turn }
    ensures { result ≡ full_word number turn }
{
    FULL + turn * MAX_PACKETS as u64 + number as u64
}

/// The number in the word of a full cell.
pub fn number_of(word: u64) -> u32
    requires { 2 ≤ word }
    ensures { result ≡ number_in word }
{
    ((word - FULL) % MAX_PACKETS as u64) as u32
}

/// The turn in the word of a full cell.
pub fn turn_of(word: u64) -> u64
    requires { 2 ≤ word }
    ensures { result ≡ turn_in word }
{
    (word - FULL) / MAX_PACKETS as u64
}
