//! A packet: its number in the pool, its turn, and its bytes.

ghost use Rattle.std.specs.Prelude.{◌≡◌, ◌+◌, ◌-◌, ◌<◌, ◌≤◌, false, [], length, replicate, take, IfOk};
ghost use Rattle.sn_packet.specs.Packet.{with_bytes, most_packets, most_bytes, highest_turn, is_worn};

use crate::buffer::Buffer;
use std::alloc::{AllocError, Global};
use std::marker::Model;
use std::mem;

/// The most packets of a pool. A number below it fits into 14 bits, so that number and turn fit into one word.
pub const MAX_PACKETS: u32 = 16_384;

/// The highest turn of a packet, 2^48 - 1. A packet at this turn is worn, and is handed over no more.
pub const MAX_TURN: u64 = 281_474_976_710_655;

/// A packet. It owns a buffer of `MAX_PAYLOAD` bytes, and goes from owner to owner without a copy.
#[derive(Drop)]
pub struct Packet {
    number: u32,
    turn: u64,
    buffer: Buffer,
}

impl Model for Packet {
    ghost use Rattle.std.specs.Prelude.{◌<◌, ◌≤◌, length};
    ghost use Rattle.sn_packet.specs.Packet.{PacketState, most_packets, highest_turn};

    ghost Value = { PacketState };

    ghost view = { λ p. record { number = p.number; turn = p.turn; bytes = p.buffer } };

    ghost invariant = { λ p. (p.number < most_packets) × (p.turn ≤ highest_turn) };
}

impl Packet {
    /// A packet of no bytes.
    pub fn new(alloc: Global, number: u32, turn: u64) -> Result<Packet, AllocError>
        requires number { number < most_packets }
        requires turn { turn ≤ highest_turn }
        ensures { IfOk result (λ packet. packet ≡ record { number = number; turn = turn; bytes = [] }) }
    {
        Ok(Packet {
            number,
            turn,
            buffer: Buffer::new(alloc)?,
        })
    }

    /// The packet's number in the pool, which never changes.
    pub fn number(&self) -> u32
        ensures value { result ≡ self.now.number }
        ensures most { result < most_packets }
    {
        self.number
    }

    /// How often the packet was handed over.
    pub fn turn(&self) -> u64
        ensures value { result ≡ self.now.turn }
        ensures most { result ≤ highest_turn }
    {
        self.turn
    }

    pub fn bytes(&self) -> &[u8]
        ensures value { result.now ≡ self.now.bytes }
        ensures most { length result.now ≤ most_bytes }
    {
        self.buffer.bytes()
    }

    /// Whether the packet is at the highest turn.
    pub fn worn(&self) -> bool
        ensures { result ≡ is_worn self.now }
    {
        self.turn == MAX_TURN
    }

    /// The packet is handed over once more.
    pub fn up(&mut self)
        requires { is_worn self.old ≡ false }
        ensures { self.new ≡ record self.old { turn = self.old.turn + 1 } }
    {
        self.turn += 1;
    }

    /// The last handing over is taken back.
    pub fn down(&mut self)
        requires { 0 < self.old.turn }
        ensures { self.new ≡ record self.old { turn = self.old.turn - 1 } }
    {
        self.turn -= 1;
    }

    pub(crate) fn zeros(&mut self, len: u32)
        requires { len ≤ most_bytes }
        ensures { self.new ≡ with_bytes (replicate len 0) self.old }
    {
        self.buffer.zeros(len);
    }

    pub(crate) fn fill(&mut self, bytes: &[u8])
        requires { length bytes.now ≤ most_bytes }
        ensures { self.new ≡ with_bytes bytes.now self.old }
    {
        self.buffer.fill(bytes);
    }

    pub(crate) fn cut(&mut self, len: u32)
        ensures { self.new ≡ with_bytes (take len self.old.bytes) self.old }
    {
        self.buffer.cut(len);
    }

    /// The packet and the spare buffer exchange their bytes, of which none moves.
    pub(crate) fn exchange(&mut self, spare: &mut Buffer)
        ensures packet { self.new ≡ with_bytes spare.old self.old }
        ensures spare { spare.new ≡ self.old.bytes }
    {
        mem::swap(&mut self.buffer, spare);
    }
}
