//! The packets that are handed over, and what they must be then.

ghost use Rattle.std.specs.Prelude.{◌≤◌};

use sn_packet::{Hold, Packet};
use std::alloc::{AllocError, Global};

/// The bytes of a packet.
const BYTES: usize = 60;

/// The bytes that the packet of this number has.
fn bytes_of(number: u32) -> [u8; 60] {
    [(number % 251) as u8; BYTES]
}

/// So many packets at turn 0, numbered from 0.
pub fn make_packets(alloc: Global, pool: u32) -> Result<Vec<Packet>, AllocError>
    requires { pool ≤ 16384 }
{
    let mut hold = Hold::new(alloc, 1)?;
    let mut packets = Vec::with_capacity(alloc, pool as usize)?;
    for number in 0..pool {
        hold.reserve(1)?;
        let place = hold.lay(Packet::new(alloc, number, 0)?);
        hold.fill(place, &bytes_of(number));
        packets.push(hold.lift(place))?;
    }
    Ok(packets)
}

/// Whether these are all packets of the pool, each handed over so often and with its bytes.
pub fn all_came(packets: &Vec<Packet>, pool: u32, turns: u32) -> bool {
    if packets.len() != pool as usize {
        return false;
    }
    for packet in packets {
        if packet.turn() != turns as u64 || packet.bytes() != bytes_of(packet.number()).as_slice() {
            return false;
        }
    }
    true
}
