//! Packets, and the hold that keeps a worker's packets under places.
//!
//! - `buffer`: the bytes of a packet, whose memory is taken once
//! - `packet`: a packet with its number and its turn
//! - `hold`: packets by place, with the free ones
#![tactic(auto)]

mod buffer;
mod hold;
mod packet;

pub use buffer::MAX_PAYLOAD;
pub use hold::Hold;
pub use packet::{MAX_PACKETS, MAX_TURN, Packet};
