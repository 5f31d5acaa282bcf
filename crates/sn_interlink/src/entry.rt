//! What an end's log says.

use sn_packet::Packet;
use std::collections::LinkedList;

/// One step of an end that its log names. No value of it is made.
///
/// Positions are counted from 0 and never begin again.
pub enum LaneEntry {
    /// The end came up, from this state word.
    Attach(u64),
    /// The end couldn't come up: the state word that was loaded, and the one that was found instead.
    /// Both are equal where the loaded word was down.
    Unattached(u64, u64),
    /// The end went, from this state word.
    Detach(u64),
    /// The closing end set the interlink free.
    Reset,
    /// The receiver saw so many packets.
    Seen(u64),
    /// The transmitter saw room for so many packets.
    Room(u64),
    /// Packets were published, from this position on, each with its turn raised.
    Put(u64, LinkedList<Packet>),
    /// The receiver took packets, from this position on.
    Take(u64, LinkedList<Packet>),
    /// The closing end took packets out, from this position on.
    Drain(u64, LinkedList<Packet>),
}
