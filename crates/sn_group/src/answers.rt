//! What a claim answers, and how far a transfer has come.

use sn_packet::Packet;

/// What a seat gets that asks for a full cell.
#[derive(Clone, Copy, Debug, PartialEq, Eq)]
pub enum TakeClaim {
    /// The cell is claimed. It has the packet of this number and turn.
    Claimed { number: u32, turn: u64 },
    /// No cell could be claimed.
    Dry,
}

/// What a seat gets that asks for an empty cell.
#[derive(Drop)]
pub enum GiveClaim {
    /// The cell is claimed, and the seat has the packet until `give_in`.
    Claimed,
    /// No cell could be claimed. The packet comes back.
    Full(Packet),
}

/// How far a seat's transfer with a cell has come.
#[derive(Clone, Copy, Debug, PartialEq, Eq)]
pub enum Pending {
    /// Nothing is under way.
    Nothing,
    /// A full cell is claimed.
    Taking,
    /// The packet is out.
    TakenOut,
    /// An empty cell is claimed.
    Giving,
    /// The packet is in.
    GivenIn,
}
