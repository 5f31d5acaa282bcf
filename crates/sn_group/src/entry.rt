//! What a seat's steps say, and what its scans see. No value of these is made: contracts alone read them.

/// What a step of a seat says: a packet by its number and its turn.
pub enum GroupEntry {
    /// The packet was claimed from its cell.
    Got(u32, u64),
    /// A scan found no full cell.
    Dry,
    /// A scan found no empty cell for the packet.
    Full(u32, u64),
    /// The packet was given, with its turn raised.
    Gave(u32, u64),
}

/// What a scan sees of a cell.
pub enum Probe {
    /// The cell, and the word that was loaded there.
    Loaded(u64, u64),
    /// The cell, and an exchange there: the word that it expected, and the word that it found.
    Exchanged(u64, u64, u64),
}
