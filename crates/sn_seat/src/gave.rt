//! What giving a packet back answers.

/// How a packet was given back to the group.
#[derive(Clone, Copy, Debug, PartialEq, Eq)]
pub enum Gave {
    /// It is given, and isn't held any more.
    Done,
    /// The group had no room, and the packet is held at the same place.
    Full,
    /// The packet is at the highest turn, and is held at the same place.
    Worn,
}
