//! What a line of a journal's text says.

/// An entry, with the number of its payload's bytes in place of the payload.
#[derive(Clone, Copy, Debug, PartialEq, Eq)]
pub enum Line {
    /// A running slot begins the round of this number.
    Round(u32),
    /// The worker heard that so many actions are due.
    Hear(u64),
    /// A breath begins.
    Breath,
    /// An end attached: the interlink, and the state word that was found.
    Attach(u32, u64),
    /// An end couldn't attach: the interlink, the state word that was loaded, and the one that was found.
    Unattached(u32, u64, u64),
    /// An end detached: the interlink, and the old state word.
    Detach(u32, u64),
    /// The closing end set this interlink free.
    Reset(u32),
    /// The receiver saw so many packets: the interlink, and how many.
    Seen(u32, u32),
    /// The transmitter saw room for so many packets: the interlink, and how many.
    Room(u32, u32),
    /// A packet was published: the interlink, the position, the packet, its turn, and how many bytes it has.
    Put(u32, u64, u32, u64, u32),
    /// A packet was taken: the interlink, the position, the packet, its turn, and how many bytes it has.
    Take(u32, u64, u32, u64, u32),
    /// A closing end took a packet out: the interlink, the position, the packet, and its turn.
    Drain(u32, u64, u32, u64),
    /// A packet was claimed from the group: the packet, and its turn.
    Got(u32, u64),
    /// The group had no packet.
    Dry,
    /// A packet was given to the group: the packet, and its turn.
    Gave(u32, u64),
    /// The group had no room for a packet: the packet, and its turn.
    Full(u32, u64),
    /// A packet is at the highest turn, and can't be given: the packet, and its turn.
    Worn(u32, u64),
    /// The journal's cost is at its limit.
    Spent,
    /// A stop was injected.
    Stop,
    /// A running slot is closed.
    Close,
    /// A reclamation ended.
    Reclaimed,
    /// A new life begins.
    Restart,
}
