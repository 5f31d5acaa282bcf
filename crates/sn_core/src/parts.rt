//! What the core is made of: packets, the fields of a lane, cells and pending transfers.

ghost use Rattle.std.specs.Prelude.{◌≡◌, true};
ghost use Rattle.sn_core.specs.Seat.{takes, out_of};

/// The highest turn of a packet. A packet at this turn is worn, and moves no more.
pub const MAX_TURN: u64 = 281_474_976_710_655;

/// A packet of the pool: its number, and how often it was handed over.
#[derive(Clone, Copy, Debug, PartialEq, Eq)]
pub struct Packet {
    pub number: u32,
    pub turn: u64,
}

/// What a lane's state word says of one end.
#[derive(Clone, Copy, Debug, PartialEq, Eq)]
pub enum Field {
    Absent,
    Up,
    Gone,
}

/// A cell of the shared freelist.
#[derive(Clone, Copy, Debug, PartialEq, Eq)]
pub enum Cell {
    Empty,
    /// Claimed by the seat of this number.
    Busy(u32),
    Full(Packet),
}

/// How far a transfer between a seat and cells has come.
#[derive(Clone, Copy, Debug, PartialEq, Eq)]
pub enum Phase {
    /// Full cells are claimed, and of so many the packet is out.
    Taking { out: u32 },
    /// An empty cell is claimed.
    Giving,
    /// The packet is in.
    GivenIn,
}

impl Phase {
    /// Whether it is a taking.
    pub fn takes(&self) -> bool
        ensures { result ≡ takes (λ out. true) self.now }
    {
        match self {
            Phase::Taking { out: _ } => true,
            Phase::Giving => false,
            Phase::GivenIn => false,
        }
    }

    /// How many packets of a taking are out.
    pub fn out(&self) -> u32
        ensures { result ≡ out_of self.now }
    {
        match self {
            Phase::Taking { out } => *out,
            Phase::Giving => 0,
            Phase::GivenIn => 0,
        }
    }
}

/// A cell that a seat has claimed, and the packet that goes out of it or into it.
#[derive(Clone, Copy, Debug, PartialEq, Eq)]
pub struct Claim {
    pub cell: u32,
    pub packet: u32,
}

/// A transfer of one packet, from its claim until it is done.
#[derive(Clone, Copy, Debug, PartialEq, Eq)]
pub struct Pending {
    pub phase: Phase,
    pub claim: Claim,
}
