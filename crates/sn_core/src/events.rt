//! What may happen to the core, what a step answers, and who owns a packet.

/// One end of a lane: its transmitter or its receiver.
#[derive(Clone, Copy, Debug, PartialEq, Eq)]
pub enum Side {
    Tx,
    Rx,
}

/// One atomic step of a worker, as far as it changes who owns a packet, a lane, a cell or a seat.
///
/// Lanes, cells, seats and packets are named by their numbers, and a worker by the number of its seat.
#[derive(Clone, Copy)]
pub enum Event {
    /// A load, which changes nothing.
    Look,
    /// An end comes up.
    Attach { lane: u32, side: Side },
    /// An end goes. It closes the lane where the other end isn't up.
    Detach { lane: u32, side: Side },
    /// The closing end makes the lane free again.
    Reset { lane: u32, side: Side },
    /// The receiver takes the first packet out of its place.
    Take { lane: u32 },
    /// The receiver gives the emptied place back.
    Release { lane: u32 },
    /// The transmitter lays a packet that it holds into the next place.
    Lay { lane: u32, packet: u32 },
    /// The laid packet joins the queue, with its turn raised.
    Publish { lane: u32 },
    /// The transmitter takes the laid packet back.
    TakeBack { lane: u32 },
    /// The closing end takes the first packet out of its place.
    DrainTake { lane: u32, side: Side },
    /// The closing end gives the emptied place back.
    DrainRelease { lane: u32, side: Side },
    /// A seat claims a full cell, and its packet with it.
    TakeClaim { seat: u32, cell: u32 },
    /// The packet of the claimed cell is out.
    TakeOut { seat: u32 },
    /// The claimed cell is empty.
    TakeDone { seat: u32 },
    /// A seat claims an empty cell for a packet that it holds.
    GiveClaim { seat: u32, cell: u32, packet: u32 },
    /// The packet is in the claimed cell.
    GiveIn { seat: u32 },
    /// The claimed cell is full, with the packet's turn raised.
    GiveDone { seat: u32 },
    /// A number is said to a worker.
    Say { worker: u32, n: u64 },
    /// A worker hears the number that was said last.
    Hear { worker: u32 },
    /// A seat's work stops where it stands.
    Stop { seat: u32 },
    /// A seat begins again, with nothing half done.
    Restart { seat: u32 },
}

/// Whether a step was made.
#[derive(Clone, Copy, Debug, PartialEq, Eq)]
pub enum Stepped {
    /// The event was enabled, and the state is the one after it.
    Done,
    /// The event wasn't enabled, and the state is as it was.
    NotEnabled,
}

/// Where a packet stands: in a full cell, in the queue of a lane, or with a seat.
#[derive(Clone, Copy, Debug, PartialEq, Eq)]
pub enum Owner {
    Cell(u32),
    Lane(u32),
    Seat(u32),
}
