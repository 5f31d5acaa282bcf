//! Cells, lanes and seats together, and what the events share.

ghost use Rattle.std.specs.Prelude.{◌≡◌, ◌<◌, ◌≤◌, length, IfOk, IsTrue, is_some, Some, None, slice_get, Bool, true, map, replicate};
ghost use Rattle.sn_core.specs.Core.{Core, opened, opening_cell, may_hand_over, take_first};
ghost use Rattle.sn_core.specs.Seat.{SeatState, idle_seat, is_fresh, turn_of};
ghost use Rattle.std.specs.List.{list_any, range_with_len};
ghost use Rattle.sn_core.specs.Lane.{LaneState, first_filled, lays, free_lane};
ghost use Rattle.sn_core.specs.Invariant.{IsKept};
ghost use Rattle.sn_core.specs.State.{core_of};

use crate::events::Side;
use crate::lane::Lane;
use crate::parts::{Cell, MAX_TURN, Packet};
use crate::seat::Seat;
use std::alloc::{AllocError, Global};

/// The cells of the freelist, the lanes and the seats.
#[derive(Drop)]
pub struct Machine {
    pub cells: Vec<Cell>,
    pub lanes: Vec<Lane>,
    pub seats: Vec<Seat>,
}

impl Machine {
    /// Cell i holds packet i at turn 0, lanes are free, and seats hold nothing.
    pub fn open(
        alloc: Global,
        pool: u32,
        seats: u32,
        lanes: &[(u32, u32)],
    ) -> Result<Machine, AllocError>
        ensures { IfOk result (λ machine. core_of machine ≡ opened pool seats lanes.now) }
    {
        Ok(Machine {
            cells: full_cells(alloc, pool)?,
            lanes: free_lanes(alloc, lanes)?,
            seats: idle_seats(alloc, pool, seats)?,
        })
    }

    /// Whether the seat may hand this packet over: it holds the packet, which isn't worn, and no
    /// lane has it laid.
    pub fn may_hand_over(&self, number: u32, seat: usize) -> bool
        requires { seat < length (core_of self.now).seats }
        ensures { (state : SeatState) → slice_get (core_of self.now).seats seat ≡ Some state →
            result ≡ may_hand_over (core_of self.now) number state }
    {
        self.is_fresh(number, seat) && !self.is_laid(number)
    }

    /// Whether the seat holds the packet, and it isn't worn.
    fn is_fresh(&self, number: u32, seat: usize) -> bool
        requires { seat < length (core_of self.now).seats }
        ensures { (state : SeatState) → slice_get (core_of self.now).seats seat ≡ Some state →
            result ≡ is_fresh (turn_of number state) }
    {
        match self.seats[seat].turn(number) {
            Some(turn) => turn < MAX_TURN,
            None => false,
        }
    }

    /// Whether some lane has this packet laid.
    fn is_laid(&self, number: u32) -> bool
        ensures { result ≡ list_any (lays number) (core_of self.now).lanes }
    {
        self.lanes.iter().any(|lane| lane.lays(number))
    }

    /// Moves the packet in the first filled place of the lane to the seat of that end.
    pub fn move_first(&mut self, lane: usize, side: Side)
        requires kept { IsKept (core_of self.old) }
        requires lane_in { lane < length (core_of self.old).lanes }
        ensures { (test : LaneState → Bool) (state : LaneState) →
            slice_get (core_of self.old).lanes lane ≡ Some state →
            IsTrue (is_some (first_filled state.queue)) → test state ≡ true →
            take_first (core_of self.old) lane side test ≡ Some (core_of self.new) }
    {
        if let Some(packet) = self.lanes[lane].first() {
            let seat = self.lanes[lane].seat(side) as usize;
            self.lanes[lane].take();
            self.seats[seat].insert(packet);
        }
    }
}

/// As many full cells, each with the packet of its own number.
fn full_cells(alloc: Global, pool: u32) -> Result<Vec<Cell>, AllocError>
    ensures { IfOk result (λ cells. cells.items ≡ map opening_cell (range_with_len 0 pool)) }
{
    let mut cells = Vec::with_capacity(alloc, pool as usize)?;
    for number in 0..pool {
        cells.push(Cell::Full(Packet { number, turn: 0 }))?;
    }
    Ok(cells)
}

/// A free lane for each pair of a transmitting and a receiving seat.
fn free_lanes(alloc: Global, lanes: &[(u32, u32)]) -> Result<Vec<Lane>, AllocError>
    ensures { IfOk result (λ free. free.items ≡ map (λ ends. free_lane ends.0 ends.1) lanes.now) }
{
    let mut free = Vec::with_capacity(alloc, lanes.len())?;
    for ends in lanes {
        free.push(Lane::new(alloc, ends.0, ends.1)?)?;
    }
    Ok(free)
}

/// As many seats, which hold nothing of a pool of this size.
fn idle_seats(alloc: Global, pool: u32, seats: u32) -> Result<Vec<Seat>, AllocError>
    ensures { IfOk result (λ idle. idle.items ≡ replicate seats (idle_seat pool)) }
{
    let mut idle = Vec::with_capacity(alloc, seats as usize)?;
    for _seat in 0..seats {
        idle.push(Seat::new(alloc, pool)?)?;
    }
    Ok(idle)
}
