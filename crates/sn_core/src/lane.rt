//! One lane between two seats: its ends, its queue, and what is laid.

ghost use Rattle.std.specs.Prelude.{◌≡◌, ◌-◌, ◌+◌, ◌<◌, ◌≤◌, ◌^◌, length, drop, slice_get, IfOk, IsTrue, IsSome, Some, None, Option, option_to_list, List, [], ◌∷◌};
ghost use Rattle.std.specs.VecDeque.{deque_capacity};
ghost use Rattle.sn_core.specs.declared.parts.Packet.{Packet};
ghost use Rattle.sn_core.specs.Lane.{LaneState, most_laid, free_lane, seat_of, field_of, with_field, is_down, is_up, is_side, is_half_done, first_filled, unreleased, has_next, can_attach, attached, can_detach, detached, can_reset, was_reset, can_take, taken, can_release, released, can_drain, can_drain_release, can_lay, with_laid, lays, has_laid, published_some, taken_back};
ghost use Rattle.sn_core.specs.Core.{has_end, is_in_use};
ghost use Rattle.sn_core.specs.Ownership.{lane_has, place_has};
ghost use Rattle.sn_core.specs.Sound.{QueueIsWhole};

use crate::events::Side;
use crate::parts::{Field, Packet};
use std::alloc::{AllocError, Global};
use std::collections::VecDeque;
use std::marker::Model;

/// The places of a lane's ring.
const PLACES: usize = 1024;

/// The most packets in a queue, laid ones included: one place stays free.
const MOST_QUEUED: u64 = 1023;

/// The most packets that may be laid at once.
const MOST_LAID: usize = 1;

/// The most places that may be emptied and not released.
const MOST_UNRELEASED: usize = 1;

/// A lane, with its queue in a ring of `PLACES` places.
#[derive(Drop)]
pub struct Lane {
    tx_seat: u32,
    rx_seat: u32,
    tx: Field,
    rx: Field,
    put: u64,
    read: u64,
    queue: VecDeque<Option<Packet>>,
    /// How many places in front of the queue are emptied and not released.
    emptied: usize,
    laid: Vec<u32>,
    closes: Option<Side>,
}

impl Model for Lane {
    ghost use Rattle.std.specs.Prelude.{◌≡◌, ◌≤◌};
    ghost use Rattle.std.specs.Vec.{vec_capacity};
    ghost use Rattle.std.specs.VecDeque.{deque_capacity};
    ghost use Rattle.sn_core.specs.Lane.{LaneState, unreleased};

    ghost Value = { LaneState };

    ghost view = { λ lane. record {
      tx_seat = lane.tx_seat;
      rx_seat = lane.rx_seat;
      tx = lane.tx;
      rx = lane.rx;
      put = lane.put;
      read = lane.read;
      queue = lane.queue.items;
      laid = lane.laid.items;
      closes = lane.closes;
    } };

    ghost invariant = { λ lane. (1024 ≤ deque_capacity lane.queue) × (1 ≤ vec_capacity lane.laid)
        × (lane.emptied ≡ unreleased lane.queue.items) };
}

impl Lane {
    /// A lane that nobody has used. It has all the memory that it will need.
    pub fn new(alloc: Global, tx_seat: u32, rx_seat: u32) -> Result<Lane, AllocError>
        ensures { IfOk result (λ lane. lane ≡ free_lane tx_seat rx_seat) }
    {
        Ok(Lane {
            tx_seat,
            rx_seat,
            tx: Field::Absent,
            rx: Field::Absent,
            put: 0,
            read: 0,
            queue: VecDeque::with_capacity(alloc, PLACES)?,
            emptied: 0,
            laid: Vec::with_capacity(alloc, MOST_LAID)?,
            closes: None,
        })
    }

    pub fn seat(&self, side: Side) -> u32
        ensures { result ≡ seat_of side self.now }
    {
        match side {
            Side::Tx => self.tx_seat,
            Side::Rx => self.rx_seat,
        }
    }

    pub fn field(&self, side: Side) -> Field
        ensures { result ≡ field_of side self.now }
    {
        match side {
            Side::Tx => self.tx,
            Side::Rx => self.rx,
        }
    }

    fn set_field(&mut self, side: Side, field: Field)
        ensures { self.new ≡ with_field side field self.old }
    {
        match side {
            Side::Tx => self.tx = field,
            Side::Rx => self.rx = field,
        }
    }

    fn is_down(&self) -> bool
        ensures { result ≡ is_down self.now }
    {
        match (self.tx, self.rx) {
            (Field::Absent, Field::Absent) => false,
            (Field::Up, _) => false,
            (_, Field::Up) => false,
            _ => true,
        }
    }

    /// Whether the end closes the lane.
    pub fn is_closed_by(&self, side: Side) -> bool
        ensures { result ≡ is_side side self.now.closes }
    {
        self.closes == Some(side)
    }

    pub fn can_attach(&self, side: Side) -> bool
        ensures { result ≡ can_attach side self.now }
    {
        self.field(side) != Field::Up && !self.is_down()
    }

    pub fn attach(&mut self, side: Side)
        ensures { self.new ≡ attached side self.old }
    {
        self.set_field(side, Field::Up);
    }

    fn is_half_done(&self, side: Side) -> bool
        ensures { result ≡ is_half_done side self.now }
    {
        match side {
            Side::Tx => self.has_laid(),
            Side::Rx => self.emptied > 0,
        }
    }

    pub fn can_detach(&self, side: Side) -> bool
        ensures { result ≡ can_detach side self.now }
    {
        self.field(side) == Field::Up && !self.is_half_done(side)
    }

    pub fn detach(&mut self, side: Side)
        ensures { self.new ≡ detached side self.old }
    {
        self.set_field(side, Field::Gone);
        if self.is_down() {
            self.closes = Some(side);
        }
    }

    pub fn can_reset(&self, side: Side) -> bool
        ensures { result ≡ can_reset side self.now }
    {
        self.is_closed_by(side) && self.queue.is_empty() && self.laid.is_empty()
    }

    pub fn reset(&mut self)
        ensures { self.new ≡ was_reset self.old }
    {
        self.tx = Field::Absent;
        self.rx = Field::Absent;
        self.closes = None;
    }

    /// The packet in the first filled place.
    pub fn first(&self) -> Option<Packet>
        ensures { result ≡ first_filled self.now.queue }
    {
        match self.queue.get(self.emptied) {
            Some(place) => *place,
            None => None,
        }
    }

    /// Whether a packet is there to take, and fewer than so many places are emptied.
    fn has_next(&self, most: usize) -> bool
        ensures { result ≡ has_next most self.now }
    {
        self.emptied < most && self.first().is_some()
    }

    /// Whether the packet of this number stands in the queue.
    pub fn has(&self, number: u32) -> bool
        ensures { result ≡ lane_has number self.now }
    {
        self.queue.iter().any(|place| place_has(place, number))
    }

    pub fn can_take(&self) -> bool
        ensures { result ≡ can_take self.now }
    {
        self.rx == Field::Up && self.has_next(MOST_UNRELEASED)
    }

    pub fn can_drain(&self, side: Side) -> bool
        ensures { result ≡ can_drain side self.now }
    {
        self.is_closed_by(side) && self.has_next(1)
    }

    /// Empties the first filled place.
    pub fn take(&mut self)
        requires whole { QueueIsWhole self.old }
        requires first { IsSome (first_filled self.old.queue) }
        ensures { self.new ≡ taken self.old }
    {
        self.queue[self.emptied] = None;
        self.emptied += 1;
    }

    pub fn can_release(&self) -> bool
        ensures { result ≡ can_release self.now }
    {
        self.rx == Field::Up && self.emptied > 0
    }

    pub fn can_drain_release(&self, side: Side) -> bool
        ensures { result ≡ can_drain_release side self.now }
    {
        self.is_closed_by(side) && self.emptied > 0
    }

    /// Gives all emptied places back.
    pub fn release(&mut self)
        requires whole { QueueIsWhole self.old }
        requires read { self.old.read + unreleased self.old.queue < 2 ^ 64 }
        ensures { self.new ≡ released self.old }
    {
        self.read += self.emptied as u64;
        drop_places(&mut self.queue, self.emptied);
        self.emptied = 0;
    }

    pub fn can_lay(&self) -> bool
        requires read { self.now.read ≤ self.now.put }
        requires put { self.now.put < 2 ^ 62 }
        ensures { result ≡ can_lay self.now }
    {
        self.tx == Field::Up
            && self.laid.len() < MOST_LAID
            && self.put + self.laid.len() as u64 - self.read < MOST_QUEUED
    }

    /// Lays one packet more.
    pub fn lay(&mut self, number: u32)
        requires { length self.old.laid < most_laid }
        ensures { self.new ≡ with_laid number self.old }
    {
        self.laid.push_reserved(number);
    }

    /// Whether this packet is laid here.
    pub fn lays(&self, number: u32) -> bool
        ensures { result ≡ lays number self.now }
    {
        self.laid.iter().any(|other| *other == number)
    }

    /// Whether something is laid.
    pub fn has_laid(&self) -> bool
        ensures { result ≡ has_laid self.now }
    {
        !self.laid.is_empty()
    }

    /// Takes the packet back that was laid last.
    pub fn take_back(&mut self)
        ensures { self.new ≡ taken_back self.old }
    {
        let _ = self.laid.pop();
    }

    /// The packet that was laid first.
    pub fn first_laid(&self) -> Option<u32>
        ensures { result ≡ slice_get self.now.laid 0 }
    {
        self.laid.first().copied()
    }

    /// How many packets are laid.
    pub fn laid_len(&self) -> usize
        ensures { result ≡ length self.now.laid }
    {
        self.laid.len()
    }

    /// The packet that was laid first joins the queue, and the rest stays laid.
    pub fn publish_first(&mut self, packet: Packet)
        requires room { length self.old.queue < 1024 }
        requires put { self.old.put + 1 < 2 ^ 64 }
        requires laid { 0 < length self.old.laid }
        ensures { self.new ≡ published_some (packet ∷ []) (drop 1 self.old.laid) self.old }
    {
        self.queue.push_back_reserved(Some(packet));
        self.put += 1;
        let _ = self.laid.remove(0);
    }

    /// Whether an end of this lane is the seat's, and is up or closes.
    pub fn is_in_use(&self, seat: u32) -> bool
        ensures { result ≡ is_in_use seat self.now }
    {
        self.has_end(seat, Side::Tx) || self.has_end(seat, Side::Rx)
    }

    fn has_end(&self, seat: u32, side: Side) -> bool
        ensures { result ≡ has_end seat side self.now }
    {
        self.seat(side) == seat && (self.field(side) == Field::Up || self.is_closed_by(side))
    }
}

/// Drops so many places in front.
fn drop_places(queue: &mut VecDeque<Option<Packet>>, count: usize)
    ensures places { queue.new.items ≡ drop count queue.old.items }
    ensures capacity { deque_capacity queue.new ≡ deque_capacity queue.old }
{
    for _place in 0..count {
        let _ = queue.pop_front();
    }
}

/// Whether the place has the packet of this number.
fn place_has(place: &Option<Packet>, number: u32) -> bool
    ensures { result ≡ place_has number place.now }
{
    match place {
        Some(packet) => packet.number == number,
        None => false,
    }
}
