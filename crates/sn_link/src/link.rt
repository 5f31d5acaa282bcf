//! A link between two ports.

ghost use Rattle.std.specs.Prelude.{◌≡◌, ◌+◌, ◌≤◌, length, IfOk};
ghost use Rattle.sn_link.specs.Link.{most_queued, new_line, transmitted, handed_back, received, front_of};

use crate::counts::LinkCounts;
use std::alloc::{AllocError, Global};
use std::collections::VecDeque;
use std::marker::Model;

/// The most packets of a link, as in Snabb, whose ring of 1,024 keeps one place empty.
pub const MAX_QUEUED: u32 = 1_023;

/// A queue of at most `MAX_QUEUED` packets, by their places in a hold. The queue's array is taken when the link is made.
#[derive(Drop)]
pub struct Link {
    row: u32,
    // The place of each packet, with its length.
    queue: VecDeque<(u32, u32)>,
    counts: LinkCounts,
}

impl Model for Link {
    ghost use Rattle.std.specs.Prelude.{◌≤◌, length};
    ghost use Rattle.std.specs.VecDeque.{deque_capacity};
    ghost use Rattle.sn_link.specs.Link.{Line, most_queued};

    ghost Value = { Line };

    ghost view = { λ l. record { row = l.row; queued = l.queue.items; counts = l.counts } };

    ghost invariant = { λ l. (length l.queue.items ≤ most_queued) × (most_queued ≤ deque_capacity l.queue) };
}

impl Link {
    /// An empty link of row 0.
    pub fn new(alloc: Global) -> Result<Link, AllocError>
        ensures { IfOk result (λ link. link ≡ new_line 0) }
    {
        Link::of_row(alloc, 0)
    }

    /// An empty link of this row of its roster.
    pub fn of_row(alloc: Global, row: u32) -> Result<Link, AllocError>
        ensures { IfOk result (λ link. link ≡ new_line row) }
    {
        Ok(Link {
            row,
            queue: VecDeque::with_capacity(alloc, MAX_QUEUED as usize)?,
            counts: LinkCounts::new(),
        })
    }

    /// Sends the packet at a place, with its length. Where the link is full it hands the place back.
    pub fn transmit(&mut self, place: u32, len: u32) -> Option<u32>
        ensures back { result ≡ handed_back place self.old }
        ensures link { self.new ≡ transmitted place len self.old }
    {
        if self.queue.len() < MAX_QUEUED as usize {
            self.queue.push_back_reserved((place, len));
            self.counts.sent(len);
            return None;
        }
        self.counts.dropped();
        Some(place)
    }

    /// Takes the packet at the front. None exactly where the link is empty.
    pub fn receive(&mut self) -> Option<u32>
        ensures place { result ≡ front_of self.old }
        ensures link { self.new ≡ received self.old }
    {
        let Some((place, len)) = self.queue.pop_front() else {
            return None;
        };
        self.counts.received(len);
        Some(place)
    }

    /// The place at the front, which `receive` would take.
    pub fn front(&self) -> Option<u32>
        ensures { result ≡ front_of self.now }
    {
        match self.queue.front() {
            Some((place, _)) => Some(*place),
            None => None,
        }
    }

    /// How many packets can be received.
    pub fn nreadable(&self) -> u32
        ensures value { result ≡ length self.now.queued }
        ensures most { result ≤ most_queued }
    {
        self.queue.len() as u32
    }

    /// How many packets can be sent before one is dropped.
    pub fn nwritable(&self) -> u32
        ensures { result + length self.now.queued ≡ most_queued }
    {
        MAX_QUEUED - self.nreadable()
    }

    pub fn counts(&self) -> LinkCounts
        ensures { result ≡ self.now.counts }
    {
        self.counts
    }

    /// The link's row in its roster.
    pub fn row(&self) -> u32
        ensures { result ≡ self.now.row }
    {
        self.row
    }
}
