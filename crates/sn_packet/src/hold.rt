//! The packets that a worker holds, each at a place, and which of them are free.

ghost use Rattle.std.specs.Prelude.{◌≡◌, ℕ, ◌+◌, ◌<◌, ◌≤◌, ◌==◌, ◌∷◌, ◌++◌, [], length, replicate, take, IfOk, OnOk, IfSome, IfNone, IsSome, Some, None};
ghost use Rattle.sn_packet.specs.Packet.{most_bytes};
ghost use Rattle.sn_packet.specs.Hold.{Held, at_of, there, among, used_of, frees_of, put_at, rewritten, weight, WritesUsed, LeavesFrees, KeepsWeight};

use crate::buffer::Buffer;
use crate::packet::Packet;
use slab::Slab;
use std::alloc::{AllocError, Global};
use std::marker::Model;

/// How many places 32 bits can name.
const PLACES: usize = 4_294_967_296;

/// Packets, each at a place, and a stack of those places whose packets are free. Free packets stay at their places.
#[derive(Drop)]
pub struct Hold {
    cells: Slab<Packet>,
    free: Vec<u32>,
    // Serves `copy`: a buffer that belongs to no packet.
    spare: Buffer,
}

impl Model for Hold {
    ghost use Rattle.std.specs.Prelude.{vec_capacity};
    ghost use Rattle.slab.specs.Slab.{slab_len};
    ghost use Rattle.sn_packet.specs.Hold.{Held, room_of, IsHold};

    ghost Value = { Held };

    ghost view = { λ h. record {
      slots = h.cells.slots;
      free = h.free.items;
      next = h.cells.vacant_key;
      room = room_of h.cells.capacity (vec_capacity h.free) (slab_len h.cells);
    } };

    ghost invariant = { λ h. IsHold h.cells h.free.items (vec_capacity h.free) };
}

impl Hold {
    /// A hold of no packets, with room for a pool of them.
    pub fn new(alloc: Global, pool: u32) -> Result<Hold, AllocError>
        ensures none { IfOk result (λ hold. hold.slots ≡ []) }
        ensures free { IfOk result (λ hold. hold.free ≡ []) }
        ensures room { IfOk result (λ hold. pool ≤ hold.room) }
    {
        let mut hold = Hold {
            cells: Slab::new(alloc),
            free: Vec::new(alloc),
            spare: Buffer::new(alloc)?,
        };
        hold.reserve(pool)?;
        Ok(hold)
    }

    /// Makes room, so that `n` calls of `lay` take no memory. Of places that 32 bits can't name there is none.
    pub fn reserve(&mut self, n: u32) -> Result<(), AllocError>
        ensures room { OnOk result (n ≤ self.new.room) }
        ensures more { OnOk result (self.old.room ≤ self.new.room) }
        ensures rest { self.new ≡ record self.old { room = self.new.room } }
    {
        self.cells.reserve(n as usize)?;
        if self.cells.capacity() > PLACES {
            return Err(AllocError);
        }
        self.free
            .reserve(self.cells.len() + n as usize - self.free.len())
    }

    /// Holds a packet that is not free, and answers its place: that of the last `lift` where no `lay` came since,
    /// else a fresh one.
    pub fn lay(&mut self, packet: Packet) -> u32
        requires { 1 ≤ self.old.room }
        ensures next { result ≡ self.old.next }
        ensures fresh { at_of self.old result ≡ None }
        ensures unlisted { among self.old.free result ≡ 0 }
        ensures at { at_of self.new ≡ put_at result (Some packet) (at_of self.old) }
        ensures free { self.new.free ≡ self.old.free }
        ensures used { used_of self.new ≡ put_at result (Some packet) (used_of self.old) }
        ensures laid { used_of self.new result ≡ Some packet }
        ensures frees { frees_of self.new ≡ frees_of self.old }
        ensures room { self.new.room + 1 ≡ self.old.room }
        ensures weight { (f : ℕ → ℕ → ℕ) → weight f self.new ≡ weight f self.old + f packet.number packet.turn }
    {
        self.cells.insert_reserved(packet) as u32
    }

    /// Gives away the packet at a place. The next `lay` comes to that place.
    pub fn lift(&mut self, place: u32) -> Packet
        requires { IsSome (used_of self.old place) }
        ensures packet { at_of self.old place ≡ Some result }
        ensures at { at_of self.new ≡ put_at place None (at_of self.old) }
        ensures free { self.new.free ≡ self.old.free }
        ensures used { used_of self.new ≡ put_at place None (used_of self.old) }
        ensures frees { frees_of self.new ≡ frees_of self.old }
        ensures next { self.new.next ≡ place }
        ensures room { self.old.room ≤ self.new.room }
        ensures more { 0 < self.old.room → self.new.room ≡ self.old.room + 1 }
        ensures weight { (f : ℕ → ℕ → ℕ) → weight f self.new + f result.number result.turn ≡ weight f self.old }
    {
        self.cells.remove(place as usize)
    }

    /// The place that was freed last. Its packet isn't free any more.
    pub fn take_free(&mut self) -> Option<u32>
        ensures none { IfNone result ((self.old.free ≡ []) × (self.new ≡ self.old)) }
        ensures last { IfSome result (λ place. self.old.free ≡ self.new.free ++ place ∷ []) }
        ensures held { IfSome result (λ place. IsSome (at_of self.old place)) }
        ensures once { IfSome result (λ place. among self.new.free place ≡ 0) }
        ensures was_free { IfSome result (λ place. used_of self.old place ≡ None) }
        ensures used { IfSome result (λ place. used_of self.new ≡ put_at place (at_of self.old place) (used_of self.old)) }
        ensures frees { IfSome result (λ place. frees_of self.old ≡ frees_of self.new ++ there self.old place ∷ []) }
        ensures rest { self.new ≡ record self.old { free = self.new.free } }
    {
        self.free.pop()
    }

    /// The packet at a place becomes free, and stays there.
    pub fn free(&mut self, place: u32)
        requires { IsSome (used_of self.old place) }
        ensures freed { self.new ≡ record self.old { free = self.old.free ++ place ∷ [] } }
        ensures used { used_of self.new ≡ put_at place None (used_of self.old) }
        ensures frees { frees_of self.new ≡ frees_of self.old ++ there self.old place ∷ [] }
    {
        self.free.push_reserved(place);
    }

    /// No packet is free any more. All stay held.
    pub fn clear_free(&mut self)
        ensures cleared { self.new ≡ record self.old { free = [] } }
        ensures used { used_of self.new ≡ at_of self.old }
    {
        self.free.clear();
    }

    /// How many packets are free.
    pub fn frees(&self) -> u64
        ensures { result ≡ length self.now.free }
    {
        self.free.len() as u64
    }

    /// The least held place that isn't below `from`. It walks over the places from there on.
    pub fn held_from(&self, from: u32) -> Option<u32>
        ensures held { IfSome result (λ place. IsSome (at_of self.now place)) }
        ensures from { IfSome result (λ place. from ≤ place) }
        ensures least { IfSome result (λ place.
            (other : ℕ) → from ≤ other → other < place → at_of self.now other ≡ None) }
        ensures none { IfNone result ((other : ℕ) → from ≤ other → at_of self.now other ≡ None) }
    {
        for place in from as usize..self.cells.capacity() {
            if self.cells.contains(place) {
                return Some(place as u32);
            }
        }
        None
    }

    /// The packet at a place, also where it is free.
    pub fn packet(&self, place: u32) -> &Packet
        requires { IsSome (at_of self.now place) }
        ensures { at_of self.now place ≡ Some result.now }
    {
        &self.cells[place as usize]
    }

    /// The packet at a place becomes so many zeros.
    pub fn zeros(&mut self, place: u32, len: u32)
        requires held { IsSome (at_of self.old place) }
        requires len { len ≤ most_bytes }
        ensures bytes { self.new ≡ rewritten place (replicate len 0) self.old }
        ensures used { WritesUsed place (replicate len 0) self.old self.new }
        ensures frees { LeavesFrees place self.old self.new }
        ensures weight { KeepsWeight self.old self.new }
    {
        self.cells[place as usize].zeros(len);
    }

    /// The packet at a place becomes these bytes.
    pub fn fill(&mut self, place: u32, bytes: &[u8])
        requires held { IsSome (at_of self.old place) }
        requires len { length bytes.now ≤ most_bytes }
        ensures bytes { self.new ≡ rewritten place bytes.now self.old }
        ensures used { WritesUsed place bytes.now self.old self.new }
        ensures frees { LeavesFrees place self.old self.new }
        ensures weight { KeepsWeight self.old self.new }
    {
        self.cells[place as usize].fill(bytes);
    }

    /// The packet at `to` becomes the bytes of the one at `from`.
    pub fn copy(&mut self, from: u32, to: u32)
        requires from { IsSome (at_of self.old from) }
        requires to { IsSome (at_of self.old to) }
        ensures bytes { self.new ≡ rewritten to (there self.old from).bytes self.old }
        ensures used { WritesUsed to (there self.old from).bytes self.old self.new }
        ensures frees { LeavesFrees to self.old self.new }
        ensures weight { KeepsWeight self.old self.new }
    {
        self.cells[from as usize].exchange(&mut self.spare);
        self.cells[to as usize].fill(self.spare.bytes());
        self.cells[from as usize].exchange(&mut self.spare);
    }

    /// The packet at a place keeps its first bytes alone.
    pub fn cut(&mut self, place: u32, len: u32)
        requires held { IsSome (at_of self.old place) }
        requires len { len ≤ length (there self.old place).bytes }
        ensures bytes { self.new ≡ rewritten place (take len (there self.old place).bytes) self.old }
        ensures used { WritesUsed place (take len (there self.old place).bytes) self.old self.new }
        ensures frees { LeavesFrees place self.old self.new }
        ensures weight { KeepsWeight self.old self.new }
    {
        self.cells[place as usize].cut(len);
    }
}
