//! The core as callers see it: it opens, steps by events, and says who owns a packet.

ghost use Rattle.std.specs.Prelude.{◌≡◌, ◌≢◌, ℕ, ◌<◌, ◌≤◌, length, IfOk, All, is_some, if◌then◌else◌};
ghost use Rattle.sn_core.specs.Core.{Core, IsStep, opened, pool, all_after, done_count, after, next, IsPairOfSeats};
ghost use Rattle.sn_core.specs.Ownership.{owned_packets};
ghost use Rattle.sn_core.specs.Sound.{IsSound, count_of};
ghost use Rattle.sn_core.specs.declared.events.Owner.{Owner};

use crate::events::{Event, Owner, Stepped};
use crate::machine::Machine;
use std::alloc::{AllocError, Global};
use std::marker::Model;

/// The cells of the freelist, the lanes and the seats, with one owner for every packet of the pool.
#[derive(Drop)]
pub struct CoreState {
    machine: Machine,
}

impl Model for CoreState {
    ghost use Rattle.sn_core.specs.Core.{Core};
    ghost use Rattle.sn_core.specs.State.{core_of};
    ghost use Rattle.sn_core.specs.Invariant.{IsKept};

    ghost Value = { Core };

    ghost view = { λ state. core_of state.machine };

    ghost invariant = { λ state. IsKept (core_of state.machine) };
}

impl CoreState {
    /// A core with as many packets and seats, and a lane for each pair of a transmitting and a
    /// receiving seat: cell i holds packet i at turn 0, lanes are free and empty, and seats hold
    /// nothing. It has all the memory that it will need.
    pub fn open(
        alloc: Global,
        pool: u32,
        seats: u32,
        lanes: &[(u32, u32)],
    ) -> Result<CoreState, AllocError>
        requires pool_least { 1 ≤ pool }
        requires pool_most { pool ≤ 16384 }
        requires seats_least { 1 ≤ seats }
        requires seats_most { seats ≤ 16 }
        requires lanes_most { length lanes.now ≤ 16 }
        requires ends { All (IsPairOfSeats seats) lanes.now }
        ensures state { IfOk result (λ core. core ≡ opened pool seats lanes.now) }
        ensures sound { IfOk result IsSound }
    {
        Ok(CoreState {
            machine: Machine::open(alloc, pool, seats, lanes)?,
        })
    }

    /// Makes the event where it is enabled. An event that names a cell, lane, seat, worker or
    /// packet that isn't there isn't enabled.
    pub fn step(&mut self, event: Event) -> Stepped
        // Done exactly where the event has a state after it, which is the state then; else nothing changes.
        ensures step { IsStep self.old event result self.new }
        ensures sound { IsSound self.new }
    {
        self.machine.step(event)
    }

    /// Steps through all the events, and answers how many were done.
    pub fn run(state: &mut CoreState, events: &[Event]) -> u64
        ensures state { state.new ≡ all_after state.old events.now }
        ensures count { result ≡ done_count state.old events.now }
        ensures sound { IsSound state.new }
    {
        let mut done = 0;
        for event in events {
            done += state.count_step(*event);
        }
        state.prove_sound();
        done
    }

    /// One step, with 1 where it was done.
    fn count_step(&mut self, event: Event) -> u64
        ensures state { self.new ≡ next self.old event }
        ensures count { result ≡ (if is_some (after self.old event) then 1 else 0) }
    {
        match self.step(event) {
            Stepped::Done => 1,
            Stepped::NotEnabled => 0,
        }
    }

    /// Every core is sound.
    fn prove_sound(&self)
        ensures { IsSound self.now }
    {
        let _ = &self.machine;
    }

    /// Where the packet of this number stands.
    pub fn owner(&self, number: u32) -> Owner
        requires { number < pool self.now }
        ensures stands { count_of number (owned_packets self.now result) ≡ 1 }
        ensures only { (other : Owner) →
            0 < count_of number (owned_packets self.now other) → other ≡ result }
        ensures sound { IsSound self.now }
    {
        self.machine.owner(number)
    }
}
