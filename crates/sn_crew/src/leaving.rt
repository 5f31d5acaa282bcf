//! What is left of a run's workers, and how they end.
ghost use Rattle.std.specs.Prelude.{◌≡◌, ◌<◌, ◌^◌, IfOk, count_by};
ghost use Rattle.sn_crew.specs.Crews.{EachAt};
ghost use Rattle.sn_crew.specs.Endings.{CanClose, LeaveSeats, LeavesSeat, is_put, is_taken};

use crate::Crew;
use crate::place::Place;
use sn_journal::Entry;
use sn_outside::Gate;
use sn_scenario::Scenario;
use sn_seat::{Seat, Shared};
use sn_sharing::{Closed, close as close_shared};
use std::alloc::{AllocError, Global};

/// What the workers of a run leave: what is left of all that they had, how much was left undone, and the scenario.
#[derive(Drop)]
pub struct Left {
    pub closed: Closed,
    pub left: u64,
    pub scenario: Scenario,
}

/// Whether an entry puts a packet into an interlink.
fn is_put(entry: &Entry) -> bool
    ensures { result ≡ is_put entry.now }
{
    matches!(entry, Entry::Put(..))
}

/// Whether an entry takes a packet out of one.
fn is_taken(entry: &Entry) -> bool
    ensures { result ≡ is_taken entry.now }
{
    matches!(entry, Entry::Take(..) | Entry::Drain(..))
}

/// How many packets a worker's journal puts into interlinks.
fn puts_of(entries: &[Entry]) -> u128
    ensures count { result ≡ count_by is_put entries.now }
    ensures few { result < 2 ^ 64 }
{
    entries.iter().filter(|entry| is_put(entry)).count() as u128
}

/// How many it takes out of them.
fn taken_of(entries: &[Entry]) -> u128
    ensures count { result ≡ count_by is_taken entries.now }
    ensures few { result < 2 ^ 64 }
{
    entries.iter().filter(|entry| is_taken(entry)).count() as u128
}

impl Crew {
    ghost use Rattle.std.specs.Prelude.{◌≡◌, ◌-◌, IfOk};
    ghost use Rattle.sn_crew.specs.Crews.{IsUnderway, captures_in, form_in, rounds_in, stands_in};
    ghost use Rattle.sn_crew.specs.Endings.{HaveEnded, count_in, is_put, is_taken, left_by, left_from};

    /// How many packets lie in all interlinks, by what was put and what was taken.
    fn in_lanes(&self) -> u128
        requires { IsUnderway self.now }
        ensures { result ≡ count_in is_put (stands_in self.now) - count_in is_taken (stands_in self.now) }
    {
        let mut put = 0u128;
        let mut taken = 0u128;
        for place in &self.places {
            let entries = place.slot.journal().entries();
            put += puts_of(entries);
            taken += taken_of(entries);
        }
        put.saturating_sub(taken)
    }

    /// How much its workers have left.
    fn of_workers(&self) -> u128
        requires { IsUnderway self.now }
        ensures { result ≡ left_from (form_in self.now) 0 (stands_in self.now) }
    {
        let mut left = 0u128;
        for place in &self.places {
            left += place.slot.left(&self.shared) as u128;
        }
        left
    }

    /// How much is left: what the workers have left, and the packets in all interlinks; 2^64 - 1 where that is more.
    pub fn left(&self) -> u64
        requires { IsUnderway self.now }
        ensures { result ≡ left_by (form_in self.now) (stands_in self.now) }
    {
        let left = self.of_workers().saturating_add(self.in_lanes());
        left.min(u64::MAX as u128) as u64
    }

    /// Ends the run behind its last round: each worker is closed, by its number, and then what they shared.
    ///
    /// # Errors
    /// Want of memory.
    pub fn close<G: Gate>(self, gate: &G) -> Result<Left, AllocError>
        requires underway { IsUnderway self }
        ensures { IfOk result (HaveEnded (form_in self) (captures_in self) (rounds_in self) (stands_in self)) }
    {
        let left = self.left();
        let Crew {
            alloc,
            scenario,
            shared,
            places,
            manager: _,
            rounds: _,
        } = self;
        let seats = close_slots(alloc, places, &shared, gate)?;
        let closed = close_shared(alloc, scenario.lanes(), shared, seats)?;
        Ok(Left {
            closed,
            left,
            scenario,
        })
    }
}

/// Closes the slot of a place, and answers its seat.
fn close_slot<G: Gate>(place: Place, shared: &Shared, gate: &G) -> Result<Seat, AllocError>
    requires { CanClose shared.now place }
    ensures { IfOk result (LeavesSeat shared.now place) }
{
    let Place {
        mut slot,
        lacked: _,
    } = place;
    slot.close(shared, gate)?;
    Ok(slot.into_seat())
}

/// Closes the slots of places, one after another, and answers their seats.
fn close_slots<G: Gate>(
    alloc: Global,
    places: Vec<Place>,
    shared: &Shared,
    gate: &G,
) -> Result<Vec<Seat>, AllocError>
    requires { EachAt (λ worker place. CanClose shared.now place) places.items }
    ensures { IfOk result (λ seats. LeaveSeats shared.now places.items seats.items) }
{
    let mut seats = Vec::new(alloc);
    for place in places {
        seats.push(close_slot(place, shared, gate)?)?;
    }
    Ok(seats)
}
