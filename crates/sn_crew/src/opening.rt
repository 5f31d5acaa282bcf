//! How a crew begins.
ghost use Rattle.std.specs.Prelude.{◌≡◌, ◌<◌, IfOk, length};
ghost use Rattle.sn_crew.specs.Crews.{ArePlaced, PlaceUnmet};
ghost use Rattle.sn_sharing.specs.Opened.{AreOpenedSeats, IsOpenedSeat};

use crate::Crew;
use crate::place::Place;
use sn_manager::Manager;
use sn_pcap::Capture;
use sn_scenario::Scenario;
use sn_seat::{Seat, Shared};
use sn_sharing::{Opened, open as open_shared};
use sn_worker::Slot;
use std::alloc::{AllocError, Global};

/// The place of a worker at its seat.
fn place_of(
    alloc: Global,
    scenario: &Scenario,
    shared: &Shared,
    worker: u32,
    seat: Seat,
) -> Result<Place, AllocError>
    requires worker { worker < scenario.now.settings.workers }
    requires opened { IsOpenedSeat scenario.now shared.now worker seat }
    ensures { IfOk result (PlaceUnmet scenario.now shared.now 0 worker) }
{
    let _ = shared;
    let _ = scenario.lanes();
    let slot = Slot::of_scenario(alloc, seat, scenario, worker)?;
    Ok(Place {
        slot,
        lacked: false,
    })
}

/// The places of all workers at their seats.
fn places_of(
    alloc: Global,
    scenario: &Scenario,
    shared: &Shared,
    seats: Vec<Seat>,
) -> Result<Vec<Place>, AllocError>
    requires { AreOpenedSeats scenario.now shared.now seats.items }
    ensures { IfOk result (λ places. ArePlaced scenario.now shared.now places.items) }
{
    let _ = scenario.settings();
    let mut places = Vec::new(alloc);
    for seat in seats {
        let worker = places.len() as u32;
        places.push(place_of(alloc, scenario, shared, worker, seat)?)?;
    }
    Ok(places)
}

impl Crew {
    ghost use Rattle.std.specs.Prelude.{◌≡◌, IfOk, length, false};
    ghost use Rattle.sn_crew.specs.Crews.{IsUnderway, captures_in, form_in, rounds_in, spent_in};

    /// The workers of a scenario over its captures, before their first round. What is due at the opening was said to each.
    ///
    /// # Errors
    /// Want of memory.
    pub fn open(
        alloc: Global,
        scenario: Scenario,
        captures: Vec<Capture>,
    ) -> Result<Crew, AllocError>
        requires { length captures.items ≡ length scenario.captures }
        ensures underway { IfOk result IsUnderway }
        ensures form { IfOk result (λ crew. form_in crew ≡ scenario) }
        ensures captures { IfOk result (λ crew. captures_in crew ≡ captures.items) }
        ensures rounds { IfOk result (λ crew. rounds_in crew ≡ 0) }
        ensures unspent { IfOk result (λ crew. spent_in crew ≡ false) }
    {
        let Opened {
            shared,
            seats,
            speakers,
        } = open_shared(alloc, &scenario, captures)?;
        let places = places_of(alloc, &scenario, &shared, seats)?;
        let mut manager = Manager::new(speakers);
        manager.round(alloc, &shared, &scenario, 0)?;
        let mut crew = Crew {
            alloc,
            scenario,
            shared,
            places,
            manager,
            rounds: 0,
        };
        crew.meet();
        Ok(crew)
    }
}
