//! A worker's slot, and how its last round went.
ghost use Rattle.std.specs.Prelude.{◌<◌};
ghost use Rattle.sn_crew.specs.Crews.{PlaceReady, PlaceWorked};

use sn_outside::Gate;
use sn_scenario::Scenario;
use sn_seat::Shared;
use sn_worker::Slot;

/// A worker's slot, and whether memory lacked in its last round.
#[derive(Drop)]
pub(crate) struct Place {
    pub(crate) slot: Slot,
    pub(crate) lacked: bool,
}

impl Place {
    /// The round of the slot after so many. Where memory lacks in it, this is kept.
    pub(crate) fn work<G: Gate>(
        &mut self,
        worker: usize,
        rounds: u32,
        scenario: &Scenario,
        shared: &Shared,
        gate: &G,
    )
        requires few { rounds < scenario.now.settings.rounds }
        requires ready { PlaceReady scenario.now shared.now rounds worker self.old }
        ensures { PlaceWorked scenario.now shared.now rounds worker self.new }
    {
        let _ = worker;
        let _ = scenario.settings();
        match self.slot.round(rounds + 1, shared, gate) {
            Ok(_) => {}
            Err(_) => self.lacked = true,
        }
    }
}
