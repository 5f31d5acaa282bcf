//! The slots and the speakers meet.
ghost use Rattle.std.specs.Prelude.{◌≡◌, ◌<◌, length};
ghost use Rattle.sn_crew.specs.Crews.{EachAt, HaveSaid, PlaceAfter, PlaceUnmet};
ghost use Rattle.sn_manager.specs.Managers.{speakers_in};

use crate::Crew;
use crate::place::Place;
use sn_manager::Manager;
use sn_scenario::Scenario;
use sn_seat::Shared;

/// The slot of a worker meets the worker's speaker.
fn meet_one(
    manager: &mut Manager,
    place: &mut Place,
    worker: u32,
    rounds: u32,
    scenario: &Scenario,
    shared: &Shared,
)
    requires worker { worker < scenario.now.settings.workers }
    requires said { HaveSaid scenario.now shared.now rounds (speakers_in manager.old) }
    requires unmet { PlaceUnmet scenario.now shared.now rounds worker place.old }
    ensures after { PlaceAfter scenario.now shared.now rounds worker place.new }
    ensures speakers { speakers_in manager.new ≡ speakers_in manager.old }
{
    let _ = scenario;
    let _ = rounds;
    let speaker = manager.speaker(worker);
    place.slot.meet(shared, speaker);
}

/// Each slot meets its worker's speaker.
fn meet_all(
    manager: &mut Manager,
    places: &mut [Place],
    rounds: u32,
    scenario: &Scenario,
    shared: &Shared,
)
    requires workers { length places.old ≡ scenario.now.settings.workers }
    requires said { HaveSaid scenario.now shared.now rounds (speakers_in manager.old) }
    requires unmet { EachAt (PlaceUnmet scenario.now shared.now rounds) places.old }
    ensures after { EachAt (PlaceAfter scenario.now shared.now rounds) places.new }
    ensures speakers { speakers_in manager.new ≡ speakers_in manager.old }
{
    let workers = scenario.settings().workers;
    for worker in 0..workers {
        meet_one(
            manager,
            &mut places[worker as usize],
            worker,
            rounds,
            scenario,
            shared,
        );
    }
}

impl Crew {
    ghost use Rattle.std.specs.Prelude.{◌≡◌};
    ghost use Rattle.sn_crew.specs.Crews.{IsUnderway, IsUnmet, KeepsCourse, rounds_in};

    /// Each slot meets its worker's speaker.
    pub(crate) fn meet(&mut self)
        requires { IsUnmet self.old }
        ensures underway { IsUnderway self.new }
        ensures rounds { rounds_in self.new ≡ rounds_in self.old }
        ensures course { KeepsCourse self.old self.new }
    {
        meet_all(
            &mut self.manager,
            &mut self.places,
            self.rounds,
            &self.scenario,
            &self.shared,
        );
    }
}
