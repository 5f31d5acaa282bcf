//! A round of all workers: beside each other in threads, or one after another.
ghost use Rattle.std.specs.Prelude.{◌≡◌, ◌+◌, ◌<◌, false, IsOk};
ghost use Rattle.std.specs.List.{list_any};
ghost use Rattle.sn_crew.specs.Crews.{EachAt, HaveSaid, PlaceReady, PlaceWorked};
ghost use Rattle.sn_manager.specs.Managers.{speakers_in};
ghost use Rattle.sn_worker.specs.SlotViews.{slot_spent};

use crate::Crew;
use crate::place::Place;
use sn_manager::Manager;
use sn_outside::Gate;
use sn_scenario::Scenario;
use sn_seat::Shared;
use sn_worker::RoundEnd;
use std::alloc::{AllocError, Global};
use std::thread::{self, Threads, join_mut};

/// The round of all places after so many, in a thread for each.
fn work_all<R: Threads + Sync, G: Gate>(
    rt: &R,
    places: &mut [Place],
    rounds: u32,
    scenario: &Scenario,
    shared: &Shared,
    gate: &G,
)
    requires few { rounds < scenario.now.settings.rounds }
    requires ready { EachAt (PlaceReady scenario.now shared.now rounds) places.old }
    ensures { EachAt (PlaceWorked scenario.now shared.now rounds) places.new }
{
    let threads = places.len();
    if threads == 0 {
        return;
    }
    thread::for_each_mut(
        rt,
        places,
        threads,
        &|worker, place: &mut Place|
            requires { (rounds < scenario.now.settings.rounds) × PlaceReady scenario.now shared.now rounds worker place.now }
            ensures { PlaceWorked scenario.entry.now shared.entry.now rounds worker place.exit.now }
        { place.work(worker, rounds, scenario, shared, gate) },
    );
}

/// What the manager says for the round after so many.
fn say(
    alloc: Global,
    manager: &mut Manager,
    scenario: &Scenario,
    shared: &Shared,
    rounds: u32,
) -> Result<(), AllocError>
    requires few { rounds < scenario.now.settings.rounds }
    requires said { HaveSaid scenario.now shared.now rounds (speakers_in manager.old) }
    ensures said { HaveSaid scenario.now shared.now (rounds + 1) (speakers_in manager.new) }
    ensures ok { IsOk result }
{
    let _ = scenario.settings();
    manager.round(alloc, shared, scenario, rounds + 1)
}

/// The manager's call and those of the places run beside each other.
fn work_together<R: Threads + Sync, G: Gate>(
    rt: &R,
    alloc: Global,
    manager: &mut Manager,
    places: &mut [Place],
    rounds: u32,
    scenario: &Scenario,
    shared: &Shared,
    gate: &G,
) -> Result<(), AllocError>
    requires few { rounds < scenario.now.settings.rounds }
    requires said { HaveSaid scenario.now shared.now rounds (speakers_in manager.old) }
    requires ready { EachAt (PlaceReady scenario.now shared.now rounds) places.old }
    ensures said { HaveSaid scenario.now shared.now (rounds + 1) (speakers_in manager.new) }
    ensures worked { EachAt (PlaceWorked scenario.now shared.now rounds) places.new }
    ensures ok { IsOk result }
{
    let (said, ()) = join_mut(
        rt,
        &mut || -> Result<(), AllocError>
            requires { (rounds < scenario.now.settings.rounds)
                × HaveSaid scenario.now shared.now rounds (speakers_in manager.now) }
            ensures { HaveSaid scenario.entry.now shared.entry.now (rounds + 1) (speakers_in manager.exit.now) × IsOk result }
        { say(alloc, manager, scenario, shared, rounds) },
        &mut ||
            requires { (rounds < scenario.now.settings.rounds) × EachAt (PlaceReady scenario.now shared.now rounds) places.now }
            ensures { EachAt (PlaceWorked scenario.entry.now shared.entry.now rounds) places.exit.now }
        { work_all(rt, places, rounds, scenario, shared, gate) },
    );
    said
}

/// The manager's call, and then those of the places, one after another.
fn work_in_order<G: Gate>(
    alloc: Global,
    manager: &mut Manager,
    places: &mut [Place],
    rounds: u32,
    scenario: &Scenario,
    shared: &Shared,
    gate: &G,
) -> Result<(), AllocError>
    requires few { rounds < scenario.now.settings.rounds }
    requires said { HaveSaid scenario.now shared.now rounds (speakers_in manager.old) }
    requires ready { EachAt (PlaceReady scenario.now shared.now rounds) places.old }
    ensures said { HaveSaid scenario.now shared.now (rounds + 1) (speakers_in manager.new) }
    ensures worked { EachAt (PlaceWorked scenario.now shared.now rounds) places.new }
    ensures ok { IsOk result }
{
    say(alloc, manager, scenario, shared, rounds)?;
    for worker in 0..places.len() {
        places[worker].work(worker, rounds, scenario, shared, gate);
    }
    Ok(())
}

/// Whether memory lacked for one of these in the round.
fn lacks(places: &[Place]) -> bool
    ensures { result ≡ false → EachAt (λ worker place. place.lacked ≡ false) places.now }
{
    places.iter().any(|place| place.lacked)
}

/// Whether the journal of one of these was full at the beginning of a turn.
fn has_spent(places: &[Place]) -> bool
    ensures spent { result ≡ list_any (λ place. slot_spent place.slot) places.now }
{
    places.iter().any(|place| place.slot.is_spent())
}

impl Crew {
    ghost use Rattle.std.specs.Prelude.{◌≡◌, ◌+◌, ◌<◌, false, IfOk, OnOk};
    ghost use Rattle.sn_crew.specs.Crews.{HasWorked, IsUnderway, KeepsCourse, form_in, is_spent_end, rounds_in, spent_in};

    /// A round: the manager's call and those of all slots run beside each other, each slot's in a thread of its own where one
    /// can be started; the caller does the work of the others. Then each slot meets its worker's speaker. Spent where a journal
    /// is full.
    ///
    /// # Errors
    /// Want of memory. The crew is then only dropped.
    pub fn round<R: Threads + Sync, G: Gate>(
        &mut self,
        rt: &R,
        gate: &G,
    ) -> Result<RoundEnd, AllocError>
        requires underway { IsUnderway self.old }
        requires more { rounds_in self.old < (form_in self.old).settings.rounds }
        requires unspent { spent_in self.old ≡ false }
        ensures underway { OnOk result (IsUnderway self.new) }
        ensures rounds { OnOk result (rounds_in self.new ≡ rounds_in self.old + 1) }
        ensures spent { IfOk result (λ end. is_spent_end end ≡ spent_in self.new) }
        ensures course { KeepsCourse self.old self.new }
    {
        work_together(
            rt,
            self.alloc,
            &mut self.manager,
            &mut self.places,
            self.rounds,
            &self.scenario,
            &self.shared,
            gate,
        )?;
        self.end_round()
    }

    /// The same round on the caller's thread: the manager's call first, and then the workers' by their numbers.
    ///
    /// # Errors
    /// Want of memory. The crew is then only dropped.
    pub fn round_in_order<G: Gate>(&mut self, gate: &G) -> Result<RoundEnd, AllocError>
        requires underway { IsUnderway self.old }
        requires more { rounds_in self.old < (form_in self.old).settings.rounds }
        requires unspent { spent_in self.old ≡ false }
        ensures underway { OnOk result (IsUnderway self.new) }
        ensures rounds { OnOk result (rounds_in self.new ≡ rounds_in self.old + 1) }
        ensures spent { IfOk result (λ end. is_spent_end end ≡ spent_in self.new) }
        ensures course { KeepsCourse self.old self.new }
    {
        work_in_order(
            self.alloc,
            &mut self.manager,
            &mut self.places,
            self.rounds,
            &self.scenario,
            &self.shared,
            gate,
        )?;
        self.end_round()
    }

    /// Whether the journal of a worker was full at the beginning of a turn.
    fn is_any_spent(&self) -> bool
        ensures { result ≡ spent_in self.now }
    {
        has_spent(&self.places)
    }

    /// After the joins: each slot meets its worker's speaker. Spent where a journal is full.
    fn end_round(&mut self) -> Result<RoundEnd, AllocError>
        requires worked { HasWorked self.old }
        ensures underway { OnOk result (IsUnderway self.new) }
        ensures rounds { OnOk result (rounds_in self.new ≡ rounds_in self.old + 1) }
        ensures spent { IfOk result (λ end. is_spent_end end ≡ spent_in self.new) }
        ensures course { KeepsCourse self.old self.new }
    {
        if lacks(&self.places) {
            return Err(AllocError);
        }
        let _ = self.scenario.settings();
        self.rounds += 1;
        self.meet();
        if self.is_any_spent() {
            return Ok(RoundEnd::Spent);
        }
        Ok(RoundEnd::Next)
    }
}
