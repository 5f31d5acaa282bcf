//! A run: a scenario's workers from their opening to their end, and what is reported of them.
ghost use Rattle.sn_journal.specs.declared.slot_state.SlotState.TheVariants.{Running};
ghost use Rattle.sn_run.specs.Runs.{AreTold};
ghost use Rattle.std.specs.Prelude.{◌≡◌, IfOk, length, replicate};

use crate::outcome::ended_by;
use crate::reporting::{kept_of, out_files, together};
use crate::{Outcome, Report};
use sn_crew::{Crew, Left};
use sn_journal::SlotState;
use sn_outside::Gate;
use sn_pcap::Capture;
use sn_scenario::Scenario;
use sn_sharing::Closed;
use sn_worker::RoundEnd;
use std::alloc::{AllocError, Global};
use std::thread::Threads;

/// A run of a scenario over captures.
///
/// Contracts see it as its crew (`crew_in`): the workers, with what they share and their manager.
#[derive(Drop)]
pub struct Run {
    alloc: Global,
    crew: Crew,
}

/// So many slots that run.
fn running(alloc: Global, count: usize) -> Result<Vec<SlotState>, AllocError>
    ensures { IfOk result (λ states. states.items ≡ replicate count Running) }
{
    let mut states = Vec::with_capacity(alloc, count)?;
    for _slot in 0..count {
        states.push_reserved(SlotState::Running);
    }
    Ok(states)
}

/// What is reported of what the workers leave, how the run ended, and its scenario.
///
/// # Errors
/// Want of memory.
fn report_of(alloc: Global, left: Left) -> Result<(Outcome, Report, Scenario), AllocError>
    requires journals { length left.closed.journals.items ≡ left.scenario.settings.workers }
    requires kept { length left.closed.kept.items ≡ left.scenario.settings.workers }
    ensures told { IfOk result (λ made. AreTold left made.0 made.1) }
    ensures same { IfOk result (λ made. made.2 ≡ left.scenario) }
{
    let Left {
        closed,
        left,
        scenario,
    } = left;
    let Closed {
        journals,
        counters,
        files,
        kept,
        lanes,
        group,
    } = closed;
    let workers = scenario.settings().workers;
    let outcome = ended_by(&journals, left);
    let outputs = together(alloc, scenario.outputs().len(), files)?;
    let report = Report {
        kept: kept_of(alloc, &kept)?,
        files: out_files(alloc, scenario.outputs(), outputs)?,
        states: running(alloc, workers as usize)?,
        journals,
        lanes,
        group,
        counters,
        left,
    };
    Ok((outcome, report, scenario))
}

impl Run {
    ghost use Rattle.std.specs.Prelude.{◌≡◌, ◌+◌, ◌<◌, false, IfOk, OnOk, length};
    ghost use Rattle.sn_crew.specs.Crews.{IsUnderway, KeepsCourse, captures_in, form_in, is_spent_end, rounds_in, spent_in};
    ghost use Rattle.sn_run.specs.Replay.{IsRun};
    ghost use Rattle.sn_run.specs.Runs.{IsOver, crew_in};

    /// The run of a scenario over its captures, before its first round.
    ///
    /// # Errors
    /// Want of memory.
    pub fn open(
        alloc: Global,
        scenario: Scenario,
        captures: Vec<Capture>,
    ) -> Result<Run, AllocError>
        requires { length captures.items ≡ length scenario.captures }
        ensures underway { IfOk result (λ run. IsUnderway (crew_in run)) }
        ensures form { IfOk result (λ run. form_in (crew_in run) ≡ scenario) }
        ensures captures { IfOk result (λ run. captures_in (crew_in run) ≡ captures.items) }
        ensures rounds { IfOk result (λ run. rounds_in (crew_in run) ≡ 0) }
        ensures unspent { IfOk result (λ run. spent_in (crew_in run) ≡ false) }
    {
        let crew = Crew::open(alloc, scenario, captures)?;
        Ok(Run { alloc, crew })
    }

    /// A round: the manager's call and those of all workers run beside each other, in threads. Spent where a worker's journal is
    /// full: then no round follows.
    ///
    /// # Errors
    /// Want of memory. The run is then only dropped.
    pub fn round<R: Threads + Sync, G: Gate>(
        &mut self,
        rt: &R,
        gate: &G,
    ) -> Result<RoundEnd, AllocError>
        requires underway { IsUnderway (crew_in self.old) }
        requires more { rounds_in (crew_in self.old) < (form_in (crew_in self.old)).settings.rounds }
        requires unspent { spent_in (crew_in self.old) ≡ false }
        ensures underway { OnOk result (IsUnderway (crew_in self.new)) }
        ensures rounds { OnOk result (rounds_in (crew_in self.new) ≡ rounds_in (crew_in self.old) + 1) }
        ensures spent { IfOk result (λ end. is_spent_end end ≡ spent_in (crew_in self.new)) }
        ensures course { KeepsCourse (crew_in self.old) (crew_in self.new) }
    {
        self.crew.round(rt, gate)
    }

    /// The same on the caller's thread, in order: the manager, and then the workers by their numbers.
    ///
    /// # Errors
    /// Want of memory. The run is then only dropped.
    pub fn round_in_order<G: Gate>(&mut self, gate: &G) -> Result<RoundEnd, AllocError>
        requires underway { IsUnderway (crew_in self.old) }
        requires more { rounds_in (crew_in self.old) < (form_in (crew_in self.old)).settings.rounds }
        requires unspent { spent_in (crew_in self.old) ≡ false }
        ensures underway { OnOk result (IsUnderway (crew_in self.new)) }
        ensures rounds { OnOk result (rounds_in (crew_in self.new) ≡ rounds_in (crew_in self.old) + 1) }
        ensures spent { IfOk result (λ end. is_spent_end end ≡ spent_in (crew_in self.new)) }
        ensures course { KeepsCourse (crew_in self.old) (crew_in self.new) }
    {
        self.crew.round_in_order(gate)
    }

    /// Ends the run, once all its rounds were made or one was its last: how it ended, what is reported, and the scenario.
    ///
    /// # Errors
    /// Want of memory.
    pub fn finish<G: Gate>(self, gate: &G) -> Result<(Outcome, Report, Scenario), AllocError>
        requires underway { IsUnderway (crew_in self) }
        requires over { IsOver (crew_in self) }
        ensures run { IfOk result (λ made. IsRun (form_in (crew_in self)) (captures_in (crew_in self)) made.0 made.1) }
        ensures same { IfOk result (λ made. made.2 ≡ form_in (crew_in self)) }
    {
        let Run { alloc, crew } = self;
        let left = crew.close(gate)?;
        let (outcome, report, scenario) = report_of(alloc, left)?;
        Ok((outcome, report, scenario))
    }
}
