//! The run of a scenario over captures, by their values alone.
ghost use Rattle.sn_crew.specs.Crews.{IsUnderway, KeepsCourse, form_in, rounds_in, spent_in};
ghost use Rattle.sn_run.specs.Now.{runs_now};
ghost use Rattle.sn_run.specs.Replay.{IsRun};
ghost use Rattle.sn_run.specs.Runs.{IsOver, crew_in};
ghost use Rattle.std.specs.Prelude.{List, ℕ, IfOk, OnOk, false, length, true, ◌≡◌};

use crate::{Outcome, Report, Run};
use sn_outside::Gate;
use sn_pcap::Capture;
use sn_scenario::Scenario;
use sn_worker::RoundEnd;
use std::alloc::{AllocError, Global};
use std::thread::Threads;

/// Makes the rounds of a run, up to the one in which a journal was full.
fn make_rounds<R: Threads + Sync, G: Gate>(
    rt: &R,
    run: &mut Run,
    rounds: u32,
    gate: &G,
) -> Result<(), AllocError>
    requires underway { IsUnderway (crew_in run.old) }
    requires rounds { rounds ≡ (form_in (crew_in run.old)).settings.rounds }
    requires begins { rounds_in (crew_in run.old) ≡ 0 }
    requires unspent { spent_in (crew_in run.old) ≡ false }
    ensures underway { OnOk result (IsUnderway (crew_in run.new)) }
    ensures over { OnOk result (IsOver (crew_in run.new)) }
    ensures course { KeepsCourse (crew_in run.old) (crew_in run.new) }
{
    for _round in 0..rounds {
        match run.round(rt, gate)? {
            RoundEnd::Next => {}
            RoundEnd::Spent => return Ok(()),
        }
    }
    Ok(())
}

/// Runs a scenario over the captures that it names, in their order, and answers how the run ended, what it leaves, and the
/// scenario.
///
/// It touches no file: what its clauses say holds of the bytes that are handed in, wherever they come from.
///
/// # Errors
/// Want of memory.
pub fn run_scenario<R: Threads + Sync, G: Gate>(
    rt: &R,
    alloc: Global,
    scenario: Scenario,
    captures: Vec<Capture>,
    gate: &G,
) -> Result<(Outcome, Report, Scenario), AllocError>
    requires now { runs_now scenario ≡ true }
    requires captures { length captures.items ≡ length scenario.captures }
    ensures run { IfOk result (λ made. IsRun scenario captures.items made.0 made.1) }
    ensures same { IfOk result (λ made. made.2 ≡ scenario) }
{
    let rounds = scenario.settings().rounds;
    let mut run = Run::open(alloc, scenario, captures)?;
    make_rounds(rt, &mut run, rounds, gate)?;
    run.finish(gate)
}
