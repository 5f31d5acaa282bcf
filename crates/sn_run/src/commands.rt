//! What each command does with its file.
ghost use Rattle.sn_run.specs.ActionTexts.{actions_text};
ghost use Rattle.sn_run.specs.Courses.{Follows};
ghost use Rattle.sn_run.specs.Now.{runs_now};
ghost use Rattle.sn_run.specs.Scripts.{captures_script, command_script, most_captures};
ghost use Rattle.sn_run.specs.Texts.{saying};
ghost use Rattle.sn_run.specs.declared.command.Command.TheVariants.{Run, Check, Actions};
ghost use Rattle.sn_scenario.specs.Plans.{plan_of};
ghost use Rattle.std.specs.Prelude.{List, ℕ, [], IfOk, true, ◌<◌, ◌≡◌};

use crate::Status;
use crate::action_text::push_actions;
use crate::answer::{Answer, refusal_of, refused, starved};
use crate::journal_text::journal_files;
use crate::now::runs_now;
use crate::reading::{read_captures, read_text};
use crate::texts::status_text;
use crate::values::run_scenario;
use crate::writing::write_report;
use sn_names::FileName;
use sn_outside::{Files, Gate};
use sn_scenario::Scenario;
use std::alloc::{AllocError, Global};
use std::thread::Threads;

/// The answer that what was asked for is done, with its text.
fn done(text: Vec<u8>) -> Answer
    ensures says { saying result.status result.text.items ≡ saying Status.Done text.items }
    ensures report { result.report ≡ None }
{
    Answer {
        status: Status::Done,
        report: None,
        text,
    }
}

/// Reads the captures of a scenario, runs it, and writes the files that the run leaves and the journal's.
fn run_read<R: Threads + Sync, F: Files, G: Gate>(
    rt: &R,
    alloc: Global,
    scenario: Scenario,
    files: &mut F,
    gate: &G,
) -> Answer
    requires { runs_now scenario ≡ true }
    ensures { Follows
        F.tells
        (captures_script scenario scenario.captures most_captures [])
        (F.state files.old)
        (F.state files.new)
        result.report
        (saying result.status result.text.items) }
{
    let captures = match read_captures(alloc, scenario.captures(), files) {
        Ok(captures) => captures,
        Err(refusal) => return refused(refusal),
    };
    let Ok((outcome, report, scenario)) = run_scenario(rt, alloc, scenario, captures, gate) else {
        return starved(alloc);
    };
    let Ok(journal) = journal_files(alloc, scenario.journal(), &report) else {
        return starved(alloc);
    };
    write_report(alloc, outcome, report, &journal, files)
}

/// Runs the scenario that a file holds.
pub(crate) fn run_file<R: Threads + Sync, F: Files, G: Gate>(
    rt: &R,
    alloc: Global,
    file: FileName,
    files: &mut F,
    gate: &G,
) -> Answer
    ensures { Follows
        F.tells
        (command_script file Run)
        (F.state files.old)
        (F.state files.new)
        result.report
        (saying result.status result.text.items) }
{
    let scenario = match read_text(alloc, &file, files) {
        Ok(scenario) => scenario,
        Err(refusal) => return refused(refusal),
    };
    if !runs_now(&scenario) {
        return refused(refusal_of(alloc, Status::NotYet(file)));
    }
    run_read(rt, alloc, scenario, files, gate)
}

/// Reads the scenario that a file holds, and says that it is one.
pub(crate) fn check_file<F: Files>(alloc: Global, file: FileName, files: &mut F) -> Answer
    ensures { Follows
        F.tells
        (command_script file Check)
        (F.state files.old)
        (F.state files.new)
        result.report
        (saying result.status result.text.items) }
{
    match read_text(alloc, &file, files) {
        Ok(_) => {}
        Err(refusal) => return refused(refusal),
    }
    let Ok(text) = status_text(alloc, &Status::Done) else {
        return starved(alloc);
    };
    done(text)
}

/// The lines of a worker's actions.
fn plan_text(alloc: Global, scenario: &Scenario, worker: u32) -> Result<Vec<u8>, AllocError>
    requires { worker < scenario.now.settings.workers }
    ensures { IfOk result (λ text. text.items ≡ actions_text 1 (plan_of worker scenario.now)) }
{
    let actions = scenario.plan(alloc, worker)?;
    let mut text = Vec::new(alloc);
    push_actions(&mut text, &actions)?;
    Ok(text)
}

/// Prints the numbered actions of a worker of the scenario that a file holds.
pub(crate) fn actions_file<F: Files>(
    alloc: Global,
    file: FileName,
    worker: u32,
    files: &mut F,
) -> Answer
    ensures { Follows
        F.tells
        (command_script file (Actions worker))
        (F.state files.old)
        (F.state files.new)
        result.report
        (saying result.status result.text.items) }
{
    let scenario = match read_text(alloc, &file, files) {
        Ok(scenario) => scenario,
        Err(refusal) => return refused(refusal),
    };
    if worker >= scenario.settings().workers {
        return refused(refusal_of(alloc, Status::NoWorker(worker)));
    }
    let Ok(text) = plan_text(alloc, &scenario, worker) else {
        return starved(alloc);
    };
    done(text)
}
