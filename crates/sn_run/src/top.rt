//! The top call: from the words of a command to its text.
ghost use Rattle.sn_outside.specs.Counts.{FaultCounted};
ghost use Rattle.sn_run.specs.Answers.{answer_of, ended_by, has_report, Answered, FaultsCounted, Headline, IsCaused, IsDue};
ghost use Rattle.sn_run.specs.Answers.{IsTextOf, Leaves};
ghost use Rattle.sn_run.specs.Calls.{CallsMade, IsLikeOrStarved};
ghost use Rattle.sn_run.specs.Commands.{IsCommand, texts};
ghost use Rattle.sn_run.specs.Courses.{Course, Follows};
ghost use Rattle.sn_run.specs.Expectations.{Expected};
ghost use Rattle.sn_run.specs.Printed.{TookAll, TookAllOf, TookFront, TookFrontOf, sunk};
ghost use Rattle.sn_run.specs.Scripts.{command_script};
ghost use Rattle.sn_run.specs.Seen.{seen};
ghost use Rattle.sn_run.specs.Texts.{Said, saying};
ghost use Rattle.sn_run.specs.Ways.{way_of};
ghost use Rattle.std.specs.Prelude.{ℕ, List, true, Some, None, IfOk, IfSome, IsSome, is_some, map, string_bytes, length};
ghost use Rattle.std.specs.Prelude.{◌≡◌, ◌≢◌, ◌⊎◌, ◌↔◌, ◌≤◌};

use crate::answer::{Answer, starved};
use crate::command::{Command, command_of};
use crate::commands::{actions_file, check_file, run_file};
use crate::printing::print_text;
use crate::texts::USAGE;
use crate::{Ended, Report, Status};
use sn_names::{FileName, NameFault};
use sn_outside::{Files, Gate, Sink};
use sn_pcap::{no_fault, one_fault};
use std::alloc::{AllocError, Global};
use std::thread::Threads;

/// Prints an answer's text, and ends with the answer, or with the fault of printing it.
pub(crate) fn finish<O: Sink>(
    status: Status,
    report: Option<Report>,
    text: &[u8],
    out: &mut O,
) -> Ended
    requires answer { status ≢ Status.PrintFault }
    ensures answer { answer_of result ≡ status }
    ensures report { result.report ≡ report }
    ensures replaced { IsSome result.replaced ↔ (result.status ≡ Status.PrintFault) }
    ensures text { result.status ≢ Status.PrintFault → TookAll (sunk O.tells (O.state out.old) (O.state out.new)) text.now }
    ensures front { result.status ≡ Status.PrintFault → TookFront (sunk O.tells (O.state out.old) (O.state out.new)) text.now }
    ensures print_fault { result.status ≡ Status.PrintFault → FaultCounted (O.state out.old).faults (O.state out.new).faults }
    ensures still { result.status ≢ Status.PrintFault → (O.state out.new).faults ≡ (O.state out.old).faults }
{
    match print_text(out, text) {
        Ok(()) => Ended {
            status,
            replaced: None,
            report,
        },
        Err(_) => Ended {
            status: Status::PrintFault,
            replaced: Some(status),
            report,
        },
    }
}

/// The name of a command's file.
fn file_name(alloc: Global, file: &str) -> Result<FileName, AllocError>
    requires filled { 1 ≤ length file.now }
    requires short { length file.now ≤ 4096 }
    ensures { IfOk result (λ name. name ≡ file.now) }
{
    match FileName::of(alloc, file.as_bytes()) {
        Ok(name) => Ok(name),
        Err(NameFault::OutOfMemory) => Err(AllocError),
        Err(NameFault::At(_)) => unreachable!(),
    }
}

/// Does with its file what a command asks for.
fn run_command<R: Threads + Sync, F: Files, G: Gate>(
    rt: &R,
    alloc: Global,
    file: &str,
    command: Command,
    files: &mut F,
    gate: &G,
) -> Answer
    requires filled { 1 ≤ length file.now }
    requires short { length file.now ≤ 4096 }
    ensures { Follows
        F.tells
        (command_script file.now command)
        (F.state files.old)
        (F.state files.new)
        result.report
        (saying result.status result.text.items) }
{
    let Ok(name) = file_name(alloc, file) else {
        return starved(alloc);
    };
    match command {
        Command::Run => run_file(rt, alloc, name, files, gate),
        Command::Check => check_file(alloc, name, files),
        Command::Actions(worker) => actions_file(alloc, name, worker, files),
    }
}

/// Answers the words of a command, and prints the answer.
fn answer_words<R: Threads + Sync, F: Files, O: Sink, G: Gate>(
    rt: &R,
    alloc: Global,
    words: &[String],
    files: &mut F,
    out: &mut O,
    gate: &G,
) -> Ended
    ensures answered { Answered
        (seen F.tells (F.state files.old) (F.state files.new))
        (sunk O.tells (O.state out.old) (O.state out.new))
        (texts words.now)
        result }
    ensures replaced { IsSome result.replaced ↔ (result.status ≡ Status.PrintFault) }
    ensures print_fault { result.status ≡ Status.PrintFault → FaultCounted (O.state out.old).faults (O.state out.new).faults }
    ensures still { result.status ≢ Status.PrintFault → (O.state out.new).faults ≡ (O.state out.old).faults }
{
    let Some((file, command)) = command_of(words) else {
        return finish(Status::BadWords, None, USAGE, out);
    };
    let answer = run_command(rt, alloc, file, command, files, gate);
    let Answer {
        status,
        report,
        text,
    } = answer;
    finish(status, report, &text, out)
}

/// Runs a command: `run FILE` runs the scenario that the file holds, `check FILE` reads it and says
/// `ok`, and `actions FILE WORKER` prints the numbered actions of a worker from 0 to 15.
///
/// The words are those after the program's name, and the file's has 1 to 4096 bytes. The scenario is
/// read first, and of a run its captures then; then its files are written, and last the text is
/// printed.
///
/// The work of each round is done in threads; where one can't be started, the caller does its work. The gate is called in the
/// rounds, before each step on what workers share but those that go on with what another began, and not while workers are
/// closed. No clause says, but holds: no memory is taken from the first write on.
pub fn snabb_main<R: Threads + Sync, F: Files, O: Sink, G: Gate>(
    rt: &R,
    alloc: Global,
    words: &[String],
    files: &mut F,
    out: &mut O,
    gate: &G,
) -> Ended
    // What words, files and their answers make of the call: its script, followed step by step, and its text, which the
    // sink took.
    ensures answered { Answered
        (seen F.tells (F.state files.old) (F.state files.new))
        (sunk O.tells (O.state out.old) (O.state out.new))
        (texts words.now)
        result }

    // A report is that of a run of the scenario and the captures that were read, and comes just with these answers. The files
    // hold what the run made.
    ensures headline { IfSome result.report
        (Headline (seen F.tells (F.state files.old) (F.state files.new)) (texts words.now) (ended_by result)) }
    ensures reports { is_some result.report ≡ has_report (ended_by result) }
    ensures leaves { F.tells ≡ true
        → Leaves (seen F.tells (F.state files.old) (F.state files.new)) (texts words.now) result.report (ended_by result) }

    // The calls made are the script's, in their order, up to the first that was refused.
    ensures calls { CallsMade (seen F.tells (F.state files.old) (F.state files.new)) (texts words.now) (ended_by result) }

    // When each answer comes.
    ensures bad_words { (answer_of result ≡ Status.BadWords) ↔ (IsCommand (texts words.now) → ⊥) }
    ensures caused { IsCaused (seen F.tells (F.state files.old) (F.state files.new)) (texts words.now) (ended_by result) }
    ensures expected { (said : Said)
        → IsDue (seen F.tells (F.state files.old) (F.state files.new)) (texts words.now) said
        → IsLikeOrStarved (ended_by result) said.way }
    ensures faults { FaultsCounted (F.state files.old).faults (F.state files.new).faults (ended_by result) }

    // What is printed of a scenario that was read alone.
    ensures shown { (said : Said)
        → F.tells ≡ true
        → Expected (F.state files.old).contents (texts words.now) said
        → result.status ≡ Status.Done
        → TookAll (sunk O.tells (O.state out.old) (O.state out.new)) said.text }

    // What the sink took.
    ensures replaced { IsSome result.replaced ↔ (result.status ≡ Status.PrintFault) }
    ensures never_replaced { result.replaced ≢ Some Status.PrintFault }
    ensures text { result.status ≢ Status.PrintFault
        → TookAllOf
        (sunk O.tells (O.state out.old) (O.state out.new))
        (IsTextOf (seen F.tells (F.state files.old) (F.state files.new)) (texts words.now) (ended_by result)) }
    ensures front { result.status ≡ Status.PrintFault
        → TookFrontOf
        (sunk O.tells (O.state out.old) (O.state out.new))
        (IsTextOf (seen F.tells (F.state files.old) (F.state files.new)) (texts words.now) (ended_by result)) }
    ensures print_fault { result.status ≡ Status.PrintFault → FaultCounted (O.state out.old).faults (O.state out.new).faults }
    ensures still { result.status ≢ Status.PrintFault → (O.state out.new).faults ≡ (O.state out.old).faults }
{
    // The laws of captures, on which the causes rest.
    one_fault();
    no_fault();
    answer_words(rt, alloc, words, files, out, gate)
}
