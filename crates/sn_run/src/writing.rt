//! The files that a run writes, and the answer of a run that came to its end.
ghost use Rattle.sn_run.specs.Reported.{WrittenFile};
ghost use Rattle.sn_run.specs.Seen.{Written, WrittenUpTo};
ghost use Rattle.sn_run.specs.Steps.{EndsRun, PreparedFor, WriteStops, prepared, unwritten_all};
ghost use Rattle.sn_run.specs.Texts.{Said, said_of, saying};
ghost use Rattle.sn_run.specs.Ways.{finished, unwritten, way_of};
ghost use Rattle.std.specs.Prelude.{List, ℕ, IfErr, IfOk, OnOk, length, map, ◌++◌, ◌<◌, ◌≡◌};

use crate::answer::{Answer, Refusal, starved};
use crate::outcome::status_of;
use crate::texts::status_text;
use crate::{OutFile, Outcome, Report, Status};
use sn_outside::{FileFault, Files};
use std::alloc::{AllocError, Global};

/// The answer with this status.
fn answer_of(alloc: Global, status: Status) -> Result<Refusal, AllocError>
    ensures { IfOk result (λ made. saying made.status made.text.items ≡ said_of (way_of status)) }
{
    let text = status_text(alloc, &status)?;
    Ok(Refusal { status, text })
}

/// Appends the answers where these files are not written, one for each.
fn push_unwritten(
    alloc: Global,
    into: &mut Vec<Refusal>,
    outputs: &[OutFile],
) -> Result<(), AllocError>
    ensures { OnOk result (prepared into.new.items ≡ prepared into.old.items ++ unwritten_all outputs.now) }
{
    for output in outputs {
        let name = output.name.copy(alloc)?;
        into.push(answer_of(alloc, Status::WriteFault(name))?)?;
    }
    Ok(())
}

/// The answers where a file of these is not written, or one of those that follow them.
fn unwritten_answers(
    alloc: Global,
    outputs: &[OutFile],
    behind: &[OutFile],
) -> Result<Vec<Refusal>, AllocError>
    ensures { IfOk result (λ made. PreparedFor made.items (outputs.now ++ behind.now)) }
{
    let mut answers = Vec::new(alloc);
    push_unwritten(alloc, &mut answers, outputs)?;
    push_unwritten(alloc, &mut answers, behind)?;
    Ok(answers)
}

/// Writes files, in their order.
///
/// # Errors
/// The place of the first that was not written, and why; no later one is tried.
fn write_files<F: Files>(outputs: &[OutFile], files: &mut F) -> Result<(), (usize, FileFault)>
    ensures ok { OnOk result (Written F.tells (F.state files.old) (F.state files.new) outputs.now) }
    ensures err { IfErr result (λ stop. WriteStops F.tells (F.state files.old) (F.state files.new) outputs.now stop.0 stop.1) }
{
    for (at, output) in outputs.iter().enumerate() {
        match files.write(&output.name, &output.bytes) {
            Ok(()) => {}
            Err(fault) => return Err((at, fault)),
        }
    }
    Ok(())
}

/// Writes files, and those that follow them.
///
/// # Errors
/// The place among all of them of the first that was not written, and why; no later one is tried.
fn write_all<F: Files>(
    outputs: &[OutFile],
    behind: &[OutFile],
    files: &mut F,
) -> Result<(), (usize, FileFault)>
    ensures ok { OnOk result (Written F.tells (F.state files.old) (F.state files.new) (outputs.now ++ behind.now)) }
    ensures err { IfErr result
        (λ stop. WriteStops F.tells (F.state files.old) (F.state files.new) (outputs.now ++ behind.now) stop.0 stop.1) }
{
    match write_files(outputs, files) {
        Ok(()) => {}
        Err(stop) => return Err(stop),
    }
    match write_files(behind, files) {
        Ok(()) => Ok(()),
        Err((at, fault)) => Err((outputs.len() + at, fault)),
    }
}

/// Writes the files of a run, and those that follow them, and answers how it ended. No memory is taken from the first write on.
pub(crate) fn write_report<F: Files>(
    alloc: Global,
    ran: Outcome,
    report: Report,
    behind: &[OutFile],
    files: &mut F,
) -> Answer
    ensures { EndsRun
        F.tells
        (F.state files.old)
        (F.state files.new)
        (report.files ++ behind.now)
        ran
        report
        result.report
        (saying result.status result.text.items) }
{
    let Ok(done) = answer_of(alloc, status_of(ran)) else {
        return starved(alloc);
    };
    let Ok(mut faults) = unwritten_answers(alloc, &report.files, behind) else {
        return starved(alloc);
    };
    match write_all(&report.files, behind, files) {
        Ok(()) => answer_with(done, report),
        Err((at, FileFault::Failed)) => answer_with(faults.swap_remove(at), report),
        Err((_, FileFault::OutOfMemory)) => starved(alloc),
        Err((_, FileFault::TooLong)) => unreachable!(),
    }
}

/// The answer with this report.
fn answer_with(made: Refusal, report: Report) -> Answer
    ensures says { saying result.status result.text.items ≡ saying made.status made.text.items }
    ensures report { result.report ≡ Some report }
{
    let Refusal { status, text } = made;
    Answer {
        status,
        report: Some(report),
        text,
    }
}
