//! The files that a command reads.
ghost use Rattle.sn_run.specs.Seen.{ReadGave, ReadRefused};
ghost use Rattle.sn_run.specs.Steps.{CaptureEnds, CapturesEnd, GaveCapture, GaveText, LeadOn, RefusesText, TextEnds};
ghost use Rattle.sn_run.specs.Texts.{SaysOrStarves, saying, unread_said};
ghost use Rattle.sn_scenario.specs.ScenarioText.{scenario_of};
ghost use Rattle.std.specs.Prelude.{List, ℕ, IfErr, IfOk, Ok, length, ◌≡◌, ◌≤◌};

use crate::Status;
use crate::answer::{Refusal, out_of_memory, refusal_of};
use sn_names::{FileName, MAX_CAPTURE, MAX_SCENARIO};
use sn_outside::{FileFault, Files};
use sn_pcap::Capture;
use sn_scenario::{ParseFault, Scenario};
use std::alloc::Global;

/// The most bytes of all captures of a run: 64 MiB, four of the longest, since they are held in
/// memory together.
const MAX_CAPTURES: u64 = 67_108_864;

/// The refusal where a file was not read.
fn unread(alloc: Global, name: &FileName, fault: FileFault) -> Refusal
    ensures { SaysOrStarves (saying result.status result.text.items) (unread_said name.now fault) }
{
    let Ok(name) = name.copy(alloc) else {
        return out_of_memory(alloc);
    };
    match fault {
        FileFault::Failed => refusal_of(alloc, Status::ReadFault(name)),
        FileFault::TooLong => refusal_of(alloc, Status::TooLong(name)),
        FileFault::OutOfMemory => out_of_memory(alloc),
    }
}

/// The bytes of a file, at most `limit` of them.
fn read_whole<F: Files>(
    alloc: Global,
    name: &FileName,
    limit: u64,
    files: &mut F,
) -> Result<Vec<u8>, FileFault>
    ensures ok { IfOk result (λ bytes. ReadGave F.tells (F.state files.old) (F.state files.new) name.now limit bytes.items) }
    ensures err { IfErr result (λ fault. ReadRefused F.tells (F.state files.old) (F.state files.new) name.now limit fault) }
{
    let mut bytes = Vec::new(alloc);
    match files.read(name, limit, &mut bytes) {
        Ok(()) => Ok(bytes),
        Err(fault) => Err(fault),
    }
}

/// The scenario that a text spells.
///
/// # Errors
/// The answer that ends the command: the text's first fault, or want of memory.
fn parse_text(alloc: Global, text: &[u8]) -> Result<Scenario, Refusal>
    requires { length text.now ≤ 1048576 }
    ensures ok { IfOk result (λ scenario. scenario_of text.now ≡ Ok scenario) }
    ensures err { IfErr result (λ refusal. RefusesText text.now (saying refusal.status refusal.text.items)) }
{
    match Scenario::parse(alloc, text) {
        Ok(scenario) => Ok(scenario),
        Err(ParseFault::Bad(fault)) => Err(refusal_of(alloc, Status::BadScenario(fault))),
        Err(ParseFault::OutOfMemory) => Err(out_of_memory(alloc)),
    }
}

/// The scenario that a file holds.
///
/// # Errors
/// The answer that ends the command: the file was not read, is too long, or holds no scenario, or
/// want of memory.
pub(crate) fn read_text<F: Files>(
    alloc: Global,
    file: &FileName,
    files: &mut F,
) -> Result<Scenario, Refusal>
    ensures ok { IfOk result (λ scenario. GaveText F.tells (F.state files.old) (F.state files.new) file.now scenario) }
    ensures err { IfErr result
        (λ r. TextEnds F.tells (F.state files.old) (F.state files.new) file.now (saying r.status r.text.items)) }
{
    let text = match read_whole(alloc, file, MAX_SCENARIO, files) {
        Ok(text) => text,
        Err(fault) => return Err(unread(alloc, file, fault)),
    };
    parse_text(alloc, &text)
}

/// The capture that a file holds, in at most `limit` bytes, and how many these are.
///
/// # Errors
/// The answer that ends the run: the file was not read, is too long, or holds no capture, or want
/// of memory.
fn read_capture<F: Files>(
    alloc: Global,
    name: &FileName,
    limit: u64,
    files: &mut F,
) -> Result<(Capture, u64), Refusal>
    ensures ok { IfOk result (λ read. GaveCapture F.tells (F.state files.old) (F.state files.new) name.now limit read.0) }
    ensures len { IfOk result (λ read. read.1 ≡ length read.0) }
    ensures err { IfErr result
        (λ r. CaptureEnds F.tells (F.state files.old) (F.state files.new) name.now limit (saying r.status r.text.items)) }
{
    let bytes = match read_whole(alloc, name, limit, files) {
        Ok(bytes) => bytes,
        Err(fault) => return Err(unread(alloc, name, fault)),
    };
    let len = bytes.len() as u64;
    match Capture::open(bytes) {
        Ok(capture) => Ok((capture, len)),
        Err(fault) => {
            let Ok(name) = name.copy(alloc) else {
                return Err(out_of_memory(alloc));
            };
            Err(refusal_of(alloc, Status::BadPcap(name, fault)))
        }
    }
}

/// The captures of these names, read in their order: each at most 16 MiB, and all at most 64 MiB.
///
/// # Errors
/// The answer that ends the run, as for one capture; later ones aren't read.
pub(crate) fn read_captures<F: Files>(
    alloc: Global,
    names: &[FileName],
    files: &mut F,
) -> Result<Vec<Capture>, Refusal>
    ensures count { IfOk result (λ read. length read.items ≡ length names.now) }
    ensures ok { IfOk result
        (λ read. LeadOn F.tells (F.state files.old) (F.state files.new) names.now read.items) }
    ensures err { IfErr result
        (λ r. CapturesEnd F.tells (F.state files.old) (F.state files.new) names.now (saying r.status r.text.items)) }
{
    let mut captures = Vec::new(alloc);
    let mut room = MAX_CAPTURES;
    for name in names {
        let (capture, len) = match read_capture(alloc, name, room.min(MAX_CAPTURE), files) {
            Ok(read) => read,
            Err(refusal) => return Err(refusal),
        };
        match captures.push(capture) {
            Ok(()) => {}
            Err(_) => return Err(out_of_memory(alloc)),
        }
        room -= len;
    }
    Ok(captures)
}
