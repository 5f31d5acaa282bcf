//! The texts of answers.
ghost use Rattle.sn_run.specs.Texts.{fault_text, text_line, text_of, why_text};
ghost use Rattle.sn_run.specs.Ways.{no_capture, no_scenario};
ghost use Rattle.std.specs.Fmt.{decimal};
ghost use Rattle.std.specs.Prelude.{List, [], ◌∷◌, ◌++◌, IfOk, IsTrue, bytes_eq, ◌≡◌, ◌↔◌};

use crate::Status;
use sn_names::{FileName, push_decimal};
use sn_pcap::PcapFault;
use sn_scenario::ScenarioFault;
use std::alloc::{AllocError, Global};

/// What is printed where the words are no command.
pub(crate) const USAGE: &[u8] =
    b"usage: snabbrt run FILE, check FILE, actions FILE WORKER, load N\n";

/// Whether the two are the same bytes.
pub(crate) fn is_same(a: &[u8], b: &[u8]) -> bool
    ensures same { IsTrue result ↔ (a.now ≡ b.now) }
    ensures equal { result ≡ bytes_eq a.now b.now }
{
    a == b
}

/// A line of words and what they speak of.
fn line_of(alloc: Global, words: &[u8], of: &[u8]) -> Result<Vec<u8>, AllocError>
    ensures { IfOk result (λ text. text.items ≡ text_line words.now of.now) }
{
    let mut text = Vec::from_slice(alloc, words)?;
    text.extend_from_slice(of)?;
    text.push(b'\n')?;
    Ok(text)
}

/// A line of words and a number.
fn number_of(alloc: Global, words: &[u8], n: u64) -> Result<Vec<u8>, AllocError>
    ensures { IfOk result (λ text. text.items ≡ text_line words.now (decimal n)) }
{
    let mut text = Vec::from_slice(alloc, words)?;
    push_decimal(&mut text, n)?;
    text.push(b'\n')?;
    Ok(text)
}

/// The word for a capture's fault, with the number of a cut record.
fn fault_word(alloc: Global, fault: PcapFault) -> Result<Vec<u8>, AllocError>
    ensures { IfOk result (λ text. text.items ≡ fault_text fault) }
{
    match fault {
        PcapFault::ShortHeader => Vec::from_slice(alloc, b"short-header"),
        PcapFault::BadMagic => Vec::from_slice(alloc, b"bad-magic"),
        PcapFault::BadVersion => Vec::from_slice(alloc, b"bad-version"),
        PcapFault::CutRecord { nth } => {
            let mut word = Vec::from_slice(alloc, b"cut-record ")?;
            push_decimal(&mut word, nth)?;
            Ok(word)
        }
    }
}

/// The line for a file that is no capture.
fn capture_text(alloc: Global, name: &FileName, fault: PcapFault) -> Result<Vec<u8>, AllocError>
    ensures { IfOk result (λ text. text.items ≡ why_text (no_capture name.now fault)) }
{
    let word = fault_word(alloc, fault)?;
    let mut text = Vec::from_slice(alloc, b"capture ")?;
    text.extend_from_slice(name.as_str().as_bytes())?;
    text.push(b' ')?;
    text.extend_from_slice(&word)?;
    text.push(b'\n')?;
    Ok(text)
}

/// The line for a text that is no scenario.
fn scenario_text(alloc: Global, fault: ScenarioFault) -> Result<Vec<u8>, AllocError>
    ensures { IfOk result (λ text. text.items ≡ why_text (no_scenario fault)) }
{
    let mut text = Vec::from_slice(alloc, b"scenario line ")?;
    push_decimal(&mut text, fault.line)?;
    text.push(b' ')?;
    text.extend_from_slice(fault.why.word().as_bytes())?;
    text.push(b'\n')?;
    Ok(text)
}

/// The text of an answer.
///
/// # Errors
/// Want of memory.
pub(crate) fn status_text(alloc: Global, status: &Status) -> Result<Vec<u8>, AllocError>
    ensures { IfOk result (λ text. text.items ≡ text_of status.now) }
{
    match status {
        Status::Drained => line_of(alloc, b"status drained", b""),
        Status::RoundsUsed(left) => number_of(alloc, b"status rounds-used ", *left),
        Status::JournalLimit(worker) => {
            number_of(alloc, b"status journal-limit ", u64::from(*worker))
        }
        Status::BadWords => Vec::from_slice(alloc, USAGE),
        Status::Done => line_of(alloc, b"ok", b""),
        Status::NoWorker(worker) => number_of(alloc, b"no worker ", u64::from(*worker)),
        Status::BadScenario(fault) => scenario_text(alloc, *fault),
        Status::NotYet(name) => line_of(alloc, b"not yet ", name.as_str().as_bytes()),
        Status::BadPcap(name, fault) => capture_text(alloc, name, *fault),
        Status::ReadFault(name) => line_of(alloc, b"cannot read ", name.as_str().as_bytes()),
        Status::TooLong(name) => line_of(alloc, b"too long ", name.as_str().as_bytes()),
        Status::WriteFault(name) => line_of(alloc, b"cannot write ", name.as_str().as_bytes()),
        Status::PrintFault | Status::OutOfMemory => Ok(Vec::new(alloc)),
    }
}
