//! A scenario's text, read line by line.
ghost use Rattle.sn_scenario.specs.Cutting.{lines_of};
ghost use Rattle.sn_scenario.specs.DraftView.{reading_of};
ghost use Rattle.sn_scenario.specs.Parsing.{Parses, ReadsAll, fault_at};
ghost use Rattle.sn_scenario.specs.Results.{Gives};
ghost use Rattle.sn_scenario.specs.Scenarios.{IsBounded};
ghost use Rattle.sn_scenario.specs.ScenarioText.{finish, form_of, lines_from, scenario_of};
ghost use Rattle.std.specs.Prelude.{IfOk, Ok, length, map, ◌≡◌, ◌≤◌};

use crate::counts::counts_of;
use crate::cutting::{split_line, without_return};
use crate::draft::{Draft, begin, read_line};
use crate::fault::LineFault;
use crate::files::Files;
use crate::{ParseFault, Scenario, ScenarioFault, Why};
use sn_names::FileName;
use std::alloc::{AllocError, Global};
use std::collections::{BTreeMap, BTreeSet};

/// The fault of a line.
fn at_line(line: u64, fault: LineFault) -> ParseFault
    ensures { result ≡ fault_at line fault }
{
    match fault {
        LineFault::Bad(why) => ParseFault::Bad(ScenarioFault { line, why }),
        LineFault::OutOfMemory => ParseFault::OutOfMemory,
    }
}

/// Reads all lines of a text. What comes is the number of the line after the last.
#[tactic(auto, using(crate::proofs::LineSequence::lining))]
fn read_lines(alloc: Global, draft: &mut Draft, text: &[u8]) -> Result<u64, ParseFault>
    ensures { ReadsAll (reading_of draft.new) result (lines_from 1 (lines_of text.now) (reading_of draft.old)) }
{
    let mut rest = text;
    let mut number: u64 = 1;
    while !rest.is_empty() {
        let (line, behind) = split_line(rest);
        match read_line(alloc, draft, without_return(line)) {
            Ok(()) => {}
            Err(fault) => return Err(at_line(number, fault)),
        }
        number += 1;
        rest = behind;
    }
    Ok(number)
}

/// The captures as a list.
fn captures_of(alloc: Global, captures: BTreeSet<FileName>) -> Result<Vec<FileName>, AllocError>
    ensures { IfOk result (λ names. names.items ≡ captures.keys) }
{
    captures.into_iter().collect(alloc)
}

/// The outputs as a list.
fn outputs_of(alloc: Global, outputs: BTreeMap<FileName, u32>) -> Result<Vec<FileName>, AllocError>
    ensures { IfOk result (λ names. names.items ≡ map (λ output. output.0) outputs.entries) }
{
    outputs.into_keys().collect(alloc)
}

/// The scenario that was read whole, at the end of its text.
#[tactic(auto, unfolding(crate::specs::ScenarioText::finish))]
fn finish(alloc: Global, mut draft: Draft) -> Result<Scenario, LineFault>
    requires { IfOk (finish (reading_of draft)) IsBounded }
    ensures { Gives (λ s. s) result (finish (reading_of draft)) }
{
    if !draft.headed {
        return Err(LineFault::Bad(Why::Header));
    }
    if draft.current.is_some() {
        return Err(LineFault::Bad(Why::NoEnd));
    }
    begin(&mut draft)?;
    whole(alloc, draft)
}

/// The scenario of what was read whole.
fn whole(alloc: Global, draft: Draft) -> Result<Scenario, LineFault>
    requires { IsBounded (form_of (reading_of draft)) }
    ensures { Gives (λ s. s) result (Ok (form_of (reading_of draft))) }
{
    let settings = draft.given.settings();
    let Draft {
        headed: _,
        begun: _,
        given,
        lanes,
        placed,
        current,
        stops,
        files,
    } = draft;
    drop(current);
    let Files { captures, outputs } = files;
    let captures = captures_of(alloc, captures)?;
    let outputs = outputs_of(alloc, outputs)?;
    let counts = counts_of(alloc, &placed)?;
    Ok(Scenario {
        settings,
        lanes,
        journal: given.journal,
        placed,
        stops,
        captures,
        outputs,
        counts,
    })
}

impl Scenario {
    /// The scenario that a text spells, of at most 1,048,576 bytes.
    ///
    /// # Errors
    /// Its first faulty line with its first failing check, exactly where it spells none; else want
    /// of memory.
    pub fn parse(alloc: Global, bytes: &[u8]) -> Result<Scenario, ParseFault>
        requires { length bytes.now ≤ 1048576 }
        // The scenario, or the fault, that the definition has for this text.
        ensures exact { Parses result (scenario_of bytes.now) }
        ensures bounds { IfOk result IsBounded }
    {
        let mut draft = Draft::new(alloc);
        let number = match read_lines(alloc, &mut draft, bytes) {
            Ok(number) => number,
            Err(fault) => return Err(fault),
        };
        match finish(alloc, draft) {
            Ok(scenario) => Ok(scenario),
            Err(fault) => Err(at_line(number, fault)),
        }
    }
}
