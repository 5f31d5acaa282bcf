//! A trial of an app: a source, a sample and the app, called in turn over one bench, and what is there at the end.
ghost use Rattle.std.specs.Prelude.{◌≡◌, ◌<◌, IfOk, OnOk, length};
ghost use Rattle.sn_packet.specs.Hold.{used_of};
ghost use Rattle.sn_app.specs.Bench.{tray_of};
ghost use Rattle.app_rig.specs.Rigs.{IsWhole};

use crate::rig::{At, Rig};
use sn_app::{App, Bench};
use sn_basic::{Sample, Source};
use std::alloc::Global;
use std::test::Fail;

/// Who is called in a turn.
#[derive(Clone, Copy, Debug, PartialEq, Eq)]
pub enum Who {
    Source,
    Sample,
    App,
}

/// A call of one of them, with its inputs and outputs.
#[derive(Clone, Copy)]
pub struct Turn<'a> {
    pub who: Who,
    pub ins: &'a [(&'a str, At)],
    pub outs: &'a [(&'a str, At)],
}

/// The source is called, beside the app.
fn source_turn<A: App<Bench>>(
    alloc: Global,
    rig: &mut Rig,
    source: &mut Source,
    app: &A,
    turn: Turn<'_>,
) -> Result<(), Fail>
    requires rig { IsWhole rig.old.bench rig.old.links.slots rig.old.some rig.old.more
        (A.places app.now) }
    requires ready { A.can_run app.now (tray_of rig.old.bench) }
    requires row { source.old.row < length rig.old.bench.roster.apps }
    ensures rig { OnOk result (IsWhole rig.new.bench rig.new.links.slots rig.new.some rig.new.more
        (A.places app.now)) }
    ensures ready { OnOk result (A.can_run app.now (tray_of rig.new.bench)) }
    ensures row { OnOk result (source.new.row < length rig.new.bench.roster.apps) }
    ensures apps { length rig.new.bench.roster.apps ≡ length rig.old.bench.roster.apps }
{
    rig.pull(alloc, source, turn.outs)?;
    Ok(())
}

/// The sample is called, beside the app.
fn sample_turn<A: App<Bench>>(
    alloc: Global,
    rig: &mut Rig,
    sample: &mut Sample,
    app: &A,
    turn: Turn<'_>,
) -> Result<(), Fail>
    requires rig { IsWhole rig.old.bench rig.old.links.slots rig.old.some rig.old.more
        (A.places app.now) }
    requires ready { A.can_run app.now (tray_of rig.old.bench) }
    requires row { sample.old.row < length rig.old.bench.roster.apps }
    ensures rig { OnOk result (IsWhole rig.new.bench rig.new.links.slots rig.new.some rig.new.more
        (A.places app.now)) }
    ensures ready { OnOk result (A.can_run app.now (tray_of rig.new.bench)) }
    ensures row { OnOk result (sample.new.row < length rig.new.bench.roster.apps) }
    ensures apps { length rig.new.bench.roster.apps ≡ length rig.old.bench.roster.apps }
{
    rig.push(alloc, sample, turn.ins, turn.outs)?;
    Ok(())
}

/// One turn.
fn one_turn<A: App<Bench>>(
    alloc: Global,
    rig: &mut Rig,
    source: &mut Source,
    sample: &mut Sample,
    app: &mut A,
    turn: Turn<'_>,
) -> Result<(), Fail>
    requires rig { IsWhole rig.old.bench rig.old.links.slots rig.old.some rig.old.more
        (A.places app.old) }
    requires ready { A.can_run app.old (tray_of rig.old.bench) }
    requires source { source.old.row < length rig.old.bench.roster.apps }
    requires sample { sample.old.row < length rig.old.bench.roster.apps }
    ensures rig { OnOk result (IsWhole rig.new.bench rig.new.links.slots rig.new.some rig.new.more
        (A.places app.new)) }
    ensures ready { OnOk result (A.can_run app.new (tray_of rig.new.bench)) }
    ensures source { OnOk result (source.new.row < length rig.new.bench.roster.apps) }
    ensures sample { OnOk result (sample.new.row < length rig.new.bench.roster.apps) }
    ensures apps { length rig.new.bench.roster.apps ≡ length rig.old.bench.roster.apps }
{
    match turn.who {
        Who::Source => source_turn(alloc, rig, source, app, turn),
        Who::Sample => sample_turn(alloc, rig, sample, app, turn),
        Who::App => rig.push(alloc, app, turn.ins, turn.outs),
    }
}

/// All turns, in their order.
///
/// # Errors
/// Those of the calls.
pub fn trial<A: App<Bench>>(
    alloc: Global,
    rig: &mut Rig,
    source: &mut Source,
    sample: &mut Sample,
    app: &mut A,
    turns: &[Turn<'_>],
) -> Result<(), Fail>
    requires rig { IsWhole rig.old.bench rig.old.links.slots rig.old.some rig.old.more
        (A.places app.old) }
    requires ready { A.can_run app.old (tray_of rig.old.bench) }
    requires source { source.old.row < length rig.old.bench.roster.apps }
    requires sample { sample.old.row < length rig.old.bench.roster.apps }
    ensures rig { OnOk result (IsWhole rig.new.bench rig.new.links.slots rig.new.some rig.new.more
        (A.places app.new)) }
    ensures ready { OnOk result (A.can_run app.new (tray_of rig.new.bench)) }
    ensures apps { length rig.new.bench.roster.apps ≡ length rig.old.bench.roster.apps }
{
    for turn in turns {
        one_turn(alloc, rig, source, sample, app, *turn)?;
    }
    Ok(())
}
