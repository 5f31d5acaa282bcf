//! What no clause says: that apps do what their classes mean where there is memory, on links that one can count.
ghost use Rattle.std.specs.Prelude.{◌≡◌, ◌≤◌, ℕ, IfOk, length};
ghost use Rattle.sn_app.specs.Bench.{tray_of};
ghost use Rattle.sn_config.specs.ArgText.{IsArgOf};
ghost use Rattle.sn_names.specs.declared.class.Class.{Class};

use super::*;
use sn_app::{App, Bench, Counter, Halt};
use sn_basic::{ByteFilter, Join, Repeater, Sample, Sink, Source, Split, Tee, Truncate};
use sn_names::{Arg, Name, Roster};
use std::alloc::Global;
use std::test::Fail;

/// The names of three apps.
fn three_apps(alloc: Global) -> Result<Roster, Fail>
    ensures apps { IfOk result (λ roster. length roster.apps ≡ 3) }
    ensures links { IfOk result (λ roster. length roster.links ≡ 0) }
    ensures captures { IfOk result (λ roster. length roster.captures ≡ 0) }
    ensures files { IfOk result (λ roster. length roster.files ≡ 0) }
    ensures lanes { IfOk result (λ roster. length roster.lanes ≡ 0) }
{
    Ok(Roster {
        apps: vec![in alloc;
            Name::parse(alloc, b"a")?,
            Name::parse(alloc, b"b")?,
            Name::parse(alloc, b"c")?,
        ]?,
        links: Vec::new(alloc),
        captures: Vec::new(alloc),
        files: Vec::new(alloc),
        lanes: Vec::new(alloc),
    })
}

/// A bench of so many packets, with three rows of apps.
fn bench_of(alloc: Global, frees: u32) -> Result<Bench, Fail>
    requires some { 1 ≤ frees }
    requires most { frees ≤ 16384 }
    ensures { IfOk result (λ bench. length bench.roster.apps ≡ 3) }
{
    let names = three_apps(alloc)?;
    Ok(Bench::new(alloc, frees, names, Vec::new(alloc), Vec::new(alloc))?)
}

/// A source at row 0, of packets of this size.
fn source_of(bench: &mut Bench, size: &Arg) -> Result<Source, Halt>
    requires apps { length bench.old.roster.apps ≡ 3 }
    requires arg { IsArgOf Class.Source size.now }
    ensures row { IfOk result (λ source. source.row ≡ 0) }
    ensures same { bench.new ≡ bench.old }
{
    Source::start(bench, 0, size)
}

/// A sample at row 1, of every nth packet.
fn sample_of(bench: &mut Bench, n: u64) -> Result<Sample, Halt>
    requires apps { length bench.old.roster.apps ≡ 3 }
    requires some { 1 ≤ n }
    requires most { n ≤ 1000000 }
    ensures row { IfOk result (λ sample. sample.row ≡ 1) }
    ensures same { bench.new ≡ bench.old }
{
    Sample::start(bench, 1, &Arg::Number(n))
}

/// What is there after these turns of a source at row 0, a sample at row 1 and an app at row 2: the app's counts of packets, of
/// dropped ones and of calls that found none free, how many packets the four links have, how many bytes were sent on each,
/// and 1 where the third and the fourth have other places at their fronts.
fn after<A: App<Bench> + Drop>(
    alloc: Global,
    bench: Bench,
    mut source: Source,
    mut sample: Sample,
    mut app: A,
    turns: &[Turn<'_>],
) -> Result<[u64; 12], Fail>
    requires apps { length bench.roster.apps ≡ 3 }
    requires source { source.row ≡ 0 }
    requires sample { sample.row ≡ 1 }
    requires ready { A.can_run app (tray_of bench) }
    requires none { (place : ℕ) → A.places app place ≡ 0 }
{
    let mut rig = Rig::new(alloc, bench)?;
    trial(alloc, &mut rig, &mut source, &mut sample, &mut app, turns)?;
    let counters = rig.bench.counters();
    let (first, second) = (rig.seen(At::First), rig.seen(At::Second));
    let (third, fourth) = (rig.seen(At::Third), rig.seen(At::Fourth));
    Ok([
        counters.app(2, Counter::Packets),
        counters.app(2, Counter::Dropped),
        counters.app(2, Counter::Dry),
        first.0 as u64,
        second.0 as u64,
        third.0 as u64,
        fourth.0 as u64,
        first.1.txbytes,
        second.1.txbytes,
        third.1.txbytes,
        fourth.1.txbytes,
        (rig.front(At::Third) != rig.front(At::Fourth)) as u64,
    ])
}

#[test]
fn a_sink_frees_all_of_every_input(rt: HostRuntime) -> Result<(), Fail> {
    let alloc = rt.alloc();
    let mut bench = bench_of(alloc, 103)?;
    let (source, sample) = (
        source_of(&mut bench, &Arg::Nothing)?,
        sample_of(&mut bench, 1)?,
    );
    let app = Sink::start(&mut bench, 2, &Arg::Nothing)?;
    let turns = [
        Turn {
            who: Who::Source,
            ins: &[],
            outs: &[("x", At::First), ("y", At::Second)],
        },
        Turn {
            who: Who::App,
            ins: &[],
            outs: &[],
        },
        Turn {
            who: Who::App,
            ins: &[("x", At::First), ("y", At::Second)],
            outs: &[],
        },
    ];
    let seen = after(alloc, bench, source, sample, app, &turns)?;
    assert_eq!(rt; seen, [103, 0, 0, 0, 0, 0, 0, 6120, 60, 0, 0, 0]);
    Ok(())
}

#[test]
fn a_tee_sends_a_copy_and_the_packet_itself(rt: HostRuntime) -> Result<(), Fail> {
    let alloc = rt.alloc();
    let mut bench = bench_of(alloc, 2)?;
    let (source, sample) = (
        source_of(&mut bench, &Arg::Nothing)?,
        sample_of(&mut bench, 2)?,
    );
    let app = Tee::start(alloc, &mut bench, 2, &Arg::Nothing)?;
    let turns = [
        Turn {
            who: Who::Source,
            ins: &[],
            outs: &[("output", At::First)],
        },
        Turn {
            who: Who::Sample,
            ins: &[("input", At::First)],
            outs: &[("output", At::Second)],
        },
        Turn {
            who: Who::App,
            ins: &[("x", At::Second)],
            outs: &[],
        },
        Turn {
            who: Who::App,
            ins: &[("x", At::Second)],
            outs: &[("a", At::Third), ("b", At::Fourth)],
        },
    ];
    let seen = after(alloc, bench, source, sample, app, &turns)?;
    assert_eq!(rt; seen, [1, 0, 0, 0, 0, 1, 1, 120, 60, 60, 60, 1]);
    Ok(())
}

#[test]
fn a_tee_leaves_a_packet_of_which_no_copy_can_be_made(rt: HostRuntime) -> Result<(), Fail> {
    let alloc = rt.alloc();
    let mut bench = bench_of(alloc, 1)?;
    let (source, sample) = (
        source_of(&mut bench, &Arg::Nothing)?,
        sample_of(&mut bench, 2)?,
    );
    let app = Tee::start(alloc, &mut bench, 2, &Arg::Nothing)?;
    let turns = [
        Turn {
            who: Who::Source,
            ins: &[],
            outs: &[("output", At::First)],
        },
        Turn {
            who: Who::App,
            ins: &[("x", At::First)],
            outs: &[("a", At::Third), ("b", At::Fourth)],
        },
    ];
    let seen = after(alloc, bench, source, sample, app, &turns)?;
    assert_eq!(rt; seen, [0, 0, 1, 1, 0, 0, 0, 60, 0, 0, 0, 0]);
    Ok(())
}

#[test]
fn a_join_sends_what_every_input_has_on_one_output(rt: HostRuntime) -> Result<(), Fail> {
    let alloc = rt.alloc();
    let mut bench = bench_of(alloc, 103)?;
    let (source, sample) = (
        source_of(&mut bench, &Arg::Nothing)?,
        sample_of(&mut bench, 1)?,
    );
    let app = Join::start(&mut bench, 2, &Arg::Nothing)?;
    let turns = [
        Turn {
            who: Who::Source,
            ins: &[],
            outs: &[("x", At::First), ("y", At::Second)],
        },
        Turn {
            who: Who::App,
            ins: &[("x", At::First), ("y", At::Second)],
            outs: &[("other", At::Third)],
        },
        Turn {
            who: Who::App,
            ins: &[("x", At::First), ("y", At::Second)],
            outs: &[("out", At::Third)],
        },
    ];
    let seen = after(alloc, bench, source, sample, app, &turns)?;
    assert_eq!(rt; seen, [103, 0, 0, 0, 0, 103, 0, 6120, 60, 6180, 0, 1]);
    Ok(())
}

#[test]
fn a_split_gives_each_output_what_finds_room_there(rt: HostRuntime) -> Result<(), Fail> {
    let alloc = rt.alloc();
    let mut bench = bench_of(alloc, 3)?;
    let (source, sample) = (
        source_of(&mut bench, &Arg::Nothing)?,
        sample_of(&mut bench, 1)?,
    );
    let app = Split::start(&mut bench, 2, &Arg::Nothing)?;
    let turns = [
        Turn {
            who: Who::Source,
            ins: &[],
            outs: &[("output", At::First)],
        },
        Turn {
            who: Who::App,
            ins: &[("x", At::First)],
            outs: &[],
        },
        Turn {
            who: Who::App,
            ins: &[("x", At::First)],
            outs: &[("a", At::Second), ("b", At::Third)],
        },
    ];
    let seen = after(alloc, bench, source, sample, app, &turns)?;
    assert_eq!(rt; seen, [3, 0, 0, 0, 3, 0, 0, 180, 180, 0, 0, 0]);
    Ok(())
}

#[test]
fn a_truncate_cuts_what_is_longer(rt: HostRuntime) -> Result<(), Fail> {
    let alloc = rt.alloc();
    let mut bench = bench_of(alloc, 3)?;
    let (source, sample) = (
        source_of(&mut bench, &Arg::Number(100))?,
        sample_of(&mut bench, 1)?,
    );
    let app = Truncate::start(&mut bench, 2, &Arg::Number(40))?;
    let turns = [
        Turn {
            who: Who::Source,
            ins: &[],
            outs: &[("output", At::First)],
        },
        Turn {
            who: Who::App,
            ins: &[("input", At::First)],
            outs: &[("out", At::Second)],
        },
        Turn {
            who: Who::App,
            ins: &[("input", At::First)],
            outs: &[("output", At::Second)],
        },
    ];
    let seen = after(alloc, bench, source, sample, app, &turns)?;
    assert_eq!(rt; seen, [3, 0, 0, 0, 3, 0, 0, 300, 120, 0, 0, 0]);
    Ok(())
}

#[test]
fn a_truncate_leaves_what_is_shorter(rt: HostRuntime) -> Result<(), Fail> {
    let alloc = rt.alloc();
    let mut bench = bench_of(alloc, 3)?;
    let (source, sample) = (
        source_of(&mut bench, &Arg::Number(100))?,
        sample_of(&mut bench, 1)?,
    );
    let app = Truncate::start(&mut bench, 2, &Arg::Number(200))?;
    let turns = [
        Turn {
            who: Who::Source,
            ins: &[],
            outs: &[("output", At::First)],
        },
        Turn {
            who: Who::App,
            ins: &[("input", At::First)],
            outs: &[("output", At::Second)],
        },
    ];
    let seen = after(alloc, bench, source, sample, app, &turns)?;
    assert_eq!(rt; seen, [3, 0, 0, 0, 3, 0, 0, 300, 300, 0, 0, 0]);
    Ok(())
}

#[test]
fn a_sample_sends_every_third_packet_since_its_start(rt: HostRuntime) -> Result<(), Fail> {
    let alloc = rt.alloc();
    let mut bench = bench_of(alloc, 4)?;
    let (source, sample) = (
        source_of(&mut bench, &Arg::Nothing)?,
        sample_of(&mut bench, 1)?,
    );
    let app = Sample::start(&mut bench, 2, &Arg::Number(3))?;
    let turns = [
        Turn {
            who: Who::Source,
            ins: &[],
            outs: &[("output", At::First)],
        },
        Turn {
            who: Who::App,
            ins: &[("x", At::First)],
            outs: &[("output", At::Second)],
        },
        Turn {
            who: Who::App,
            ins: &[("input", At::First)],
            outs: &[("output", At::Second)],
        },
        Turn {
            who: Who::Source,
            ins: &[],
            outs: &[("output", At::First)],
        },
        Turn {
            who: Who::App,
            ins: &[("input", At::First)],
            outs: &[("output", At::Second)],
        },
    ];
    let seen = after(alloc, bench, source, sample, app, &turns)?;
    assert_eq!(rt; seen, [2, 5, 0, 0, 2, 0, 0, 420, 120, 0, 0, 0]);
    Ok(())
}

#[test]
fn a_filter_passes_what_has_the_byte_at_the_place(rt: HostRuntime) -> Result<(), Fail> {
    let alloc = rt.alloc();
    let mut bench = bench_of(alloc, 2)?;
    let (source, sample) = (
        source_of(&mut bench, &Arg::Number(10))?,
        sample_of(&mut bench, 1)?,
    );
    let app = ByteFilter::start(
        &mut bench,
        2,
        &Arg::Byte {
            offset: 9,
            value: 0,
        },
    )?;
    let turns = [
        Turn {
            who: Who::Source,
            ins: &[],
            outs: &[("output", At::First)],
        },
        Turn {
            who: Who::App,
            ins: &[("input", At::First)],
            outs: &[],
        },
        Turn {
            who: Who::App,
            ins: &[("input", At::First)],
            outs: &[("output", At::Second)],
        },
    ];
    let seen = after(alloc, bench, source, sample, app, &turns)?;
    assert_eq!(rt; seen, [2, 0, 0, 0, 2, 0, 0, 20, 20, 0, 0, 0]);
    Ok(())
}

#[test]
fn a_filter_drops_what_is_too_short(rt: HostRuntime) -> Result<(), Fail> {
    let alloc = rt.alloc();
    let mut bench = bench_of(alloc, 2)?;
    let (source, sample) = (
        source_of(&mut bench, &Arg::Number(10))?,
        sample_of(&mut bench, 1)?,
    );
    let app = ByteFilter::start(
        &mut bench,
        2,
        &Arg::Byte {
            offset: 10,
            value: 0,
        },
    )?;
    let turns = [
        Turn {
            who: Who::Source,
            ins: &[],
            outs: &[("output", At::First)],
        },
        Turn {
            who: Who::App,
            ins: &[("input", At::First)],
            outs: &[("output", At::Second)],
        },
    ];
    let seen = after(alloc, bench, source, sample, app, &turns)?;
    assert_eq!(rt; seen, [0, 2, 0, 0, 0, 0, 0, 20, 0, 0, 0, 0]);
    Ok(())
}

#[test]
fn a_repeater_keeps_its_packets_and_sends_copies(rt: HostRuntime) -> Result<(), Fail> {
    let alloc = rt.alloc();
    let mut bench = bench_of(alloc, 105)?;
    let (source, sample) = (
        source_of(&mut bench, &Arg::Nothing)?,
        sample_of(&mut bench, 1)?,
    );
    let app = Repeater::start(alloc, &mut bench, 2, &Arg::Nothing)?;
    let turns = [
        Turn {
            who: Who::Source,
            ins: &[],
            outs: &[("output", At::First)],
        },
        Turn {
            who: Who::App,
            ins: &[("input", At::First)],
            outs: &[],
        },
        Turn {
            who: Who::App,
            ins: &[("input", At::First)],
            outs: &[("output", At::Second)],
        },
    ];
    let seen = after(alloc, bench, source, sample, app, &turns)?;
    assert_eq!(rt; seen, [3, 0, 1, 0, 3, 0, 0, 6120, 180, 0, 0, 0]);
    Ok(())
}

#[test]
fn a_source_fills_its_outputs_until_no_packet_is_free(rt: HostRuntime) -> Result<(), Fail> {
    let alloc = rt.alloc();
    let mut bench = bench_of(alloc, 103)?;
    let (source, sample) = (
        source_of(&mut bench, &Arg::Number(100))?,
        sample_of(&mut bench, 1)?,
    );
    let sink = Sink::start(&mut bench, 2, &Arg::Nothing)?;
    let turns = [
        Turn {
            who: Who::Source,
            ins: &[],
            outs: &[],
        },
        Turn {
            who: Who::Source,
            ins: &[],
            outs: &[("x", At::First), ("y", At::Second)],
        },
    ];
    let seen = after(alloc, bench, source, sample, sink, &turns)?;
    assert_eq!(rt; seen, [0, 0, 0, 102, 1, 0, 0, 10200, 100, 0, 0, 0]);
    Ok(())
}
