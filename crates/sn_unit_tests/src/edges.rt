//! What no clause says: that the apps do what their classes mean where there is memory, over a bench and a link.
ghost use Rattle.std.specs.Prelude.{◌≡◌, ◌<◌, ◌≤◌, [], ◌∷◌, IfOk, IsSome, None, OnOk, length, slice_index_or};
ghost use Rattle.sn_app.specs.Answers.{Stays};
ghost use Rattle.sn_app.specs.Bench.{tray_of};
ghost use Rattle.sn_app.specs.Desk.{Tray};
ghost use Rattle.sn_app.specs.Ports.{HasLinks, KeepsRows};
ghost use Rattle.sn_app.specs.Runs.{Moves};
ghost use Rattle.sn_app.specs.World.{IsSound, Used, nowhere, world};
ghost use Rattle.sn_core.specs.declared.events.Side.TheVariants.{Rx, Tx};
ghost use Rattle.sn_edge.specs.Needs.{CanRead, CanWrite, HasEnd};
ghost use Rattle.sn_packet.specs.Hold.{used_of};

use slab::Slab;
use sn_app::{App, Bench, Counter, Halt, Ports};
use sn_edge::{PcapReader, PcapWriter, Receiver, Transmitter};
use sn_journal::{Entry, Payload};
use sn_link::Link;
use sn_names::{Arg, FileName, Name, Roster};
use sn_packet::MAX_TURN;
use sn_pcap::{Capture, write_header, write_record};
use std::alloc::Global;
use std::test::Fail;

/// The names of two apps, a capture, a file and an interlink.
fn names_of(alloc: Global) -> Result<Roster, Fail>
    ensures apps { IfOk result (λ roster. length roster.apps ≡ 2) }
    ensures links { IfOk result (λ roster. length roster.links ≡ 0) }
    ensures captures { IfOk result (λ roster. roster.captures ≡ (99 ∷ []) ∷ []) }
    ensures files { IfOk result (λ roster. roster.files ≡ (102 ∷ []) ∷ []) }
    ensures lanes { IfOk result (λ roster. roster.lanes ≡ (108 ∷ []) ∷ []) }
{
    Ok(Roster {
        apps: vec![in alloc; Name::parse(alloc, b"a")?, Name::parse(alloc, b"b")?]?,
        links: Vec::new(alloc),
        captures: vec![in alloc; FileName::of(alloc, b"c")?]?,
        files: vec![in alloc; FileName::of(alloc, b"f")?]?,
        lanes: vec![in alloc; Name::parse(alloc, b"l")?]?,
    })
}

/// A bench of four packets, with these bytes as its capture and with this script.
fn bench_of(alloc: Global, capture: Vec<u8>, script: Vec<Entry>) -> Result<Bench, Fail>
    ensures apps { IfOk result (λ bench. length bench.roster.apps ≡ 2) }
    ensures captures { IfOk result (λ bench. bench.roster.captures ≡ (99 ∷ []) ∷ []) }
    ensures files { IfOk result (λ bench. bench.roster.files ≡ (102 ∷ []) ∷ []) }
    ensures lanes { IfOk result (λ bench. bench.roster.lanes ≡ (108 ∷ []) ∷ []) }
{
    let names = names_of(alloc)?;
    let captures = vec![in alloc; Capture::open(capture)?]?;
    Ok(Bench::new(alloc, 4, names, captures, script)?)
}

/// A capture without records.
fn no_records(alloc: Global) -> Result<Vec<u8>, Fail> {
    let mut bytes = Vec::new(alloc);
    write_header(&mut bytes)?;
    Ok(bytes)
}

/// A capture of three records: of 4 bytes, of 10,241 and of 5.
fn three_records(alloc: Global) -> Result<Vec<u8>, Fail> {
    let mut bytes = no_records(alloc)?;
    write_record(&mut bytes, &[1, 2, 3, 4])?;
    bytes.extend_from_slice(&[0, 0, 0, 0, 0, 0, 0, 0, 1, 40, 0, 0, 1, 40, 0, 0])?;
    for _byte in 0..10_241_u32 {
        bytes.push(7)?;
    }
    write_record(&mut bytes, &[5, 6, 7, 8, 9])?;
    Ok(bytes)
}

/// An empty link of row 0, alone, and its key.
fn one_link(alloc: Global) -> Result<(Slab<Link>, usize), Fail>
    ensures linked { IfOk result (λ made. IsSome (slice_index_or made.0.slots made.1 None)) }
    ensures sound { IfOk result (λ made. (t : Tray) (u : Used) → IsSound (world t u made.0.slots) nowhere) }
{
    let mut links = Slab::new(alloc);
    let key = links.insert(Link::of_row(alloc, 0)?)?;
    Ok((links, key))
}

/// One port of this name, at this link.
fn port_of(alloc: Global, name: &[u8], key: usize) -> Result<Vec<(Name, usize)>, Fail>
    ensures one { IfOk result (λ ports. length ports.items ≡ 1) }
    ensures key { IfOk result (λ ports. (slice_index_or ports.items 0 ([], 0)).1 ≡ key) }
{
    let name = Name::parse(alloc, name)?;
    Ok(vec![in alloc; (name, key)]?)
}

/// An app's pull at these outputs.
fn pull_once<A: App<Bench>>(
    app: &mut A,
    bench: &mut Bench,
    links: &mut Slab<Link>,
    outs: &[(Name, usize)],
) -> Result<(), Halt>
    requires ready { A.can_run app.old (tray_of bench.old) }
    requires outs { HasLinks links.old.slots outs.now }
    requires sound { IsSound (world (tray_of bench.old) (used_of bench.old.held) links.old.slots) (A.places app.old) }
    ensures ready { OnOk result (A.can_run app.new (tray_of bench.new)) }
    ensures moves { OnOk result (Moves (world (tray_of bench.old) (used_of bench.old.held) links.old.slots)
        (world (tray_of bench.new) (used_of bench.new.held) links.new.slots) (A.places app.old) (A.places app.new)) }
    ensures stays { Stays (tray_of bench.old) (tray_of bench.new) }
    ensures rows { KeepsRows links.old.slots links.new.slots }
{
    let mut ports = Ports {
        links,
        ins: &[],
        outs,
    };
    let ended = app.pull(bench, &mut ports);
    let Ports {
        links: _,
        ins: _,
        outs: _,
    } = ports;
    ended
}

/// An app's push at these inputs.
fn push_once<A: App<Bench>>(
    app: &mut A,
    bench: &mut Bench,
    links: &mut Slab<Link>,
    ins: &[(Name, usize)],
) -> Result<(), Halt>
    requires ready { A.can_run app.old (tray_of bench.old) }
    requires ins { HasLinks links.old.slots ins.now }
    requires sound { IsSound (world (tray_of bench.old) (used_of bench.old.held) links.old.slots) (A.places app.old) }
    ensures ready { OnOk result (A.can_run app.new (tray_of bench.new)) }
    ensures moves { OnOk result (Moves (world (tray_of bench.old) (used_of bench.old.held) links.old.slots)
        (world (tray_of bench.new) (used_of bench.new.held) links.new.slots) (A.places app.old) (A.places app.new)) }
    ensures stays { Stays (tray_of bench.old) (tray_of bench.new) }
    ensures rows { KeepsRows links.old.slots links.new.slots }
{
    let mut ports = Ports {
        links,
        ins,
        outs: &[],
    };
    let ended = app.push(bench, &mut ports);
    let Ports {
        links: _,
        ins: _,
        outs: _,
    } = ports;
    ended
}

/// A pull of an app whose output is this link.
fn pulled<A: App<Bench>>(
    alloc: Global,
    app: &mut A,
    bench: &mut Bench,
    links: &mut Slab<Link>,
    key: usize,
) -> Result<(), Fail>
    requires ready { A.can_run app.old (tray_of bench.old) }
    requires linked { IsSome (slice_index_or links.old.slots key None) }
    requires sound { IsSound (world (tray_of bench.old) (used_of bench.old.held) links.old.slots) (A.places app.old) }
    ensures ready { OnOk result (A.can_run app.new (tray_of bench.new)) }
    ensures linked { OnOk result (IsSome (slice_index_or links.new.slots key None)) }
    ensures sound { OnOk result
        (IsSound (world (tray_of bench.new) (used_of bench.new.held) links.new.slots) (A.places app.new)) }
    ensures apps { OnOk result (length bench.new.roster.apps ≡ length bench.old.roster.apps) }
    ensures stays { OnOk result (Stays (tray_of bench.old) (tray_of bench.new)) }
{
    let outs = port_of(alloc, b"output", key)?;
    pull_once(app, bench, links, &outs)?;
    Ok(())
}

/// A push of an app whose input is this link.
fn pushed<A: App<Bench>>(
    alloc: Global,
    app: &mut A,
    bench: &mut Bench,
    links: &mut Slab<Link>,
    key: usize,
) -> Result<(), Fail>
    requires ready { A.can_run app.old (tray_of bench.old) }
    requires linked { IsSome (slice_index_or links.old.slots key None) }
    requires sound { IsSound (world (tray_of bench.old) (used_of bench.old.held) links.old.slots) (A.places app.old) }
    ensures ready { OnOk result (A.can_run app.new (tray_of bench.new)) }
    ensures apps { OnOk result (length bench.new.roster.apps ≡ length bench.old.roster.apps) }
    ensures stays { OnOk result (Stays (tray_of bench.old) (tray_of bench.new)) }
{
    let ins = port_of(alloc, b"input", key)?;
    push_once(app, bench, links, &ins)?;
    Ok(())
}

/// A reader of the capture, as the first app.
fn reader_of(alloc: Global, bench: &mut Bench) -> Result<PcapReader, Fail>
    requires apps { length bench.old.roster.apps ≡ 2 }
    requires captures { bench.old.roster.captures ≡ (99 ∷ []) ∷ [] }
    ensures ready { IfOk result (λ app. CanRead app.row app.capture app.at (tray_of bench.new)) }
    ensures same { bench.new ≡ bench.old }
{
    let name = FileName::of(alloc, b"c")?;
    Ok(PcapReader::start(bench, 0, &Arg::File(name))?)
}

/// A writer of the file, as the second app.
fn writer_of(alloc: Global, bench: &mut Bench) -> Result<PcapWriter, Fail>
    requires apps { length bench.old.roster.apps ≡ 2 }
    requires files { bench.old.roster.files ≡ (102 ∷ []) ∷ [] }
    ensures ready { IfOk result (λ app. CanWrite app.row app.file (tray_of bench.new)) }
    ensures apps { OnOk result (length bench.new.roster.apps ≡ 2) }
    ensures stays { OnOk result (Stays (tray_of bench.old) (tray_of bench.new)) }
{
    let name = FileName::of(alloc, b"f")?;
    Ok(PcapWriter::start(bench, 1, &Arg::File(name))?)
}

/// A receiver of the interlink, as the first app.
fn receiver_of(alloc: Global, bench: &mut Bench) -> Result<Receiver, Fail>
    requires apps { length bench.old.roster.apps ≡ 2 }
    requires lanes { bench.old.roster.lanes ≡ (108 ∷ []) ∷ [] }
    ensures ready { IfOk result (λ app. HasEnd app.row app.lane Rx (tray_of bench.new)) }
    ensures same { bench.new ≡ bench.old }
{
    let name = Name::parse(alloc, b"l")?;
    Ok(Receiver::start(bench, 0, &Arg::Lane(name))?)
}

/// A transmitter of the interlink, as the second app.
fn transmitter_of(alloc: Global, bench: &mut Bench) -> Result<Transmitter, Fail>
    requires apps { length bench.old.roster.apps ≡ 2 }
    requires lanes { bench.old.roster.lanes ≡ (108 ∷ []) ∷ [] }
    ensures ready { IfOk result (λ app. HasEnd app.row app.lane Tx (tray_of bench.new)) }
    ensures same { bench.new ≡ bench.old }
{
    let name = Name::parse(alloc, b"l")?;
    Ok(Transmitter::start(bench, 1, &Arg::Lane(name))?)
}

/// How many packets an app passed and dropped, and how many records were too long.
fn counted(bench: &Bench, row: u32) -> (u64, u64, u64)
    requires { row < length bench.now.roster.apps }
{
    let counters = bench.counters();
    (
        counters.app(row, Counter::Packets),
        counters.app(row, Counter::Dropped),
        counters.app(row, Counter::Oversize),
    )
}

#[test]
fn a_record_too_long_is_passed_and_not_written(rt: HostRuntime) -> Result<(), Fail> {
    let alloc = rt.alloc();
    let mut bench = bench_of(alloc, three_records(alloc)?, Vec::new(alloc))?;
    let mut reader = reader_of(alloc, &mut bench)?;
    let mut writer = writer_of(alloc, &mut bench)?;
    let (mut links, key) = one_link(alloc)?;
    pulled(alloc, &mut reader, &mut bench, &mut links, key)?;
    pushed(alloc, &mut writer, &mut bench, &mut links, key)?;
    assert_eq!(rt; counted(&bench, 0), (2, 0, 1));
    assert_eq!(rt; counted(&bench, 1), (2, 0, 0));
    let mut written = no_records(alloc)?;
    write_record(&mut written, &[1, 2, 3, 4])?;
    write_record(&mut written, &[5, 6, 7, 8, 9])?;
    assert!(rt; bench.file(0) == Some(written.as_slice()));
    Ok(())
}

#[test]
fn a_pull_ends_where_the_interlink_was_down(rt: HostRuntime) -> Result<(), Fail> {
    let alloc = rt.alloc();
    let script = vec![in alloc; Entry::Unattached(0, 8, 8), Entry::Seen(0, 1)]?;
    let mut bench = bench_of(alloc, no_records(alloc)?, script)?;
    let mut receiver = receiver_of(alloc, &mut bench)?;
    let (mut links, key) = one_link(alloc)?;
    pulled(alloc, &mut receiver, &mut bench, &mut links, key)?;
    assert_eq!(rt; counted(&bench, 0), (0, 0, 0));
    let read = [Entry::Unattached(0, 8, 8)];
    assert!(rt; bench.journal().entries() == read.as_slice());
    Ok(())
}

/// A script by which a receiver attaches, sees so many packets and takes as many, of one byte and at this turn.
fn taken_by(alloc: Global, count: u32, turn: u64) -> Result<Vec<Entry>, Fail> {
    let mut script = vec![in alloc; Entry::Attach(0, 4), Entry::Seen(0, count)]?;
    for position in 0..count {
        let bytes = Payload::of(vec![in alloc; 3]?);
        script.push(Entry::Take(0, u64::from(position), position, turn, bytes))?;
    }
    Ok(script)
}

#[test]
fn a_pull_takes_102_packets_of_103(rt: HostRuntime) -> Result<(), Fail> {
    let alloc = rt.alloc();
    let mut bench = bench_of(alloc, no_records(alloc)?, taken_by(alloc, 103, 1)?)?;
    let mut receiver = receiver_of(alloc, &mut bench)?;
    let (mut links, key) = one_link(alloc)?;
    pulled(alloc, &mut receiver, &mut bench, &mut links, key)?;
    assert_eq!(rt; counted(&bench, 0), (102, 0, 0));
    assert_eq!(rt; bench.journal().entries().len(), 104);
    Ok(())
}

#[test]
fn a_worn_packet_is_freed_and_counted_as_dropped(rt: HostRuntime) -> Result<(), Fail> {
    let alloc = rt.alloc();
    let mut script = taken_by(alloc, 1, MAX_TURN)?;
    script.push(Entry::Attach(0, 1))?;
    script.push(Entry::Room(0, 1023))?;
    let mut bench = bench_of(alloc, no_records(alloc)?, script)?;
    let mut receiver = receiver_of(alloc, &mut bench)?;
    let mut transmitter = transmitter_of(alloc, &mut bench)?;
    let (mut links, key) = one_link(alloc)?;
    pulled(alloc, &mut receiver, &mut bench, &mut links, key)?;
    pushed(alloc, &mut transmitter, &mut bench, &mut links, key)?;
    assert_eq!(rt; counted(&bench, 1), (0, 1, 0));
    assert_eq!(rt; bench.journal().entries().len(), 5);
    Ok(())
}
