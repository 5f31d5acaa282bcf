//! What no clause says: that a bench answers where there is memory, and what its journal, its counters and its files then have.
ghost use Rattle.std.specs.Prelude.{◌≡◌, IfOk, length};

use sn_app::{Bench, Counter, Ctx, Halt, Side};
use sn_journal::{Entry, Payload};
use sn_names::{FileName, Name, Roster};
use std::alloc::Global;
use std::test::Fail;

/// The names of an app, a file and an interlink.
fn small_roster(alloc: Global) -> Result<Roster, Fail>
    ensures apps { IfOk result (λ roster. length roster.apps ≡ 1) }
    ensures links { IfOk result (λ roster. length roster.links ≡ 0) }
    ensures captures { IfOk result (λ roster. length roster.captures ≡ 0) }
    ensures files { IfOk result (λ roster. length roster.files ≡ 1) }
    ensures lanes { IfOk result (λ roster. length roster.lanes ≡ 1) }
{
    Ok(Roster {
        apps: vec![in alloc; Name::parse(alloc, b"app")?]?,
        links: Vec::new(alloc),
        captures: Vec::new(alloc),
        files: vec![in alloc; FileName::of(alloc, b"out.pcap")?]?,
        lanes: vec![in alloc; Name::parse(alloc, b"lane")?]?,
    })
}

/// A bench of two packets with this script.
fn small_bench(alloc: Global, script: Vec<Entry>) -> Result<Bench, Fail>
    ensures apps { IfOk result (λ bench. length bench.roster.apps ≡ 1) }
    ensures files { IfOk result (λ bench. length bench.roster.files ≡ 1) }
    ensures lanes { IfOk result (λ bench. length bench.roster.lanes ≡ 1) }
{
    let names = small_roster(alloc)?;
    Ok(Bench::new(alloc, 2, names, Vec::new(alloc), script)?)
}

/// Attaches a receiver, and how many packets it sees, where it came up.
fn attached(bench: &mut Bench) -> Result<Option<u32>, Halt>
    requires { length bench.old.roster.lanes ≡ 1 }
{
    if !bench.lane_attach(0, Side::Rx)? {
        return Ok(None);
    }
    Ok(Some(bench.lane_look(0)?))
}

#[test]
fn a_receiver_attaches_and_looks_by_the_script(rt: HostRuntime) -> Result<(), Fail> {
    // The transmitter is up, and the receiver isn't attached.
    let script = vec![in rt.alloc(); Entry::Attach(0, 4), Entry::Seen(0, 2)]?;
    let mut bench = small_bench(rt.alloc(), script)?;
    assert_eq!(rt; attached(&mut bench)?, Some(2));
    let read = [Entry::Attach(0, 4), Entry::Seen(0, 2)];
    assert!(rt; bench.journal().entries() == read.as_slice());
    Ok(())
}

#[test]
fn an_interlink_that_was_down_is_not_attached(rt: HostRuntime) -> Result<(), Fail> {
    let script = vec![in rt.alloc(); Entry::Unattached(0, 10, 10)]?;
    let mut bench = small_bench(rt.alloc(), script)?;
    assert_eq!(rt; attached(&mut bench)?, None);
    Ok(())
}

#[test]
fn a_call_at_an_interlink_stops_where_the_script_ends(rt: HostRuntime) -> Result<(), Fail> {
    let mut bench = small_bench(rt.alloc(), Vec::new(rt.alloc()))?;
    assert_eq!(rt; attached(&mut bench), Err(Halt::Stopped));
    assert!(rt; bench.journal().entries().is_empty());
    Ok(())
}

#[test]
fn packets_come_by_the_script_until_none_does(rt: HostRuntime) -> Result<(), Fail> {
    let script = vec![in rt.alloc(); Entry::Got(2, 5)]?;
    let mut bench = small_bench(rt.alloc(), script)?;
    assert!(rt; bench.allocate()?.is_some());
    assert!(rt; bench.allocate()?.is_some());
    assert!(rt; bench.journal().entries().is_empty());
    assert!(rt; bench.allocate()?.is_some());
    assert_eq!(rt; bench.allocate()?, None);
    bench.note(Entry::Spent)?;
    let read = [Entry::Got(2, 5), Entry::Dry, Entry::Dry, Entry::Spent];
    assert!(rt; bench.journal().entries() == read.as_slice());
    Ok(())
}

/// Writes a packet of 60 zeros to the file, and whether it fitted.
fn written(bench: &mut Bench) -> Result<Option<bool>, Halt>
    requires { length bench.old.roster.files ≡ 1 }
{
    let Some(place) = bench.allocate()? else {
        return Ok(None);
    };
    bench.zeros(place, 60);
    bench.file_start(0)?;
    let added = bench.file_append(0, place)?;
    bench.free(place);
    Ok(Some(added))
}

#[test]
fn a_record_is_added_behind_the_header(rt: HostRuntime) -> Result<(), Fail> {
    let mut bench = small_bench(rt.alloc(), Vec::new(rt.alloc()))?;
    assert_eq!(rt; bench.file(0), None);
    assert_eq!(rt; written(&mut bench)?, Some(true));
    let len = bench.file(0).map(|bytes| bytes.len());
    assert_eq!(rt; len, Some(24 + 16 + 60));
    assert_eq!(rt; bench.file(1), None);
    Ok(())
}

#[test]
fn a_count_is_raised(rt: HostRuntime) -> Result<(), Fail> {
    let mut bench = small_bench(rt.alloc(), Vec::new(rt.alloc()))?;
    bench.count(0, Counter::Dry, 3);
    assert_eq!(rt; bench.counters().app(0, Counter::Dry), 3);
    assert!(rt; bench.captures().is_empty());
    Ok(())
}

/// Takes a packet, frees it and detaches. How many bytes it had, where there was one.
fn taken(bench: &mut Bench) -> Result<Option<u32>, Halt>
    requires { length bench.old.roster.lanes ≡ 1 }
{
    if !bench.lane_attach(0, Side::Rx)? {
        return Ok(None);
    }
    if bench.lane_look(0)? == 0 {
        return Ok(None);
    }
    let place = bench.lane_take(0)?;
    let size = bench.size(place);
    bench.free(place);
    bench.lane_detach(0, Side::Rx)?;
    Ok(Some(size))
}

#[test]
fn a_receiver_takes_a_packet_and_leaves(rt: HostRuntime) -> Result<(), Fail> {
    let bytes = vec![in rt.alloc(); 1, 2, 3]?;
    let script = vec![in rt.alloc();
        Entry::Attach(0, 4),
        Entry::Seen(0, 1),
        Entry::Take(0, 6, 9, 2, Payload::of(bytes)),
        Entry::Detach(0, 5),
    ]?;
    let mut bench = small_bench(rt.alloc(), script)?;
    assert_eq!(rt; taken(&mut bench)?, Some(3));
    assert_eq!(rt; bench.journal().entries().len(), 4);
    Ok(())
}

/// Puts a packet of 2 zeros, and detaches. Whether it was put.
fn sent(bench: &mut Bench) -> Result<bool, Halt>
    requires { length bench.old.roster.lanes ≡ 1 }
{
    if !bench.lane_attach(0, Side::Tx)? {
        return Ok(false);
    }
    if bench.lane_room(0)? == 0 {
        return Ok(false);
    }
    let Some(place) = bench.allocate()? else {
        return Ok(false);
    };
    bench.zeros(place, 2);
    if bench.worn(place) {
        return Ok(false);
    }
    bench.lane_put(0, place)?;
    bench.lane_detach(0, Side::Tx)?;
    Ok(true)
}

#[test]
fn a_transmitter_that_closes_gets_its_packet_back(rt: HostRuntime) -> Result<(), Fail> {
    let bytes = vec![in rt.alloc(); 0, 0]?;
    let script = vec![in rt.alloc();
        Entry::Attach(0, 0),
        Entry::Room(0, 1023),
        Entry::Put(0, 0, 1, 1, Payload::of(bytes)),
        Entry::Detach(0, 4),
        Entry::Room(0, 1022),
        Entry::Drain(0, 0, 1, 1),
        Entry::Reset(0),
    ]?;
    let mut bench = small_bench(rt.alloc(), script)?;
    assert!(rt; sent(&mut bench)?);
    assert_eq!(rt; bench.journal().entries().len(), 7);
    // Both packets are free again.
    assert!(rt; bench.allocate()?.is_some());
    assert!(rt; bench.allocate()?.is_some());
    assert_eq!(rt; bench.allocate()?, None);
    Ok(())
}
