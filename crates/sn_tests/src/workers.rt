//! Scenarios of several workers: in threads, where nothing that is compared depends on how they meet, and in order.
use crate::commands::{capture, files_of, run, run_with};
use crate::runs::{DRAINED, Want, expect_held, expect_run};
use sn_journal::Entry;
use sn_outside::{Gate, NoGate};
use sn_pcap::Capture;
use sn_run::{Ended, Outcome, Report, Run, Status};
use sn_scenario::Scenario;
use sn_worker::RoundEnd;
use std::alloc::{AllocError, Global};
use std::process::Abort;
use std::sync::atomic::{AtomicBool, AtomicU64, Ordering};
use std::test::Fail;

/// What the workers of a scenario do: worker 0 reads a capture and sends it over an interlink.
const SENDER: &str =
    "interlink x 0 1\nconfig 0 0\napp r PcapReader in.pcap\napp t Transmitter x\nlink r.output -> t.input\nend\n";

/// Worker 1 writes what comes over the interlink.
const RECEIVER: &str =
    "config 1 0\napp v Receiver x\napp w PcapWriter out.pcap\nlink v.output -> w.input\nend\n";

/// A scenario of so many workers, of which the first two hand a capture over.
fn hand_over(alloc: Global, workers: u32) -> Result<String, AllocError> {
    format!(in alloc; "scenario 1\nworkers {workers}\nbreaths 5\nrounds 6\n{SENDER}{RECEIVER}")
}

/// How many packets were put into the first interlink, and how many were taken out of it or drained.
fn handed_over(report: &Report) -> Option<(u64, u64)> {
    let lane = report.lanes.get(0)?;
    Some((lane.put, lane.taken))
}

/// How many packets the first link of worker 0 dropped.
fn dropped(report: &Report) -> Option<u64> {
    let counters = report.counters.get(0)?;
    let link = counters.links().get(0)?;
    Some(link.txdrop)
}

#[test]
fn two_workers_copy_a_capture_over_an_interlink(rt: HostRuntime) -> Result<(), Fail> {
    let words = hand_over(rt.alloc(), 2)?;
    let input = capture(rt.alloc(), &[60; 1000])?;
    let mut files = files_of(
        rt.alloc(),
        "s",
        words.as_str().as_bytes(),
        Some(&input),
        &[],
    )?;
    let report = expect_run(&rt, &mut files, DRAINED)?;
    assert_eq!(rt; report.journals.len(), 2);
    assert_eq!(rt; handed_over(&report), Some((1000, 1000)));
    assert_eq!(rt; report.group.packets.len() + report.kept.len(), 4096);
    expect_held(&rt, &files, "out.pcap", Some(&input))
}

/// The most turns that a worker is held for.
const MOST_TURNS: u32 = 100_000_000;

/// Holds each of four workers at its first gate until the others have come to a gate. Workers 2 and 3, which have nothing to do,
/// add 11 entries in each round of five breaths: at their first gate of each later round it holds each of the two until the
/// other has come to a gate with as many entries.
#[derive(Drop)]
struct Together {
    /// One more than the entries at the last gate of each worker.
    came: [AtomicU64; 4],
    /// Whether a worker was held for all its turns.
    late: AtomicBool,
}

impl Together {
    fn new() -> Together {
        Together {
            came: [
                AtomicU64::new(0),
                AtomicU64::new(0),
                AtomicU64::new(0),
                AtomicU64::new(0),
            ],
            late: AtomicBool::new(false),
        }
    }

    /// Whether a worker has come to a gate with so many entries.
    fn has_come(&self, worker: usize, entries: u64) -> bool {
        match self.came.get(worker) {
            Some(came) => came.load(Ordering::SeqCst) > entries,
            None => true,
        }
    }

    /// Holds the caller until all workers from this one on have come to a gate with so many entries.
    fn hold(&self, from: usize, entries: u64) {
        for _turn in 0..MOST_TURNS {
            if (from..4).all(|worker| self.has_come(worker, entries)) {
                return;
            }
        }
        self.late.store(true, Ordering::SeqCst);
    }
}

impl Gate for Together {
    fn before(&self, seat: u32, entries: u64, gates: u32) {
        if let Some(came) = self.came.get(seat as usize) {
            came.store(entries.saturating_add(1), Ordering::SeqCst);
        }
        if gates != 0 {
            return;
        }
        if entries == 1 {
            self.hold(0, 0);
        } else if seat >= 2 && entries % 11 == 1 {
            self.hold(2, entries);
        }
    }
}

#[test]
fn four_workers_work_together(rt: HostRuntime) -> Result<(), Fail> {
    let words = hand_over(rt.alloc(), 4)?;
    let input = capture(rt.alloc(), &[60; 1000])?;
    let mut files = files_of(
        rt.alloc(),
        "s",
        words.as_str().as_bytes(),
        Some(&input),
        &[],
    )?;
    let gate = Together::new();
    let ended = run_with(&rt, &mut files, &gate)?;
    assert_eq!(rt; ended.status.number(), 0);
    assert!(rt; !gate.late.load(Ordering::SeqCst));
    assert!(rt;
        gate.came
            .iter()
            .all(|came| came.load(Ordering::SeqCst) != 0)
    );
    // The last gate of workers 2 and 3 is the one before they hear in the last breath: each later round held them.
    assert_eq!(rt; gate.came[2].load(Ordering::SeqCst), 65);
    assert_eq!(rt; gate.came[3].load(Ordering::SeqCst), 65);
    expect_held(&rt, &files, "out.pcap", Some(&input))
}

/// A capture that goes over 16 interlinks from one of 16 workers to the next, and round to worker 0, which writes it.
fn ring_of_16(alloc: Global) -> Result<String, AllocError> {
    let mut text = String::from_str(alloc, "scenario 1\nworkers 16\nbreaths 4\nrounds 20\n")?;
    for worker in 0..16 {
        let next = (worker + 1) % 16;
        text.push_str(&format!(in alloc; "interlink x{worker} {worker} {next}\n")?)?;
    }
    text.push_str(RING_ENDS)?;
    for before in 0..15 {
        let worker = before + 1;
        text.push_str(&format!(in alloc;
            "config {worker} 0\napp v Receiver x{before}\napp t Transmitter x{worker}\nlink v.output -> t.input\nend\n"
        )?)?;
    }
    Ok(text)
}

/// What worker 0 of the ring does.
const RING_ENDS: &str =
    "config 0 0\napp r PcapReader in.pcap\napp t Transmitter x0\nlink r.output -> t.input\napp v Receiver x15\napp w PcapWriter out.pcap\nlink v.output -> w.input\nend\n";

#[test]
fn sixteen_workers_pass_a_capture_on_over_16_interlinks(rt: HostRuntime) -> Result<(), Fail> {
    let words = ring_of_16(rt.alloc())?;
    let input = capture(rt.alloc(), &[60; 100])?;
    let mut files = files_of(
        rt.alloc(),
        "s",
        words.as_str().as_bytes(),
        Some(&input),
        &[],
    )?;
    let report = expect_run(&rt, &mut files, DRAINED)?;
    assert_eq!(rt; report.journals.len(), 16);
    assert_eq!(rt; report.lanes.len(), 16);
    assert!(rt;
        report
            .lanes
            .iter()
            .all(|lane| lane.put == 100 && lane.taken == 100)
    );
    expect_held(&rt, &files, "out.pcap", Some(&input))
}

/// A scenario that sends more packets than the interlink and a link have room for, and nobody takes them.
fn overflowing(alloc: Global) -> Result<String, AllocError> {
    format!(in alloc; "scenario 1\nworkers 2\nbreaths 22\nrounds 1\n{SENDER}")
}

/// Whether these are a closer's entries from its going on: so many drains, and the interlink free again.
fn is_drained(entries: &[Entry], drains: usize) -> bool {
    let Some((Entry::Detach(0, 4), rest)) = entries.split_first() else {
        return false;
    };
    let Some((Entry::Room(0, _), rest)) = rest.split_first() else {
        return false;
    };
    let drained = rest
        .iter()
        .take_while(|entry| matches!(entry, Entry::Drain(..)))
        .count();
    drained == drains && matches!(rest.get(drained), Some(Entry::Reset(0)))
}

/// The entries of a worker behind its closing.
fn closing(report: &Report, worker: usize) -> &[Entry] {
    let Some(journal) = report.journals.get(worker) else {
        return &[];
    };
    let entries = journal.entries();
    let at = entries
        .iter()
        .position(|entry| matches!(entry, Entry::Close));
    match at {
        Some(at) => entries.get(at + 1..).unwrap_or(&[]),
        None => &[],
    }
}

#[test]
fn a_full_ring_drops_and_the_closing_drains_it(rt: HostRuntime) -> Result<(), Fail> {
    let words = overflowing(rt.alloc())?;
    let input = capture(rt.alloc(), &[60; 2142])?;
    let mut files = files_of(
        rt.alloc(),
        "s",
        words.as_str().as_bytes(),
        Some(&input),
        &[],
    )?;
    let want = Want {
        number: 4,
        text: "status rounds-used 2046\n",
        left: 2046,
    };
    let report = expect_run(&rt, &mut files, want)?;
    assert_eq!(rt; dropped(&report), Some(96));
    assert_eq!(rt; handed_over(&report), Some((1023, 1023)));
    assert_eq!(rt; (report.group.packets.len(), report.kept.len()), (4096, 0));
    assert!(rt; is_drained(closing(&report, 0), 1023));
    Ok(())
}

/// A source of the longest packets, which are handed over and go, until a journal is full.
const LONG_PACKETS: &str =
    "scenario 1\nworkers 2\nbreaths 10\nrounds 10000\ninterlink x 0 1\nconfig 0 0\napp s Source 10240\napp t Transmitter x\nlink s.output -> t.input\nend\nconfig 1 0\napp v Receiver x\napp k Sink\nlink v.output -> k.input\nend\n";

/// The first worker whose journal is full.
fn first_full(report: &Report) -> Option<usize> {
    report.journals.iter().position(|journal| {
        journal
            .entries()
            .iter()
            .any(|entry| matches!(entry, Entry::Spent))
    })
}

#[test]
fn the_first_full_journal_ends_the_run_and_nothing_is_kept(rt: HostRuntime) -> Result<(), Fail> {
    let mut files = files_of(rt.alloc(), "s", LONG_PACKETS.as_bytes(), None, &[])?;
    let (ended, out) = run(&rt, &mut files)?;
    let Ended { status, report, .. } = ended;
    assert_eq!(rt; status.number(), 4);
    match (status, report) {
        (Status::JournalLimit(worker), Some(report)) => {
            assert_eq!(rt; first_full(&report), Some(worker as usize));
            assert_eq!(rt; report.kept.len(), 0);
            let text = format!(in rt.alloc(); "status journal-limit {worker}\n")?;
            assert_eq!(rt; out.taken(), text.as_str().as_bytes());
            Ok(())
        }
        _ => Err("no journal was full")?,
    }
}

/// A worker that writes into one file in the first round and into another in the second.
const MOVED: &str =
    "scenario 1\nbreaths 3\nrounds 2\nconfig 0 0\napp r PcapReader in.pcap\napp w PcapWriter a.pcap\nlink r.output -> w.input\nend\nconfig 0 2\napp r PcapReader in.pcap\napp w PcapWriter b.pcap\nlink r.output -> w.input\nend\n";

/// How a scenario of two rounds runs in order over a capture. None where it has not two rounds or not one capture, where a
/// journal is full, or where memory lacked.
fn in_order(alloc: Global, text: &[u8], bytes: Vec<u8>) -> Option<(Outcome, Report)> {
    if text.len() > 1_048_576 {
        return None;
    }
    let Ok(read) = Scenario::parse(alloc, text) else {
        return None;
    };
    let Ok(opened) = Capture::open(bytes) else {
        return None;
    };
    let Ok(captures) = vec![in alloc; opened] else {
        return None;
    };
    if read.settings().rounds != 2 || captures.len() != read.captures().len() {
        return None;
    }
    let Ok(mut run) = Run::open(alloc, read, captures) else {
        return None;
    };
    let Ok(RoundEnd::Next) = run.round_in_order(&NoGate) else {
        return None;
    };
    let Ok(RoundEnd::Next) = run.round_in_order(&NoGate) else {
        return None;
    };
    let Ok((outcome, report, _)) = run.finish(&NoGate) else {
        return None;
    };
    Some((outcome, report))
}

#[test]
fn a_network_is_changed_between_rounds(rt: HostRuntime) -> Result<(), Fail> {
    let alloc = rt.alloc();
    let lengths = [60; 250];
    let (first, second) = (
        capture(alloc, &lengths[..204])?,
        capture(alloc, &lengths[204..])?,
    );
    match in_order(alloc, MOVED.as_bytes(), capture(alloc, &lengths)?) {
        Some((outcome, report)) => {
            assert_eq!(rt; outcome, Outcome::Drained);
            assert_eq!(rt; report.files.len(), 2);
            assert!(rt; report.files[0].bytes == first);
            assert!(rt; report.files[1].bytes == second);
            Ok(())
        }
        None => Err("it did not run")?,
    }
}

/// Two packets that two workers hand over.
fn two_packets(alloc: Global) -> Result<String, AllocError> {
    format!(in alloc; "scenario 1\nworkers 2\npool 2\nbreaths 2\nrounds 2\n{SENDER}{RECEIVER}")
}

/// The journals of the two workers, in order, up to the last packets that go back: worker 0 puts both packets before worker 1
/// looks. Worker 0 is closed first.
const JOURNALS: &str =
    "round 1\nhear 6\nbreath\nhear 6\nbreath\ngot 0 0\ngot 1 0\ndry\nattach 0 0\nroom 0 1023\nput 0 0 1 1 60\nput 0 1 0 1 60\nround 2\nhear 6\nbreath\nhear 6\nbreath\nclose\ndetach 0 5\nreclaimed\nround 1\nhear 6\nbreath\nhear 6\nbreath\nattach 0 4\nseen 0 2\ntake 0 0 1 1 60\ntake 0 1 0 1 60\nround 2\nhear 6\nbreath\nseen 0 0\nhear 6\nbreath\nseen 0 0\nclose\ndetach 0 9\nseen 0 0\nreset 0\n";

/// What follows: the order in which packets go back is open.
const GIVEN: [&str; 2] = [
    "gave 1 2\ngave 0 2\nreclaimed\n",
    "gave 0 2\ngave 1 2\nreclaimed\n",
];

/// Whether a text is that of these journals.
fn are_journals(text: &[u8]) -> bool {
    let front = JOURNALS.as_bytes();
    let Some(behind) = text.get(front.len()..) else {
        return false;
    };
    text.starts_with(front) && GIVEN.iter().any(|given| behind == given.as_bytes())
}

/// The text of all journals, one behind the other.
fn journals_of(alloc: Global, report: &Report) -> Result<Vec<u8>, AllocError> {
    let mut text = Vec::new(alloc);
    for journal in &report.journals {
        journal.print(&mut text)?;
    }
    Ok(text)
}

#[test]
fn two_workers_in_order_make_these_journals(rt: HostRuntime) -> Result<(), Fail> {
    let alloc = rt.alloc();
    let words = two_packets(alloc)?;
    match in_order(alloc, words.as_str().as_bytes(), capture(alloc, &[60; 2])?) {
        Some((outcome, report)) => {
            assert_eq!(rt; outcome, Outcome::Drained);
            assert!(rt; are_journals(&journals_of(alloc, &report)?));
            Ok(())
        }
        None => Err("it did not run")?,
    }
}
