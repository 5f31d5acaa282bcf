//! Scenarios that run: the records that are copied, and those that are left.
use crate::commands::{Want, capture, expect, files_of, scenario};
use sn_outside::NoGate;
use sn_pcap::Capture;
use sn_run::{Outcome, run_scenario, runs_now};
use sn_scenario::Scenario;
use std::alloc::{AllocError, Global};
use std::process::Abort;
use std::test::Fail;
use std::thread::Threads;

/// Runs a scenario over one capture, and expects this output, so much left and this text.
fn expect_copy<R: Threads + Sync + Abort + AllocGlobal>(
    rt: &R,
    scenario: &str,
    input: &[u8],
    output: &[u8],
    left: u64,
    text: &str,
) -> Result<(), Fail> {
    let files = files_of(rt.alloc(), "s", scenario.as_bytes(), Some(input), &[])?;
    let want = Want {
        number: if left == 0 { 0 } else { 4 },
        replaced: None,
        text,
        written: Some(output),
        report: Some((output, left)),
        calls: 3,
    };
    expect(rt, &["run", "s"], files, &[], &want)
}

/// Copies records of these lengths in so many breaths, and expects these to be in the file.
fn expect_lengths<R: Threads + Sync + Abort + AllocGlobal>(
    rt: &R,
    breaths: u32,
    lengths: &[u32],
    copied: &[u32],
    left: u64,
    text: &str,
) -> Result<(), Fail> {
    let words = scenario(rt.alloc(), breaths)?;
    let input = capture(rt.alloc(), lengths)?;
    let output = capture(rt.alloc(), copied)?;
    expect_copy(rt, words.as_str(), &input, &output, left, text)
}

#[test]
fn copy_three_records_gives_these_records(rt: HostRuntime) -> Result<(), Fail> {
    let lengths = [60, 60, 1514];
    assert_eq!(rt; capture(rt.alloc(), &lengths)?.len(), 1706);
    expect_lengths(&rt, 10, &lengths, &lengths, 0, "status drained\n")
}

#[test]
fn empty_capture_gives_a_header_alone(rt: HostRuntime) -> Result<(), Fail> {
    expect_lengths(&rt, 10, &[], &[], 0, "status drained\n")
}

#[test]
fn more_records_than_breaths_take_are_left(rt: HostRuntime) -> Result<(), Fail> {
    let lengths = [60; 103];
    expect_lengths(
        &rt,
        2,
        &lengths,
        &lengths[..102],
        1,
        "status rounds-used 1\n",
    )?;
    expect_lengths(&rt, 3, &lengths, &lengths, 0, "status drained\n")
}

#[test]
fn skip_oversize_records_and_no_others(rt: HostRuntime) -> Result<(), Fail> {
    let lengths = [10_240, 10_241];
    assert_eq!(rt; capture(rt.alloc(), &lengths[..1])?.len(), 10_280);
    expect_lengths(&rt, 10, &lengths, &lengths[..1], 0, "status drained\n")
}

/// A capture of one record of three bytes, written by a big-endian machine with times in nanoseconds.
const BIG_ENDIAN: [u8; 43] = [
    0xa1, 0xb2, 0x3c, 0x4d, 0, 2, 0, 4, 0, 0, 0, 0, 0, 0, 0, 0, 0, 0, 0, 0, 0, 0, 0, 0, 0, 0, 0, 7,
    0, 0, 0, 8, 0, 0, 0, 3, 0, 0, 5, 0, 0, 1, 2,
];

#[test]
fn big_endian_capture_is_written_little_endian(rt: HostRuntime) -> Result<(), Fail> {
    let words = scenario(rt.alloc(), 10)?;
    let output = capture(rt.alloc(), &[3])?;
    expect_copy(
        &rt,
        words.as_str(),
        &BIG_ENDIAN,
        &output,
        0,
        "status drained\n",
    )
}

/// The scenario of ten breaths, with remarks, other spacing and no last newline.
const SPACED: &str =
    "# copies\n\n scenario\t1\r\nbreaths  10\nrounds 1 \n\tconfig 0 0\napp r  PcapReader in.pcap\napp w PcapWriter out.pcap\n# on\nlink   r.output->w.input\nend";

#[test]
fn spacing_is_free(rt: HostRuntime) -> Result<(), Fail> {
    let records = capture(rt.alloc(), &[60])?;
    expect_copy(&rt, SPACED, &records, &records, 0, "status drained\n")
}

/// Runs a scenario over one capture that is copied whole, with a sink that fails first.
fn expect_unprinted<R: Threads + Sync + Abort + AllocGlobal>(
    rt: &R,
    scenario: &str,
    records: &[u8],
) -> Result<(), Fail> {
    let files = files_of(rt.alloc(), "s", scenario.as_bytes(), Some(records), &[])?;
    let want = Want {
        number: 2,
        replaced: Some(0),
        text: "",
        written: Some(records),
        report: Some((records, 0)),
        calls: 3,
    };
    expect(rt, &["run", "s"], files, &[1], &want)
}

#[test]
fn sink_fails_first_and_the_file_is_written(rt: HostRuntime) -> Result<(), Fail> {
    let words = scenario(rt.alloc(), 10)?;
    let records = capture(rt.alloc(), &[60])?;
    expect_unprinted(&rt, words.as_str(), &records)
}

/// A scenario of 1,048,576 bytes: one that copies, and a long remark.
fn longest_scenario(alloc: Global) -> Result<String, AllocError> {
    let mut text = scenario(alloc, 1000)?;
    let remark = "#".repeat(alloc, 1_048_576)?;
    let rest = remark.get(text.len()..).unwrap_or("");
    text.push_str(rest)?;
    Ok(text)
}

/// A capture of 16 MiB: 1,635 records of the longest kind and one that fills the file.
fn longest_capture(alloc: Global) -> Result<Vec<u8>, AllocError> {
    let mut lengths = vec![in alloc; 10_240_u32; 1635]?;
    lengths.push(8616)?;
    capture(alloc, &lengths)
}

/// Runs the scenario in a file of this name over one capture, which is copied whole.
fn expect_whole<R: Threads + Sync + Abort + AllocGlobal>(
    rt: &R,
    name: &str,
    scenario: &str,
    records: &[u8],
) -> Result<(), Fail> {
    let files = files_of(rt.alloc(), name, scenario.as_bytes(), Some(records), &[])?;
    let want = Want {
        number: 0,
        replaced: None,
        text: "status drained\n",
        written: Some(records),
        report: Some((records, 0)),
        calls: 3,
    };
    expect(rt, &["run", name], files, &[], &want)
}

#[test]
fn the_longest_name_scenario_and_capture_run(rt: HostRuntime) -> Result<(), Fail> {
    let name = "s".repeat(rt.alloc(), 4096)?;
    let text = longest_scenario(rt.alloc())?;
    let records = longest_capture(rt.alloc())?;
    assert_eq!(rt; text.len(), 1_048_576);
    assert_eq!(rt; records.len(), 16_777_216);
    expect_whole(&rt, name.as_str(), text.as_str(), &records)
}

/// How a scenario of two breaths runs over these bytes: its outcome, how much is left, and the file
/// that it writes. None where it doesn't run, or memory lacked.
fn run_of<R: Threads + Sync>(
    rt: &R,
    alloc: Global,
    text: &[u8],
    bytes: Vec<u8>,
) -> Option<(Outcome, u64, Vec<u8>)> {
    if text.len() > 1_048_576 {
        return None;
    }
    let Ok(read) = Scenario::parse(alloc, text) else {
        return None;
    };
    let Ok(opened) = Capture::open(bytes) else {
        return None;
    };
    let Ok(captures) = vec![in alloc; opened] else {
        return None;
    };
    if !runs_now(&read) || captures.len() != read.captures().len() {
        return None;
    }
    let Ok((outcome, report, _)) = run_scenario(rt, alloc, read, captures, &NoGate) else {
        return None;
    };
    let mut files = report.files;
    let file = files.pop()?;
    Some((outcome, report.left, file.bytes))
}

#[test]
fn a_scenario_runs_over_values(rt: HostRuntime) -> Result<(), Fail> {
    let alloc = rt.alloc();
    let text = scenario(alloc, 2)?;
    let lengths = [60; 103];
    let ran = run_of(
        &rt,
        alloc,
        text.as_str().as_bytes(),
        capture(alloc, &lengths)?,
    );
    let want = (Outcome::RoundsUsed(1), 1, capture(alloc, &lengths[..102])?);
    assert_eq!(rt; ran, Some(want));
    Ok(())
}
