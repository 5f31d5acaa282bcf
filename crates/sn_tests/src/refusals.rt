//! Commands that are refused: the text says why, and no file is written.
use crate::commands::{Want, capture, expect, files_of, no_files, scenario};
use sn_outside::MemFiles;
use std::process::Abort;
use std::test::Fail;
use std::thread::Threads;

/// Expects that a command over these files is refused with this text and exit status, after so many
/// calls on files, and without a report.
fn expect_refusal<R: Threads + Sync + Abort + AllocGlobal>(
    rt: &R,
    words: &[&str],
    files: MemFiles,
    calls: usize,
    text: &str,
    number: u8,
) -> Result<(), Fail> {
    let want = Want {
        number,
        replaced: None,
        text,
        written: None,
        report: None,
        calls,
    };
    expect(rt, words, files, &[], &want)
}

/// Expects that running this scenario, and over this capture where there is one, is refused so.
fn expect_no_run<R: Threads + Sync + Abort + AllocGlobal>(
    rt: &R,
    scenario: &str,
    input: Option<&[u8]>,
    calls: usize,
    text: &str,
    number: u8,
) -> Result<(), Fail> {
    let files = files_of(rt.alloc(), "s", scenario.as_bytes(), input, &[])?;
    expect_refusal(rt, &["run", "s"], files, calls, text, number)
}

#[test]
fn bad_words_call_nothing(rt: HostRuntime) -> Result<(), Fail> {
    let usage = "usage: snabbrt run FILE, check FILE, actions FILE WORKER, load N\n";
    for words in [
        &["run"][..],
        &["run", "a", "b"][..],
        &["run", ""][..],
        &["check"][..],
        &["actions", "s"][..],
        &["actions", "s", "16"][..],
        &["actions", "s", "01"][..],
        &["actions", "s", "0", "1"][..],
        &[][..],
    ] {
        expect_refusal(&rt, words, no_files(rt.alloc()), 0, usage, 1)?;
    }
    Ok(())
}

#[test]
fn cut_third_record_is_told_by_its_number(rt: HostRuntime) -> Result<(), Fail> {
    let words = scenario(rt.alloc(), 10)?;
    let mut cut = capture(rt.alloc(), &[60, 60, 1514])?;
    cut.truncate(24 + 76 + 76 + 10);
    let text = "capture in.pcap cut-record 3\n";
    expect_no_run(&rt, words.as_str(), Some(&cut), 2, text, 3)
}

#[test]
fn refusals_name_their_file(rt: HostRuntime) -> Result<(), Fail> {
    let none = no_files(rt.alloc());
    expect_refusal(&rt, &["run", "s"], none, 1, "cannot read s\n", 2)?;
    let stop = "scenario 1\nstop 0 0 0\n";
    expect_no_run(&rt, stop, None, 1, "not yet s\n", 3)?;
    let once = scenario(rt.alloc(), 1)?;
    expect_no_run(&rt, once.as_str(), None, 2, "cannot read in.pcap\n", 2)
}

/// Expects that the file of a run that copies these records whole can't be written.
fn expect_unwritten<R: Threads + Sync + Abort + AllocGlobal>(
    rt: &R,
    scenario: &str,
    records: &[u8],
) -> Result<(), Fail> {
    let files = files_of(rt.alloc(), "s", scenario.as_bytes(), Some(records), &[3])?;
    let want = Want {
        number: 2,
        replaced: None,
        text: "cannot write out.pcap\n",
        written: None,
        report: Some((records, 0)),
        calls: 3,
    };
    expect(rt, &["run", "s"], files, &[], &want)
}

#[test]
fn a_file_that_is_not_written_is_named(rt: HostRuntime) -> Result<(), Fail> {
    let words = scenario(rt.alloc(), 2)?;
    let records = capture(rt.alloc(), &[60])?;
    expect_unwritten(&rt, words.as_str(), &records)
}

/// Expects that a command over a file of this text is refused with this text and exit status.
fn expect_told<R: Threads + Sync + Abort + AllocGlobal>(
    rt: &R,
    words: &[&str],
    scenario: &[u8],
    text: &str,
    number: u8,
) -> Result<(), Fail> {
    let files = files_of(rt.alloc(), "s", scenario, None, &[])?;
    expect_refusal(rt, words, files, 1, text, number)
}

#[test]
fn too_long_and_no_worker_are_told(rt: HostRuntime) -> Result<(), Fail> {
    let long = vec![in rt.alloc(); b'#'; 1_048_577]?;
    expect_told(&rt, &["run", "s"], &long, "too long s\n", 2)?;
    expect_told(&rt, &["check", "s"], &long, "too long s\n", 2)?;
    expect_told(&rt, &["actions", "s", "0"], &long, "too long s\n", 2)?;
    let two = b"scenario 1\nworkers 2\n";
    expect_told(&rt, &["actions", "s", "3"], two, "no worker 3\n", 3)?;
    expect_told(&rt, &["actions", "s", "2"], two, "no worker 2\n", 3)?;
    expect_told(&rt, &["actions", "s", "1"], two, "", 0)
}
