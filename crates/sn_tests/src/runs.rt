//! Scenarios of one worker that run: the files that they leave, what their apps have counted, and their journals.
use crate::commands::{capture, files_of, run, scenario};
use crate::names::file_name;
use sn_app::AppCounts;
use sn_outside::MemFiles;
use sn_run::{Ended, Report};
use std::alloc::{AllocError, Global};
use std::process::Abort;
use std::test::Fail;
use std::thread::Threads;

/// What is expected of a run: its exit status, what is printed, and what was left.
#[derive(Clone, Copy)]
pub struct Want<'a> {
    pub number: u8,
    pub text: &'a str,
    pub left: u64,
}

/// Where nothing is left.
pub const DRAINED: Want = Want {
    number: 0,
    text: "status drained\n",
    left: 0,
};

/// Runs the scenario in the file `s`, compares how that ended with what is expected, and answers the report.
pub fn expect_run<R: Threads + Sync + Abort + AllocGlobal>(
    rt: &R,
    files: &mut MemFiles,
    want: Want,
) -> Result<Report, Fail> {
    let (ended, out) = run(rt, files)?;
    assert_eq!(rt; out.taken(), want.text.as_bytes());
    let Ended { status, report, .. } = ended;
    assert_eq!(rt; status.number(), want.number);
    match report {
        Some(report) => {
            assert_eq!(rt; report.left, want.left);
            Ok(report)
        }
        None => Err("there is no report")?,
    }
}

/// Expects that the files hold these bytes under this name, or no file where there are none.
pub fn expect_held<R: Abort + AllocGlobal>(
    rt: &R,
    files: &MemFiles,
    name: &str,
    bytes: Option<&[u8]>,
) -> Result<(), Fail> {
    let name = file_name(rt.alloc(), name)?;
    assert!(rt; files.bytes(&name) == bytes);
    Ok(())
}

/// What the app at a row has counted, where the report tells it.
fn counted(report: &Report, row: usize) -> Option<AppCounts> {
    let counters = report.counters.get(0)?;
    let counts = counters.apps().get(row)?;
    Some(*counts)
}

#[test]
fn an_oversize_record_is_skipped_and_counted(rt: HostRuntime) -> Result<(), Fail> {
    let words = scenario(rt.alloc(), 10)?;
    let input = capture(rt.alloc(), &[10_240, 10_241])?;
    let mut files = files_of(
        rt.alloc(),
        "s",
        words.as_str().as_bytes(),
        Some(&input),
        &[],
    )?;
    let report = expect_run(&rt, &mut files, DRAINED)?;
    let output = capture(rt.alloc(), &[10_240])?;
    expect_held(&rt, &files, "out.pcap", Some(&output))?;
    let read = AppCounts {
        packets: 1,
        dropped: 0,
        oversize: 1,
        dry: 0,
    };
    assert_eq!(rt; counted(&report, 0), Some(read));
    Ok(())
}

/// A tee from a capture into two files, behind the lines of its settings, and a third output where one is given.
fn tee(alloc: Global, settings: &str, third: &str) -> Result<String, AllocError> {
    format!(in alloc;
        "scenario 1\nbreaths 10\nrounds 1\n{settings}config 0 0\napp r PcapReader in.pcap\napp t Tee\napp u PcapWriter a.pcap\napp v PcapWriter b.pcap\nlink r.output -> t.input\nlink t.a -> u.input\nlink t.b -> v.input\n{third}end\n"
    )
}

#[test]
fn a_tee_writes_all_records_into_both_files(rt: HostRuntime) -> Result<(), Fail> {
    let words = tee(rt.alloc(), "", "")?;
    let input = capture(rt.alloc(), &[60, 60, 1514])?;
    let mut files = files_of(
        rt.alloc(),
        "s",
        words.as_str().as_bytes(),
        Some(&input),
        &[],
    )?;
    let report = expect_run(&rt, &mut files, DRAINED)?;
    assert_eq!(rt; report.files.len(), 2);
    expect_held(&rt, &files, "a.pcap", Some(&input))?;
    expect_held(&rt, &files, "b.pcap", Some(&input))
}

#[test]
fn with_one_packet_a_tee_runs_dry_and_its_packet_stays(rt: HostRuntime) -> Result<(), Fail> {
    let words = tee(rt.alloc(), "pool 1\n", "")?;
    let input = capture(rt.alloc(), &[60, 60, 1514])?;
    let mut files = files_of(
        rt.alloc(),
        "s",
        words.as_str().as_bytes(),
        Some(&input),
        &[],
    )?;
    let want = Want {
        number: 4,
        text: "status rounds-used 3\n",
        left: 3,
    };
    let report = expect_run(&rt, &mut files, want)?;
    let header = capture(rt.alloc(), &[])?;
    expect_held(&rt, &files, "a.pcap", Some(&header))?;
    expect_held(&rt, &files, "b.pcap", Some(&header))?;
    assert_eq!(rt; counted(&report, 0).map(|counts| counts.dry), Some(7));
    assert_eq!(rt; counted(&report, 1).map(|counts| counts.dry), Some(7));
    Ok(())
}

#[test]
fn behind_a_file_that_is_not_written_none_is(rt: HostRuntime) -> Result<(), Fail> {
    let third = "app x PcapWriter c.pcap\nlink t.c -> x.input\n";
    let words = tee(rt.alloc(), "", third)?;
    let input = capture(rt.alloc(), &[60, 60, 1514])?;
    let mut files = files_of(
        rt.alloc(),
        "s",
        words.as_str().as_bytes(),
        Some(&input),
        &[4],
    )?;
    let want = Want {
        number: 2,
        text: "cannot write b.pcap\n",
        left: 0,
    };
    let report = expect_run(&rt, &mut files, want)?;
    assert_eq!(rt; report.files.len(), 3);
    expect_held(&rt, &files, "a.pcap", Some(&input))?;
    expect_held(&rt, &files, "c.pcap", None)
}

#[test]
fn actions_that_were_not_applied_are_left_and_no_file_is_written(
    rt: HostRuntime,
) -> Result<(), Fail> {
    let words = scenario(rt.alloc(), 1)?;
    let input = capture(rt.alloc(), &[60])?;
    let mut files = files_of(
        rt.alloc(),
        "s",
        words.as_str().as_bytes(),
        Some(&input),
        &[],
    )?;
    let want = Want {
        number: 4,
        text: "status rounds-used 6\n",
        left: 6,
    };
    let report = expect_run(&rt, &mut files, want)?;
    assert_eq!(rt; report.files.len(), 0);
    expect_held(&rt, &files, "out.pcap", None)
}

/// A worker without a configuration, whose journal has a file.
const EMPTY: &str = "scenario 1\nbreaths 2\nrounds 2\njournal j\n";

/// The text of its journal.
const EMPTY_JOURNAL: &str =
    "worker 0\nround 1\nhear 0\nbreath\nhear 0\nbreath\nround 2\nhear 0\nbreath\nhear 0\nbreath\nclose\nreclaimed\n";

#[test]
fn the_journal_is_written_into_its_file(rt: HostRuntime) -> Result<(), Fail> {
    let mut files = files_of(rt.alloc(), "s", EMPTY.as_bytes(), None, &[])?;
    let report = expect_run(&rt, &mut files, DRAINED)?;
    assert_eq!(rt; report.files.len(), 0);
    expect_held(&rt, &files, "j", Some(EMPTY_JOURNAL.as_bytes()))
}
