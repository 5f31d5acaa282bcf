//! Commands that read a scenario alone: whether it is one, and what a worker does.
use crate::commands::{Want, expect, files_of};
use std::process::Abort;
use std::test::Fail;
use std::thread::Threads;

/// Runs a command over a file `s` of this text alone, and expects this text and exit status of it.
fn expect_text<R: Threads + Sync + Abort + AllocGlobal>(
    rt: &R,
    words: &[&str],
    scenario: &str,
    text: &str,
    number: u8,
) -> Result<(), Fail> {
    let files = files_of(rt.alloc(), "s", scenario.as_bytes(), None, &[])?;
    let want = Want {
        number,
        replaced: None,
        text,
        written: None,
        report: None,
        calls: 1,
    };
    expect(rt, words, files, &[], &want)
}

/// Two configurations of a worker, of which the second has another app.
const REPLACED: &str =
    "scenario 1\nconfig 0 0\napp a Source\napp b Sink\nlink a.out -> b.in\nend\nconfig 0 1\napp a Source\napp c Sink\nlink a.out -> c.in\nend\n";

/// What it does.
const FIFTEEN: &str =
    "1 start_app a Source\n2 start_app b Sink\n3 new_link a.out -> b.in\n4 link_output a.out -> b.in\n5 link_input a.out -> b.in\n6 commit\n7 unlink_output a.out -> b.in\n8 unlink_input a.out -> b.in\n9 free_link a.out -> b.in\n10 stop_app b\n11 start_app c Sink\n12 new_link a.out -> c.in\n13 link_output a.out -> c.in\n14 link_input a.out -> c.in\n15 commit\n";

/// Two configurations of a worker, of which the second has another class of app.
const OTHER_CLASS: &str =
    "scenario 1\nconfig 0 0\napp a Source\napp b Sink\nlink a.out -> b.in\nend\nconfig 0 1\napp a Source\napp b Tee\nlink a.out -> b.in\nend\n";

/// What it does.
const TEN: &str =
    "1 start_app a Source\n2 start_app b Sink\n3 new_link a.out -> b.in\n4 link_output a.out -> b.in\n5 link_input a.out -> b.in\n6 commit\n7 stop_app b\n8 start_app b Tee\n9 link_input a.out -> b.in\n10 commit\n";

#[test]
fn plan_app_replaced_stops_one_and_starts_another(rt: HostRuntime) -> Result<(), Fail> {
    expect_text(&rt, &["actions", "s", "0"], REPLACED, FIFTEEN, 0)
}

#[test]
fn plan_class_changed_starts_the_app_anew(rt: HostRuntime) -> Result<(), Fail> {
    expect_text(&rt, &["actions", "s", "0"], OTHER_CLASS, TEN, 0)
}

#[test]
fn arguments_are_printed(rt: HostRuntime) -> Result<(), Fail> {
    let scenario =
        "scenario 1\nworkers 2\ninterlink x 1 0\nconfig 1 0\napp a Source 60\napp b ByteFilter 7=255\napp c PcapWriter out.pcap\napp d Transmitter x\nend\n";
    let text =
        "1 start_app a Source 60\n2 start_app b ByteFilter 7=255\n3 start_app c PcapWriter out.pcap\n4 start_app d Transmitter x\n5 commit\n";
    expect_text(&rt, &["actions", "s", "1"], scenario, text, 0)?;
    expect_text(&rt, &["actions", "s", "0"], scenario, "", 0)
}

#[test]
fn sink_fails_while_actions_are_printed(rt: HostRuntime) -> Result<(), Fail> {
    let files = files_of(rt.alloc(), "s", REPLACED.as_bytes(), None, &[])?;
    let want = Want {
        number: 2,
        replaced: Some(0),
        text: "1 start_app a ",
        written: None,
        report: None,
        calls: 1,
    };
    expect(&rt, &["actions", "s", "0"], files, &[3], &want)
}

#[test]
fn link_twice_is_a_fault_for_every_command(rt: HostRuntime) -> Result<(), Fail> {
    let twice =
        "scenario 1\nconfig 0 0\napp a Source\napp b Sink\nlink a.out->b.in\nlink  a.out -> b.in \nend\n";
    let once = "scenario 1\nconfig 0 0\napp a Source\napp b Sink\nlink a.out->b.in\nend\n";
    let text = "scenario line 6 twice\n";
    expect_text(&rt, &["check", "s"], twice, text, 3)?;
    expect_text(&rt, &["actions", "s", "9"], twice, text, 3)?;
    expect_text(&rt, &["run", "s"], twice, text, 3)?;
    expect_text(&rt, &["check", "s"], once, "ok\n", 0)
}

/// Scenarios that don't run yet: they stop a worker.
const NOT_YET: [&str; 2] = [
    "scenario 1\nstop 0 0 0\n",
    "scenario 1\nworkers 2\nstop 1 5 2\n",
];

#[test]
fn not_yet_is_of_runs_alone(rt: HostRuntime) -> Result<(), Fail> {
    for scenario in NOT_YET {
        expect_text(&rt, &["run", "s"], scenario, "not yet s\n", 3)?;
        expect_text(&rt, &["check", "s"], scenario, "ok\n", 0)?;
    }
    Ok(())
}
