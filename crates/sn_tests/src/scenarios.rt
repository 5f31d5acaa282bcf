//! The text of each fault with its line, the defaults, and the worked numbers of a plan.
use sn_names::MAX_SCENARIO;
use sn_scenario::*;
use std::alloc::{AllocError, Global};
use std::process::Abort;
use std::test::Fail;

/// Two configurations, of which the second replaces an app.
const REPLACED: &[u8] = b"scenario 1
config 0 0
app a Source
app b Sink
link a.out -> b.in
end
config 0 1
app a Source
app c Sink
link a.out -> c.in
end
";

const TWICE: &[u8] = b"scenario 1
config 0 0
app a Source
app b Sink
link a.out->b.in
link  a.out -> b.in 
end
";

const ONCE: &[u8] = b"scenario 1
config 0 0
app a Source
app b Sink
link a.out->b.in
end
";

const SEVENTEEN: &[u8] = b"scenario 1
workers 2
interlink a 0 1
interlink b 0 1
interlink c 0 1
interlink d 0 1
interlink e 0 1
interlink f 0 1
interlink g 0 1
interlink h 0 1
interlink i 0 1
interlink j 0 1
interlink k 0 1
interlink l 0 1
interlink m 0 1
interlink n 0 1
interlink o 0 1
interlink p 0 1
interlink q 0 1
";

const PORT_TAKEN: &[u8] = b"scenario 1
config 0 0
app a Source
app b Sink
app c Sink
link a.out -> b.in
link a.out -> c.in
end
";

/// Texts with the line and the check of their first fault.
const FAULTY: [(&[u8], u64, Why); 21] = [
    (b"scenario 1\npool \x01\n", 2, Why::Byte),
    (b"", 1, Why::Header),
    (b"scenario 1\n\nscenario 1\n", 3, Why::Word),
    (b"scenario 1\nend\n", 2, Why::Place),
    (b"scenario 1\nstop 0 0 0\npool 1\n", 3, Why::Late),
    (
        b"scenario 1\nbreaths 1000\nrounds 1000\nstop 9 0 0\n",
        4,
        Why::Product,
    ),
    (b"# one\nscenario 1\r\n pool 1 2\r\n", 3, Why::Shape),
    (b"scenario 1\nrounds 0\n", 2, Why::Number),
    (TWICE, 6, Why::Twice),
    (b"scenario 1\nworkers 2\ninterlink a- 0 1\n", 3, Why::Name),
    (b"scenario 1\nstop 1 0 0\n", 2, Why::Worker),
    (
        b"scenario 1\nconfig 0 1\nend\nconfig 0 1\nend\n",
        4,
        Why::Order,
    ),
    (SEVENTEEN, 19, Why::TooMany),
    (b"scenario 1\nconfig 0 0\napp a Sourc\nend\n", 3, Why::Class),
    (b"scenario 1\nconfig 0 0\napp a Sink 1\nend\n", 3, Why::Arg),
    (
        b"scenario 1\nconfig 0 0\napp a Receiver x\nend\n",
        3,
        Why::End,
    ),
    (
        b"scenario 1\njournal f\nconfig 0 0\napp a PcapReader f\nend\n",
        4,
        Why::FileUse,
    ),
    (
        b"scenario 1\nconfig 0 0\nlink\ta.out -> b.in\nend\n",
        3,
        Why::Link,
    ),
    (
        b"scenario 1\nconfig 0 0\napp a Source\nlink a.out -> b.in\nend\n",
        4,
        Why::NoApp,
    ),
    (PORT_TAKEN, 7, Why::PortTaken),
    (b"scenario 1\nconfig 0 0", 3, Why::NoEnd),
];

/// Where a text first fails, and at which check.
fn fault_of(alloc: Global, text: &[u8]) -> Option<ScenarioFault> {
    if text.len() > MAX_SCENARIO as usize {
        return None;
    }
    match Scenario::parse(alloc, text) {
        Err(ParseFault::Bad(fault)) => Some(fault),
        _ => None,
    }
}

/// The scenario that a text spells.
fn parsed(alloc: Global, text: &[u8]) -> Result<Scenario, Fail> {
    if text.len() > MAX_SCENARIO as usize {
        return Err("a shorter text")?;
    }
    match Scenario::parse(alloc, text) {
        Ok(scenario) => Ok(scenario),
        Err(_) => Err("a scenario")?,
    }
}

/// A scenario's first line, these words, one byte so often, and other words.
fn long_text(
    alloc: Global,
    words: &[u8],
    byte: u8,
    count: usize,
    last: &[u8],
) -> Result<Vec<u8>, AllocError> {
    let long = vec![in alloc; byte; count]?;
    [b"scenario 1\n", words, &long, last].concat(alloc)
}

/// Expects that a long text has this first fault.
fn expect_long<R: Abort + AllocGlobal>(
    rt: &R,
    words: &[u8],
    byte: u8,
    count: usize,
    last: &[u8],
    fault: ScenarioFault,
) -> Result<(), Fail> {
    let text = long_text(rt.alloc(), words, byte, count, last)?;
    assert_eq!(rt; fault_of(rt.alloc(), &text), Some(fault));
    Ok(())
}

#[test]
fn each_fault_is_found_on_its_line(rt: HostRuntime) -> Result<(), Fail> {
    for (text, line, why) in FAULTY {
        let want = ScenarioFault { line, why };
        assert_eq!(rt; fault_of(rt.alloc(), text), Some(want));
    }
    let why = Why::Long;
    expect_long(
        &rt,
        b"pool ",
        b'1',
        1020,
        b"",
        ScenarioFault { line: 2, why },
    )?;
    let why = Why::FileBad;
    expect_long(
        &rt,
        b"journal ",
        b'1',
        256,
        b"",
        ScenarioFault { line: 2, why },
    )
}

#[test]
fn a_check_is_printed_by_its_word(rt: HostRuntime) {
    assert_eq!(rt; Why::TooMany.word(), "too-many");
}

/// The settings of a text that gives none.
const DEFAULTS: Settings = Settings {
    pool: 4096,
    workers: 1,
    breaths: 100,
    rounds: 10,
    restarts: 0,
};

#[test]
fn settings_that_are_not_given_have_their_defaults(rt: HostRuntime) -> Result<(), Fail> {
    let scenario = parsed(rt.alloc(), ONCE)?;
    assert_eq!(rt; scenario.settings(), DEFAULTS);
    assert!(rt; scenario.journal().is_none());
    assert_eq!(rt; scenario.lanes().len(), 0);
    assert_eq!(rt; scenario.stops().len(), 0);
    assert_eq!(rt; scenario.captures().len(), 0);
    assert_eq!(rt; scenario.outputs().len(), 0);
    Ok(())
}

#[test]
fn an_app_that_is_replaced_is_planned_and_due(rt: HostRuntime) -> Result<(), Fail> {
    let scenario = parsed(rt.alloc(), REPLACED)?;
    assert!(rt; scenario.settings().workers > 0);
    let plan = scenario.plan(rt.alloc(), 0)?;
    assert_eq!(rt; plan.len(), 15);
    assert_eq!(rt; scenario.due(rt.alloc(), 0, 0)?, 6);
    assert_eq!(rt; scenario.due(rt.alloc(), 0, 1)?, 15);
    Ok(())
}

#[test]
fn a_worker_has_a_roster(rt: HostRuntime) -> Result<(), Fail> {
    let scenario = parsed(rt.alloc(), REPLACED)?;
    assert!(rt; scenario.settings().workers > 0);
    let roster = scenario.roster(rt.alloc(), 0)?;
    assert_eq!(rt; roster.apps.len(), 3);
    assert_eq!(rt; roster.links.len(), 2);
    Ok(())
}

#[test]
fn the_longest_text_is_read_and_a_fault_far_down_is_found(rt: HostRuntime) -> Result<(), Fail> {
    let longest = long_text(rt.alloc(), b"", b'\n', MAX_SCENARIO as usize - 11, b"")?;
    assert_eq!(rt; longest.len(), MAX_SCENARIO as usize);
    let scenario = parsed(rt.alloc(), &longest)?;
    assert!(rt; scenario.stops().is_empty());
    let why = Why::Number;
    expect_long(
        &rt,
        b"",
        b'\n',
        2000,
        b"pool 0\n",
        ScenarioFault { line: 2002, why },
    )
}
