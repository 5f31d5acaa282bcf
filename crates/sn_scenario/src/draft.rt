//! What was read so far of a scenario.
ghost use Rattle.sn_scenario.specs.DraftView.{reading_of};
ghost use Rattle.sn_scenario.specs.Results.{Leaves};
ghost use Rattle.sn_scenario.specs.ScenarioText.{begin, by_place, header, inside, is_header, is_one, later, line_gives, outside, significant, start, workers};
ghost use Rattle.sn_scenario.specs.SettingLines.{is_over};
ghost use Rattle.std.specs.Prelude.{IsSome, ◌≡◌};

use crate::app_line::app_line;
use crate::cutting::{is_plain, is_remark, split_token};
use crate::fault::LineFault;
use crate::files::Files;
use crate::kind::{Kind, Setting, is_same, kind_of};
use crate::lane::lane_line;
use crate::link_line::link_line;
use crate::placed::{Placed, config_line};
use crate::settings::{Given, setting_line};
use crate::shape::{no_token, one_token};
use crate::stop::stop_line;
use crate::{Lane, Settings, StopLine, Why};
use std::alloc::Global;
use std::collections::{BTreeMap, BTreeSet};

/// The most bytes of a line that isn't skipped: a bound that the format sets.
const MOST_LINE_BYTES: usize = 1024;
/// The most breaths of all rounds, which bounds how long a run takes.
const MOST_TURNS: u64 = 100_000;

/// What was read so far.
#[derive(Drop)]
pub(crate) struct Draft {
    pub(crate) headed: bool,
    pub(crate) begun: bool,
    pub(crate) given: Given,
    pub(crate) lanes: Vec<Lane>,
    pub(crate) placed: Vec<Placed>,
    pub(crate) current: Option<Placed>,
    pub(crate) stops: Vec<StopLine>,
    pub(crate) files: Files,
}

impl Draft {
    /// Nothing.
    pub(crate) fn new(alloc: Global) -> Draft
        ensures { reading_of result ≡ start }
    {
        Draft {
            headed: false,
            begun: false,
            given: Given {
                pool: None,
                workers: None,
                breaths: None,
                rounds: None,
                restarts: None,
                journal: None,
            },
            lanes: Vec::new(alloc),
            placed: Vec::new(alloc),
            current: None,
            stops: Vec::new(alloc),
            files: Files {
                captures: BTreeSet::new(alloc),
                outputs: BTreeMap::new(alloc),
            },
        }
    }
}

/// Whether rounds times breaths is over 100,000.
pub(crate) fn is_over(settings: Settings) -> bool
    ensures { result ≡ is_over settings }
{
    u64::from(settings.rounds) * u64::from(settings.breaths) > MOST_TURNS
}

/// How many workers there are.
fn workers(draft: &Draft) -> u32
    ensures { result ≡ workers (reading_of draft.now) }
{
    draft.given.settings().workers
}

/// Begins what follows the settings.
#[tactic(auto, unfolding(crate::specs::ScenarioText::begin))]
pub(crate) fn begin(draft: &mut Draft) -> Result<(), LineFault>
    ensures { Leaves (reading_of draft.new) result (begin (reading_of draft.old)) }
{
    if !draft.begun && is_over(draft.given.settings()) {
        return Err(LineFault::Bad(Why::Product));
    }
    draft.begun = true;
    Ok(())
}

/// Reads a line of a setting.
#[tactic(auto, unfolding(crate::specs::ScenarioText::outside))]
fn outside_setting(
    alloc: Global,
    draft: &mut Draft,
    setting: Setting,
    rest: &[u8],
) -> Result<(), LineFault>
    ensures { Leaves (reading_of draft.new) result (outside (Kind.Setting setting) (reading_of draft.old) rest.now) }
{
    if draft.begun {
        return Err(LineFault::Bad(Why::Late));
    }
    setting_line(alloc, &mut draft.given, setting, rest)?;
    Ok(())
}

/// Reads a line of an interlink.
#[tactic(auto, unfolding(crate::specs::ScenarioText::outside))]
fn outside_lane(alloc: Global, draft: &mut Draft, rest: &[u8]) -> Result<(), LineFault>
    ensures { Leaves (reading_of draft.new) result (outside Kind.Interlink (reading_of draft.old) rest.now) }
{
    begin(draft)?;
    let workers = workers(draft);
    lane_line(alloc, &mut draft.lanes, workers, rest)?;
    Ok(())
}

/// Reads the line that begins a configuration.
#[tactic(auto, unfolding(crate::specs::ScenarioText::outside))]
fn outside_config(alloc: Global, draft: &mut Draft, rest: &[u8]) -> Result<(), LineFault>
    ensures { Leaves (reading_of draft.new) result (outside Kind.Config (reading_of draft.old) rest.now) }
{
    begin(draft)?;
    let workers = workers(draft);
    let placed = config_line(alloc, &draft.placed, workers, rest)?;
    draft.current = Some(placed);
    Ok(())
}

/// Reads a line of a stop.
#[tactic(auto, unfolding(crate::specs::ScenarioText::outside))]
fn outside_stop(draft: &mut Draft, rest: &[u8]) -> Result<(), LineFault>
    ensures { Leaves (reading_of draft.new) result (outside Kind.Stop (reading_of draft.old) rest.now) }
{
    begin(draft)?;
    let workers = workers(draft);
    stop_line(&mut draft.stops, workers, rest)?;
    Ok(())
}

/// Reads a line outside of a configuration after its first token.
#[tactic(auto, unfolding(crate::specs::ScenarioText::outside))]
fn outside(alloc: Global, draft: &mut Draft, kind: Kind, rest: &[u8]) -> Result<(), LineFault>
    ensures { Leaves (reading_of draft.new) result (outside kind (reading_of draft.old) rest.now) }
{
    match kind {
        Kind::Setting(setting) => outside_setting(alloc, draft, setting, rest),
        Kind::Interlink => outside_lane(alloc, draft, rest),
        Kind::Config => outside_config(alloc, draft, rest),
        Kind::Stop => outside_stop(draft, rest),
        Kind::App | Kind::Link | Kind::End => Err(LineFault::Bad(Why::Place)),
    }
}

/// Reads a line of an app.
#[tactic(auto, unfolding(crate::specs::ScenarioText::inside))]
fn inside_app(
    alloc: Global,
    draft: &mut Draft,
    mut placed: Placed,
    rest: &[u8],
) -> Result<(), LineFault>
    ensures { Leaves (reading_of draft.new) result (inside Kind.App placed (reading_of draft.old) rest.now) }
{
    app_line(
        alloc,
        &draft.given.journal,
        &draft.lanes,
        &mut draft.files,
        &mut placed,
        rest,
    )?;
    draft.current = Some(placed);
    Ok(())
}

/// Reads a line of a link.
#[tactic(auto, unfolding(crate::specs::ScenarioText::inside))]
fn inside_link(
    alloc: Global,
    draft: &mut Draft,
    mut placed: Placed,
    rest: &[u8],
) -> Result<(), LineFault>
    ensures { Leaves (reading_of draft.new) result (inside Kind.Link placed (reading_of draft.old) rest.now) }
{
    link_line(alloc, &mut placed.config, rest)?;
    draft.current = Some(placed);
    Ok(())
}

/// Reads the line that ends a configuration.
#[tactic(auto, unfolding(crate::specs::ScenarioText::inside))]
fn inside_end(draft: &mut Draft, placed: Placed, rest: &[u8]) -> Result<(), LineFault>
    ensures { Leaves (reading_of draft.new) result (inside Kind.End placed (reading_of draft.old) rest.now) }
{
    no_token(rest)?;
    draft.placed.push(placed)?;
    draft.current = None;
    Ok(())
}

/// Reads a line inside of this configuration after its first token.
#[tactic(auto, unfolding(crate::specs::ScenarioText::inside))]
fn inside(
    alloc: Global,
    draft: &mut Draft,
    kind: Kind,
    placed: Placed,
    rest: &[u8],
) -> Result<(), LineFault>
    ensures { Leaves (reading_of draft.new) result (inside kind placed (reading_of draft.old) rest.now) }
{
    match kind {
        Kind::App => inside_app(alloc, draft, placed, rest),
        Kind::Link => inside_link(alloc, draft, placed, rest),
        Kind::End => inside_end(draft, placed, rest),
        Kind::Setting(_) | Kind::Interlink | Kind::Config | Kind::Stop => {
            Err(LineFault::Bad(Why::Place))
        }
    }
}

/// Reads a line inside of the configuration that is there.
#[tactic(auto, unfolding(crate::specs::ScenarioText::inside))]
fn inside_current(
    alloc: Global,
    draft: &mut Draft,
    kind: Kind,
    rest: &[u8],
) -> Result<(), LineFault>
    requires { IsSome draft.old.current }
    ensures { Leaves (reading_of draft.new) result (by_place draft.old.current kind (reading_of draft.old) rest.now) }
{
    let Some(placed) = draft.current.take() else {
        unreachable!()
    };
    inside(alloc, draft, kind, placed, rest)
}

/// Reads a line after the first, by its first token and what follows it.
#[tactic(auto, unfolding(crate::specs::ScenarioText::later))]
fn later(alloc: Global, draft: &mut Draft, word: &[u8], rest: &[u8]) -> Result<(), LineFault>
    ensures { Leaves (reading_of draft.new) result (later (reading_of draft.old) word.now rest.now) }
{
    let Some(kind) = kind_of(word) else {
        return Err(LineFault::Bad(Why::Word));
    };
    if draft.current.is_some() {
        return inside_current(alloc, draft, kind, rest);
    }
    outside(alloc, draft, kind, rest)
}

/// Whether these are the tokens of the first line.
fn is_header(word: &[u8], rest: &[u8]) -> bool
    ensures { result ≡ is_header word.now rest.now }
{
    if !is_same(word, b"scenario") {
        return false;
    }
    match one_token(rest) {
        Ok(token) => is_same(token, b"1"),
        Err(_) => false,
    }
}

/// Reads the first line.
#[tactic(auto, unfolding(crate::specs::ScenarioText::header))]
fn header(draft: &mut Draft, word: &[u8], rest: &[u8]) -> Result<(), LineFault>
    ensures { Leaves (reading_of draft.new) result (header (reading_of draft.old) word.now rest.now) }
{
    if !is_header(word, rest) {
        return Err(LineFault::Bad(Why::Header));
    }
    draft.headed = true;
    Ok(())
}

/// Reads a line, without the byte 13 at its end.
#[tactic(auto, unfolding(crate::specs::ScenarioText::line_gives, crate::specs::ScenarioText::significant))]
pub(crate) fn read_line(alloc: Global, draft: &mut Draft, line: &[u8]) -> Result<(), LineFault>
    ensures { Leaves (reading_of draft.new) result (line_gives (reading_of draft.old) line.now) }
{
    let (word, rest) = split_token(line);
    if is_remark(word) {
        return Ok(());
    }
    if line.len() > MOST_LINE_BYTES {
        return Err(LineFault::Bad(Why::Long));
    }
    if !is_plain(line) {
        return Err(LineFault::Bad(Why::Byte));
    }
    if draft.headed {
        return later(alloc, draft, word, rest);
    }
    header(draft, word, rest)
}
