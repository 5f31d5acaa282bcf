//! The settings of a scenario.
ghost use Rattle.sn_scenario.specs.Cutting.{tokens};
ghost use Rattle.sn_scenario.specs.Results.{Gives, Leaves};
ghost use Rattle.sn_scenario.specs.SettingLines.{journal_line, number_line, setting_line, settings_of};
ghost use Rattle.std.specs.Option.{option_copied};
ghost use Rattle.std.specs.Prelude.{Option, List, ℕ, ◌≡◌, ◌≤◌, ◌<◌, ◌^◌, IfSome, unwrap_or};

use crate::Why;
use crate::fault::LineFault;
use crate::kind::Setting;
use crate::reading::{file_of, number_of};
use crate::shape::one_token;
use sn_names::FileName;
use std::alloc::Global;

/// The most packets of a pool. Their buffers of 10,240 bytes come to 160 MiB.
const MOST_POOL: u32 = 16_384;
/// The most workers: a bound that the format sets.
const MOST_WORKERS: u32 = 16;
/// The most breaths of a round: a bound that the format sets.
const MOST_BREATHS: u32 = 1000;
/// The most rounds. A configuration may name any of them.
pub(crate) const MOST_ROUNDS: u32 = 100_000;
/// The most restarts of a worker: a bound that the format sets.
const MOST_RESTARTS: u32 = 1000;
/// The pool where none is given: 40 MiB of buffers.
const DEFAULT_POOL: u32 = 4096;
/// The workers where none are given.
const DEFAULT_WORKERS: u32 = 1;
/// The breaths of a round where none are given.
const DEFAULT_BREATHS: u32 = 100;
/// The rounds where none are given.
const DEFAULT_ROUNDS: u32 = 10;
/// The restarts where none are given.
const DEFAULT_RESTARTS: u32 = 0;

/// How large a run is.
#[derive(Clone, Copy, Debug, PartialEq, Eq)]
pub struct Settings {
    /// How many packets there are, 1 to 16,384.
    pub pool: u32,
    /// How many workers there are, 1 to 16.
    pub workers: u32,
    /// How many breaths a round has, 1 to 1,000.
    pub breaths: u32,
    /// How many rounds there are at most, 1 to 100,000.
    pub rounds: u32,
    /// How often a worker is started again at most, 0 to 1,000.
    pub restarts: u32,
}

/// The settings that were given so far.
#[derive(Drop)]
pub(crate) struct Given {
    pub(crate) pool: Option<u32>,
    pub(crate) workers: Option<u32>,
    pub(crate) breaths: Option<u32>,
    pub(crate) rounds: Option<u32>,
    pub(crate) restarts: Option<u32>,
    pub(crate) journal: Option<FileName>,
}

/// The number of a setting that wasn't given before.
#[tactic(auto, unfolding(crate::specs::SettingLines::number_line))]
fn number_line(text: &[u8], before: Option<u32>, low: u32, high: u32) -> Result<u32, LineFault>
    ensures { Gives (λ n. n) result (number_line low high before (tokens text.now)) }
{
    let token = one_token(text)?;
    let number = number_of(token, low, high)?;
    if before.is_some() {
        return Err(LineFault::Bad(Why::Twice));
    }
    Ok(number)
}

/// The journal's file, where it wasn't given before.
#[tactic(auto, unfolding(crate::specs::SettingLines::journal_line))]
fn journal_line(
    alloc: Global,
    text: &[u8],
    before: &Option<FileName>,
) -> Result<FileName, LineFault>
    ensures { Gives (λ n. n) result (journal_line before.now (tokens text.now)) }
{
    let token = one_token(text)?;
    let name = file_of(alloc, token)?;
    if before.is_some() {
        return Err(LineFault::Bad(Why::Twice));
    }
    Ok(name)
}

/// Reads a setting's line after its first token.
#[tactic(auto, unfolding(crate::specs::SettingLines::setting_line))]
pub(crate) fn setting_line(
    alloc: Global,
    given: &mut Given,
    setting: Setting,
    text: &[u8],
) -> Result<(), LineFault>
    ensures { Leaves given.new result (setting_line setting given.old (tokens text.now)) }
{
    match setting {
        Setting::Pool => given.pool = Some(number_line(text, given.pool, 1, MOST_POOL)?),
        Setting::Workers => given.workers = Some(number_line(
            text,
            given.workers,
            1,
            MOST_WORKERS,
        )?),
        Setting::Breaths => given.breaths = Some(number_line(
            text,
            given.breaths,
            1,
            MOST_BREATHS,
        )?),
        Setting::Rounds => given.rounds = Some(number_line(text, given.rounds, 1, MOST_ROUNDS)?),
        Setting::Restarts => given.restarts = Some(number_line(
            text,
            given.restarts,
            0,
            MOST_RESTARTS,
        )?),
        Setting::Journal => given.journal = Some(journal_line(alloc, text, &given.journal)?),
    }
    Ok(())
}

impl Given {
    /// The settings, with their defaults.
    pub(crate) fn settings(&self) -> Settings
        ensures { result ≡ settings_of self.now }
    {
        Settings {
            pool: self.pool.unwrap_or(DEFAULT_POOL),
            workers: self.workers.unwrap_or(DEFAULT_WORKERS),
            breaths: self.breaths.unwrap_or(DEFAULT_BREATHS),
            rounds: self.rounds.unwrap_or(DEFAULT_ROUNDS),
            restarts: self.restarts.unwrap_or(DEFAULT_RESTARTS),
        }
    }
}
