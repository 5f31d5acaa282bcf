//! Configurations, placed at a worker and a round.
ghost use Rattle.sn_scenario.specs.ConfigLines.{config_line, has_later, of_worker};
ghost use Rattle.sn_scenario.specs.Cutting.{tokens};
ghost use Rattle.sn_scenario.specs.Results.{Gives};
ghost use Rattle.std.specs.Prelude.{count_by, ◌≡◌};

use crate::Why;
use crate::fault::LineFault;
use crate::reading::{number_of, worker_of};
use crate::settings::MOST_ROUNDS;
use crate::shape::two_tokens;
use sn_config::Config;
use std::alloc::Global;

/// The most configurations of a worker: a bound that the format sets.
const MOST_CONFIGS: usize = 64;

/// A configuration, and where it is due.
#[derive(Debug, Drop)]
pub(crate) struct Placed {
    /// The worker.
    pub(crate) worker: u32,
    /// The round.
    pub(crate) round: u32,
    /// The configuration.
    pub(crate) config: Config,
}

/// Whether a configuration of the worker has this round or a later one.
fn has_later(placed: &[Placed], worker: u32, round: u32) -> bool
    ensures { result ≡ has_later worker round placed.now }
{
    placed
        .iter()
        .any(|other| other.worker == worker && round <= other.round)
}

/// How many configurations are the worker's.
fn count_of(placed: &[Placed], worker: u32) -> usize
    ensures { result ≡ count_by (of_worker worker) placed.now }
{
    placed.iter().filter(|other| other.worker == worker).count()
}

/// Reads the line that begins a configuration after its first token.
#[tactic(auto, unfolding(crate::specs::ConfigLines::config_line))]
pub(crate) fn config_line(
    alloc: Global,
    placed: &[Placed],
    workers: u32,
    text: &[u8],
) -> Result<Placed, LineFault>
    ensures { Gives (λ p. p) result (config_line workers placed.now (tokens text.now)) }
{
    let (worker, round) = two_tokens(text)?;
    let worker = worker_of(worker, workers)?;
    let round = number_of(round, 0, MOST_ROUNDS)?;
    if has_later(placed, worker, round) {
        return Err(LineFault::Bad(Why::Order));
    }
    if count_of(placed, worker) >= MOST_CONFIGS {
        return Err(LineFault::Bad(Why::TooMany));
    }
    Ok(Placed {
        worker,
        round,
        config: Config::new(alloc),
    })
}
