//! How many actions each configuration has.
ghost use Rattle.sn_scenario.specs.PlanLaws.{AreCounts, count_at, last_config};
ghost use Rattle.sn_scenario.specs.Plans.{change_of};
ghost use Rattle.std.specs.Prelude.{IfOk, length, ◌≡◌};

use crate::placed::Placed;
use sn_actions::diff;
use sn_config::Config;
use std::alloc::{AllocError, Global};

/// How many actions lead from one configuration to the next, with the commit.
fn change_len(alloc: Global, before: &Config, after: &Config) -> Result<u32, AllocError>
    ensures { IfOk result (λ count. count ≡ length (change_of before.now after.now)) }
{
    let changes = diff(alloc, before, after)?;
    Ok(changes.len() as u32 + 1)
}

/// How many actions a configuration has behind these.
fn count_behind(alloc: Global, placed: &[Placed], next: &Placed) -> Result<u32, AllocError>
    ensures { IfOk result (λ count. count ≡ length (change_of (last_config next.now.worker placed.now) next.now.config)) }
{
    let empty = Config::new(alloc);
    let mut before = &empty;
    for other in placed {
        if other.worker == next.worker {
            before = &other.config;
        }
    }
    change_len(alloc, before, &next.config)
}

/// A number for each configuration: how many actions it has.
#[tactic(auto, unfolding(crate::specs::PlanLaws::AreCounts))]
pub(crate) fn counts_of(alloc: Global, placed: &[Placed]) -> Result<Vec<u32>, AllocError>
    ensures { IfOk result (λ counts. AreCounts placed.now counts.items) }
{
    let mut counts = Vec::new(alloc);
    for (at, next) in placed.iter().enumerate() {
        let count = count_behind(alloc, &placed[..at], next)?;
        counts.push(count)?;
    }
    Ok(counts)
}
