//! What a scenario has each worker do.
ghost use Rattle.sn_actions.specs.PlainForms.{empty_form};
ghost use Rattle.sn_actions.specs.Plains.{apply_all, full};
ghost use Rattle.sn_config.specs.Configs.{IsConfig};
ghost use Rattle.sn_scenario.specs.ConfigLines.{no_config, of_worker};
ghost use Rattle.sn_scenario.specs.PlanLaws.{AreChanged, AreCounts, IsChanged, IsListed, UsesOwnEnds, committed_config, prefix_of};
ghost use Rattle.sn_scenario.specs.Plans.{change_of, due_after, due_of, plan_after, plan_of, roster_of};
ghost use Rattle.sn_scenario.specs.Scenarios.{ArePlaced};
ghost use Rattle.std.specs.Prelude.{All, IfOk, IsOk, Ok, OnOk, cond, count_by, filter, nat_le, take, ℕ, ◌&&◌, ◌++◌, ◌<◌, ◌≡◌, ◌≤◌};

use crate::Scenario;
use crate::placed::Placed;
use sn_actions::{Action, diff};
use sn_config::Config;
use std::alloc::{AllocError, Global};

/// Recalls what holds of every configuration.
fn recall_config(config: &Config)
    ensures { IsConfig config.now }
{
    let _links = config.links().len();
}

/// Adds the actions that lead from one configuration to the next, and a commit.
fn push_change(
    alloc: Global,
    actions: &mut Vec<Action>,
    before: &Config,
    after: &Config,
) -> Result<(), AllocError>
    ensures items { OnOk result (actions.new.items ≡ actions.old.items ++ change_of before.now after.now) }
    ensures laws { OnOk result (IsChanged before.now after.now) }
{
    recall_config(after);
    let mut changes = diff(alloc, before, after)?;
    changes.push(Action::Commit)?;
    actions.append(&mut changes)?;
    Ok(())
}

/// The actions of a worker's configurations.
fn plan_from(alloc: Global, placed: &[Placed], worker: u32) -> Result<Vec<Action>, AllocError>
    ensures plan { IfOk result (λ actions. actions.items ≡ plan_after no_config (filter (of_worker worker) placed.now)) }
    ensures laws { OnOk result (AreChanged no_config (filter (of_worker worker) placed.now)) }
{
    let mut actions = Vec::new(alloc);
    let empty = Config::new(alloc);
    let mut before = &empty;
    for next in placed {
        if next.worker == worker {
            push_change(alloc, &mut actions, before, &next.config)?;
            before = &next.config;
        }
    }
    Ok(actions)
}

/// How many actions of a configuration are due, where it has so many.
fn due_of_one(next: &Placed, count: u32, worker: u32, round: u32) -> u64
    ensures due { result ≡ cond (of_worker worker next.now && nat_le next.now.round round) count 0 }
    ensures within { result ≤ count }
{
    if next.worker == worker && next.round <= round {
        return u64::from(count);
    }
    0
}

/// How many actions of a worker's configurations are due, by how many each has.
#[tactic(auto, unfolding(crate::specs::PlanLaws::AreCounts))]
fn due_from(placed: &[Placed], counts: &[u32], worker: u32, round: u32) -> u64
    requires counted { AreCounts placed.now counts.now }
    requires few { count_by (of_worker worker) placed.now ≤ 64 }
    ensures { result ≡ due_after round no_config (filter (of_worker worker) placed.now) }
{
    let mut due: u64 = 0;
    for (at, next) in placed.iter().enumerate() {
        due += due_of_one(next, counts[at], worker, round);
    }
    due
}

impl Scenario {
    /// The actions of a worker below the number of workers: for each of its configurations those
    /// that lead to it from the one before, the first from the empty one, and a commit.
    ///
    /// # Errors
    /// Want of memory.
    #[tactic(auto, unfolding(crate::specs::Scenarios::IsBounded))]
    pub fn plan(&self, alloc: Global, worker: u32) -> Result<Vec<Action>, AllocError>
        requires { worker < self.now.settings.workers }
        ensures plan { IfOk result (λ actions. actions.items ≡ plan_of worker self.now) }
        ensures bounds { ArePlaced self.now.settings.workers self.now.placed }

        // From the empty form each action is taken, one after another.
        ensures taken { OnOk result ((n : ℕ) → IsOk (apply_all (take n (plan_of worker self.now)) empty_form)) }

        // Up to the last commit among the first n it gives the full form of that commit's configuration.
        ensures prefixes { OnOk result ((n : ℕ) → prefix_of worker n self.now ≡ Ok (full (committed_config worker n self.now))) }

        // What each names stands in the worker's roster, and each app has an argument of its class.
        ensures listed { OnOk result (All (IsListed (roster_of worker self.now)) (plan_of worker self.now)) }

        // An app that is started or gets a new argument takes ends of interlinks that are this worker's.
        ensures own_ends { OnOk result (All (UsesOwnEnds self.now.lanes worker) (plan_of worker self.now)) }
    {
        let actions = plan_from(alloc, &self.placed, worker)?;
        Ok(actions)
    }

    /// How many of these actions belong to configurations of this round or an earlier one. It looks at
    /// each configuration once and takes no memory.
    ///
    /// # Errors
    /// None.
    #[tactic(auto, unfolding(crate::specs::Scenarios::IsBounded))]
    pub fn due(&self, _alloc: Global, worker: u32, round: u32) -> Result<u64, AllocError>
        requires { worker < self.now.settings.workers }
        ensures due { IfOk result (λ due. due ≡ due_of worker round self.now) }
        ensures bounds { ArePlaced self.now.settings.workers self.now.placed }
        ensures ok { IsOk result }
    {
        Ok(due_from(&self.placed, &self.counts, worker, round))
    }
}
