//! How a worker takes the actions of its plan.
ghost use Rattle.std.specs.Prelude.{◌≡◌, ◌+◌, ◌<◌, ◌≤◌, true, OnOk, Ok, get_or, length};
ghost use Rattle.sn_actions.specs.Plains.{apply_all};
ghost use Rattle.sn_actions.specs.declared.action.Action.TheVariants.{Commit};
ghost use Rattle.sn_app.specs.Runs.{Runs, stands_at};
ghost use Rattle.sn_breath.specs.Breaths.{folding};
ghost use Rattle.sn_network.specs.Acting.{acts};
ghost use Rattle.sn_network.specs.Networks.{IsStanding, kept_by, plain_in, shown, world_of};
ghost use Rattle.sn_scenario.specs.PlanLaws.{is_commit};
ghost use Rattle.sn_worker.specs.Lives.{commits, next_actions, takes};
ghost use Rattle.sn_worker.specs.Plans.{CanTake, FindsAll};
ghost use Rattle.sn_worker.specs.Workers.{CanWork, kept_of, life_of, plan_in, world_around};

use crate::Worker;
use sn_actions::Action;
use sn_app::{Ctx, Halt};
use sn_network::Network;

/// The most actions that a turn takes.
const MOST_TAKEN: u64 = 4;

/// Applies actions to a network, one after another.
fn act_each<C: Ctx>(network: &mut Network, ctx: &mut C, actions: &[Action]) -> Result<(), Halt>
    requires stands { IsStanding network.old (C.used ctx.old) (C.tray ctx.old) }
    requires taken { CanTake actions.now (plain_in network.old) }
    requires found { FindsAll actions.now (C.tray ctx.old) }
    ensures runs { Runs (folding actions.now acts (shown network.old (C.used ctx.old) (C.tray ctx.old)))
        (world_of network.old (C.used ctx.old) (C.tray ctx.old)) (world_of network.new (C.used ctx.new) (C.tray ctx.new))
        (kept_by network.old) (kept_by network.new) (stands_at (shown network.new (C.used ctx.new) (C.tray ctx.new)) result) }
    ensures plain { OnOk result (apply_all actions.now (plain_in network.old) ≡ Ok (plain_in network.new)) }
    ensures stands { OnOk result (IsStanding network.new (C.used ctx.new) (C.tray ctx.new)) }
    ensures lent { C.lender ctx.new ≡ C.lender ctx.old }
{
    for i in 0..actions.len() {
        network.apply(ctx, &actions[i])?;
    }
    Ok(())
}

/// Whether an action is a commit.
fn is_commit(action: &Action) -> bool
    ensures { result ≡ is_commit action.now }
{
    matches!(action, Action::Commit)
}

/// Takes the next action, which is a commit: the actions that wait are applied, and then it.
fn commit_next<C: Ctx>(worker: &mut Worker, ctx: &mut C) -> Result<(), Halt>
    requires works { CanWork worker.old (C.used ctx.old) (C.tray ctx.old) }
    requires more { worker.old.taken < length (plan_in worker.old) }
    requires commit { is_commit (get_or (plan_in worker.old) worker.old.taken Commit) ≡ true }
    ensures runs { Runs (commits (get_or (plan_in worker.old) worker.old.taken Commit)
        (life_of worker.old (C.used ctx.old) (C.tray ctx.old)))
        (world_around worker.old (C.used ctx.old) (C.tray ctx.old)) (world_around worker.new (C.used ctx.new) (C.tray ctx.new))
        (kept_of worker.old) (kept_of worker.new) (stands_at (life_of worker.new (C.used ctx.new) (C.tray ctx.new)) result) }
    ensures works { OnOk result (CanWork worker.new (C.used ctx.new) (C.tray ctx.new)) }
    ensures taken { OnOk result (worker.new.taken ≡ worker.old.taken + 1) }
    ensures plan { plan_in worker.new ≡ plan_in worker.old }
    ensures spent { worker.new.spent ≡ worker.old.spent }
    ensures lent { C.lender ctx.new ≡ C.lender ctx.old }
{
    let (from, to) = (worker.applied, worker.taken);
    act_each(&mut worker.network, ctx, &worker.plan[from..to])?;
    worker.network.apply(ctx, &worker.plan[to])?;
    worker.applied = to + 1;
    worker.taken = to + 1;
    Ok(())
}

/// Takes the next action: it waits, but a commit.
fn take_one<C: Ctx>(worker: &mut Worker, ctx: &mut C) -> Result<(), Halt>
    requires works { CanWork worker.old (C.used ctx.old) (C.tray ctx.old) }
    requires more { worker.old.taken < length (plan_in worker.old) }
    ensures runs { Runs (takes (get_or (plan_in worker.old) worker.old.taken Commit)
        (life_of worker.old (C.used ctx.old) (C.tray ctx.old)))
        (world_around worker.old (C.used ctx.old) (C.tray ctx.old)) (world_around worker.new (C.used ctx.new) (C.tray ctx.new))
        (kept_of worker.old) (kept_of worker.new) (stands_at (life_of worker.new (C.used ctx.new) (C.tray ctx.new)) result) }
    ensures works { OnOk result (CanWork worker.new (C.used ctx.new) (C.tray ctx.new)) }
    ensures taken { OnOk result (worker.new.taken ≡ worker.old.taken + 1) }
    ensures plan { plan_in worker.new ≡ plan_in worker.old }
    ensures spent { worker.new.spent ≡ worker.old.spent }
    ensures lent { C.lender ctx.new ≡ C.lender ctx.old }
{
    let next = worker.taken;
    if is_commit(&worker.plan[next]) {
        return commit_next(worker, ctx);
    }
    worker.taken = next + 1;
    Ok(())
}

/// How many actions a turn takes where so many are due.
fn count_due(worker: &Worker, due: u64) -> usize
    requires { worker.now.taken ≤ length (plan_in worker.now) }
    ensures { result ≡ length (next_actions (plan_in worker.now) due worker.now.taken) }
{
    let behind = due.saturating_sub(worker.taken as u64).min(MOST_TAKEN) as usize;
    behind.min(worker.plan.len() - worker.taken)
}

/// Takes the next actions numbered up to `due`, at most four.
pub(crate) fn take_due<C: Ctx>(worker: &mut Worker, ctx: &mut C, due: u64) -> Result<(), Halt>
    requires works { CanWork worker.old (C.used ctx.old) (C.tray ctx.old) }
    ensures runs { Runs (folding (next_actions (plan_in worker.old) due worker.old.taken) takes
        (life_of worker.old (C.used ctx.old) (C.tray ctx.old)))
        (world_around worker.old (C.used ctx.old) (C.tray ctx.old)) (world_around worker.new (C.used ctx.new) (C.tray ctx.new))
        (kept_of worker.old) (kept_of worker.new) (stands_at (life_of worker.new (C.used ctx.new) (C.tray ctx.new)) result) }
    ensures works { OnOk result (CanWork worker.new (C.used ctx.new) (C.tray ctx.new)) }
    ensures plan { plan_in worker.new ≡ plan_in worker.old }
    ensures spent { worker.new.spent ≡ worker.old.spent }
    ensures lent { C.lender ctx.new ≡ C.lender ctx.old }
{
    for taken in 0..count_due(worker, due) {
        take_one(worker, ctx)?;
    }
    Ok(())
}
