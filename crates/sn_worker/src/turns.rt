//! A worker's breath, and its last turn.
ghost use Rattle.std.specs.Prelude.{◌≡◌, OnOk};
ghost use Rattle.sn_app.specs.Runs.{Runs, stands_at};
ghost use Rattle.sn_worker.specs.Turns.{breathes, last_turn};
ghost use Rattle.sn_worker.specs.Workers.{CanWork, kept_of, life_of, plan_in, world_around};

use crate::{Work, Worker};
use sn_app::Halt;
use sn_breath::breathe;
use sn_journal::Entry;

/// The worker's network breathes.
pub(crate) fn breathe_once<C: Work>(worker: &mut Worker, ctx: &mut C) -> Result<(), Halt>
    requires works { CanWork worker.old (C.used ctx.old) (C.tray ctx.old) }
    ensures runs { Runs (breathes (plan_in worker.old) (life_of worker.old (C.used ctx.old) (C.tray ctx.old)))
        (world_around worker.old (C.used ctx.old) (C.tray ctx.old)) (world_around worker.new (C.used ctx.new) (C.tray ctx.new))
        (kept_of worker.old) (kept_of worker.new) (stands_at (life_of worker.new (C.used ctx.new) (C.tray ctx.new)) result) }
    ensures works { OnOk result (CanWork worker.new (C.used ctx.new) (C.tray ctx.new)) }
    ensures plan { plan_in worker.new ≡ plan_in worker.old }
    ensures spent { worker.new.spent ≡ worker.old.spent }
    ensures lent { C.lender ctx.new ≡ C.lender ctx.old }
{
    ctx.note(Entry::Breath)?;
    breathe(&mut worker.network, ctx)
}

/// The turn of a worker whose journal is full: this is noted.
pub(crate) fn end_spent<C: Work>(worker: &mut Worker, ctx: &mut C) -> Result<(), Halt>
    requires works { CanWork worker.old (C.used ctx.old) (C.tray ctx.old) }
    ensures runs { Runs (last_turn (life_of worker.old (C.used ctx.old) (C.tray ctx.old)))
        (world_around worker.old (C.used ctx.old) (C.tray ctx.old)) (world_around worker.new (C.used ctx.new) (C.tray ctx.new))
        (kept_of worker.old) (kept_of worker.new) (stands_at (life_of worker.new (C.used ctx.new) (C.tray ctx.new)) result) }
    ensures works { OnOk result (CanWork worker.new (C.used ctx.new) (C.tray ctx.new)) }
    ensures plan { plan_in worker.new ≡ plan_in worker.old }
    ensures lent { C.lender ctx.new ≡ C.lender ctx.old }
{
    ctx.note(Entry::Spent)?;
    worker.spent = true;
    Ok(())
}
