//! The turns and the rounds of a worker over a seat.
ghost use Rattle.std.specs.Prelude.{◌≡◌, OnOk};
ghost use Rattle.sn_app.specs.Reader.{stepping};
ghost use Rattle.sn_app.specs.Runs.{Runs, stands_at};
ghost use Rattle.sn_worker.specs.SlotTurns.{acting, one_slot_turn, slot_round, slot_turn, slot_work};
ghost use Rattle.sn_worker.specs.Slots.{after_breath};
ghost use Rattle.sn_worker.specs.Workers.{CanWork, kept_of, life_of, plan_in, slot_life_of, world_around};

use crate::giving::give_after;
use crate::taking::take_due;
use crate::turns::{breathe_once, end_spent};
use crate::{Seated, Work, Worker};
use sn_app::Halt;
use sn_journal::Entry;

/// With so many breaths, one before the last of a hundred was taken.
const LAST_OF_HUNDRED: u32 = 99;

/// How many breaths of a hundred were taken after one more.
fn after_breath(breathed: u32) -> u32
    ensures { result ≡ after_breath breathed }
{
    if breathed >= LAST_OF_HUNDRED {
        return 0;
    }
    breathed + 1
}

/// Takes the next of the actions that are due, and the network breathes.
fn act<C: Work>(worker: &mut Worker, ctx: &mut C, due: u64) -> Result<(), Halt>
    requires works { CanWork worker.old (C.used ctx.old) (C.tray ctx.old) }
    ensures runs { Runs (acting (plan_in worker.old) (life_of worker.old (C.used ctx.old) (C.tray ctx.old)) due)
        (world_around worker.old (C.used ctx.old) (C.tray ctx.old)) (world_around worker.new (C.used ctx.new) (C.tray ctx.new))
        (kept_of worker.old) (kept_of worker.new) (stands_at (life_of worker.new (C.used ctx.new) (C.tray ctx.new)) result) }
    ensures works { OnOk result (CanWork worker.new (C.used ctx.new) (C.tray ctx.new)) }
    ensures plan { plan_in worker.new ≡ plan_in worker.old }
    ensures lent { C.lender ctx.new ≡ C.lender ctx.old }
{
    take_due(worker, ctx, due)?;
    breathe_once(worker, ctx)
}

/// A turn where the journal isn't full.
fn work_on<C: Seated>(
    worker: &mut Worker,
    breathed: &mut u32,
    ctx: &mut C,
    keep: u64,
) -> Result<(), Halt>
    requires works { CanWork worker.old (C.used ctx.old) (C.tray ctx.old) }
    ensures runs { Runs (slot_work (plan_in worker.old) (C.floor (C.lender ctx.old)) keep
        (slot_life_of worker.old breathed.old (C.used ctx.old) (C.tray ctx.old)))
        (world_around worker.old (C.used ctx.old) (C.tray ctx.old)) (world_around worker.new (C.used ctx.new) (C.tray ctx.new))
        (kept_of worker.old) (kept_of worker.new)
        (stands_at (slot_life_of worker.new breathed.new (C.used ctx.new) (C.tray ctx.new)) result) }
    ensures works { OnOk result (CanWork worker.new (C.used ctx.new) (C.tray ctx.new)) }
    ensures plan { plan_in worker.new ≡ plan_in worker.old }
    ensures lent { C.lender ctx.new ≡ C.lender ctx.old }
{
    let due = ctx.hear()?;
    act(worker, ctx, due)?;
    *breathed = after_breath(*breathed);
    give_after(ctx, *breathed, keep)
}

/// A turn.
fn take_slot_turn<C: Seated>(
    worker: &mut Worker,
    breathed: &mut u32,
    ctx: &mut C,
    keep: u64,
) -> Result<(), Halt>
    requires works { CanWork worker.old (C.used ctx.old) (C.tray ctx.old) }
    ensures runs { Runs (slot_turn (plan_in worker.old) (C.floor (C.lender ctx.old)) keep
        (slot_life_of worker.old breathed.old (C.used ctx.old) (C.tray ctx.old)))
        (world_around worker.old (C.used ctx.old) (C.tray ctx.old)) (world_around worker.new (C.used ctx.new) (C.tray ctx.new))
        (kept_of worker.old) (kept_of worker.new)
        (stands_at (slot_life_of worker.new breathed.new (C.used ctx.new) (C.tray ctx.new)) result) }
    ensures works { OnOk result (CanWork worker.new (C.used ctx.new) (C.tray ctx.new)) }
    ensures plan { plan_in worker.new ≡ plan_in worker.old }
    ensures lent { C.lender ctx.new ≡ C.lender ctx.old }
{
    if ctx.is_full() {
        end_spent(worker, ctx)
    } else {
        work_on(worker, breathed, ctx, keep)
    }
}

/// So many turns, up to the one in which the worker is spent.
fn take_slot_turns<C: Seated>(
    worker: &mut Worker,
    breathed: &mut u32,
    ctx: &mut C,
    breaths: u32,
    keep: u64,
) -> Result<(), Halt>
    requires works { CanWork worker.old (C.used ctx.old) (C.tray ctx.old) }
    ensures runs { Runs (stepping breaths (one_slot_turn (plan_in worker.old) (C.floor (C.lender ctx.old)) keep)
        (slot_life_of worker.old breathed.old (C.used ctx.old) (C.tray ctx.old)))
        (world_around worker.old (C.used ctx.old) (C.tray ctx.old)) (world_around worker.new (C.used ctx.new) (C.tray ctx.new))
        (kept_of worker.old) (kept_of worker.new)
        (stands_at (slot_life_of worker.new breathed.new (C.used ctx.new) (C.tray ctx.new)) result) }
    ensures works { OnOk result (CanWork worker.new (C.used ctx.new) (C.tray ctx.new)) }
    ensures plan { plan_in worker.new ≡ plan_in worker.old }
    ensures lent { C.lender ctx.new ≡ C.lender ctx.old }
{
    for turn in 0..breaths {
        take_slot_turn(worker, breathed, ctx, keep)?;
        if worker.spent {
            return Ok(());
        }
    }
    Ok(())
}

/// A round: its number is noted, and then so many turns are taken. It ends early where the journal is full at the beginning of a
/// turn; the worker is spent then.
pub(crate) fn take_round<C: Seated>(
    worker: &mut Worker,
    breathed: &mut u32,
    ctx: &mut C,
    number: u32,
    breaths: u32,
    keep: u64,
) -> Result<(), Halt>
    requires works { CanWork worker.old (C.used ctx.old) (C.tray ctx.old) }
    ensures runs { Runs (slot_round (plan_in worker.old) breaths (C.floor (C.lender ctx.old)) keep number
        (slot_life_of worker.old breathed.old (C.used ctx.old) (C.tray ctx.old)))
        (world_around worker.old (C.used ctx.old) (C.tray ctx.old)) (world_around worker.new (C.used ctx.new) (C.tray ctx.new))
        (kept_of worker.old) (kept_of worker.new)
        (stands_at (slot_life_of worker.new breathed.new (C.used ctx.new) (C.tray ctx.new)) result) }
    ensures works { OnOk result (CanWork worker.new (C.used ctx.new) (C.tray ctx.new)) }
    ensures plan { plan_in worker.new ≡ plan_in worker.old }
    ensures lent { C.lender ctx.new ≡ C.lender ctx.old }
{
    ctx.note(Entry::Round(number))?;
    take_slot_turns(worker, breathed, ctx, breaths, keep)
}
