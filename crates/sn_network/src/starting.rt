//! An app starts, stops, or takes a new argument.
ghost use Rattle.std.specs.Prelude.{◌≡◌, ◌≤◌, ℕ, IsSome, List, None, OnOk, Option, Some};
ghost use Rattle.sn_actions.specs.declared.action.Action.TheVariants.{ReconfigApp, StartApp, StopApp};
ghost use Rattle.sn_app.specs.Calls.{HasName};
ghost use Rattle.sn_app.specs.Desk.{roster_of};
ghost use Rattle.sn_app.specs.Runs.{Runs, stands_at};
ghost use Rattle.sn_app.specs.Starts.{AreKept, ArgIsThere};
ghost use Rattle.sn_app.specs.World.{IsSound, world};
ghost use Rattle.sn_config.specs.ArgText.{IsArgOf};
ghost use Rattle.sn_link.specs.Link.{Line};
ghost use Rattle.sn_network.specs.Acting.{changes};
ghost use Rattle.sn_network.specs.Nets.{set_named};
ghost use Rattle.sn_network.specs.Places.{class_in, kept_in, named_in, states_in};
ghost use Rattle.sn_network.specs.Standing.{CanRun};

use crate::finding::find_app;
use crate::place::Place;
use sn_app::{Ctx, Halt};
use sn_config::AppSpec;
use sn_kind::AppKind;
use sn_names::Name;
use std::alloc::Global;

/// An app of a new name starts, at no port yet.
pub(crate) fn start_app<C: Ctx>(
    alloc: Global,
    places: &mut Vec<Place>,
    ctx: &mut C,
    name: &Name,
    spec: &AppSpec,
) -> Result<(), Halt>
    requires row { HasName (roster_of (C.tray ctx.old)).apps name.now }
    requires arg { IsArgOf spec.now.class spec.now.arg }
    requires there { ArgIsThere spec.now.class spec.now.arg (C.tray ctx.old) }
    requires ready { CanRun places.old.items (C.tray ctx.old) }
    requires absent { class_in places.old.items name.now ≡ None }
    ensures runs { (slots : List (Option Line))
        → IsSound (world (C.tray ctx.old) (C.used ctx.old) slots) (kept_in places.old.items)
        → Runs (changes (StartApp name.now spec.now) (states_in places.old.items (C.used ctx.old) (C.tray ctx.old)))
        (world (C.tray ctx.old) (C.used ctx.old) slots) (world (C.tray ctx.new) (C.used ctx.new) slots)
        (kept_in places.old.items) (kept_in places.new.items)
        (stands_at (states_in places.new.items (C.used ctx.new) (C.tray ctx.new)) result) }
    ensures ready { OnOk result (CanRun places.new.items (C.tray ctx.new)) }
    ensures once { OnOk result (((n : List ℕ) → named_in n places.old.items ≤ 1)
        → (n : List ℕ) → named_in n places.new.items ≤ 1) }
    ensures classes { OnOk result (class_in places.new.items
        ≡ set_named name.now (Some spec.now.class) (class_in places.old.items)) }
    ensures lent { C.lender ctx.new ≡ C.lender ctx.old }
{
    let row = ctx.app_row(name);
    let name = name.copy(alloc)?;
    places.reserve(1)?;
    let kind = AppKind::start(alloc, ctx, row, spec.class, &spec.arg)?;
    places.push_reserved(Place {
        name,
        kind,
        ins: Vec::new(alloc),
        outs: Vec::new(alloc),
    });
    Ok(())
}

/// The app of a name stops, and goes.
pub(crate) fn stop_app<C: Ctx>(
    places: &mut Vec<Place>,
    ctx: &mut C,
    name: &Name,
) -> Result<(), Halt>
    requires there { IsSome (class_in places.old.items name.now) }
    requires ready { CanRun places.old.items (C.tray ctx.old) }
    requires once { (n : List ℕ) → named_in n places.old.items ≤ 1 }
    requires kept { AreKept (C.used ctx.old) (kept_in places.old.items) }
    ensures runs { (slots : List (Option Line))
        → IsSound (world (C.tray ctx.old) (C.used ctx.old) slots) (kept_in places.old.items)
        → Runs (changes (StopApp name.now) (states_in places.old.items (C.used ctx.old) (C.tray ctx.old)))
        (world (C.tray ctx.old) (C.used ctx.old) slots) (world (C.tray ctx.new) (C.used ctx.new) slots)
        (kept_in places.old.items) (kept_in places.new.items)
        (stands_at (states_in places.new.items (C.used ctx.new) (C.tray ctx.new)) result) }
    ensures ready { OnOk result (CanRun places.new.items (C.tray ctx.new)) }
    ensures once { (n : List ℕ) → named_in n places.new.items ≤ 1 }
    ensures classes { class_in places.new.items ≡ set_named name.now None (class_in places.old.items) }
    ensures lent { C.lender ctx.new ≡ C.lender ctx.old }
{
    let at = find_app(places, name);
    let mut place = places.remove(at);
    place.kind.stop(ctx)
}

/// The app of a name takes a new argument.
pub(crate) fn reconfig_app<C: Ctx>(
    places: &mut Vec<Place>,
    ctx: &mut C,
    name: &Name,
    spec: &AppSpec,
) -> Result<(), Halt>
    requires class { class_in places.old.items name.now ≡ Some spec.now.class }
    requires arg { IsArgOf spec.now.class spec.now.arg }
    requires there { ArgIsThere spec.now.class spec.now.arg (C.tray ctx.old) }
    requires ready { CanRun places.old.items (C.tray ctx.old) }
    requires once { (n : List ℕ) → named_in n places.old.items ≤ 1 }
    requires kept { AreKept (C.used ctx.old) (kept_in places.old.items) }
    ensures runs { (slots : List (Option Line))
        → IsSound (world (C.tray ctx.old) (C.used ctx.old) slots) (kept_in places.old.items)
        → Runs (changes (ReconfigApp name.now spec.now) (states_in places.old.items (C.used ctx.old) (C.tray ctx.old)))
        (world (C.tray ctx.old) (C.used ctx.old) slots) (world (C.tray ctx.new) (C.used ctx.new) slots)
        (kept_in places.old.items) (kept_in places.new.items)
        (stands_at (states_in places.new.items (C.used ctx.new) (C.tray ctx.new)) result) }
    ensures ready { OnOk result (CanRun places.new.items (C.tray ctx.new)) }
    ensures once { (n : List ℕ) → named_in n places.new.items ≤ 1 }
    ensures classes { class_in places.new.items ≡ class_in places.old.items }
    ensures lent { C.lender ctx.new ≡ C.lender ctx.old }
{
    let at = find_app(places, name);
    places[at].kind.reconfig(ctx, &spec.arg)
}
