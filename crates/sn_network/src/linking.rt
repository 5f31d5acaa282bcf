//! What actions do to the plain form of a network, and to its links.
ghost use Rattle.std.specs.Prelude.{◌≡◌, Err, IsOk, Ok, OnErr, OnOk};
ghost use Rattle.sn_actions.specs.Consistency.{IsConsistent};
ghost use Rattle.sn_actions.specs.PlainOf.{plain_of};
ghost use Rattle.sn_actions.specs.Plains.{apply};
ghost use Rattle.sn_actions.specs.declared.action.Action.TheVariants.{FreeLink, NewLink};
ghost use Rattle.sn_app.specs.Calls.{HasLink};
ghost use Rattle.sn_app.specs.Desk.{roster_of};
ghost use Rattle.sn_app.specs.Runs.{Runs};
ghost use Rattle.sn_app.specs.World.{IsSound, nowhere, world};
ghost use Rattle.sn_app.specs.declared.halt.Halt.TheVariants.{OutOfMemory};
ghost use Rattle.sn_network.specs.Acting.{freeing, opening};
ghost use Rattle.sn_network.specs.Standing.{HasPlainLinks};
ghost use Rattle.sn_wiring.specs.Links.{FitsRoster};

use slab::Slab;
use sn_actions::{Action, ActionFault, Plain};
use sn_app::{Ctx, Halt};
use sn_link::Link;
use sn_names::LinkSpec;
use sn_wiring::{free_link, open_link};
use std::alloc::Global;

/// The plain form takes an action that it can take.
pub(crate) fn take_action(plain: &mut Plain, action: &Action) -> Result<(), Halt>
    requires { IsOk (apply action.now (plain_of plain.old)) }
    ensures taken { OnOk result (apply action.now (plain_of plain.old) ≡ Ok (plain_of plain.new)) }
    ensures consistent { OnOk result (IsConsistent (plain_of plain.old) → IsConsistent (plain_of plain.new)) }
    ensures memory { OnErr result (result ≡ Err OutOfMemory) }
{
    match plain.apply(action) {
        Ok(()) => Ok(()),
        Err(ActionFault::OutOfMemory) => Err(Halt::OutOfMemory),
        Err(_) => unreachable!(),
    }
}

/// A link goes that stands at no port.
pub(crate) fn free_one<C: Ctx>(
    plain: &mut Plain,
    links: &mut Slab<Link>,
    ctx: &mut C,
    action: &Action,
    link: &LinkSpec,
) -> Result<(), Halt>
    requires action { action.now ≡ FreeLink link.now }
    requires taken { IsOk (apply action.now (plain_of plain.old)) }
    requires links { HasPlainLinks links.old.slots (plain_of plain.old).links (roster_of (C.tray ctx.old)).links }
    requires sound { IsSound (world (C.tray ctx.old) (C.used ctx.old) links.old.slots) nowhere }
    ensures taken { OnOk result (apply action.now (plain_of plain.old) ≡ Ok (plain_of plain.new)) }
    ensures consistent { OnOk result (IsConsistent (plain_of plain.old) → IsConsistent (plain_of plain.new)) }
    ensures runs { Runs (freeing link.now) (world (C.tray ctx.old) (C.used ctx.old) links.old.slots)
        (world (C.tray ctx.new) (C.used ctx.new) links.new.slots) nowhere nowhere result }
    ensures links { OnOk result
        (HasPlainLinks links.new.slots (plain_of plain.new).links (roster_of (C.tray ctx.new)).links) }
    ensures fits { FitsRoster (roster_of (C.tray ctx.new)).links links.new.slots }
    ensures lent { C.lender ctx.new ≡ C.lender ctx.old }
{
    take_action(plain, action)?;
    free_link(ctx, links, link);
    Ok(())
}

/// A link comes, at no port yet.
pub(crate) fn open_one<C: Ctx>(
    alloc: Global,
    plain: &mut Plain,
    links: &mut Slab<Link>,
    ctx: &C,
    action: &Action,
    link: &LinkSpec,
) -> Result<(), Halt>
    requires action { action.now ≡ NewLink link.now }
    requires taken { IsOk (apply action.now (plain_of plain.old)) }
    requires links { HasPlainLinks links.old.slots (plain_of plain.old).links (roster_of (C.tray ctx.now)).links }
    requires listed { HasLink (roster_of (C.tray ctx.now)).links link.now }
    ensures taken { OnOk result (apply action.now (plain_of plain.old) ≡ Ok (plain_of plain.new)) }
    ensures consistent { OnOk result (IsConsistent (plain_of plain.old) → IsConsistent (plain_of plain.new)) }
    ensures runs { Runs (opening link.now) (world (C.tray ctx.now) (C.used ctx.now) links.old.slots)
        (world (C.tray ctx.now) (C.used ctx.now) links.new.slots) nowhere nowhere result }
    ensures links { OnOk result
        (HasPlainLinks links.new.slots (plain_of plain.new).links (roster_of (C.tray ctx.now)).links) }
    ensures fits { FitsRoster (roster_of (C.tray ctx.now)).links links.new.slots }
{
    take_action(plain, action)?;
    open_link(alloc, ctx, links, link)?;
    Ok(())
}
