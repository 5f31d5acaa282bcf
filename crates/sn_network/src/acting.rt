//! Actions on a network: what each does to its plain form, its apps and its links.
ghost use Rattle.std.specs.Prelude.{◌≡◌, IsOk};
ghost use Rattle.sn_actions.specs.PlainOf.{plain_of};
ghost use Rattle.sn_actions.specs.Plains.{apply};
ghost use Rattle.sn_actions.specs.declared.action.Action.TheVariants.{FreeLink, NewLink, ReconfigApp, StartApp, StopApp};
ghost use Rattle.sn_network.specs.Standing.{Finds, IsWiring, Stands, Took};

use crate::linking::{free_one, open_one, take_action};
use crate::place::Place;
use crate::starting::{reconfig_app, start_app, stop_app};
use slab::Slab;
use sn_actions::{Action, Plain};
use sn_app::{Ctx, Halt};
use sn_config::AppSpec;
use sn_link::Link;
use sn_names::{LinkSpec, Name};
use std::alloc::Global;

/// A link is put to a port, or taken from there.
pub(crate) fn take_wiring<C: Ctx>(
    plain: &mut Plain,
    _places: &[Place],
    _links: &Slab<Link>,
    _ctx: &C,
    action: &Action,
) -> Result<(), Halt>
    requires wiring { IsWiring action.now }
    requires stands { Stands _places.now _links.now.slots (plain_of plain.old) (C.tray _ctx.now) (C.used _ctx.now) }
    requires taken { IsOk (apply action.now (plain_of plain.old)) }
    ensures took { Took action.now (plain_of plain.old) (plain_of plain.new) _places.now _places.now
        _links.now.slots _links.now.slots (C.tray _ctx.now) (C.tray _ctx.now) (C.used _ctx.now) (C.used _ctx.now) result }
{
    take_action(plain, action)
}

/// A link goes, with its packets.
pub(crate) fn take_free<C: Ctx>(
    plain: &mut Plain,
    _places: &[Place],
    links: &mut Slab<Link>,
    ctx: &mut C,
    action: &Action,
    link: &LinkSpec,
) -> Result<(), Halt>
    requires action { action.now ≡ FreeLink link.now }
    requires stands { Stands _places.now links.old.slots (plain_of plain.old) (C.tray ctx.old) (C.used ctx.old) }
    requires taken { IsOk (apply action.now (plain_of plain.old)) }
    ensures took { Took action.now (plain_of plain.old) (plain_of plain.new) _places.now _places.now
        links.old.slots links.new.slots (C.tray ctx.old) (C.tray ctx.new) (C.used ctx.old) (C.used ctx.new) result }
    ensures lent { C.lender ctx.new ≡ C.lender ctx.old }
{
    free_one(plain, links, ctx, action, link)
}

/// A link comes.
pub(crate) fn take_new<C: Ctx>(
    alloc: Global,
    plain: &mut Plain,
    _places: &[Place],
    links: &mut Slab<Link>,
    ctx: &C,
    action: &Action,
    link: &LinkSpec,
) -> Result<(), Halt>
    requires action { action.now ≡ NewLink link.now }
    requires stands { Stands _places.now links.old.slots (plain_of plain.old) (C.tray ctx.now) (C.used ctx.now) }
    requires taken { IsOk (apply action.now (plain_of plain.old)) }
    requires found { Finds action.now (C.tray ctx.now) }
    ensures took { Took action.now (plain_of plain.old) (plain_of plain.new) _places.now _places.now
        links.old.slots links.new.slots (C.tray ctx.now) (C.tray ctx.now) (C.used ctx.now) (C.used ctx.now) result }
{
    open_one(alloc, plain, links, ctx, action, link)
}

/// An app starts.
pub(crate) fn take_start<C: Ctx>(
    alloc: Global,
    plain: &mut Plain,
    places: &mut Vec<Place>,
    _links: &Slab<Link>,
    ctx: &mut C,
    action: &Action,
    app: (&Name, &AppSpec),
) -> Result<(), Halt>
    requires action { action.now ≡ StartApp app.0.now app.1.now }
    requires stands { Stands places.old.items _links.now.slots (plain_of plain.old) (C.tray ctx.old) (C.used ctx.old) }
    requires taken { IsOk (apply action.now (plain_of plain.old)) }
    requires found { Finds action.now (C.tray ctx.old) }
    ensures took { Took action.now (plain_of plain.old) (plain_of plain.new) places.old.items places.new.items
        _links.now.slots _links.now.slots (C.tray ctx.old) (C.tray ctx.new) (C.used ctx.old) (C.used ctx.new) result }
    ensures lent { C.lender ctx.new ≡ C.lender ctx.old }
{
    take_action(plain, action)?;
    start_app(alloc, places, ctx, app.0, app.1)
}

/// An app stops.
pub(crate) fn take_stop<C: Ctx>(
    plain: &mut Plain,
    places: &mut Vec<Place>,
    _links: &Slab<Link>,
    ctx: &mut C,
    action: &Action,
    name: &Name,
) -> Result<(), Halt>
    requires action { action.now ≡ StopApp name.now }
    requires stands { Stands places.old.items _links.now.slots (plain_of plain.old) (C.tray ctx.old) (C.used ctx.old) }
    requires taken { IsOk (apply action.now (plain_of plain.old)) }
    ensures took { Took action.now (plain_of plain.old) (plain_of plain.new) places.old.items places.new.items
        _links.now.slots _links.now.slots (C.tray ctx.old) (C.tray ctx.new) (C.used ctx.old) (C.used ctx.new) result }
    ensures lent { C.lender ctx.new ≡ C.lender ctx.old }
{
    take_action(plain, action)?;
    stop_app(places, ctx, name)
}

/// An app takes a new argument.
pub(crate) fn take_reconfig<C: Ctx>(
    plain: &mut Plain,
    places: &mut Vec<Place>,
    _links: &Slab<Link>,
    ctx: &mut C,
    action: &Action,
    app: (&Name, &AppSpec),
) -> Result<(), Halt>
    requires action { action.now ≡ ReconfigApp app.0.now app.1.now }
    requires stands { Stands places.old.items _links.now.slots (plain_of plain.old) (C.tray ctx.old) (C.used ctx.old) }
    requires taken { IsOk (apply action.now (plain_of plain.old)) }
    requires found { Finds action.now (C.tray ctx.old) }
    ensures took { Took action.now (plain_of plain.old) (plain_of plain.new) places.old.items places.new.items
        _links.now.slots _links.now.slots (C.tray ctx.old) (C.tray ctx.new) (C.used ctx.old) (C.used ctx.new) result }
    ensures lent { C.lender ctx.new ≡ C.lender ctx.old }
{
    take_action(plain, action)?;
    reconfig_app(places, ctx, app.0, app.1)
}
