//! The ports of the apps of a network, made anew from its plain form.
ghost use Rattle.std.specs.Prelude.{◌≡◌, OnOk, map};
ghost use Rattle.sn_actions.specs.PlainOf.{plain_of};
ghost use Rattle.sn_app.specs.Desk.{roster_of};
ghost use Rattle.sn_network.specs.Places.{bare};
ghost use Rattle.sn_network.specs.Standing.{AreWired};
ghost use Rattle.sn_wiring.specs.Wired.{AreThere, Wired};

use crate::place::Place;
use slab::Slab;
use sn_actions::Plain;
use sn_app::Ctx;
use sn_link::Link;
use sn_wiring::wired_ports;
use std::alloc::{AllocError, Global};

/// The ports of one app.
fn wire_one<C: Ctx>(
    alloc: Global,
    ctx: &C,
    links: &Slab<Link>,
    plain: &Plain,
    place: &mut Place,
) -> Result<(), AllocError>
    requires ins { AreThere links.now.slots (roster_of (C.tray ctx.now)).links (plain_of plain.now).ins }
    requires outs { AreThere links.now.slots (roster_of (C.tray ctx.now)).links (plain_of plain.now).outs }
    ensures ins { OnOk result (Wired links.now.slots (roster_of (C.tray ctx.now)).links (plain_of plain.now).ins
        place.new.name place.new.ins.items) }
    ensures outs { OnOk result (Wired links.now.slots (roster_of (C.tray ctx.now)).links (plain_of plain.now).outs
        place.new.name place.new.outs.items) }
    ensures same { bare place.new ≡ bare place.old }
{
    let ins = wired_ports(alloc, ctx, links, &plain.ins, &place.name)?;
    let outs = wired_ports(alloc, ctx, links, &plain.outs, &place.name)?;
    place.ins = ins;
    place.outs = outs;
    Ok(())
}

/// The ports of all apps.
pub(crate) fn wire_all<C: Ctx>(
    alloc: Global,
    ctx: &C,
    links: &Slab<Link>,
    plain: &Plain,
    places: &mut Vec<Place>,
) -> Result<(), AllocError>
    requires ins { AreThere links.now.slots (roster_of (C.tray ctx.now)).links (plain_of plain.now).ins }
    requires outs { AreThere links.now.slots (roster_of (C.tray ctx.now)).links (plain_of plain.now).outs }
    ensures wired { OnOk result
        (AreWired places.new.items links.now.slots (plain_of plain.now) (roster_of (C.tray ctx.now)).links) }
    ensures same { map bare places.new.items ≡ map bare places.old.items }
{
    for at in 0..places.len() {
        wire_one(alloc, ctx, links, plain, &mut places[at])?;
    }
    Ok(())
}
