//! A pull or a push of one of the apps of a network.
ghost use Rattle.std.specs.Prelude.{◌≡◌, ◌<◌, ℕ, List, Option, OnOk, Some, length, map};
ghost use Rattle.sn_actions.specs.PlainOf.{plain_of};
ghost use Rattle.sn_app.specs.Desk.{roster_of};
ghost use Rattle.sn_app.specs.Ports.{KeepsRows};
ghost use Rattle.sn_app.specs.Runs.{Runs, stands_at};
ghost use Rattle.sn_app.specs.World.{world};
ghost use Rattle.sn_network.specs.Calling.{call};
ghost use Rattle.sn_network.specs.Places.{kept_in, net_of};
ghost use Rattle.sn_network.specs.Standing.{AreWired, Stands, name_in};

use crate::place::Place;
use crate::verb::Verb;
use slab::Slab;
use sn_actions::Plain;
use sn_app::{Ctx, Halt};
use sn_link::Link;

/// A pull or a push of the app at a place.
pub(crate) fn call_at<C: Ctx>(
    places: &mut Vec<Place>,
    at: usize,
    verb: Verb,
    ctx: &mut C,
    links: &mut Slab<Link>,
    _plain: &Plain,
) -> Result<(), Halt>
    requires at { at < length places.old.items }
    requires stands { Stands places.old.items links.old.slots (plain_of _plain.now) (C.tray ctx.old) (C.used ctx.old) }
    requires wired { AreWired places.old.items links.old.slots (plain_of _plain.now) (roster_of (C.tray ctx.old)).links }
    ensures runs { (name : List ℕ) → name_in places.old.items at ≡ Some name
        → Runs (call verb name (net_of (plain_of _plain.now) places.old.items (C.used ctx.old) (C.tray ctx.old)))
        (world (C.tray ctx.old) (C.used ctx.old) links.old.slots) (world (C.tray ctx.new) (C.used ctx.new) links.new.slots)
        (kept_in places.old.items) (kept_in places.new.items)
        (stands_at (net_of (plain_of _plain.now) places.new.items (C.used ctx.new) (C.tray ctx.new)) result) }
    ensures stands { OnOk result
        (Stands places.new.items links.new.slots (plain_of _plain.now) (C.tray ctx.new) (C.used ctx.new)) }
    ensures wired { OnOk result
        (AreWired places.new.items links.new.slots (plain_of _plain.now) (roster_of (C.tray ctx.new)).links) }
    ensures names { (i : ℕ) → name_in places.new.items i ≡ name_in places.old.items i }
    ensures rows { KeepsRows links.old.slots links.new.slots }
    ensures lent { C.lender ctx.new ≡ C.lender ctx.old }
{
    places[at].call(verb, ctx, links)
}
