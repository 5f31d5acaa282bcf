//! A link comes to the slab.
ghost use Rattle.std.specs.FinSet as finset;
ghost use Rattle.std.specs.Prelude.{◌≡◌, ◌≢◌, ℕ, Ok, OnErr, OnOk};
ghost use Rattle.sn_app.specs.Calls.{HasLink, row_of_link};
ghost use Rattle.sn_app.specs.Desk.{Tray, roster_of};
ghost use Rattle.sn_app.specs.Runs.{Runs};
ghost use Rattle.sn_app.specs.World.{Used, rows_in, world};
ghost use Rattle.sn_names.specs.LinkOrder.{link_cmp};
ghost use Rattle.sn_wiring.specs.Links.{FitsRoster, HasLines, KeepsLinks, opens};

use slab::Slab;
use sn_app::Ctx;
use sn_link::Link;
use sn_names::LinkSpec;
use std::alloc::{AllocError, Global};

/// An empty link of the roster comes, which had no link in the slab.
///
/// # Errors
/// Want of memory. The links are then as before.
pub fn open_link<C: Ctx>(
    alloc: Global,
    ctx: &C,
    links: &mut Slab<Link>,
    link: &LinkSpec,
) -> Result<(), AllocError>
    requires link { HasLink (roster_of (C.tray ctx.now)).links link.now }
    requires free { rows_in (row_of_link (roster_of (C.tray ctx.now)).links link.now) links.old.slots ≡ 0 }
    ensures runs { OnOk result ((t : Tray) (u : Used) (mine : ℕ → ℕ)
        → Runs (opens (row_of_link (roster_of (C.tray ctx.now)).links link.now))
        (world t u links.old.slots) (world t u links.new.slots) mine mine (Ok tt)) }
    ensures here { OnOk result (rows_in (row_of_link (roster_of (C.tray ctx.now)).links link.now) links.new.slots ≡ 1) }
    ensures others { OnOk result ((row : ℕ) → row ≢ row_of_link (roster_of (C.tray ctx.now)).links link.now
        → rows_in row links.new.slots ≡ rows_in row links.old.slots) }
    ensures lines { OnOk result ((some : finset.FinSet link_cmp)
        → HasLines (roster_of (C.tray ctx.now)).links links.old.slots some
        → HasLines (roster_of (C.tray ctx.now)).links links.new.slots (finset.insert some link.now)) }
    ensures fits { OnOk result (FitsRoster (roster_of (C.tray ctx.now)).links links.old.slots
        → FitsRoster (roster_of (C.tray ctx.now)).links links.new.slots) }
    ensures kept { OnOk result (KeepsLinks links.old.slots links.new.slots) }
    ensures err { OnErr result (links.new.slots ≡ links.old.slots) }
{
    let row = ctx.link_row(link);
    let made = Link::of_row(alloc, row)?;
    let _key = links.insert(made)?;
    Ok(())
}
