//! A link goes from the slab, and its packets become free.
ghost use Rattle.std.specs.FinSet as finset;
ghost use Rattle.std.specs.Prelude.{◌≡◌, ◌≢◌, ℕ, List, Ok, Option, Some, true};
ghost use Rattle.sn_app.specs.Calls.{HasLink, row_of_link};
ghost use Rattle.sn_app.specs.Desk.{roster_of};
ghost use Rattle.sn_app.specs.Hands.{frees_each, packets_at};
ghost use Rattle.sn_app.specs.Runs.{Runs};
ghost use Rattle.sn_app.specs.Starts.{AreKept};
ghost use Rattle.sn_app.specs.World.{IsSound, nowhere, places_of, rows_in, world};
ghost use Rattle.sn_link.specs.Link.{Line};
ghost use Rattle.sn_names.specs.LinkOrder.{link_cmp};
ghost use Rattle.sn_packet.specs.Hold.{among};
ghost use Rattle.sn_wiring.specs.Links.{FitsRoster, HasLines, closes, slot_at};

use crate::keys::key_of_row;
use slab::Slab;
use sn_app::Ctx;
use sn_link::Link;
use sn_names::LinkSpec;

/// Frees the packets of a link that stands nowhere, the front first.
fn free_queued<C: Ctx>(ctx: &mut C, mut link: Link)
    requires { AreKept (C.used ctx.old) (among (places_of link.queued)) }
    ensures frees { (slots : List (Option Line))
        → IsSound (world (C.tray ctx.old) (C.used ctx.old) slots) (among (places_of link.queued))
        → Runs (frees_each (packets_at (C.used ctx.old) (places_of link.queued))) (world (C.tray ctx.old) (C.used ctx.old) slots)
        (world (C.tray ctx.new) (C.used ctx.new) slots) (among (places_of link.queued)) nowhere (Ok true) }
    ensures lent { C.lender ctx.new ≡ C.lender ctx.old }
{
    for _turn in 0..link.nreadable() {
        let Some(place) = link.receive() else {
            unreachable!()
        };
        ctx.free(place);
    }
}

/// The link of a roster goes. Its packets become free, the front first, and the counts that it had before are kept.
pub fn free_link<C: Ctx>(ctx: &mut C, links: &mut Slab<Link>, link: &LinkSpec)
    requires link { HasLink (roster_of (C.tray ctx.old)).links link.now }
    requires here { rows_in (row_of_link (roster_of (C.tray ctx.old)).links link.now) links.old.slots ≡ 1 }
    requires sound { IsSound (world (C.tray ctx.old) (C.used ctx.old) links.old.slots) nowhere }
    ensures runs { Runs (closes (row_of_link (roster_of (C.tray ctx.old)).links link.now))
        (world (C.tray ctx.old) (C.used ctx.old) links.old.slots) (world (C.tray ctx.new) (C.used ctx.new) links.new.slots)
        nowhere nowhere (Ok tt) }
    ensures gone { rows_in (row_of_link (roster_of (C.tray ctx.old)).links link.now) links.new.slots ≡ 0 }
    ensures others { (row : ℕ) → row ≢ row_of_link (roster_of (C.tray ctx.old)).links link.now
        → rows_in row links.new.slots ≡ rows_in row links.old.slots }
    ensures lines { (some : finset.FinSet link_cmp) → HasLines (roster_of (C.tray ctx.old)).links links.old.slots some
        → HasLines (roster_of (C.tray ctx.old)).links links.new.slots (finset.remove some link.now) }
    ensures fits { FitsRoster (roster_of (C.tray ctx.old)).links links.old.slots
        → FitsRoster (roster_of (C.tray ctx.old)).links links.new.slots }
    ensures kept { (key : ℕ) (line : Line) → line.row ≢ row_of_link (roster_of (C.tray ctx.old)).links link.now
        → slot_at links.old.slots key ≡ Some line → slot_at links.new.slots key ≡ Some line }
    ensures lent { C.lender ctx.new ≡ C.lender ctx.old }
{
    let row = ctx.link_row(link);
    let key = key_of_row(links, row);
    let gone = links.remove(key);
    let counts = gone.counts();
    free_queued(ctx, gone);
    ctx.keep_counts(row, counts);
}
