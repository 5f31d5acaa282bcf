//! The links of a network are lost, and their counts are kept.
ghost use Rattle.std.specs.Prelude.{◌≡◌, []};
ghost use Rattle.sn_app.specs.Desk.{roster_of};
ghost use Rattle.sn_app.specs.World.{desk_of, world};
ghost use Rattle.sn_wiring.specs.Links.{FitsRoster};
ghost use Rattle.sn_wiring.specs.Lost.{lost};

use slab::Slab;
use sn_app::Ctx;
use sn_link::Link;

/// All links are lost. The counts of each are added to those of its row.
pub fn lose_links<C: Ctx>(ctx: &mut C, links: Slab<Link>)
    requires { FitsRoster (roster_of (C.tray ctx.old)).links links.slots }
    ensures lost { desk_of (world (C.tray ctx.new) (C.used ctx.new) [])
        ≡ lost (desk_of (world (C.tray ctx.old) (C.used ctx.old) links.slots)) }
    ensures used { C.used ctx.new ≡ C.used ctx.old }
    ensures lent { C.lender ctx.new ≡ C.lender ctx.old }
{
    for key in 0..links.capacity() {
        if let Some(link) = links.get(key) {
            ctx.keep_counts(link.row(), link.counts());
        }
    }
}
