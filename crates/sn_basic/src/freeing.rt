//! Packets in hand are freed.
ghost use Rattle.std.specs.Prelude.{◌≡◌, List, Ok, Option, true};
ghost use Rattle.sn_app.specs.Hands.{frees_each, packets_at};
ghost use Rattle.sn_app.specs.Runs.{Runs};
ghost use Rattle.sn_app.specs.Starts.{AreKept};
ghost use Rattle.sn_app.specs.World.{IsSound, nowhere, world};
ghost use Rattle.sn_link.specs.Link.{Line};
ghost use Rattle.sn_packet.specs.Hold.{among};

use sn_app::Ctx;

/// Frees the packets at these places, the first one first.
pub(crate) fn free_all<C: Ctx>(ctx: &mut C, places: &[u32])
    requires { AreKept (C.used ctx.old) (among places.now) }
    ensures frees { (slots : List (Option Line)) → IsSound (world (C.tray ctx.old) (C.used ctx.old) slots) (among places.now)
        → Runs (frees_each (packets_at (C.used ctx.old) places.now)) (world (C.tray ctx.old) (C.used ctx.old) slots)
        (world (C.tray ctx.new) (C.used ctx.new) slots) (among places.now) nowhere (Ok true) }
    ensures lent { C.lender ctx.new ≡ C.lender ctx.old }
{
    for place in places {
        ctx.free(*place);
    }
}
