//! What a commit does to a network: its ports and orders are made anew.
ghost use Rattle.std.specs.Prelude.{◌≡◌, Ok, OnOk};
ghost use Rattle.sn_actions.specs.declared.action.Action.TheVariants.{Commit};
ghost use Rattle.sn_app.specs.Runs.{Runs, stands_at};
ghost use Rattle.sn_network.specs.Acting.{acts};
ghost use Rattle.sn_network.specs.Networks.{CanBeLost, CanBreathe, IsStanding, kept_by, plain_in, shown, world_of};

use crate::Network;
use crate::orders::{pulls_in, pushes_in};
use crate::ports::wire_all;
use sn_app::{Ctx, Halt};

/// Makes the ports of all apps and the orders of calls from the plain form.
pub(crate) fn commit<C: Ctx>(network: &mut Network, ctx: &C) -> Result<(), Halt>
    requires stands { IsStanding network.old (C.used ctx.now) (C.tray ctx.now) }
    ensures runs { Runs (acts Commit (shown network.old (C.used ctx.now) (C.tray ctx.now)))
        (world_of network.old (C.used ctx.now) (C.tray ctx.now)) (world_of network.new (C.used ctx.now) (C.tray ctx.now))
        (kept_by network.old) (kept_by network.new) (stands_at (shown network.new (C.used ctx.now) (C.tray ctx.now)) result) }
    ensures plain { plain_in network.new ≡ plain_in network.old }
    ensures ready { OnOk result (CanBreathe network.new (C.used ctx.now) (C.tray ctx.now)) }
    ensures lost { CanBeLost network.new (C.tray ctx.now) }
{
    wire_all(
        network.alloc,
        ctx,
        &network.links,
        &network.plain,
        &mut network.places,
    )?;
    let pulls = pulls_in(network.alloc, &network.places, &network.plain)?;
    let pushes = pushes_in(network.alloc, &network.places, &network.plain)?;
    network.pulls = pulls;
    network.pushes = pushes;
    Ok(())
}
