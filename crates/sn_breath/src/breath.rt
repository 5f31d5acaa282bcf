//! One pass over a network: every app that brings packets in, and then every app, to pass them on.
ghost use Rattle.std.specs.Prelude.{◌≡◌, OnOk};
ghost use Rattle.sn_app.specs.Runs.{Runs, stands_at};
ghost use Rattle.sn_breath.specs.Breaths.{breath, folding};
ghost use Rattle.sn_network.specs.Calling.{pull_app, push_app};
ghost use Rattle.sn_network.specs.Networks.{CanBeLost, CanBreathe, kept_by, plain_in, shown, world_of};
ghost use Rattle.sn_network.specs.Orders.{pull_order, push_order};

use sn_app::{Ctx, Halt};
use sn_network::Network;

/// All pulls, in their order.
fn pull_all<C: Ctx>(network: &mut Network, ctx: &mut C) -> Result<(), Halt>
    requires ready { CanBreathe network.old (C.used ctx.old) (C.tray ctx.old) }
    ensures runs { Runs (folding (pull_order (plain_in network.old)) pull_app
        (shown network.old (C.used ctx.old) (C.tray ctx.old)))
        (world_of network.old (C.used ctx.old) (C.tray ctx.old)) (world_of network.new (C.used ctx.new) (C.tray ctx.new))
        (kept_by network.old) (kept_by network.new) (stands_at (shown network.new (C.used ctx.new) (C.tray ctx.new)) result) }
    ensures plain { plain_in network.new ≡ plain_in network.old }
    ensures ready { OnOk result (CanBreathe network.new (C.used ctx.new) (C.tray ctx.new)) }
    ensures lost { CanBeLost network.new (C.tray ctx.new) }
    ensures lent { C.lender ctx.new ≡ C.lender ctx.old }
{
    for i in 0..network.pulls() {
        network.pull(ctx, i)?;
    }
    Ok(())
}

/// All pushes, in their order.
fn push_all<C: Ctx>(network: &mut Network, ctx: &mut C) -> Result<(), Halt>
    requires ready { CanBreathe network.old (C.used ctx.old) (C.tray ctx.old) }
    ensures runs { Runs (folding (push_order (plain_in network.old)) push_app
        (shown network.old (C.used ctx.old) (C.tray ctx.old)))
        (world_of network.old (C.used ctx.old) (C.tray ctx.old)) (world_of network.new (C.used ctx.new) (C.tray ctx.new))
        (kept_by network.old) (kept_by network.new) (stands_at (shown network.new (C.used ctx.new) (C.tray ctx.new)) result) }
    ensures plain { plain_in network.new ≡ plain_in network.old }
    ensures ready { OnOk result (CanBreathe network.new (C.used ctx.new) (C.tray ctx.new)) }
    ensures lost { CanBeLost network.new (C.tray ctx.new) }
    ensures lent { C.lender ctx.new ≡ C.lender ctx.old }
{
    for i in 0..network.pushes() {
        network.push(ctx, i)?;
    }
    Ok(())
}

/// One breath: every Source, PcapReader and Receiver is pulled, in bytewise order of name, and then every app is pushed, in the
/// order of pushes.
///
/// # Errors
/// A stop, or want of memory. The network is then only given to `lose`.
pub fn breathe<C: Ctx>(network: &mut Network, ctx: &mut C) -> Result<(), Halt>
    requires ready { CanBreathe network.old (C.used ctx.old) (C.tray ctx.old) }
    ensures runs { Runs (breath (shown network.old (C.used ctx.old) (C.tray ctx.old)))
        (world_of network.old (C.used ctx.old) (C.tray ctx.old)) (world_of network.new (C.used ctx.new) (C.tray ctx.new))
        (kept_by network.old) (kept_by network.new) (stands_at (shown network.new (C.used ctx.new) (C.tray ctx.new)) result) }
    ensures plain { plain_in network.new ≡ plain_in network.old }
    ensures ready { OnOk result (CanBreathe network.new (C.used ctx.new) (C.tray ctx.new)) }
    ensures lost { CanBeLost network.new (C.tray ctx.new) }
    ensures lent { C.lender ctx.new ≡ C.lender ctx.old }
{
    pull_all(network, ctx)?;
    push_all(network, ctx)
}
