//! A link between two apps of one worker, and their calls at it.
ghost use Rattle.std.specs.Prelude.{◌≡◌, IfOk, OnOk, length};
ghost use Rattle.sn_app.specs.Answers.{Stays};
ghost use Rattle.sn_app.specs.Ports.{KeepsRows, key_at};
ghost use Rattle.sn_app.specs.Runs.{Moves};
ghost use Rattle.sn_app.specs.World.{world};
ghost use Rattle.seat_bench.specs.Wires.{IsNewWire, IsWired};

use app_rig::four_links;
use slab::Slab;
use sn_app::{App, Ctx, Halt, Ports};
use sn_link::Link;
use sn_names::Name;
use std::alloc::Global;
use std::test::Fail;

/// A link in a slab, as the one's output and the other's input.
#[derive(Drop)]
pub(crate) struct Wire {
    links: Slab<Link>,
    outs: Vec<(Name, usize)>,
    ins: Vec<(Name, usize)>,
}

/// One port of this name, at this link.
fn port_of(alloc: Global, name: &[u8], key: usize) -> Result<Vec<(Name, usize)>, Fail>
    ensures one { IfOk result (λ ports. length ports.items ≡ 1) }
    ensures key { IfOk result (λ ports. key_at ports.items 0 ≡ key) }
{
    let name = Name::parse(alloc, name)?;
    Ok(vec![in alloc; (name, key)]?)
}

/// An empty link.
pub(crate) fn new_wire(alloc: Global) -> Result<Wire, Fail>
    ensures { IfOk result IsNewWire }
{
    let (links, (key, _), _) = four_links(alloc)?;
    let outs = port_of(alloc, b"output", key)?;
    let ins = port_of(alloc, b"input", key)?;
    Ok(Wire { links, outs, ins })
}

/// A pull of an app that sends on the link.
pub(crate) fn pull_once<C: Ctx, A: App<C>>(
    app: &mut A,
    ctx: &mut C,
    wire: &mut Wire,
) -> Result<(), Halt>
    requires ready { A.can_run app.old (C.tray ctx.old) }
    requires wired { IsWired wire.old (C.tray ctx.old) (C.used ctx.old) (A.places app.old) }
    ensures ready { OnOk result (A.can_run app.new (C.tray ctx.new)) }
    ensures moves { OnOk result (Moves (world (C.tray ctx.old) (C.used ctx.old) wire.old.links.slots)
        (world (C.tray ctx.new) (C.used ctx.new) wire.new.links.slots) (A.places app.old) (A.places app.new)) }
    ensures rows { KeepsRows wire.old.links.slots wire.new.links.slots }
    ensures outs { wire.new.outs ≡ wire.old.outs }
    ensures ins { wire.new.ins ≡ wire.old.ins }
    ensures stays { Stays (C.tray ctx.old) (C.tray ctx.new) }
    ensures lent { C.lender ctx.new ≡ C.lender ctx.old }
{
    let mut ports = Ports {
        links: &mut wire.links,
        ins: &[],
        outs: &wire.outs,
    };
    let ended = app.pull(ctx, &mut ports);
    let Ports {
        links: _,
        ins: _,
        outs: _,
    } = ports;
    ended
}

/// A push of an app that takes from the link.
pub(crate) fn push_once<C: Ctx, A: App<C>>(
    app: &mut A,
    ctx: &mut C,
    wire: &mut Wire,
) -> Result<(), Halt>
    requires ready { A.can_run app.old (C.tray ctx.old) }
    requires wired { IsWired wire.old (C.tray ctx.old) (C.used ctx.old) (A.places app.old) }
    ensures ready { OnOk result (A.can_run app.new (C.tray ctx.new)) }
    ensures moves { OnOk result (Moves (world (C.tray ctx.old) (C.used ctx.old) wire.old.links.slots)
        (world (C.tray ctx.new) (C.used ctx.new) wire.new.links.slots) (A.places app.old) (A.places app.new)) }
    ensures rows { KeepsRows wire.old.links.slots wire.new.links.slots }
    ensures outs { wire.new.outs ≡ wire.old.outs }
    ensures ins { wire.new.ins ≡ wire.old.ins }
    ensures stays { Stays (C.tray ctx.old) (C.tray ctx.new) }
    ensures lent { C.lender ctx.new ≡ C.lender ctx.old }
{
    let mut ports = Ports {
        links: &mut wire.links,
        ins: &wire.ins,
        outs: &[],
    };
    let ended = app.push(ctx, &mut ports);
    let Ports {
        links: _,
        ins: _,
        outs: _,
    } = ports;
    ended
}
