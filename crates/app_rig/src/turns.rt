//! A pull or a push of an app at its ports.
ghost use Rattle.std.specs.Prelude.{◌≡◌, OnOk};
ghost use Rattle.sn_packet.specs.Hold.{used_of};
ghost use Rattle.sn_app.specs.Answers.{Stays};
ghost use Rattle.sn_app.specs.Bench.{tray_of};
ghost use Rattle.sn_app.specs.Apps.{pulls, pushes};
ghost use Rattle.sn_app.specs.Ports.{HasLinks, KeepsRows, rows_of};
ghost use Rattle.sn_app.specs.Runs.{Moves, Runs, stands_at};
ghost use Rattle.sn_app.specs.World.{IsSound};
ghost use Rattle.app_rig.specs.Rigs.{world_of};

use slab::Slab;
use sn_app::{App, Bench, Halt, Ports};
use sn_link::Link;
use sn_names::Name;

/// An app's pull at these ports.
///
/// # Errors
/// Those of the app's pull.
pub fn pull_once<A: App<Bench>>(
    app: &mut A,
    bench: &mut Bench,
    links: &mut Slab<Link>,
    ins: &[(Name, usize)],
    outs: &[(Name, usize)],
) -> Result<(), Halt>
    requires ready { A.can_run app.old (tray_of bench.old) }
    requires ins { HasLinks links.old.slots ins.now }
    requires outs { HasLinks links.old.slots outs.now }
    requires sound { IsSound (world_of bench.old links.old.slots) (A.places app.old) }
    ensures ready { OnOk result (A.can_run app.new (tray_of bench.new)) }
    ensures runs { Runs (pulls (A.state app.old (used_of bench.old.held) (tray_of bench.old))
        (rows_of links.old.slots ins.now) (rows_of links.old.slots outs.now))
        (world_of bench.old links.old.slots)
        (world_of bench.new links.new.slots) (A.places app.old) (A.places app.new)
        (stands_at (A.state app.new (used_of bench.new.held) (tray_of bench.new)) result) }
    ensures moves { OnOk result (Moves (world_of bench.old links.old.slots)
        (world_of bench.new links.new.slots) (A.places app.old) (A.places app.new)) }
    ensures stays { Stays (tray_of bench.old) (tray_of bench.new) }
    ensures rows { KeepsRows links.old.slots links.new.slots }
{
    let mut ports = Ports { links, ins, outs };
    let ended = app.pull(bench, &mut ports);
    let Ports {
        links: _,
        ins: _,
        outs: _,
    } = ports;
    ended
}

/// An app's push at these ports.
///
/// # Errors
/// Those of the app's push.
pub fn push_once<A: App<Bench>>(
    app: &mut A,
    bench: &mut Bench,
    links: &mut Slab<Link>,
    ins: &[(Name, usize)],
    outs: &[(Name, usize)],
) -> Result<(), Halt>
    requires ready { A.can_run app.old (tray_of bench.old) }
    requires ins { HasLinks links.old.slots ins.now }
    requires outs { HasLinks links.old.slots outs.now }
    requires sound { IsSound (world_of bench.old links.old.slots) (A.places app.old) }
    ensures ready { OnOk result (A.can_run app.new (tray_of bench.new)) }
    ensures runs { Runs (pushes (A.state app.old (used_of bench.old.held) (tray_of bench.old))
        (rows_of links.old.slots ins.now) (rows_of links.old.slots outs.now))
        (world_of bench.old links.old.slots)
        (world_of bench.new links.new.slots) (A.places app.old) (A.places app.new)
        (stands_at (A.state app.new (used_of bench.new.held) (tray_of bench.new)) result) }
    ensures moves { OnOk result (Moves (world_of bench.old links.old.slots)
        (world_of bench.new links.new.slots) (A.places app.old) (A.places app.new)) }
    ensures stays { Stays (tray_of bench.old) (tray_of bench.new) }
    ensures rows { KeepsRows links.old.slots links.new.slots }
{
    let mut ports = Ports { links, ins, outs };
    let ended = app.push(bench, &mut ports);
    let Ports {
        links: _,
        ins: _,
        outs: _,
    } = ports;
    ended
}
