//! The two ways of packets, round after round.
ghost use Rattle.std.specs.Prelude.{◌≡◌, ◌<◌, OnOk, length};
ghost use Rattle.sn_packet.specs.Hold.{used_of};
ghost use Rattle.sn_app.specs.Bench.{tray_of};
ghost use Rattle.sn_app.specs.World.{nowhere};
ghost use Rattle.app_rig.specs.Rigs.{IsWhole};

use app_rig::{At, Rig};
use sn_basic::{Sink, Source, Tee};
use std::alloc::Global;
use std::test::Fail;

/// A Source and a Sink, with one link between them.
pub(crate) fn line(
    alloc: Global,
    rig: &mut Rig,
    source: &mut Source,
    sink: &mut Sink,
    rounds: u32,
) -> Result<(), Fail>
    requires rig { IsWhole rig.old.bench rig.old.links.slots rig.old.some rig.old.more nowhere }
    requires apps { length rig.old.bench.roster.apps ≡ 3 }
    requires source { source.old.row < 3 }
    requires sink { sink.old.row < 3 }
    ensures apps { OnOk result (length rig.new.bench.roster.apps ≡ 3) }
{
    for _round in 0..rounds {
        rig.pull(alloc, source, &[("output", At::First)])?;
        rig.push(alloc, sink, &[("input", At::First)], &[])?;
    }
    Ok(())
}

/// A Source, a Tee and a Sink, with one link to the Tee and two behind it.
pub(crate) fn tee(
    alloc: Global,
    rig: &mut Rig,
    source: &mut Source,
    tee: &mut Tee,
    sink: &mut Sink,
    rounds: u32,
) -> Result<(), Fail>
    requires rig { IsWhole rig.old.bench rig.old.links.slots rig.old.some rig.old.more nowhere }
    requires apps { length rig.old.bench.roster.apps ≡ 3 }
    requires source { source.old.row < 3 }
    requires tee { tee.old.row < 3 }
    requires sink { sink.old.row < 3 }
    ensures apps { OnOk result (length rig.new.bench.roster.apps ≡ 3) }
{
    for _round in 0..rounds {
        rig.pull(alloc, source, &[("output", At::First)])?;
        rig.push(
            alloc,
            tee,
            &[("input", At::First)],
            &[("a", At::Second), ("b", At::Third)],
        )?;
        rig.push(alloc, sink, &[("a", At::Second), ("b", At::Third)], &[])?;
    }
    Ok(())
}
