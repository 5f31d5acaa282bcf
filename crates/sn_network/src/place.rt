//! An app of a network, with its name and its ports.
ghost use Rattle.std.specs.Prelude.{◌≡◌, OnOk};
ghost use Rattle.sn_app.specs.Ports.{HasLinks, KeepsRows, rows_of};
ghost use Rattle.sn_app.specs.Runs.{Runs, stands_at};
ghost use Rattle.sn_app.specs.World.{IsSound, world};
ghost use Rattle.sn_network.specs.Calling.{done_by};
ghost use Rattle.sn_kind.specs.Kinds.{kind_can_run, kind_class, kind_places, kind_state};

use crate::verb::Verb;
use slab::Slab;
use sn_app::{Ctx, Halt, Ports};
use sn_kind::AppKind;
use sn_link::Link;
use sn_names::Name;

/// An app, its name, and its inputs and outputs: for each port its name, and its link's key.
#[derive(Debug, Drop)]
pub(crate) struct Place {
    pub(crate) name: Name,
    pub(crate) kind: AppKind,
    pub(crate) ins: Vec<(Name, usize)>,
    pub(crate) outs: Vec<(Name, usize)>,
}

impl Place {
    /// The app's pull or push at its ports.
    pub(crate) fn call<C: Ctx>(
        &mut self,
        verb: Verb,
        ctx: &mut C,
        links: &mut Slab<Link>,
    ) -> Result<(), Halt>
        requires ready { kind_can_run self.old.kind (C.tray ctx.old) }
        requires ins { HasLinks links.old.slots self.old.ins.items }
        requires outs { HasLinks links.old.slots self.old.outs.items }
        requires sound { IsSound (world (C.tray ctx.old) (C.used ctx.old) links.old.slots) (kind_places self.old.kind) }
        ensures runs { Runs (done_by verb (kind_state self.old.kind (C.used ctx.old) (C.tray ctx.old))
            (rows_of links.old.slots self.old.ins.items) (rows_of links.old.slots self.old.outs.items))
            (world (C.tray ctx.old) (C.used ctx.old) links.old.slots) (world (C.tray ctx.new) (C.used ctx.new) links.new.slots)
            (kind_places self.old.kind) (kind_places self.new.kind)
            (stands_at (kind_state self.new.kind (C.used ctx.new) (C.tray ctx.new)) result) }
        ensures ready { OnOk result (kind_can_run self.new.kind (C.tray ctx.new)) }
        ensures class { kind_class self.new.kind ≡ kind_class self.old.kind }
        ensures name { self.new.name ≡ self.old.name }
        ensures ins { self.new.ins ≡ self.old.ins }
        ensures outs { self.new.outs ≡ self.old.outs }
        ensures rows { KeepsRows links.old.slots links.new.slots }
        ensures lent { C.lender ctx.new ≡ C.lender ctx.old }
    {
        let mut ports = Ports {
            links,
            ins: &self.ins,
            outs: &self.outs,
        };
        let ended = match verb {
            Verb::Pull => self.kind.pull(ctx, &mut ports),
            Verb::Push => self.kind.push(ctx, &mut ports),
        };
        let Ports {
            links: _,
            ins: _,
            outs: _,
        } = ports;
        ended
    }
}
