//! What every app is, whatever its class.
ghost use Rattle.std.specs.Prelude.{◌≡◌, ℕ, ◌<◌, List, Option, OnOk, true};
ghost use Rattle.sn_link.specs.Link.{Line};
ghost use Rattle.sn_names.specs.declared.class.Class.{Class};
ghost use Rattle.sn_config.specs.ArgText.{IsArgOf};
ghost use Rattle.sn_app.specs.Answers.{Stays};
ghost use Rattle.sn_app.specs.Apps.{AppState, pulls, pushes, reconfigs, stops};
ghost use Rattle.sn_app.specs.Desk.{Tray};
ghost use Rattle.sn_app.specs.Ports.{HasInputs, HasOutputs, KeepsRows, SamePorts, in_ports, out_ports, slots_of};
ghost use Rattle.sn_app.specs.Runs.{Runs, stands_at};
ghost use Rattle.sn_app.specs.Starts.{AreKept, ArgIsThere};
ghost use Rattle.sn_app.specs.World.{IsSound, Used, nowhere, world};

use crate::{Ctx, Halt, Ports};
use sn_names::Arg;

/// An app: a class's own state, with what is done at a pull, at a push, at a new argument, and at its stop.
///
/// Contracts see an app by its state, which names packets and no places, and by the places whose packets it keeps. After an
/// error the app is only dropped.
pub trait App<C: Ctx> {
    ghost class: { Class };

    // What the app needs of its context: its rows are there, and the files that it started are started.
    ghost can_run: { Self → Tray → Type 0 };

    // How often a place is among those that the app keeps.
    ghost places: { Self → ℕ → ℕ };

    ghost state: { Self → Used → Tray → AppState };

    /// Brings packets in.
    ///
    /// # Errors
    /// A stop, or want of memory.
    fn pull(&mut self, ctx: &mut C, ports: &mut Ports<'_>) -> Result<(), Halt>
        requires ready { can_run self.old (C.tray ctx.old) }
        requires ins { HasInputs ports.old }
        requires outs { HasOutputs ports.old }
        requires sound { IsSound (world (C.tray ctx.old) (C.used ctx.old) (slots_of ports.old)) (places self.old) }
        ensures runs { Runs (pulls (state self.old (C.used ctx.old) (C.tray ctx.old)) (in_ports ports.old) (out_ports ports.old))
            (world (C.tray ctx.old) (C.used ctx.old) (slots_of ports.old))
            (world (C.tray ctx.new) (C.used ctx.new) (slots_of ports.new)) (places self.old) (places self.new)
            (stands_at (state self.new (C.used ctx.new) (C.tray ctx.new)) result) }
        ensures ready { OnOk result (can_run self.new (C.tray ctx.new)) }
        ensures same { SamePorts ports.old ports.new }
        ensures rows { KeepsRows (slots_of ports.old) (slots_of ports.new) }
        ensures lent { C.lender ctx.new ≡ C.lender ctx.old };

    /// Passes packets on.
    ///
    /// # Errors
    /// A stop, or want of memory.
    fn push(&mut self, ctx: &mut C, ports: &mut Ports<'_>) -> Result<(), Halt>
        requires ready { can_run self.old (C.tray ctx.old) }
        requires ins { HasInputs ports.old }
        requires outs { HasOutputs ports.old }
        requires sound { IsSound (world (C.tray ctx.old) (C.used ctx.old) (slots_of ports.old)) (places self.old) }
        ensures runs { Runs (pushes (state self.old (C.used ctx.old) (C.tray ctx.old)) (in_ports ports.old) (out_ports ports.old))
            (world (C.tray ctx.old) (C.used ctx.old) (slots_of ports.old))
            (world (C.tray ctx.new) (C.used ctx.new) (slots_of ports.new)) (places self.old) (places self.new)
            (stands_at (state self.new (C.used ctx.new) (C.tray ctx.new)) result) }
        ensures ready { OnOk result (can_run self.new (C.tray ctx.new)) }
        ensures same { SamePorts ports.old ports.new }
        ensures rows { KeepsRows (slots_of ports.old) (slots_of ports.new) }
        ensures lent { C.lender ctx.new ≡ C.lender ctx.old };

    /// Takes a new argument.
    ///
    /// # Errors
    /// A stop, or want of memory.
    fn reconfig(&mut self, ctx: &mut C, arg: &Arg) -> Result<(), Halt>
        requires ready { can_run self.old (C.tray ctx.old) }
        requires arg { IsArgOf class arg.now }
        requires there { ArgIsThere class arg.now (C.tray ctx.old) }
        ensures runs { (slots : List (Option Line))
            → IsSound (world (C.tray ctx.old) (C.used ctx.old) slots) (places self.old)
            → Runs (reconfigs arg.now (state self.old (C.used ctx.old) (C.tray ctx.old)))
            (world (C.tray ctx.old) (C.used ctx.old) slots) (world (C.tray ctx.new) (C.used ctx.new) slots)
            (places self.old) (places self.new) (stands_at (state self.new (C.used ctx.new) (C.tray ctx.new)) result) }
        ensures ready { OnOk result (can_run self.new (C.tray ctx.new)) }
        ensures lent { C.lender ctx.new ≡ C.lender ctx.old };

    /// Gives back what it keeps, and takes its end of an interlink down.
    ///
    /// # Errors
    /// A stop, or want of memory.
    fn stop(&mut self, ctx: &mut C) -> Result<(), Halt>
        requires ready { can_run self.old (C.tray ctx.old) }
        requires kept { AreKept (C.used ctx.old) (places self.old) }
        ensures runs { (slots : List (Option Line))
            → IsSound (world (C.tray ctx.old) (C.used ctx.old) slots) (places self.old)
            → Runs (stops (state self.old (C.used ctx.old) (C.tray ctx.old)))
            (world (C.tray ctx.old) (C.used ctx.old) slots) (world (C.tray ctx.new) (C.used ctx.new) slots)
            (places self.old) nowhere (stands_at true result) }
        ensures lent { C.lender ctx.new ≡ C.lender ctx.old };

    // What others' calls leave of an app: it can still run, and its state is the same.
    ghost stays: { (app : Self) (t s : Tray) → Stays t s → can_run app t → can_run app s };

    ghost keeps: { (app : Self) (u v : Used) (t s : Tray) → Stays t s → ((place : ℕ) → 0 < places app place → v place ≡ u place)
        → state app v s ≡ state app u t };
}
