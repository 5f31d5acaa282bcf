//! The class Split: deals the packets of its inputs out to its outputs.
ghost use Rattle.std.specs.Prelude.{◌≡◌, ◌<◌, length, IfOk, IsOk, refl};
ghost use Rattle.sn_app.specs.Apps.{split, split_input as split_input_of, split_push};
ghost use Rattle.sn_app.specs.Loops.{Did, IsReady};
ghost use Rattle.sn_app.specs.Ports.{in_ports, in_row, ins_of, out_ports};
ghost use Rattle.sn_basic.specs.Counts.{HasRow, HasRow-stays};
ghost use Rattle.sn_config.specs.ArgText.{IsArgOf};
ghost use Rattle.sn_names.specs.declared.class.Class.{Class};

use crate::moving::move_some;
use sn_app::{App, Ctx, Halt, Ports};
use sn_names::{Arg, Class};

/// From one input to each output in turn as many packets as find room there.
fn split_input<C: Ctx>(app: u32, ctx: &mut C, ports: &mut Ports<'_>, i: usize) -> Result<bool, Halt>
    requires ready { IsReady app (C.tray ctx.old) (C.used ctx.old) ports.old }
    requires i { i < length (ins_of ports.old) }
    ensures did { Did (split_input_of app (out_ports ports.old) (in_row ports.old i))
        (C.tray ctx.old) (C.tray ctx.new) (C.used ctx.old) (C.used ctx.new) ports.old ports.new result }
    ensures lent { C.lender ctx.new ≡ C.lender ctx.old }
{
    for o in 0..ports.outs() {
        let room = ports.room(o);
        if !move_some(app, ctx, ports, i, o, room)? {
            return Ok(false);
        }
    }
    Ok(true)
}

/// From each input in turn.
fn split_inputs<C: Ctx>(app: u32, ctx: &mut C, ports: &mut Ports<'_>) -> Result<bool, Halt>
    requires ready { IsReady app (C.tray ctx.old) (C.used ctx.old) ports.old }
    ensures did { Did (split_push app (in_ports ports.old) (out_ports ports.old))
        (C.tray ctx.old) (C.tray ctx.new) (C.used ctx.old) (C.used ctx.new) ports.old ports.new result }
    ensures lent { C.lender ctx.new ≡ C.lender ctx.old }
{
    for i in 0..ports.ins() {
        if !split_input(app, ctx, ports, i)? {
            return Ok(false);
        }
    }
    Ok(true)
}

/// Sends what comes from every input on its outputs, to each as much as finds room there.
#[derive(Debug, Drop)]
pub struct Split {
    row: u32,
}

impl Split {
    /// A split at a row of the roster. It takes no argument.
    ///
    /// # Errors
    /// None.
    pub fn start<C: Ctx>(ctx: &mut C, row: u32, _arg: &Arg) -> Result<Split, Halt>
        requires row { HasRow row (C.tray ctx.old) }
        requires arg { IsArgOf Class.Split _arg.now }
        ensures ok { IsOk result }
        ensures started { IfOk result (λ app. app.row ≡ row) }
        ensures same { ctx.new ≡ ctx.old }
    {
        Ok(Split { row })
    }
}

impl<C: Ctx> App<C> for Split {
    ghost class = { Class.Split };

    ghost can_run = { λ app t. HasRow app.row t };

    ghost places = { λ app place. 0 };

    ghost state = { λ app u t. split app.row };

    fn pull(&mut self, _ctx: &mut C, _ports: &mut Ports<'_>) -> Result<(), Halt> {
        Ok(())
    }

    fn push(&mut self, ctx: &mut C, ports: &mut Ports<'_>) -> Result<(), Halt> {
        split_inputs(self.row, ctx, ports)?;
        Ok(())
    }

    fn reconfig(&mut self, _ctx: &mut C, _arg: &Arg) -> Result<(), Halt> {
        Ok(())
    }

    fn stop(&mut self, _ctx: &mut C) -> Result<(), Halt> {
        Ok(())
    }

    ghost stays = { λ app t s stays h. HasRow-stays app.row t s stays h };

    ghost keeps = { λ app u v t s stays same. refl };
}
