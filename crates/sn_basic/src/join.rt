//! The class Join: sends what comes from every input on one output.
ghost use Rattle.std.specs.Prelude.{◌≡◌, ◌<◌, length, IfOk, IsOk, refl};
ghost use Rattle.sn_app.specs.Apps.{join, join_push};
ghost use Rattle.sn_app.specs.Loops.{Did, IsReady};
ghost use Rattle.sn_app.specs.Ports.{in_ports, out_row, outs_of};
ghost use Rattle.sn_basic.specs.Counts.{HasRow, HasRow-stays};
ghost use Rattle.sn_config.specs.ArgText.{IsArgOf};
ghost use Rattle.sn_names.specs.declared.class.Class.{Class};

use crate::moving::move_some;
use sn_app::{App, Ctx, Halt, Ports, linked_out};
use sn_names::{Arg, Class};

/// From each input in turn as many packets as find room on the output.
fn join_inputs<C: Ctx>(app: u32, ctx: &mut C, ports: &mut Ports<'_>, o: usize) -> Result<bool, Halt>
    requires ready { IsReady app (C.tray ctx.old) (C.used ctx.old) ports.old }
    requires o { o < length (outs_of ports.old) }
    ensures did { Did (join_push app (in_ports ports.old) (out_row ports.old o))
        (C.tray ctx.old) (C.tray ctx.new) (C.used ctx.old) (C.used ctx.new) ports.old ports.new result }
    ensures lent { C.lender ctx.new ≡ C.lender ctx.old }
{
    for i in 0..ports.ins() {
        let room = ports.room(o);
        if !move_some(app, ctx, ports, i, o, room)? {
            return Ok(false);
        }
    }
    Ok(true)
}

/// Sends what comes from every input on the output `out`.
#[derive(Debug, Drop)]
pub struct Join {
    row: u32,
}

impl Join {
    /// A join at a row of the roster. It takes no argument.
    ///
    /// # Errors
    /// None.
    pub fn start<C: Ctx>(ctx: &mut C, row: u32, _arg: &Arg) -> Result<Join, Halt>
        requires row { HasRow row (C.tray ctx.old) }
        requires arg { IsArgOf Class.Join _arg.now }
        ensures ok { IsOk result }
        ensures started { IfOk result (λ app. app.row ≡ row) }
        ensures same { ctx.new ≡ ctx.old }
    {
        Ok(Join { row })
    }
}

impl<C: Ctx> App<C> for Join {
    ghost class = { Class.Join };

    ghost can_run = { λ app t. HasRow app.row t };

    ghost places = { λ app place. 0 };

    ghost state = { λ app u t. join app.row };

    fn pull(&mut self, _ctx: &mut C, _ports: &mut Ports<'_>) -> Result<(), Halt> {
        Ok(())
    }

    fn push(&mut self, ctx: &mut C, ports: &mut Ports<'_>) -> Result<(), Halt> {
        let Some(o) = linked_out(ports) else {
            return Ok(());
        };
        join_inputs(self.row, ctx, ports, o)?;
        Ok(())
    }

    fn reconfig(&mut self, _ctx: &mut C, _arg: &Arg) -> Result<(), Halt> {
        Ok(())
    }

    fn stop(&mut self, _ctx: &mut C) -> Result<(), Halt> {
        Ok(())
    }

    ghost stays = { λ app t s stays h. HasRow-stays app.row t s stays h };

    ghost keeps = { λ app u v t s stays same. refl };
}
