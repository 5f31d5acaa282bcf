//! The class Sink: takes all of every input, and frees it.
ghost use Rattle.std.specs.Prelude.{◌≡◌, ◌<◌, length, IfOk, IsOk, refl};
ghost use Rattle.sn_app.specs.Apps.{sink, sink_all, sink_packet, sink_push};
ghost use Rattle.sn_app.specs.Loops.{Did, IsReady};
ghost use Rattle.sn_app.specs.Ports.{in_ports, in_row, ins_of};
ghost use Rattle.sn_basic.specs.Counts.{HasRow, HasRow-stays};
ghost use Rattle.sn_config.specs.ArgText.{IsArgOf};
ghost use Rattle.sn_names.specs.declared.class.Class.{Class};

use sn_app::{App, Counter, Ctx, Halt, Handler, Ports, handle_some};
use sn_names::{Arg, Class};

/// Frees each packet, and counts it.
#[derive(Drop)]
struct Discard {
    app: u32,
}

impl<C: Ctx> Handler<C> for Discard {
    ghost app = { λ it. it.app };

    ghost fits = { λ it ports. Unit {0} };

    ghost handles = { λ it ports packet. sink_packet it.app packet };

    fn handle(&self, ctx: &mut C, _ports: &mut Ports<'_>, place: u32) -> Result<bool, Halt> {
        ctx.free(place);
        ctx.count(self.app, Counter::Packets, 1);
        Ok(true)
    }

    ghost fits_later = { λ it from to same rows fits. fits };

    ghost handles_later = { λ it from to same rows. refl };
}

/// All that an input has.
fn take_all<C: Ctx>(app: u32, ctx: &mut C, ports: &mut Ports<'_>, i: usize) -> Result<bool, Halt>
    requires ready { IsReady app (C.tray ctx.old) (C.used ctx.old) ports.old }
    requires i { i < length (ins_of ports.old) }
    ensures did { Did (sink_all app (in_row ports.old i))
        (C.tray ctx.old) (C.tray ctx.new) (C.used ctx.old) (C.used ctx.new) ports.old ports.new result }
    ensures lent { C.lender ctx.new ≡ C.lender ctx.old }
{
    let count = ports.readable(i);
    handle_some(&Discard { app }, ctx, ports, i, count)
}

/// All that the inputs have, in turn.
fn take_inputs<C: Ctx>(app: u32, ctx: &mut C, ports: &mut Ports<'_>) -> Result<bool, Halt>
    requires ready { IsReady app (C.tray ctx.old) (C.used ctx.old) ports.old }
    ensures did { Did (sink_push app (in_ports ports.old))
        (C.tray ctx.old) (C.tray ctx.new) (C.used ctx.old) (C.used ctx.new) ports.old ports.new result }
    ensures lent { C.lender ctx.new ≡ C.lender ctx.old }
{
    for i in 0..ports.ins() {
        if !take_all(app, ctx, ports, i)? {
            return Ok(false);
        }
    }
    Ok(true)
}

/// Takes packets from every input and frees them.
#[derive(Debug, Drop)]
pub struct Sink {
    row: u32,
}

impl Sink {
    /// A sink at a row of the roster. It takes no argument.
    ///
    /// # Errors
    /// None.
    pub fn start<C: Ctx>(ctx: &mut C, row: u32, _arg: &Arg) -> Result<Sink, Halt>
        requires row { HasRow row (C.tray ctx.old) }
        requires arg { IsArgOf Class.Sink _arg.now }
        ensures ok { IsOk result }
        ensures started { IfOk result (λ app. app.row ≡ row) }
        ensures same { ctx.new ≡ ctx.old }
    {
        Ok(Sink { row })
    }
}

impl<C: Ctx> App<C> for Sink {
    ghost class = { Class.Sink };

    ghost can_run = { λ app t. HasRow app.row t };

    ghost places = { λ app place. 0 };

    ghost state = { λ app u t. sink app.row };

    fn pull(&mut self, _ctx: &mut C, _ports: &mut Ports<'_>) -> Result<(), Halt> {
        Ok(())
    }

    fn push(&mut self, ctx: &mut C, ports: &mut Ports<'_>) -> Result<(), Halt> {
        take_inputs(self.row, ctx, ports)?;
        Ok(())
    }

    fn reconfig(&mut self, _ctx: &mut C, _arg: &Arg) -> Result<(), Halt> {
        Ok(())
    }

    fn stop(&mut self, _ctx: &mut C) -> Result<(), Halt> {
        Ok(())
    }

    ghost stays = { λ app t s stays h. HasRow-stays app.row t s stays h };

    ghost keeps = { λ app u v t s stays same. refl };
}
