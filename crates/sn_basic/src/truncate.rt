//! The class Truncate: cuts packets to a length.
ghost use Rattle.std.specs.Prelude.{◌≡◌, ◌<◌, ◌≤◌, length, take, IfOk, IsOk, IsSome, refl};
ghost use Rattle.sn_app.specs.Apps.{number_or, truncate, truncate_packet, truncate_push};
ghost use Rattle.sn_app.specs.Calls.{bytes_at, rewritten_at};
ghost use Rattle.sn_app.specs.Loops.{Did, IsReady};
ghost use Rattle.sn_app.specs.Ports.{in_row, ins_of, out_row, outs_of};
ghost use Rattle.sn_basic.specs.Counts.{HasRow, HasRow-stays};
ghost use Rattle.sn_basic.specs.Outputs.{outputs_stay, within_later};
ghost use Rattle.sn_config.specs.ArgText.{IsArgOf};
ghost use Rattle.sn_names.specs.declared.class.Class.{Class};

use sn_app::{
    App, Counter, Ctx, Halt, Handler, Ports, handle_some, linked_input, linked_output, send,
};
use sn_names::{Arg, Class};

/// The packet at a place keeps at most so many bytes.
fn shorten<C: Ctx>(ctx: &mut C, place: u32, most: u32)
    requires { IsSome (C.used ctx.old place) }
    ensures tray { C.tray ctx.new ≡ C.tray ctx.old }
    ensures used { C.used ctx.new ≡ rewritten_at place (take most (bytes_at (C.used ctx.old) place)) (C.used ctx.old) }
    ensures lent { C.lender ctx.new ≡ C.lender ctx.old }
{
    if ctx.size(place) > most {
        ctx.cut(place, most);
    }
}

/// Cuts each packet, sends it and counts it.
#[derive(Drop)]
struct Cut {
    app: u32,
    most: u32,
    o: usize,
}

impl<C: Ctx> Handler<C> for Cut {
    ghost app = { λ it. it.app };

    ghost fits = { λ it ports. it.o < length (outs_of ports) };

    ghost handles = { λ it ports packet. truncate_packet it.app it.most (out_row ports it.o) packet };

    fn handle(&self, ctx: &mut C, ports: &mut Ports<'_>, place: u32) -> Result<bool, Halt> {
        shorten(ctx, place, self.most);
        send(ctx, ports, self.o, place);
        ctx.count(self.app, Counter::Packets, 1);
        Ok(true)
    }

    ghost fits_later = { λ it from to same rows fits. within_later from to it.o same fits };

    ghost handles_later = { λ it from to same rows.
        outputs_stay (λ out packet. truncate_packet it.app it.most out packet) from to it.o same rows };
}

/// All that is readable of an input.
fn cut_all<C: Ctx>(
    app: u32,
    most: u32,
    ctx: &mut C,
    ports: &mut Ports<'_>,
    i: usize,
    o: usize,
) -> Result<bool, Halt>
    requires ready { IsReady app (C.tray ctx.old) (C.used ctx.old) ports.old }
    requires i { i < length (ins_of ports.old) }
    requires o { o < length (outs_of ports.old) }
    ensures did { Did (truncate_push app most (in_row ports.old i) (out_row ports.old o))
        (C.tray ctx.old) (C.tray ctx.new) (C.used ctx.old) (C.used ctx.new) ports.old ports.new result }
    ensures lent { C.lender ctx.new ≡ C.lender ctx.old }
{
    let count = ports.readable(i);
    handle_some(&Cut { app, most, o }, ctx, ports, i, count)
}

/// Cuts the packets of its input to a length, and passes them on.
#[derive(Debug, Drop)]
pub struct Truncate {
    row: u32,
    most: u32,
}

/// The length that an argument asks for.
fn most_of(arg: &Arg) -> u32
    requires { IsArgOf Class.Truncate arg.now }
    ensures { result ≡ number_or 0 arg.now }
{
    match arg {
        Arg::Number(most) => *most as u32,
        _ => unreachable!(),
    }
}

impl Truncate {
    /// An app at a row of the roster, which cuts to the argument's length.
    ///
    /// # Errors
    /// None.
    pub fn start<C: Ctx>(ctx: &mut C, row: u32, arg: &Arg) -> Result<Truncate, Halt>
        requires row { HasRow row (C.tray ctx.old) }
        requires arg { IsArgOf Class.Truncate arg.now }
        ensures ok { IsOk result }
        ensures started { IfOk result (λ app. truncate app.row app.most ≡ truncate row (number_or 0 arg.now)) }
        ensures same { ctx.new ≡ ctx.old }
    {
        Ok(Truncate {
            row,
            most: most_of(arg),
        })
    }
}

impl<C: Ctx> App<C> for Truncate {
    ghost class = { Class.Truncate };

    ghost can_run = { λ app t. HasRow app.row t };

    ghost places = { λ app place. 0 };

    ghost state = { λ app u t. truncate app.row app.most };

    fn pull(&mut self, _ctx: &mut C, _ports: &mut Ports<'_>) -> Result<(), Halt> {
        Ok(())
    }

    fn push(&mut self, ctx: &mut C, ports: &mut Ports<'_>) -> Result<(), Halt> {
        let Some(i) = linked_input(ports) else {
            return Ok(());
        };
        let Some(o) = linked_output(ports) else {
            return Ok(());
        };
        cut_all(self.row, self.most, ctx, ports, i, o)?;
        Ok(())
    }

    fn reconfig(&mut self, _ctx: &mut C, arg: &Arg) -> Result<(), Halt> {
        self.most = most_of(arg);
        Ok(())
    }

    fn stop(&mut self, _ctx: &mut C) -> Result<(), Halt> {
        Ok(())
    }

    ghost stays = { λ app t s stays h. HasRow-stays app.row t s stays h };

    ghost keeps = { λ app u v t s stays same. refl };
}
