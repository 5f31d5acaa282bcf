//! The class Source: makes packets of zeros.
ghost use Rattle.std.specs.Prelude.{◌≡◌, ◌<◌, ◌≤◌, length, IfOk, IsOk, refl};
ghost use Rattle.sn_app.specs.Apps.{number_or, source, source_burst, source_one, source_pull, usual_size};
ghost use Rattle.sn_app.specs.Loops.{Did, IsReady};
ghost use Rattle.sn_app.specs.Ports.{out_ports, out_row, outs_of};
ghost use Rattle.sn_basic.specs.Counts.{HasRow, HasRow-stays};
ghost use Rattle.sn_config.specs.ArgText.{IsArgOf};
ghost use Rattle.sn_names.specs.declared.class.Class.{Class};
ghost use Rattle.sn_packet.specs.Packet.{most_bytes};

use sn_app::{App, Counter, Ctx, Halt, Ports, send};
use sn_names::{Arg, Class};

/// The most packets of one pull, as Snabb's burst.
const MOST_PULLED: u32 = 102;

/// The size of the packets where none is given: the shortest frame of Ethernet.
const USUAL_SIZE: u32 = 60;

/// One packet for an output. False where there was no free one, so that the pull ends.
fn send_one<C: Ctx>(
    row: u32,
    size: u32,
    ctx: &mut C,
    ports: &mut Ports<'_>,
    o: usize,
) -> Result<bool, Halt>
    requires ready { IsReady row (C.tray ctx.old) (C.used ctx.old) ports.old }
    requires size { size ≤ most_bytes }
    requires o { o < length (outs_of ports.old) }
    ensures did { Did (source_one row size (out_row ports.old o))
        (C.tray ctx.old) (C.tray ctx.new) (C.used ctx.old) (C.used ctx.new) ports.old ports.new result }
    ensures lent { C.lender ctx.new ≡ C.lender ctx.old }
{
    let Some(place) = ctx.allocate()? else {
        ctx.count(row, Counter::Dry, 1);
        return Ok(false);
    };
    ctx.zeros(place, size);
    send(ctx, ports, o, place);
    ctx.count(row, Counter::Packets, 1);
    Ok(true)
}

/// A burst of packets for an output. False where the pull ends.
fn send_burst<C: Ctx>(
    row: u32,
    size: u32,
    ctx: &mut C,
    ports: &mut Ports<'_>,
    o: usize,
) -> Result<bool, Halt>
    requires ready { IsReady row (C.tray ctx.old) (C.used ctx.old) ports.old }
    requires size { size ≤ most_bytes }
    requires o { o < length (outs_of ports.old) }
    ensures did { Did (source_burst row size (out_row ports.old o))
        (C.tray ctx.old) (C.tray ctx.new) (C.used ctx.old) (C.used ctx.new) ports.old ports.new result }
    ensures lent { C.lender ctx.new ≡ C.lender ctx.old }
{
    for _turn in 0..MOST_PULLED {
        if !send_one(row, size, ctx, ports, o)? {
            return Ok(false);
        }
    }
    Ok(true)
}

/// A burst for each output in turn. False where the pull ended early.
fn send_bursts<C: Ctx>(
    row: u32,
    size: u32,
    ctx: &mut C,
    ports: &mut Ports<'_>,
) -> Result<bool, Halt>
    requires ready { IsReady row (C.tray ctx.old) (C.used ctx.old) ports.old }
    requires size { size ≤ most_bytes }
    ensures did { Did (source_pull row size (out_ports ports.old))
        (C.tray ctx.old) (C.tray ctx.new) (C.used ctx.old) (C.used ctx.new) ports.old ports.new result }
    ensures lent { C.lender ctx.new ≡ C.lender ctx.old }
{
    for o in 0..ports.outs() {
        if !send_burst(row, size, ctx, ports, o)? {
            return Ok(false);
        }
    }
    Ok(true)
}

/// Makes packets of zeros: at each pull a burst for each output.
#[derive(Debug, Drop)]
pub struct Source {
    row: u32,
    size: u32,
    ghost fits: { size ≤ 10240 },
}

/// The size that an argument asks for.
fn size_of(arg: &Arg) -> u32
    requires { IsArgOf Class.Source arg.now }
    ensures size { result ≡ number_or usual_size arg.now }
    ensures fits { result ≤ 10240 }
{
    match arg {
        Arg::Number(size) => *size as u32,
        _ => USUAL_SIZE,
    }
}

impl Source {
    /// A source at a row of the roster, of packets of the argument's size, or 60 bytes.
    ///
    /// # Errors
    /// None.
    pub fn start<C: Ctx>(ctx: &mut C, row: u32, arg: &Arg) -> Result<Source, Halt>
        requires row { HasRow row (C.tray ctx.old) }
        requires arg { IsArgOf Class.Source arg.now }
        ensures ok { IsOk result }
        ensures started { IfOk result (λ app. source app.row app.size ≡ source row (number_or usual_size arg.now)) }
        ensures same { ctx.new ≡ ctx.old }
    {
        Ok(Source {
            row,
            size: size_of(arg),
        })
    }
}

impl<C: Ctx> App<C> for Source {
    ghost class = { Class.Source };

    ghost can_run = { λ app t. HasRow app.row t };

    ghost places = { λ app place. 0 };

    ghost state = { λ app u t. source app.row app.size };

    fn pull(&mut self, ctx: &mut C, ports: &mut Ports<'_>) -> Result<(), Halt> {
        send_bursts(self.row, self.size, ctx, ports)?;
        Ok(())
    }

    fn push(&mut self, _ctx: &mut C, _ports: &mut Ports<'_>) -> Result<(), Halt> {
        Ok(())
    }

    fn reconfig(&mut self, _ctx: &mut C, arg: &Arg) -> Result<(), Halt> {
        self.size = size_of(arg);
        Ok(())
    }

    fn stop(&mut self, _ctx: &mut C) -> Result<(), Halt> {
        Ok(())
    }

    ghost stays = { λ app t s stays h. HasRow-stays app.row t s stays h };

    ghost keeps = { λ app u v t s stays same. refl };
}
