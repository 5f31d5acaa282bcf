//! The class Sample: passes every nth packet.
ghost use Rattle.std.specs.Prelude.{◌≡◌, ◌≤◌, ◌<◌, length, IfOk, IsOk, refl};
ghost use Rattle.sn_app.specs.Apps.{number_or, sample, sample_one, sample_packet, sample_push};
ghost use Rattle.sn_app.specs.Loops.{Did, IsReady};
ghost use Rattle.sn_app.specs.Ports.{in_row, ins_of, out_row, outs_of};
ghost use Rattle.sn_app.specs.Reader.{stepping};
ghost use Rattle.sn_basic.specs.Counts.{HasRow, HasRow-stays};
ghost use Rattle.sn_basic.specs.Outputs.{outputs_stay, within_later};
ghost use Rattle.sn_config.specs.ArgText.{IsArgOf};
ghost use Rattle.sn_link.specs.Counts.{raised};
ghost use Rattle.sn_names.specs.declared.class.Class.{Class};

use sn_app::{
    App, Counter, Ctx, Halt, Handler, Ports, handle_next, linked_input, linked_output, send,
};
use sn_names::{Arg, Class};

/// Sends the packet after `seen` others where `n` divides its number, and frees it else.
#[derive(Drop)]
struct Pick {
    app: u32,
    n: u64,
    seen: u64,
    o: usize,
    ghost some: { 1 ≤ n },
}

impl<C: Ctx> Handler<C> for Pick {
    ghost app = { λ it. it.app };

    ghost fits = { λ it ports. it.o < length (outs_of ports) };

    ghost handles = { λ it ports packet. sample_packet it.app it.n (out_row ports it.o) it.seen packet };

    fn handle(&self, ctx: &mut C, ports: &mut Ports<'_>, place: u32) -> Result<bool, Halt> {
        if self.seen.saturating_add(1) % self.n == 0 {
            send(ctx, ports, self.o, place);
            ctx.count(self.app, Counter::Packets, 1);
            return Ok(true);
        }
        ctx.free(place);
        ctx.count(self.app, Counter::Dropped, 1);
        Ok(true)
    }

    ghost fits_later = { λ it from to same rows fits. within_later from to it.o same fits };

    ghost handles_later = { λ it from to same rows.
        outputs_stay (λ out packet. sample_packet it.app it.n out it.seen packet) from to it.o same rows };
}

/// So many packets of an input. How many have been seen then.
fn sample_some<C: Ctx>(
    app: u32,
    n: u64,
    seen: u64,
    ctx: &mut C,
    ports: &mut Ports<'_>,
    i: usize,
    o: usize,
    count: u32,
) -> Result<u64, Halt>
    requires ready { IsReady app (C.tray ctx.old) (C.used ctx.old) ports.old }
    requires some { 1 ≤ n }
    requires i { i < length (ins_of ports.old) }
    requires o { o < length (outs_of ports.old) }
    ensures did { Did (stepping count (sample_one app n (in_row ports.old i) (out_row ports.old o)) seen)
        (C.tray ctx.old) (C.tray ctx.new) (C.used ctx.old) (C.used ctx.new) ports.old ports.new result }
    ensures lent { C.lender ctx.new ≡ C.lender ctx.old }
{
    let mut now = seen;
    for _turn in 0..count {
        let pick = Pick {
            app,
            n,
            seen: now,
            o,
        };
        let on = handle_next(&pick, ctx, ports, i)?;
        now = now.saturating_add(1);
        if !on {
            return Ok(now);
        }
    }
    Ok(now)
}

/// All that is readable of an input. How many have been seen then.
fn sample_all<C: Ctx>(
    app: u32,
    n: u64,
    seen: u64,
    ctx: &mut C,
    ports: &mut Ports<'_>,
    i: usize,
    o: usize,
) -> Result<u64, Halt>
    requires ready { IsReady app (C.tray ctx.old) (C.used ctx.old) ports.old }
    requires some { 1 ≤ n }
    requires i { i < length (ins_of ports.old) }
    requires o { o < length (outs_of ports.old) }
    ensures did { Did (sample_push app n (in_row ports.old i) (out_row ports.old o) seen)
        (C.tray ctx.old) (C.tray ctx.new) (C.used ctx.old) (C.used ctx.new) ports.old ports.new result }
    ensures lent { C.lender ctx.new ≡ C.lender ctx.old }
{
    let count = ports.readable(i);
    sample_some(app, n, seen, ctx, ports, i, o, count)
}

/// Passes every nth packet of its input since its start, and drops the others.
#[derive(Debug, Drop)]
pub struct Sample {
    row: u32,
    n: u64,
    seen: u64,
    ghost some: { 1 ≤ n },
}

/// The n that an argument asks for.
fn n_of(arg: &Arg) -> u64
    requires { IsArgOf Class.Sample arg.now }
    ensures value { result ≡ number_or 1 arg.now }
    ensures some { 1 ≤ result }
{
    match arg {
        Arg::Number(n) => *n,
        _ => unreachable!(),
    }
}

impl Sample {
    /// An app at a row of the roster, which passes every nth packet for the argument's n.
    ///
    /// # Errors
    /// None.
    pub fn start<C: Ctx>(ctx: &mut C, row: u32, arg: &Arg) -> Result<Sample, Halt>
        requires row { HasRow row (C.tray ctx.old) }
        requires arg { IsArgOf Class.Sample arg.now }
        ensures ok { IsOk result }
        ensures started { IfOk result (λ app. sample app.row app.n app.seen ≡ sample row (number_or 1 arg.now) 0) }
        ensures same { ctx.new ≡ ctx.old }
    {
        let n = n_of(arg);
        Ok(Sample { row, n, seen: 0 })
    }
}

impl<C: Ctx> App<C> for Sample {
    ghost class = { Class.Sample };

    ghost can_run = { λ app t. HasRow app.row t };

    ghost places = { λ app place. 0 };

    ghost state = { λ app u t. sample app.row app.n app.seen };

    fn pull(&mut self, _ctx: &mut C, _ports: &mut Ports<'_>) -> Result<(), Halt> {
        Ok(())
    }

    fn push(&mut self, ctx: &mut C, ports: &mut Ports<'_>) -> Result<(), Halt> {
        let Some(i) = linked_input(ports) else {
            return Ok(());
        };
        let Some(o) = linked_output(ports) else {
            return Ok(());
        };
        let seen = sample_all(self.row, self.n, self.seen, ctx, ports, i, o)?;
        self.seen = seen;
        Ok(())
    }

    fn reconfig(&mut self, _ctx: &mut C, arg: &Arg) -> Result<(), Halt> {
        let n = n_of(arg);
        self.n = n;
        Ok(())
    }

    fn stop(&mut self, _ctx: &mut C) -> Result<(), Halt> {
        Ok(())
    }

    ghost stays = { λ app t s stays h. HasRow-stays app.row t s stays h };

    ghost keeps = { λ app u v t s stays same. refl };
}
