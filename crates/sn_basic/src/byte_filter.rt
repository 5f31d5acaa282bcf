//! The class ByteFilter: passes the packets with a byte at a place.
ghost use Rattle.std.specs.Prelude.{◌≡◌, ◌<◌, length, slice_get, IfOk, IsOk, IsSome, refl};
ghost use Rattle.sn_app.specs.Apps.{byte_filter, byte_of, filter_packet, filter_push, is_byte_at};
ghost use Rattle.sn_app.specs.Calls.{bytes_at};
ghost use Rattle.sn_app.specs.Loops.{Did, IsReady};
ghost use Rattle.sn_app.specs.Ports.{in_row, ins_of, out_row, outs_of};
ghost use Rattle.sn_basic.specs.Counts.{HasRow, HasRow-stays};
ghost use Rattle.sn_basic.specs.Outputs.{outputs_stay, within_later};
ghost use Rattle.sn_config.specs.ArgText.{IsArgOf};
ghost use Rattle.sn_names.specs.declared.class.Class.{Class};

use sn_app::{
    App, Counter, Ctx, Halt, Handler, Ports, handle_some, linked_input, linked_output, send,
};
use sn_names::{Arg, Class};

/// Whether the packet at a place has this byte there.
fn has_byte<C: Ctx>(ctx: &C, place: u32, offset: u32, value: u8) -> bool
    requires { IsSome (C.used ctx.now place) }
    ensures { result ≡ is_byte_at (slice_get (bytes_at (C.used ctx.now) place) offset) value }
{
    match ctx.byte(place, offset) {
        Some(byte) => byte == value,
        None => false,
    }
}

/// Sends each packet with the byte, frees the others, and counts both.
#[derive(Drop)]
struct Filter {
    app: u32,
    offset: u32,
    value: u8,
    o: usize,
}

impl<C: Ctx> Handler<C> for Filter {
    ghost app = { λ it. it.app };

    ghost fits = { λ it ports. it.o < length (outs_of ports) };

    ghost handles = { λ it ports packet. filter_packet it.app it.offset it.value (out_row ports it.o) packet };

    fn handle(&self, ctx: &mut C, ports: &mut Ports<'_>, place: u32) -> Result<bool, Halt> {
        if has_byte(ctx, place, self.offset, self.value) {
            send(ctx, ports, self.o, place);
            ctx.count(self.app, Counter::Packets, 1);
            return Ok(true);
        }
        ctx.free(place);
        ctx.count(self.app, Counter::Dropped, 1);
        Ok(true)
    }

    ghost fits_later = { λ it from to same rows fits. within_later from to it.o same fits };

    ghost handles_later = { λ it from to same rows.
        outputs_stay (λ out packet. filter_packet it.app it.offset it.value out packet) from to it.o same rows };
}

/// All that is readable of an input.
fn filter_all<C: Ctx>(
    filter: &Filter,
    ctx: &mut C,
    ports: &mut Ports<'_>,
    i: usize,
) -> Result<bool, Halt>
    requires ready { IsReady filter.now.app (C.tray ctx.old) (C.used ctx.old) ports.old }
    requires i { i < length (ins_of ports.old) }
    requires o { filter.now.o < length (outs_of ports.old) }
    ensures did { Did
        (filter_push filter.now.app filter.now.offset filter.now.value (in_row ports.old i) (out_row ports.old filter.now.o))
        (C.tray ctx.old) (C.tray ctx.new) (C.used ctx.old) (C.used ctx.new) ports.old ports.new result }
    ensures lent { C.lender ctx.new ≡ C.lender ctx.old }
{
    let count = ports.readable(i);
    handle_some(filter, ctx, ports, i, count)
}

/// Passes the packets of its input that have a byte at a place, and drops the others.
#[derive(Debug, Drop)]
pub struct ByteFilter {
    row: u32,
    offset: u32,
    value: u8,
}

/// The place and the byte that an argument asks for.
fn byte_in(arg: &Arg) -> (u32, u8)
    requires { IsArgOf Class.ByteFilter arg.now }
    ensures offset { result.0 ≡ (byte_of arg.now).0 }
    ensures value { result.1 ≡ (byte_of arg.now).1 }
{
    match arg {
        Arg::Byte { offset, value } => (*offset, *value),
        _ => unreachable!(),
    }
}

impl ByteFilter {
    /// A filter at a row of the roster, for the argument's place and byte.
    ///
    /// # Errors
    /// None.
    pub fn start<C: Ctx>(ctx: &mut C, row: u32, arg: &Arg) -> Result<ByteFilter, Halt>
        requires row { HasRow row (C.tray ctx.old) }
        requires arg { IsArgOf Class.ByteFilter arg.now }
        ensures ok { IsOk result }
        ensures started { IfOk result (λ app.
            byte_filter app.row app.offset app.value ≡ byte_filter row (byte_of arg.now).0 (byte_of arg.now).1) }
        ensures same { ctx.new ≡ ctx.old }
    {
        let (offset, value) = byte_in(arg);
        Ok(ByteFilter { row, offset, value })
    }
}

impl<C: Ctx> App<C> for ByteFilter {
    ghost class = { Class.ByteFilter };

    ghost can_run = { λ app t. HasRow app.row t };

    ghost places = { λ app place. 0 };

    ghost state = { λ app u t. byte_filter app.row app.offset app.value };

    fn pull(&mut self, _ctx: &mut C, _ports: &mut Ports<'_>) -> Result<(), Halt> {
        Ok(())
    }

    fn push(&mut self, ctx: &mut C, ports: &mut Ports<'_>) -> Result<(), Halt> {
        let Some(i) = linked_input(ports) else {
            return Ok(());
        };
        let Some(o) = linked_output(ports) else {
            return Ok(());
        };
        let filter = Filter {
            app: self.row,
            offset: self.offset,
            value: self.value,
            o,
        };
        filter_all(&filter, ctx, ports, i)?;
        Ok(())
    }

    fn reconfig(&mut self, _ctx: &mut C, arg: &Arg) -> Result<(), Halt> {
        let (offset, value) = byte_in(arg);
        self.offset = offset;
        self.value = value;
        Ok(())
    }

    fn stop(&mut self, _ctx: &mut C) -> Result<(), Halt> {
        Ok(())
    }

    ghost stays = { λ app t s stays h. HasRow-stays app.row t s stays h };

    ghost keeps = { λ app u v t s stays same. refl };
}
