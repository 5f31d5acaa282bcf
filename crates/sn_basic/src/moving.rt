//! As many packets as find room go from an input to an output.
ghost use Rattle.std.specs.Prelude.{◌≡◌, ◌+◌, ◌<◌, length, min};
ghost use Rattle.sn_app.specs.Apps.{move_some as move_some_of, sends_counted};
ghost use Rattle.sn_app.specs.Loops.{Did, IsReady};
ghost use Rattle.sn_app.specs.Ports.{in_row, ins_of, out_line, out_row, outs_of};
ghost use Rattle.sn_link.specs.Link.{most_queued};
ghost use Rattle.sn_basic.specs.Outputs.{outputs_stay, within_later};

use sn_app::{Counter, Ctx, Halt, Handler, Ports, handle_some, send};

/// Sends each packet on an output, and counts it.
#[derive(Drop)]
struct Forward {
    app: u32,
    o: usize,
}

impl<C: Ctx> Handler<C> for Forward {
    ghost app = { λ it. it.app };

    ghost fits = { λ it ports. it.o < length (outs_of ports) };

    ghost handles = { λ it ports packet. sends_counted it.app (out_row ports it.o) packet };

    fn handle(&self, ctx: &mut C, ports: &mut Ports<'_>, place: u32) -> Result<bool, Halt> {
        send(ctx, ports, self.o, place);
        ctx.count(self.app, Counter::Packets, 1);
        Ok(true)
    }

    ghost fits_later = { λ it from to same rows fits. within_later from to it.o same fits };

    ghost handles_later = { λ it from to same rows.
        outputs_stay (λ out packet. sends_counted it.app out packet) from to it.o same rows };
}

/// The lesser of two numbers.
pub(crate) fn lesser(a: u32, b: u32) -> u32
    ensures { result ≡ min a b }
{
    if a < b { a } else { b }
}

/// As many packets of an input as are readable there and find room on the output, as that is now.
pub(crate) fn move_some<C: Ctx>(
    app: u32,
    ctx: &mut C,
    ports: &mut Ports<'_>,
    i: usize,
    o: usize,
    room: u32,
) -> Result<bool, Halt>
    requires ready { IsReady app (C.tray ctx.old) (C.used ctx.old) ports.old }
    requires i { i < length (ins_of ports.old) }
    requires o { o < length (outs_of ports.old) }
    requires room { room + length (out_line ports.old o).queued ≡ most_queued }
    ensures did { Did (move_some_of app (in_row ports.old i) (out_row ports.old o))
        (C.tray ctx.old) (C.tray ctx.new) (C.used ctx.old) (C.used ctx.new) ports.old ports.new result }
    ensures lent { C.lender ctx.new ≡ C.lender ctx.old }
{
    let count = ports.readable(i);
    let most = lesser(count, room);
    handle_some(&Forward { app, o }, ctx, ports, i, most)
}
