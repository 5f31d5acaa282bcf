//! The class Receiver: takes packets from an interlink, and sends them.
ghost use Rattle.std.specs.Prelude.{◌≡◌, ◌<◌, ◌≤◌, length, IfOk, IsTrue, List, OnOk, Option, refl, true};
ghost use Rattle.sn_app.specs.Apps.{name_in, receive_one as receive_one_of, receive_where, receiver, receiver_pull, starts};
ghost use Rattle.sn_app.specs.Calls.{AfterTake, IsUp, known_at, row_of};
ghost use Rattle.sn_app.specs.Desk.{roster_of};
ghost use Rattle.sn_app.specs.Loops.{Did, IsReady};
ghost use Rattle.sn_app.specs.Ports.{out_row, outs_of};
ghost use Rattle.sn_app.specs.Reader.{times};
ghost use Rattle.sn_app.specs.Runs.{Runs, stands_at};
ghost use Rattle.sn_app.specs.Starts.{ArgIsThere};
ghost use Rattle.sn_app.specs.World.{nowhere, world};
ghost use Rattle.sn_config.specs.ArgText.{IsArgOf};
ghost use Rattle.sn_core.specs.declared.events.Side.TheVariants.{Rx};
ghost use Rattle.sn_edge.specs.Needs.{HasEnd, HasEnd-stays, HasRow};
ghost use Rattle.sn_edge.specs.Shown.{shown_as};
ghost use Rattle.sn_link.specs.Link.{Line};
ghost use Rattle.sn_names.specs.declared.class.Class.{Class};

use crate::lesser::lesser_of;
use sn_app::{App, Counter, Ctx, Halt, Ports, Side, linked_output, send};
use sn_names::{Arg, Class};

/// The most packets of one pull, as Snabb's burst.
const MOST_PULLED: u32 = 102;

/// The next packet of those that were seen.
fn receive_one<C: Ctx>(
    row: u32,
    lane: u32,
    ctx: &mut C,
    ports: &mut Ports<'_>,
    o: usize,
) -> Result<(), Halt>
    requires ready { IsReady row (C.tray ctx.old) (C.used ctx.old) ports.old }
    requires end { IsTrue ((C.tray ctx.old).log.constants.has_end lane Rx) }
    requires up { IsUp lane Rx (C.tray ctx.old) }
    requires known { 0 < known_at lane Rx (C.tray ctx.old) }
    requires o { o < length (outs_of ports.old) }
    ensures did { Did (receive_one_of row lane (out_row ports.old o))
        (C.tray ctx.old) (C.tray ctx.new) (C.used ctx.old) (C.used ctx.new) ports.old ports.new (stands_at true result) }
    ensures known { OnOk result (AfterTake lane (C.tray ctx.old) (C.tray ctx.new)) }
    ensures lent { C.lender ctx.new ≡ C.lender ctx.old }
{
    let place = ctx.lane_take(lane)?;
    send(ctx, ports, o, place);
    ctx.count(row, Counter::Packets, 1);
    Ok(())
}

/// So many packets of those that were seen.
fn receive_some<C: Ctx>(
    row: u32,
    lane: u32,
    ctx: &mut C,
    ports: &mut Ports<'_>,
    o: usize,
    count: u32,
) -> Result<(), Halt>
    requires ready { IsReady row (C.tray ctx.old) (C.used ctx.old) ports.old }
    requires end { IsTrue ((C.tray ctx.old).log.constants.has_end lane Rx) }
    requires up { IsUp lane Rx (C.tray ctx.old) }
    requires known { count ≤ known_at lane Rx (C.tray ctx.old) }
    requires o { o < length (outs_of ports.old) }
    ensures did { Did (times count (receive_one_of row lane (out_row ports.old o)))
        (C.tray ctx.old) (C.tray ctx.new) (C.used ctx.old) (C.used ctx.new) ports.old ports.new (stands_at true result) }
    ensures lent { C.lender ctx.new ≡ C.lender ctx.old }
{
    for _turn in 0..count {
        receive_one(row, lane, ctx, ports, o)?;
    }
    Ok(())
}

/// What an end that is up sees, and at most as many packets as one pull has.
fn receive_seen<C: Ctx>(
    row: u32,
    lane: u32,
    ctx: &mut C,
    ports: &mut Ports<'_>,
    o: usize,
) -> Result<(), Halt>
    requires ready { IsReady row (C.tray ctx.old) (C.used ctx.old) ports.old }
    requires end { IsTrue ((C.tray ctx.old).log.constants.has_end lane Rx) }
    requires up { IsUp lane Rx (C.tray ctx.old) }
    requires o { o < length (outs_of ports.old) }
    ensures did { Did (receive_where row lane (out_row ports.old o) true)
        (C.tray ctx.old) (C.tray ctx.new) (C.used ctx.old) (C.used ctx.new) ports.old ports.new (stands_at true result) }
    ensures lent { C.lender ctx.new ≡ C.lender ctx.old }
{
    let seen = ctx.lane_look(lane)?;
    let count = lesser_of(seen, MOST_PULLED);
    receive_some(row, lane, ctx, ports, o, count)
}

/// Brings the end up where it isn't, and takes what it sees. False where it didn't come up.
fn receive_all<C: Ctx>(
    row: u32,
    lane: u32,
    ctx: &mut C,
    ports: &mut Ports<'_>,
    o: usize,
) -> Result<bool, Halt>
    requires ready { IsReady row (C.tray ctx.old) (C.used ctx.old) ports.old }
    requires end { IsTrue ((C.tray ctx.old).log.constants.has_end lane Rx) }
    requires o { o < length (outs_of ports.old) }
    ensures did { Did (receiver_pull row lane (out_row ports.old o))
        (C.tray ctx.old) (C.tray ctx.new) (C.used ctx.old) (C.used ctx.new) ports.old ports.new result }
    ensures lent { C.lender ctx.new ≡ C.lender ctx.old }
{
    if !ctx.lane_attach(lane, Side::Rx)? {
        return Ok(false);
    }
    receive_seen(row, lane, ctx, ports, o)?;
    Ok(true)
}

/// Sends the packets that come over an interlink.
#[derive(Debug, Drop)]
pub struct Receiver {
    row: u32,
    lane: u32,
}

/// The row of the interlink that an argument names.
fn lane_in<C: Ctx>(ctx: &C, arg: &Arg) -> u32
    requires arg { IsArgOf Class.Receiver arg.now }
    requires there { ArgIsThere Class.Receiver arg.now (C.tray ctx.now) }
    ensures { result ≡ row_of (roster_of (C.tray ctx.now)).lanes (name_in arg.now) }
{
    match arg {
        Arg::Lane(name) => ctx.lane_of(name),
        _ => unreachable!(),
    }
}

impl Receiver {
    /// A receiver at a row of the roster, of the argument's interlink. Its end comes up at the first pull.
    ///
    /// # Errors
    /// None.
    pub fn start<C: Ctx>(ctx: &mut C, row: u32, arg: &Arg) -> Result<Receiver, Halt>
        requires row { HasRow row (C.tray ctx.old) }
        requires arg { IsArgOf Class.Receiver arg.now }
        requires there { ArgIsThere Class.Receiver arg.now (C.tray ctx.old) }
        ensures runs { (slots : List (Option Line))
            → Runs (starts Class.Receiver arg.now row)
            (world (C.tray ctx.old) (C.used ctx.old) slots) (world (C.tray ctx.new) (C.used ctx.new) slots)
            nowhere nowhere (shown_as (λ app. receiver app.row app.lane) result) }
        ensures ready { IfOk result (λ app. HasEnd app.row app.lane Rx (C.tray ctx.new)) }
        ensures same { ctx.new ≡ ctx.old }
    {
        let lane = lane_in(ctx, arg);
        Ok(Receiver { row, lane })
    }
}

impl<C: Ctx> App<C> for Receiver {
    ghost class = { Class.Receiver };

    ghost can_run = { λ app t. HasEnd app.row app.lane Rx t };

    ghost places = { λ app place. 0 };

    ghost state = { λ app u t. receiver app.row app.lane };

    fn pull(&mut self, ctx: &mut C, ports: &mut Ports<'_>) -> Result<(), Halt> {
        let Some(o) = linked_output(ports) else {
            return Ok(());
        };
        receive_all(self.row, self.lane, ctx, ports, o)?;
        Ok(())
    }

    fn push(&mut self, _ctx: &mut C, _ports: &mut Ports<'_>) -> Result<(), Halt> {
        Ok(())
    }

    fn reconfig(&mut self, ctx: &mut C, arg: &Arg) -> Result<(), Halt> {
        ctx.lane_detach(self.lane, Side::Rx)?;
        let lane = lane_in(ctx, arg);
        self.lane = lane;
        Ok(())
    }

    fn stop(&mut self, ctx: &mut C) -> Result<(), Halt> {
        ctx.lane_detach(self.lane, Side::Rx)
    }

    ghost stays = { λ app t s stays h. HasEnd-stays app.row app.lane Rx t s stays h };

    ghost keeps = { λ app u v t s stays same. refl };
}
