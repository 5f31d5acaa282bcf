//! The class Transmitter: puts the packets of its input into an interlink.
ghost use Rattle.std.specs.Prelude.{◌≡◌, ◌+◌, ◌<◌, ◌≤◌, [], ◌∷◌, length};
ghost use Rattle.std.specs.Prelude.{IfOk, IsSome, IsTrue, List, OnOk, Option, refl, true};
ghost use Rattle.sn_app.specs.Apps.{name_in, next_of, put_packet, starts, transmit_where, transmitter, transmitter_push};
ghost use Rattle.sn_app.specs.Calls.{IsUp, known_at, row_of};
ghost use Rattle.sn_app.specs.Desk.{roster_of};
ghost use Rattle.sn_app.specs.Loops.{Did, IsReady};
ghost use Rattle.sn_app.specs.Ports.{in_row, ins_of};
ghost use Rattle.sn_app.specs.Reader.{times};
ghost use Rattle.sn_app.specs.Runs.{Runs, stands_at};
ghost use Rattle.sn_app.specs.Starts.{ArgIsThere};
ghost use Rattle.sn_app.specs.World.{IsSound, nowhere, packet_at, world};
ghost use Rattle.sn_config.specs.ArgText.{IsArgOf};
ghost use Rattle.sn_core.specs.declared.events.Side.TheVariants.{Tx};
ghost use Rattle.sn_edge.specs.Needs.{HasEnd, HasEnd-stays, HasRow};
ghost use Rattle.sn_edge.specs.Shown.{shown_as};
ghost use Rattle.sn_link.specs.Link.{Line};
ghost use Rattle.sn_names.specs.declared.class.Class.{Class};
ghost use Rattle.sn_packet.specs.Hold.{among};

use crate::lesser::lesser_of;
use sn_app::{App, Counter, Ctx, Halt, Ports, Side, linked_input, take};
use sn_names::{Arg, Class};

/// Puts the packet at a place, and counts it. A packet at the highest turn is freed and counted as dropped.
fn put_one<C: Ctx>(row: u32, lane: u32, ctx: &mut C, place: u32) -> Result<(), Halt>
    requires row { HasRow row (C.tray ctx.old) }
    requires end { IsTrue ((C.tray ctx.old).log.constants.has_end lane Tx) }
    requires up { IsUp lane Tx (C.tray ctx.old) }
    requires known { 0 < known_at lane Tx (C.tray ctx.old) }
    requires place { IsSome (C.used ctx.old place) }
    ensures runs { (slots : List (Option Line))
        → IsSound (world (C.tray ctx.old) (C.used ctx.old) slots) (among (place ∷ []))
        → Runs (put_packet row lane (packet_at (C.used ctx.old) place))
        (world (C.tray ctx.old) (C.used ctx.old) slots) (world (C.tray ctx.new) (C.used ctx.new) slots)
        (among (place ∷ [])) nowhere (stands_at true result) }
    ensures up { OnOk result (IsUp lane Tx (C.tray ctx.new)) }
    ensures known { OnOk result (known_at lane Tx (C.tray ctx.old) ≤ known_at lane Tx (C.tray ctx.new) + 1) }
    ensures lent { C.lender ctx.new ≡ C.lender ctx.old }
{
    if ctx.worn(place) {
        ctx.free(place);
        ctx.count(row, Counter::Dropped, 1);
        return Ok(());
    }
    ctx.lane_put(lane, place)?;
    ctx.count(row, Counter::Packets, 1);
    Ok(())
}

/// The next packet of an input. False where it has none.
fn put_next<C: Ctx>(
    row: u32,
    lane: u32,
    ctx: &mut C,
    ports: &mut Ports<'_>,
    i: usize,
) -> Result<bool, Halt>
    requires ready { IsReady row (C.tray ctx.old) (C.used ctx.old) ports.old }
    requires end { IsTrue ((C.tray ctx.old).log.constants.has_end lane Tx) }
    requires up { IsUp lane Tx (C.tray ctx.old) }
    requires known { 0 < known_at lane Tx (C.tray ctx.old) }
    requires i { i < length (ins_of ports.old) }
    ensures did { Did (next_of (in_row ports.old i) (put_packet row lane))
        (C.tray ctx.old) (C.tray ctx.new) (C.used ctx.old) (C.used ctx.new) ports.old ports.new result }
    ensures up { OnOk result (IsUp lane Tx (C.tray ctx.new)) }
    ensures known { OnOk result (known_at lane Tx (C.tray ctx.old) ≤ known_at lane Tx (C.tray ctx.new) + 1) }
    ensures lent { C.lender ctx.new ≡ C.lender ctx.old }
{
    let Some(place) = take(ctx, ports, i) else {
        return Ok(false);
    };
    put_one(row, lane, ctx, place)?;
    Ok(true)
}

/// So many packets of an input, for which there is room. False where it has fewer.
fn put_some<C: Ctx>(
    row: u32,
    lane: u32,
    ctx: &mut C,
    ports: &mut Ports<'_>,
    i: usize,
    count: u32,
) -> Result<bool, Halt>
    requires ready { IsReady row (C.tray ctx.old) (C.used ctx.old) ports.old }
    requires end { IsTrue ((C.tray ctx.old).log.constants.has_end lane Tx) }
    requires up { IsUp lane Tx (C.tray ctx.old) }
    requires known { count ≤ known_at lane Tx (C.tray ctx.old) }
    requires i { i < length (ins_of ports.old) }
    ensures did { Did (times count (next_of (in_row ports.old i) (put_packet row lane)))
        (C.tray ctx.old) (C.tray ctx.new) (C.used ctx.old) (C.used ctx.new) ports.old ports.new result }
    ensures lent { C.lender ctx.new ≡ C.lender ctx.old }
{
    for _turn in 0..count {
        if !put_next(row, lane, ctx, ports, i)? {
            return Ok(false);
        }
    }
    Ok(true)
}

/// As many packets as an input has and an end that is up has room for. With none there it asks for no room.
fn put_readable<C: Ctx>(
    row: u32,
    lane: u32,
    ctx: &mut C,
    ports: &mut Ports<'_>,
    i: usize,
) -> Result<bool, Halt>
    requires ready { IsReady row (C.tray ctx.old) (C.used ctx.old) ports.old }
    requires end { IsTrue ((C.tray ctx.old).log.constants.has_end lane Tx) }
    requires up { IsUp lane Tx (C.tray ctx.old) }
    requires i { i < length (ins_of ports.old) }
    ensures did { Did (transmit_where row lane (in_row ports.old i) true)
        (C.tray ctx.old) (C.tray ctx.new) (C.used ctx.old) (C.used ctx.new) ports.old ports.new result }
    ensures lent { C.lender ctx.new ≡ C.lender ctx.old }
{
    let readable = ports.readable(i);
    if readable == 0 {
        return Ok(true);
    }
    let room = ctx.lane_room(lane)?;
    let count = lesser_of(readable, room);
    put_some(row, lane, ctx, ports, i, count)
}

/// Brings the end up where it isn't, and puts what it has room for. False where it didn't come up.
fn put_all<C: Ctx>(
    row: u32,
    lane: u32,
    ctx: &mut C,
    ports: &mut Ports<'_>,
    i: usize,
) -> Result<bool, Halt>
    requires ready { IsReady row (C.tray ctx.old) (C.used ctx.old) ports.old }
    requires end { IsTrue ((C.tray ctx.old).log.constants.has_end lane Tx) }
    requires i { i < length (ins_of ports.old) }
    ensures did { Did (transmitter_push row lane (in_row ports.old i))
        (C.tray ctx.old) (C.tray ctx.new) (C.used ctx.old) (C.used ctx.new) ports.old ports.new result }
    ensures lent { C.lender ctx.new ≡ C.lender ctx.old }
{
    if !ctx.lane_attach(lane, Side::Tx)? {
        return Ok(false);
    }
    put_readable(row, lane, ctx, ports, i)
}

/// Puts the packets of its input into an interlink.
#[derive(Debug, Drop)]
pub struct Transmitter {
    row: u32,
    lane: u32,
}

/// The row of the interlink that an argument names.
fn lane_in<C: Ctx>(ctx: &C, arg: &Arg) -> u32
    requires arg { IsArgOf Class.Transmitter arg.now }
    requires there { ArgIsThere Class.Transmitter arg.now (C.tray ctx.now) }
    ensures { result ≡ row_of (roster_of (C.tray ctx.now)).lanes (name_in arg.now) }
{
    match arg {
        Arg::Lane(name) => ctx.lane_of(name),
        _ => unreachable!(),
    }
}

impl Transmitter {
    /// A transmitter at a row of the roster, of the argument's interlink. Its end comes up at the first push.
    ///
    /// # Errors
    /// None.
    pub fn start<C: Ctx>(ctx: &mut C, row: u32, arg: &Arg) -> Result<Transmitter, Halt>
        requires row { HasRow row (C.tray ctx.old) }
        requires arg { IsArgOf Class.Transmitter arg.now }
        requires there { ArgIsThere Class.Transmitter arg.now (C.tray ctx.old) }
        ensures runs { (slots : List (Option Line))
            → Runs (starts Class.Transmitter arg.now row)
            (world (C.tray ctx.old) (C.used ctx.old) slots) (world (C.tray ctx.new) (C.used ctx.new) slots)
            nowhere nowhere (shown_as (λ app. transmitter app.row app.lane) result) }
        ensures ready { IfOk result (λ app. HasEnd app.row app.lane Tx (C.tray ctx.new)) }
        ensures same { ctx.new ≡ ctx.old }
    {
        let lane = lane_in(ctx, arg);
        Ok(Transmitter { row, lane })
    }
}

impl<C: Ctx> App<C> for Transmitter {
    ghost class = { Class.Transmitter };

    ghost can_run = { λ app t. HasEnd app.row app.lane Tx t };

    ghost places = { λ app place. 0 };

    ghost state = { λ app u t. transmitter app.row app.lane };

    fn pull(&mut self, _ctx: &mut C, _ports: &mut Ports<'_>) -> Result<(), Halt> {
        Ok(())
    }

    fn push(&mut self, ctx: &mut C, ports: &mut Ports<'_>) -> Result<(), Halt> {
        let Some(i) = linked_input(ports) else {
            return Ok(());
        };
        put_all(self.row, self.lane, ctx, ports, i)?;
        Ok(())
    }

    fn reconfig(&mut self, ctx: &mut C, arg: &Arg) -> Result<(), Halt> {
        ctx.lane_detach(self.lane, Side::Tx)?;
        let lane = lane_in(ctx, arg);
        self.lane = lane;
        Ok(())
    }

    fn stop(&mut self, ctx: &mut C) -> Result<(), Halt> {
        ctx.lane_detach(self.lane, Side::Tx)
    }

    ghost stays = { λ app t s stays h. HasEnd-stays app.row app.lane Tx t s stays h };

    ghost keeps = { λ app u v t s stays same. refl };
}
