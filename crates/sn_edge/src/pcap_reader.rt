//! The class PcapReader: reads a capture, and sends its records.
ghost use Rattle.std.specs.Prelude.{◌≡◌, ◌<◌, length, IfOk, List, Option};
ghost use Rattle.sn_app.specs.Apps.{most_pulled, name_in, read_one, starts};
ghost use Rattle.sn_app.specs.Calls.{row_of};
ghost use Rattle.sn_app.specs.Desk.{capture_at, roster_of};
ghost use Rattle.sn_app.specs.Loops.{Did, IsReady};
ghost use Rattle.sn_app.specs.Ports.{out_row, outs_of};
ghost use Rattle.sn_app.specs.Reader.{stepping};
ghost use Rattle.sn_app.specs.Runs.{Runs};
ghost use Rattle.sn_app.specs.Starts.{ArgIsThere};
ghost use Rattle.sn_app.specs.World.{nowhere, world};
ghost use Rattle.sn_config.specs.ArgText.{IsArgOf};
ghost use Rattle.sn_edge.specs.Needs.{CanRead, CanRead-stays, HasRow, reader_at, reader_at-stays};
ghost use Rattle.sn_edge.specs.Shown.{shown_as};
ghost use Rattle.sn_edge.specs.Unread.{bytes_in, unread_at};
ghost use Rattle.sn_link.specs.Link.{Line};
ghost use Rattle.sn_names.specs.declared.class.Class.{Class};
ghost use Rattle.sn_pcap.specs.Places.{IsPlace, payloads_at};

use sn_app::{App, Counter, Ctx, Halt, Ports, linked_output, send};
use sn_names::{Arg, Class};
use sn_pcap::Capture;

/// The most records of one pull, as Snabb's burst.
const MOST_PULLED: u32 = 102;

/// The record at a place of a capture. Whether the pull goes on, and where the first record stands that isn't passed.
fn read_next<C: Ctx>(
    row: u32,
    capture: u32,
    at: u64,
    ctx: &mut C,
    ports: &mut Ports<'_>,
    o: usize,
) -> Result<(bool, u64), Halt>
    requires ready { IsReady row (C.tray ctx.old) (C.used ctx.old) ports.old }
    requires capture { capture < length (roster_of (C.tray ctx.old)).captures }
    requires place { IsPlace (capture_at capture (C.tray ctx.old)) at }
    requires o { o < length (outs_of ports.old) }
    ensures did { Did (read_one row (out_row ports.old o) (payloads_at (capture_at capture (C.tray ctx.old)) at))
        (C.tray ctx.old) (C.tray ctx.new) (C.used ctx.old) (C.used ctx.new) ports.old ports.new
        (shown_as (λ step. (step.0, payloads_at (capture_at capture (C.tray ctx.old)) step.1)) result) }
    ensures place { IfOk result (λ step. IsPlace (capture_at capture (C.tray ctx.old)) step.1) }
    ensures lent { C.lender ctx.new ≡ C.lender ctx.old }
{
    let Some(found) = ctx.record(capture, at) else {
        return Ok((false, at));
    };
    if found.oversize {
        ctx.count(row, Counter::Oversize, 1);
        return Ok((true, found.next));
    }
    let Some(place) = ctx.allocate()? else {
        ctx.count(row, Counter::Dry, 1);
        return Ok((false, at));
    };
    ctx.load(place, capture, found);
    send(ctx, ports, o, place);
    ctx.count(row, Counter::Packets, 1);
    Ok((true, found.next))
}

/// As many records as one pull has, from a place of a capture on. Where the first record stands that isn't passed.
fn read_some<C: Ctx>(
    row: u32,
    capture: u32,
    at: u64,
    ctx: &mut C,
    ports: &mut Ports<'_>,
    o: usize,
) -> Result<u64, Halt>
    requires ready { IsReady row (C.tray ctx.old) (C.used ctx.old) ports.old }
    requires capture { capture < length (roster_of (C.tray ctx.old)).captures }
    requires place { IsPlace (capture_at capture (C.tray ctx.old)) at }
    requires o { o < length (outs_of ports.old) }
    ensures did { Did (stepping most_pulled (read_one row (out_row ports.old o))
        (payloads_at (capture_at capture (C.tray ctx.old)) at))
        (C.tray ctx.old) (C.tray ctx.new) (C.used ctx.old) (C.used ctx.new) ports.old ports.new
        (shown_as (payloads_at (capture_at capture (C.tray ctx.old))) result) }
    ensures place { IfOk result (IsPlace (capture_at capture (C.tray ctx.old))) }
    ensures lent { C.lender ctx.new ≡ C.lender ctx.old }
{
    let mut now = at;
    for _turn in 0..MOST_PULLED {
        let (on, next) = read_next(row, capture, now, ctx, ports, o)?;
        now = next;
        if !on {
            return Ok(now);
        }
    }
    Ok(now)
}

/// How many records stand from a place on.
fn count_from(capture: &Capture, start: u64) -> u64
    requires { IsPlace capture.now start }
    ensures { result ≡ length (payloads_at capture.now start) }
{
    let mut at = start;
    let mut count = 0;
    while let Some(found) = capture.record(at) {
        at = found.next;
        count += 1;
    }
    count
}

/// Sends the records of a capture, one after the other.
#[derive(Debug, Drop)]
pub struct PcapReader {
    row: u32,
    capture: u32,
    at: u64,
}

/// The row of the capture that an argument names.
fn capture_in<C: Ctx>(ctx: &C, arg: &Arg) -> u32
    requires arg { IsArgOf Class.PcapReader arg.now }
    requires there { ArgIsThere Class.PcapReader arg.now (C.tray ctx.now) }
    ensures { result ≡ row_of (roster_of (C.tray ctx.now)).captures (name_in arg.now) }
{
    match arg {
        Arg::File(name) => ctx.capture_of(name),
        _ => unreachable!(),
    }
}

impl PcapReader {
    /// A reader at a row of the roster, which begins the argument's capture.
    ///
    /// # Errors
    /// None.
    pub fn start<C: Ctx>(ctx: &mut C, row: u32, arg: &Arg) -> Result<PcapReader, Halt>
        requires row { HasRow row (C.tray ctx.old) }
        requires arg { IsArgOf Class.PcapReader arg.now }
        requires there { ArgIsThere Class.PcapReader arg.now (C.tray ctx.old) }
        ensures runs { (slots : List (Option Line))
            → Runs (starts Class.PcapReader arg.now row)
            (world (C.tray ctx.old) (C.used ctx.old) slots) (world (C.tray ctx.new) (C.used ctx.new) slots)
            nowhere nowhere (shown_as (λ app. reader_at app.row app.capture app.at (C.tray ctx.new)) result) }
        ensures ready { IfOk result (λ app. CanRead app.row app.capture app.at (C.tray ctx.new)) }
        ensures same { ctx.new ≡ ctx.old }
    {
        let capture = capture_in(ctx, arg);
        let at = ctx.first(capture);
        Ok(PcapReader { row, capture, at })
    }

    /// How many records of its capture it hasn't passed, those that are too long among them. The captures are the roster's, in
    /// its order.
    pub fn unread(&self, captures: &[Capture]) -> u64
        requires { IsPlace (bytes_in self.now.capture captures.now) self.now.at }
        ensures { result ≡ unread_at self.now.capture self.now.at captures.now }
    {
        match captures.get(self.capture as usize) {
            Some(capture) => count_from(capture, self.at),
            None => 0,
        }
    }
}

impl<C: Ctx> App<C> for PcapReader {
    ghost class = { Class.PcapReader };

    ghost can_run = { λ app t. CanRead app.row app.capture app.at t };

    ghost places = { λ app place. 0 };

    ghost state = { λ app u t. reader_at app.row app.capture app.at t };

    fn pull(&mut self, ctx: &mut C, ports: &mut Ports<'_>) -> Result<(), Halt> {
        let Some(o) = linked_output(ports) else {
            return Ok(());
        };
        let at = read_some(self.row, self.capture, self.at, ctx, ports, o)?;
        self.at = at;
        Ok(())
    }

    fn push(&mut self, _ctx: &mut C, _ports: &mut Ports<'_>) -> Result<(), Halt> {
        Ok(())
    }

    fn reconfig(&mut self, ctx: &mut C, arg: &Arg) -> Result<(), Halt> {
        let capture = capture_in(ctx, arg);
        let at = ctx.first(capture);
        self.capture = capture;
        self.at = at;
        Ok(())
    }

    fn stop(&mut self, _ctx: &mut C) -> Result<(), Halt> {
        Ok(())
    }

    ghost stays = { λ app t s stays h. CanRead-stays app.row app.capture app.at t s stays h };

    ghost keeps = { λ app u v t s stays same. reader_at-stays app.row app.capture app.at t s stays };
}
