//! The class Repeater: keeps packets, and sends copies of them in turn.
ghost use Rattle.std.specs.Prelude.{◌≡◌, ◌+◌, ◌<◌, ◌≤◌, [], length, vec_capacity, IfOk, IsOk, Ok};
ghost use Rattle.sn_app.specs.Apps.{keep_one, keep_some as keep_some_of, next_kept, repeater};
ghost use Rattle.sn_app.specs.Apps.{repeat_one as repeat_one_of, repeat_some as repeat_some_of};
ghost use Rattle.sn_app.specs.Hands.{DidWith, packets_at};
ghost use Rattle.sn_app.specs.Loops.{Did, IsReady};
ghost use Rattle.sn_app.specs.Ports.{HasInputs, in_row, ins_of, out_row, outs_of, slots_of};
ghost use Rattle.sn_app.specs.Reader.{stepping};
ghost use Rattle.sn_app.specs.Runs.{stands_at};
ghost use Rattle.sn_app.specs.World.{IsSound, Used, world};
ghost use Rattle.sn_basic.specs.Counts.{HasRow, HasRow-stays};
ghost use Rattle.sn_basic.specs.Kept.{IsNext, repeater_stays};
ghost use Rattle.sn_config.specs.ArgText.{IsArgOf};
ghost use Rattle.sn_names.specs.declared.class.Class.{Class};
ghost use Rattle.sn_packet.specs.Hold.{among};

use crate::freeing::free_all;
use crate::moving::lesser;
use sn_app::{App, Counter, Ctx, Halt, Ports, linked_input, linked_output, send, take};
use sn_names::{Arg, Class};
use std::alloc::Global;

/// The most packets that are kept.
const MOST_KEPT: u32 = 1023;

/// Takes so many packets of an input, each kept behind the others, as long as it has one.
fn take_some<C: Ctx>(ctx: &C, ports: &mut Ports<'_>, i: usize, count: u32, kept: &mut Vec<u32>)
    requires i { i < length (ins_of ports.old) }
    requires links { HasInputs ports.old }
    requires room { length kept.old.items + count ≤ vec_capacity kept.old }
    requires sound { IsSound (world (C.tray ctx.now) (C.used ctx.now) (slots_of ports.old)) (among kept.old.items) }
    ensures did { DidWith kept.old.items kept.new.items
        (stepping count (keep_one (in_row ports.old i)) (packets_at (C.used ctx.now) kept.old.items))
        (C.tray ctx.now) (C.tray ctx.now) (C.used ctx.now) (C.used ctx.now) ports.old ports.new
        (Ok (packets_at (C.used ctx.now) kept.new.items)) }
    ensures most { length kept.new.items ≤ length kept.old.items + count }
    ensures more { length kept.old.items ≤ length kept.new.items }
{
    for _turn in 0..count {
        let Some(place) = take(ctx, ports, i) else {
            return;
        };
        kept.push_reserved(place);
    }
}

/// Takes what an input has, while fewer than 1,023 packets are kept. Room for their places is made first.
fn keep_some<C: Ctx>(
    ctx: &C,
    ports: &mut Ports<'_>,
    i: usize,
    kept: &mut Vec<u32>,
) -> Result<(), Halt>
    requires i { i < length (ins_of ports.old) }
    requires links { HasInputs ports.old }
    requires most { length kept.old.items ≤ 1023 }
    requires sound { IsSound (world (C.tray ctx.now) (C.used ctx.now) (slots_of ports.old)) (among kept.old.items) }
    ensures did { DidWith kept.old.items kept.new.items
        (keep_some_of (in_row ports.old i) (packets_at (C.used ctx.now) kept.old.items))
        (C.tray ctx.now) (C.tray ctx.now) (C.used ctx.now) (C.used ctx.now) ports.old ports.new
        (stands_at (packets_at (C.used ctx.now) kept.new.items) result) }
    ensures most { length kept.new.items ≤ 1023 }
    ensures more { length kept.old.items ≤ length kept.new.items }
{
    let room = MOST_KEPT - kept.len() as u32;
    let count = lesser(ports.readable(i), room);
    kept.reserve(count as usize)?;
    take_some(ctx, ports, i, count, kept);
    Ok(())
}

/// The place behind this one among so many, or the first.
fn next_after(kept: usize, next: usize) -> usize
    requires { next < kept }
    ensures value { result ≡ next_kept kept next }
    ensures within { result < kept }
{
    if next + 1 < kept { next + 1 } else { 0 }
}

/// Sends a copy of the next one. Whether the push goes on, and which comes next then.
fn repeat_one<C: Ctx>(
    app: u32,
    ctx: &mut C,
    ports: &mut Ports<'_>,
    o: usize,
    kept: &[u32],
    next: usize,
) -> Result<(bool, usize), Halt>
    requires ready { IsReady app (C.tray ctx.old) (C.used ctx.old) ports.old }
    requires o { o < length (outs_of ports.old) }
    requires next { next < length kept.now }
    requires sound { IsSound (world (C.tray ctx.old) (C.used ctx.old) (slots_of ports.old)) (among kept.now) }
    ensures did { Did (repeat_one_of app (out_row ports.old o) (packets_at (C.used ctx.old) kept.now) next)
        (C.tray ctx.old) (C.tray ctx.new) (C.used ctx.old) (C.used ctx.new) ports.old ports.new result }
    ensures next { IfOk result (λ t. t.1 < length kept.now) }
    ensures lent { C.lender ctx.new ≡ C.lender ctx.old }
{
    let Some(copy) = ctx.allocate()? else {
        ctx.count(app, Counter::Dry, 1);
        return Ok((false, next));
    };
    ctx.copy(kept[next], copy);
    send(ctx, ports, o, copy);
    ctx.count(app, Counter::Packets, 1);
    Ok((true, next_after(kept.len(), next)))
}

/// So many copies in turn. Which one comes next then.
fn repeat_times<C: Ctx>(
    app: u32,
    ctx: &mut C,
    ports: &mut Ports<'_>,
    o: usize,
    kept: &[u32],
    next: usize,
    count: u32,
) -> Result<usize, Halt>
    requires ready { IsReady app (C.tray ctx.old) (C.used ctx.old) ports.old }
    requires o { o < length (outs_of ports.old) }
    requires next { next < length kept.now }
    requires sound { IsSound (world (C.tray ctx.old) (C.used ctx.old) (slots_of ports.old)) (among kept.now) }
    ensures did { Did (stepping count (repeat_one_of app (out_row ports.old o) (packets_at (C.used ctx.old) kept.now)) next)
        (C.tray ctx.old) (C.tray ctx.new) (C.used ctx.old) (C.used ctx.new) ports.old ports.new result }
    ensures next { IfOk result (λ later. later < length kept.now) }
    ensures lent { C.lender ctx.new ≡ C.lender ctx.old }
{
    let mut now = next;
    for _turn in 0..count {
        let (on, later) = repeat_one(app, ctx, ports, o, kept, now)?;
        now = later;
        if !on {
            return Ok(now);
        }
    }
    Ok(now)
}

/// Copies of what is kept in turn, as many as find room. Which one comes next then.
fn repeat_some<C: Ctx>(
    app: u32,
    ctx: &mut C,
    ports: &mut Ports<'_>,
    o: usize,
    kept: &[u32],
    next: usize,
) -> Result<usize, Halt>
    requires ready { IsReady app (C.tray ctx.old) (C.used ctx.old) ports.old }
    requires o { o < length (outs_of ports.old) }
    requires next { IsNext (length kept.now) next }
    requires sound { IsSound (world (C.tray ctx.old) (C.used ctx.old) (slots_of ports.old)) (among kept.now) }
    ensures did { Did (repeat_some_of app (out_row ports.old o) (packets_at (C.used ctx.old) kept.now) next)
        (C.tray ctx.old) (C.tray ctx.new) (C.used ctx.old) (C.used ctx.new) ports.old ports.new result }
    ensures next { IfOk result (IsNext (length kept.now)) }
    ensures lent { C.lender ctx.new ≡ C.lender ctx.old }
{
    if kept.is_empty() {
        return Ok(next);
    }
    let room = ports.room(o);
    repeat_times(app, ctx, ports, o, kept, next, room)
}

/// Keeps up to 1,023 packets, and sends copies of them in turn.
#[derive(Debug, Drop)]
pub struct Repeater {
    row: u32,
    /// Where the kept packets lie, the first kept first.
    kept: Vec<u32>,
    /// Which of them is copied next.
    next: usize,
    ghost most: { length kept.items ≤ 1023 },
    ghost next_within: { IsNext (length kept.items) next },
}

impl Repeater {
    /// A repeater at a row of the roster, which keeps nothing yet. It takes no argument.
    ///
    /// # Errors
    /// None.
    pub fn start<C: Ctx>(alloc: Global, ctx: &mut C, row: u32, _arg: &Arg) -> Result<Repeater, Halt>
        requires row { HasRow row (C.tray ctx.old) }
        requires arg { IsArgOf Class.Repeater _arg.now }
        ensures ok { IsOk result }
        ensures started { IfOk result (λ app. (used : Used)
            → repeater app.row (packets_at used app.kept.items) app.next ≡ repeater row [] 0) }
        ensures none { IfOk result (λ app. app.kept.items ≡ []) }
        ensures same { ctx.new ≡ ctx.old }
    {
        Ok(Repeater {
            row,
            kept: Vec::new(alloc),
            next: 0,
        })
    }
}

impl<C: Ctx> App<C> for Repeater {
    ghost class = { Class.Repeater };

    ghost can_run = { λ app t. HasRow app.row t };

    ghost places = { λ app place. among app.kept.items place };

    ghost state = { λ app u t. repeater app.row (packets_at u app.kept.items) app.next };

    fn pull(&mut self, _ctx: &mut C, _ports: &mut Ports<'_>) -> Result<(), Halt> {
        Ok(())
    }

    fn push(&mut self, ctx: &mut C, ports: &mut Ports<'_>) -> Result<(), Halt> {
        let Some(i) = linked_input(ports) else {
            return Ok(());
        };
        let Some(o) = linked_output(ports) else {
            return Ok(());
        };
        keep_some(ctx, ports, i, &mut self.kept)?;
        let next = repeat_some(self.row, ctx, ports, o, self.kept.as_slice(), self.next)?;
        self.next = next;
        Ok(())
    }

    fn reconfig(&mut self, _ctx: &mut C, _arg: &Arg) -> Result<(), Halt> {
        Ok(())
    }

    fn stop(&mut self, ctx: &mut C) -> Result<(), Halt> {
        free_all(ctx, self.kept.as_slice());
        self.kept.clear();
        self.next = 0;
        Ok(())
    }

    ghost stays = { λ app t s stays h. HasRow-stays app.row t s stays h };

    ghost keeps = { λ app u v t s stays same. repeater_stays app.row app.next app.kept.items u v same };
}
