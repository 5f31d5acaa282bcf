//! The class Tee: sends a copy of each packet to every output.
ghost use Rattle.std.specs.Prelude.{◌≡◌, ◌+◌, ◌-◌, ◌<◌, ◌≤◌, Bool, [], ◌∷◌, length, vec_capacity, IfOk, IsOk, Ok, refl, true};
ghost use Rattle.sn_app.specs.Apps.{least_room as least_room_of, tee, tee_input, tee_inputs};
ghost use Rattle.sn_app.specs.Apps.{tee_one, tee_push, tee_sends};
ghost use Rattle.sn_app.specs.Hands.{DidWith, Names, names_at};
ghost use Rattle.sn_app.specs.Loops.{Did, IsReady};
ghost use Rattle.sn_app.specs.Ports.{HasOutputs, in_line, in_ports, in_row, ins_of, out_ports, outs_of, slots_of};
ghost use Rattle.sn_app.specs.Reader.{Meaning};
ghost use Rattle.sn_app.specs.World.{IsSound, Used, desk_of, nowhere, packet_at, world};
ghost use Rattle.sn_app.specs.Desk.{Tray};
ghost use Rattle.sn_basic.specs.Copies.{Gathered};
ghost use Rattle.sn_basic.specs.Counts.{HasRow, HasRow-stays};
ghost use Rattle.sn_config.specs.ArgText.{IsArgOf};
ghost use Rattle.sn_names.specs.declared.class.Class.{Class};
ghost use Rattle.sn_packet.specs.Hold.{among};

use crate::freeing::free_all;
use crate::moving::lesser;
use sn_app::{App, Counter, Ctx, Halt, Ports, send, take};
use sn_names::{Arg, Class};
use std::alloc::Global;

/// The most packets of a link.
const MOST_QUEUED: u32 = 1023;

/// A free packet for each output but the last. Where one doesn't come, those that did are freed, and the push ends: false.
fn gather<C: Ctx>(
    app: u32,
    ctx: &mut C,
    ports: &Ports<'_>,
    copies: &mut Vec<u32>,
) -> Result<bool, Halt>
    requires ready { IsReady app (C.tray ctx.old) (C.used ctx.old) ports.now }
    requires some { 0 < length (outs_of ports.now) }
    requires room { length (outs_of ports.now) ≤ vec_capacity copies.old }
    ensures gathered { (next : Names → Meaning Bool)
        → Gathered (length (out_ports ports.now) - 1) app next (world (C.tray ctx.old) (C.used ctx.old) (slots_of ports.now))
        (world (C.tray ctx.new) (C.used ctx.new) (slots_of ports.now)) copies.new.items result }
    ensures count { result ≡ Ok true → length copies.new.items + 1 ≡ length (outs_of ports.now) }
    ensures room { vec_capacity copies.new ≡ vec_capacity copies.old }
    ensures lent { C.lender ctx.new ≡ C.lender ctx.old }
{
    copies.clear();
    for _turn in 1..ports.outs() {
        let Some(place) = ctx.allocate()? else {
            free_all(ctx, copies.as_slice());
            ctx.count(app, Counter::Dry, 1);
            return Ok(false);
        };
        copies.push_reserved(place);
    }
    Ok(true)
}

/// A copy of the packet at a place for each output but the last, and the packet itself for the last.
fn send_copies<C: Ctx>(ctx: &mut C, ports: &mut Ports<'_>, copies: &[u32], place: u32)
    requires links { HasOutputs ports.old }
    requires count { length copies.now + 1 ≡ length (outs_of ports.old) }
    requires sound { IsSound (world (C.tray ctx.old) (C.used ctx.old) (slots_of ports.old)) (among (place ∷ copies.now)) }
    ensures did { DidWith (place ∷ copies.now) []
        (tee_sends (names_at (C.used ctx.old) copies.now) (packet_at (C.used ctx.old) place) (out_ports ports.old))
        (C.tray ctx.old) (C.tray ctx.new) (C.used ctx.old) (C.used ctx.new) ports.old ports.new (Ok true) }
    ensures lent { C.lender ctx.new ≡ C.lender ctx.old }
{
    for o in 0..copies.len() {
        let copy = copies[o];
        ctx.copy(place, copy);
        send(ctx, ports, o, copy);
    }
    send(ctx, ports, copies.len(), place);
}

/// The next packet of an input goes to every output. False where the push ends for want of a free packet.
fn copy_one<C: Ctx>(
    app: u32,
    ctx: &mut C,
    ports: &mut Ports<'_>,
    i: usize,
    copies: &mut Vec<u32>,
) -> Result<bool, Halt>
    requires ready { IsReady app (C.tray ctx.old) (C.used ctx.old) ports.old }
    requires i { i < length (ins_of ports.old) }
    requires next { 0 < length (in_line ports.old i).queued }
    requires some { 0 < length (outs_of ports.old) }
    requires room { length (outs_of ports.old) ≤ vec_capacity copies.old }
    ensures did { Did (tee_one app (in_row ports.old i) (out_ports ports.old))
        (C.tray ctx.old) (C.tray ctx.new) (C.used ctx.old) (C.used ctx.new) ports.old ports.new result }
    ensures room { vec_capacity copies.new ≡ vec_capacity copies.old }
    ensures lent { C.lender ctx.new ≡ C.lender ctx.old }
{
    if !gather(app, ctx, ports, copies)? {
        return Ok(false);
    }
    let Some(place) = take(ctx, ports, i) else {
        unreachable!()
    };
    send_copies(ctx, ports, copies.as_slice(), place);
    ctx.count(app, Counter::Packets, 1);
    Ok(true)
}

/// The packets of an input, as long as there is room. Whether the push goes on, and the room that is left.
fn copy_input<C: Ctx>(
    app: u32,
    ctx: &mut C,
    ports: &mut Ports<'_>,
    i: usize,
    room: u32,
    copies: &mut Vec<u32>,
) -> Result<(bool, u32), Halt>
    requires ready { IsReady app (C.tray ctx.old) (C.used ctx.old) ports.old }
    requires i { i < length (ins_of ports.old) }
    requires some { 0 < length (outs_of ports.old) }
    requires room { length (outs_of ports.old) ≤ vec_capacity copies.old }
    ensures did { Did (tee_input app (out_ports ports.old) (in_row ports.old i) room)
        (C.tray ctx.old) (C.tray ctx.new) (C.used ctx.old) (C.used ctx.new) ports.old ports.new result }
    ensures room { vec_capacity copies.new ≡ vec_capacity copies.old }
    ensures lent { C.lender ctx.new ≡ C.lender ctx.old }
{
    for turn in 0..room {
        if ports.readable(i) == 0 {
            return Ok((true, room - turn));
        }
        if !copy_one(app, ctx, ports, i, copies)? {
            return Ok((false, room - turn));
        }
    }
    Ok((true, 0))
}

/// Each input in turn, with the room that the ones before it left. False where the push ended early.
fn copy_inputs<C: Ctx>(
    app: u32,
    ctx: &mut C,
    ports: &mut Ports<'_>,
    room: u32,
    copies: &mut Vec<u32>,
) -> Result<bool, Halt>
    requires ready { IsReady app (C.tray ctx.old) (C.used ctx.old) ports.old }
    requires some { 0 < length (outs_of ports.old) }
    requires room { length (outs_of ports.old) ≤ vec_capacity copies.old }
    ensures did { Did (tee_inputs app (out_ports ports.old) (in_ports ports.old) room)
        (C.tray ctx.old) (C.tray ctx.new) (C.used ctx.old) (C.used ctx.new) ports.old ports.new result }
    ensures lent { C.lender ctx.new ≡ C.lender ctx.old }
{
    let mut left = room;
    for i in 0..ports.ins() {
        let (on, rest) = copy_input(app, ctx, ports, i, left, copies)?;
        if !on {
            return Ok(false);
        }
        left = rest;
    }
    Ok(true)
}

/// The least room of all outputs.
fn least_room(ports: &Ports<'_>) -> u32
    requires links { HasOutputs ports.now }
    ensures { (t : Tray) (u : Used) → IsSound (world t u (slots_of ports.now)) nowhere
        → least_room_of (out_ports ports.now) (desk_of (world t u (slots_of ports.now))) ≡ result }
{
    let mut least = MOST_QUEUED;
    for o in 0..ports.outs() {
        least = lesser(ports.room(o), least);
    }
    least
}

/// All inputs, where there is an output. Room for the places of one packet's copies is made first.
fn copy_all<C: Ctx>(
    app: u32,
    ctx: &mut C,
    ports: &mut Ports<'_>,
    copies: &mut Vec<u32>,
) -> Result<bool, Halt>
    requires ready { IsReady app (C.tray ctx.old) (C.used ctx.old) ports.old }
    ensures did { Did (tee_push app (in_ports ports.old) (out_ports ports.old))
        (C.tray ctx.old) (C.tray ctx.new) (C.used ctx.old) (C.used ctx.new) ports.old ports.new result }
    ensures lent { C.lender ctx.new ≡ C.lender ctx.old }
{
    if ports.outs() == 0 {
        return Ok(true);
    }
    copies.clear();
    copies.reserve(ports.outs())?;
    let room = least_room(ports);
    copy_inputs(app, ctx, ports, room, copies)
}

/// Sends a copy of each packet to every output, as long as all of them have room.
#[derive(Debug, Drop)]
pub struct Tee {
    row: u32,
    /// Where the copies of the packet lie that is sent now.
    copies: Vec<u32>,
}

impl Tee {
    /// A tee at a row of the roster. It takes no argument.
    ///
    /// # Errors
    /// None.
    pub fn start<C: Ctx>(alloc: Global, ctx: &mut C, row: u32, _arg: &Arg) -> Result<Tee, Halt>
        requires row { HasRow row (C.tray ctx.old) }
        requires arg { IsArgOf Class.Tee _arg.now }
        ensures ok { IsOk result }
        ensures started { IfOk result (λ app. app.row ≡ row) }
        ensures same { ctx.new ≡ ctx.old }
    {
        Ok(Tee {
            row,
            copies: Vec::new(alloc),
        })
    }
}

impl<C: Ctx> App<C> for Tee {
    ghost class = { Class.Tee };

    ghost can_run = { λ app t. HasRow app.row t };

    ghost places = { λ app place. 0 };

    ghost state = { λ app u t. tee app.row };

    fn pull(&mut self, _ctx: &mut C, _ports: &mut Ports<'_>) -> Result<(), Halt> {
        Ok(())
    }

    fn push(&mut self, ctx: &mut C, ports: &mut Ports<'_>) -> Result<(), Halt> {
        copy_all(self.row, ctx, ports, &mut self.copies)?;
        Ok(())
    }

    fn reconfig(&mut self, _ctx: &mut C, _arg: &Arg) -> Result<(), Halt> {
        Ok(())
    }

    fn stop(&mut self, _ctx: &mut C) -> Result<(), Halt> {
        Ok(())
    }

    ghost stays = { λ app t s stays h. HasRow-stays app.row t s stays h };

    ghost keeps = { λ app u v t s stays same. refl };
}
