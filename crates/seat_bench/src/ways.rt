//! What the program times: packets from a seat to another, batch by batch.
ghost use Rattle.std.specs.Prelude.{◌≡◌, ◌≤◌, IfOk, length};
ghost use Rattle.sn_core.specs.declared.events.Side.TheVariants.{Rx, Tx};
ghost use Rattle.sn_seat.specs.Lives.{live_tray};
ghost use Rattle.seat_rig.specs.Workers.{HasNames};
ghost use Rattle.seat_bench.specs.Lines.{CanReceive, CanSend};

use crate::sides::{give_back, receive_round, send_round};
use crate::wire::new_wire;
use seat_rig::{Opened, open_two, packets_of};
use sn_app::Ctx;
use sn_basic::{Sink, Source};
use sn_edge::{Receiver, Transmitter};
use sn_journal::{Entry, Journal, Payload};
use sn_names::{Arg, Name};
use sn_outside::NoGate;
use sn_seat::Live;
use std::alloc::{AllocError, Global};
use std::test::Fail;

/// How many packets the pool has.
const POOL: u32 = 1024;

/// How many packets a Source makes in a pull, and a Receiver takes.
const BURST: u32 = 102;

/// The sending worker's apps.
fn start_sending<C: Ctx>(
    alloc: Global,
    ctx: &mut C,
    size: u32,
) -> Result<(Source, Transmitter), Fail>
    requires names { HasNames Tx (C.tray ctx.old) }
    requires size { size ≤ 10240 }
    ensures ready { IfOk result (λ apps. CanSend apps.0 apps.1 (C.tray ctx.new)) }
    ensures same { ctx.new ≡ ctx.old }
{
    let lane = Arg::Lane(Name::parse(alloc, b"x")?);
    let source = Source::start(ctx, 0, &Arg::Number(u64::from(size)))?;
    let transmitter = Transmitter::start(ctx, 1, &lane)?;
    Ok((source, transmitter))
}

/// The receiving worker's apps.
fn start_receiving<C: Ctx>(alloc: Global, ctx: &mut C) -> Result<(Receiver, Sink), Fail>
    requires names { HasNames Rx (C.tray ctx.old) }
    ensures ready { IfOk result (λ apps. CanReceive apps.0 apps.1 (C.tray ctx.new)) }
    ensures same { ctx.new ≡ ctx.old }
{
    let lane = Arg::Lane(Name::parse(alloc, b"x")?);
    let receiver = Receiver::start(ctx, 0, &lane)?;
    let sink = Sink::start(ctx, 1, &Arg::Nothing)?;
    Ok((receiver, sink))
}

/// So many rounds of both workers.
fn go(
    alloc: Global,
    mine: &mut Live<'_, NoGate>,
    other: &mut Live<'_, NoGate>,
    size: u32,
    rounds: u32,
) -> Result<(), Fail>
    requires mine { HasNames Tx (live_tray mine.old) }
    requires other { HasNames Rx (live_tray other.old) }
    requires size { size ≤ 10240 }
    ensures lent { mine.new.seat.ghost_name ≡ mine.old.seat.ghost_name }
    ensures other_lent { other.new.seat.ghost_name ≡ other.old.seat.ghost_name }
{
    let (mut source, mut transmitter) = start_sending(alloc, mine, size)?;
    let (mut receiver, mut sink) = start_receiving(alloc, other)?;
    let mut sent = new_wire(alloc)?;
    let mut came = new_wire(alloc)?;
    for _round in 0..rounds {
        send_round(mine, &mut source, &mut transmitter, &mut sent)?;
        receive_round(other, &mut receiver, &mut sink, &mut came)?;
        give_back(other, BURST)?;
    }
    Ok(())
}

/// How many packets were taken, as a journal tells.
fn taken(journal: &Journal) -> u64 {
    let mut packets: u64 = 0;
    for entry in journal.entries() {
        match entry {
            Entry::Take(_, _, _, _, _) => packets = packets.saturating_add(1),
            _ => (),
        }
    }
    packets
}

/// So many rounds over new seats, and how many packets the second one took.
pub(crate) fn seats(alloc: Global, size: u32, rounds: u32) -> Result<u64, Fail>
    requires { size ≤ 10240 }
{
    let opened = open_two(alloc, packets_of(alloc, POOL)?)?;
    let Opened {
        shared,
        mut first,
        mut second,
    } = opened;
    let mut mine = first.live(&shared, &NoGate);
    let mut other = second.live(&shared, &NoGate);
    let ended = go(alloc, &mut mine, &mut other, size, rounds);
    let Live {
        seat: _,
        shared: _,
        gate: _,
    } = mine;
    let Live {
        seat: _,
        shared: _,
        gate: _,
    } = other;
    ended?;
    Ok(taken(second.journal()))
}

/// A payload of these bytes, in a journal.
fn note(alloc: Global, journal: &mut Journal, at: u64, bytes: &[u8]) -> Result<(), AllocError>
    requires { length bytes.now ≤ 10240 }
{
    journal.reserve()?;
    let payload = Payload::of(bytes.to_vec(alloc)?);
    journal.add(Entry::Put(0, at, 0, 1, payload));
    Ok(())
}

/// The entries with a payload of as many packets alone: one in each of two journals for each packet.
pub(crate) fn payloads(alloc: Global, size: u32, rounds: u32) -> Result<u64, Fail>
    requires { size ≤ 10240 }
{
    let bytes = vec![in alloc; 0; size as usize]?;
    let mut mine = Journal::new(alloc);
    let mut other = Journal::new(alloc);
    let packets = u64::from(rounds) * u64::from(BURST);
    for at in 0..packets {
        note(alloc, &mut mine, at, &bytes)?;
        note(alloc, &mut other, at, &bytes)?;
    }
    Ok(other.entries().len() as u64)
}
