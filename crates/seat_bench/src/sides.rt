//! What each of the two workers does in a round.
ghost use Rattle.std.specs.Prelude.{◌≡◌, IsSome, None, OnOk};
ghost use Rattle.sn_app.specs.Calls.{LeavesEnds};
ghost use Rattle.sn_app.specs.World.{nowhere};
ghost use Rattle.sn_packet.specs.Hold.{put_at};
ghost use Rattle.sn_seat.specs.Lives.{live_tray, live_used};
ghost use Rattle.seat_bench.specs.Lines.{CanReceive, CanSend};
ghost use Rattle.seat_bench.specs.Wires.{IsWired};

use crate::wire::{Wire, pull_once, push_once};
use sn_app::{Ctx, Halt};
use sn_basic::{Sink, Source};
use sn_edge::{Receiver, Transmitter};
use sn_outside::NoGate;
use sn_seat::{Gave, Live};

/// The Source makes packets, and the Transmitter puts them into the interlink.
pub(crate) fn send_round<C: Ctx>(
    ctx: &mut C,
    source: &mut Source,
    transmitter: &mut Transmitter,
    wire: &mut Wire,
) -> Result<(), Halt>
    requires ready { CanSend source.old transmitter.old (C.tray ctx.old) }
    requires wired { IsWired wire.old (C.tray ctx.old) (C.used ctx.old) nowhere }
    ensures ready { OnOk result (CanSend source.new transmitter.new (C.tray ctx.new)) }
    ensures wired { OnOk result (IsWired wire.new (C.tray ctx.new) (C.used ctx.new) nowhere) }
    ensures lent { C.lender ctx.new ≡ C.lender ctx.old }
{
    pull_once(source, ctx, wire)?;
    push_once(transmitter, ctx, wire)?;
    Ok(())
}

/// The Receiver takes packets from the interlink, and the Sink frees them.
pub(crate) fn receive_round<C: Ctx>(
    ctx: &mut C,
    receiver: &mut Receiver,
    sink: &mut Sink,
    wire: &mut Wire,
) -> Result<(), Halt>
    requires ready { CanReceive receiver.old sink.old (C.tray ctx.old) }
    requires wired { IsWired wire.old (C.tray ctx.old) (C.used ctx.old) nowhere }
    ensures ready { OnOk result (CanReceive receiver.new sink.new (C.tray ctx.new)) }
    ensures wired { OnOk result (IsWired wire.new (C.tray ctx.new) (C.used ctx.new) nowhere) }
    ensures lent { C.lender ctx.new ≡ C.lender ctx.old }
{
    pull_once(receiver, ctx, wire)?;
    push_once(sink, ctx, wire)?;
    Ok(())
}

/// Gives the packet at a place to the group. False where it stays, and becomes free.
fn give_that(live: &mut Live<'_, NoGate>, place: u32) -> Result<bool, Halt>
    requires { IsSome (live_used live.old place) }
    ensures gone { OnOk result (live_used live.new ≡ put_at place None (live_used live.old)) }
    ensures leaves { OnOk result (LeavesEnds (live_tray live.old) (live_tray live.new)) }
    ensures lent { live.new.seat.ghost_name ≡ live.old.seat.ghost_name }
{
    let gave = live.give(place)?;
    match gave {
        Gave::Done => Ok(true),
        Gave::Full => {
            live.free(place);
            Ok(false)
        }
        Gave::Worn => {
            live.free(place);
            Ok(false)
        }
    }
}

/// Gives the packet that was freed last to the group. False where none is free, or it stays.
fn give_one(live: &mut Live<'_, NoGate>) -> Result<bool, Halt>
    ensures used { OnOk result (live_used live.new ≡ live_used live.old) }
    ensures leaves { OnOk result (LeavesEnds (live_tray live.old) (live_tray live.new)) }
    ensures lent { live.new.seat.ghost_name ≡ live.old.seat.ghost_name }
{
    if live.frees() == 0 {
        return Ok(false);
    }
    let came = live.allocate()?;
    match came {
        None => Ok(false),
        Some(place) => {
            let gave = give_that(live, place)?;
            Ok(gave)
        }
    }
}

/// Gives back what is free, and at most so many packets.
pub(crate) fn give_back(live: &mut Live<'_, NoGate>, most: u32) -> Result<(), Halt>
    ensures used { OnOk result (live_used live.new ≡ live_used live.old) }
    ensures leaves { OnOk result (LeavesEnds (live_tray live.old) (live_tray live.new)) }
    ensures lent { live.new.seat.ghost_name ≡ live.old.seat.ghost_name }
{
    for _turn in 0..most {
        if !give_one(live)? {
            return Ok(());
        }
    }
    Ok(())
}
