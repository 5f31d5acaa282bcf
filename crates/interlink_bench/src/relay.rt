//! One session: both ends come up, one thread puts all packets while another takes them, and both ends go.

ghost use Rattle.std.specs.Prelude.{◌≡◌, ◌≤◌, true, false, IfOk, IfSome};
ghost use Rattle.sn_interlink.specs.declared.view.EndState.TheVariants.{Out, Up};
ghost use Rattle.sn_interlink.specs.Ends.{reach_of};

use sn_interlink::{Attached, Detached, EndState, Interlink, RxEnd, TxEnd, is_down};
use sn_packet::Packet;
use std::alloc::{AllocError, Global};
use std::thread;
use std::thread::Threads;

/// Both ends come up from what they see, and the receiver learns its position.
fn come_up(lane: &Interlink, tx: &mut TxEnd, rx: &mut RxEnd) -> bool
    requires tx_lane { tx.old.lane ≡ lane.now }
    requires rx_lane { rx.old.lane ≡ lane.now }
    requires tx_out { tx.old.state ≡ Out }
    requires rx_out { rx.old.state ≡ Out }
    requires tx_idle { tx.old.half ≡ false }
    requires rx_idle { rx.old.half ≡ false }
    ensures tx_lane { tx.new.lane ≡ lane.now }
    ensures rx_lane { rx.new.lane ≡ lane.now }
    ensures tx_idle { tx.new.half ≡ false }
    ensures rx_idle { rx.new.half ≡ false }
    ensures tx_up { result ≡ true → tx.new.state ≡ Up }
    ensures rx_up { result ≡ true → rx.new.state ≡ Up }
    ensures synced { result ≡ true → rx.new.synced ≡ true }
{
    let seen = tx.look_state(lane);
    if is_down(seen) {
        return false;
    }
    match tx.attach(lane, seen) {
        Attached::Up => (),
        Attached::Again(_) => return false,
    }
    let seen = rx.look_state(lane);
    if is_down(seen) {
        return false;
    }
    match rx.attach(lane, seen) {
        Attached::Up => (),
        Attached::Again(_) => return false,
    }
    rx.sync(lane);
    true
}

/// Both ends go, the transmitter first; the receiver sets the interlink free. False where something was left.
fn go(lane: &Interlink, tx: &mut TxEnd, rx: &mut RxEnd) -> bool
    requires tx_lane { tx.old.lane ≡ lane.now }
    requires rx_lane { rx.old.lane ≡ lane.now }
    requires tx_up { tx.old.state ≡ Up }
    requires rx_up { rx.old.state ≡ Up }
    requires tx_idle { tx.old.half ≡ false }
    requires rx_idle { rx.old.half ≡ false }
    requires synced { rx.old.synced ≡ true }
    ensures tx_lane { tx.new.lane ≡ lane.now }
    ensures rx_lane { rx.new.lane ≡ lane.now }
    ensures tx_out { result ≡ true → tx.new.state ≡ Out }
    ensures rx_out { result ≡ true → rx.new.state ≡ Out }
    ensures tx_idle { result ≡ true → tx.new.half ≡ false }
    ensures rx_idle { result ≡ true → rx.new.half ≡ false }
{
    tx.detach(lane);
    if tx.state() != EndState::Out {
        return false;
    }
    match rx.detach(lane) {
        Detached::Other(_) => return false,
        Detached::Closer(_) => (),
    }
    if rx.state() != EndState::Closing {
        return false;
    }
    rx.look(lane);
    match rx.drain_take(lane) {
        Some(_) => return false,
        None => (),
    }
    rx.reset(lane);
    true
}

/// Puts packets, the last first, as many as there is room for.
fn send_some(lane: &Interlink, tx: &mut TxEnd, packets: &mut Vec<Packet>, room: u32)
    requires lane { tx.old.lane ≡ lane.now }
    requires up { tx.old.state ≡ Up }
    requires idle { tx.old.half ≡ false }
    requires room { room ≤ reach_of tx.old }
    ensures lane { tx.new.lane ≡ lane.now }
    ensures up { tx.new.state ≡ Up }
    ensures idle { tx.new.half ≡ false }
{
    let mut left = room;
    while left > 0 {
        let Some(packet) = packets.pop() else { return };
        if packet.worn() {
            return;
        }
        tx.put_begin(lane, packet);
        tx.put_publish(lane);
        left -= 1;
    }
}

/// Puts all packets, the last first.
fn send(lane: &Interlink, mut tx: TxEnd, mut packets: Vec<Packet>) -> TxEnd
    requires lane { tx.lane ≡ lane.now }
    requires up { tx.state ≡ Up }
    requires idle { tx.half ≡ false }
    ensures lane { result.lane ≡ lane.now }
    ensures up { result.state ≡ Up }
    ensures idle { result.half ≡ false }
{
    for _ in 0..u64::MAX {
        if packets.is_empty() {
            break;
        }
        let room = tx.room(lane);
        if room == 0 {
            thread::yield_now();
        }
        send_some(lane, &mut tx, &mut packets, room);
    }
    tx
}

/// Takes the packets that were seen.
fn receive_some(lane: &Interlink, rx: &mut RxEnd, packets: &mut Vec<Packet>, seen: u32)
    requires lane { rx.old.lane ≡ lane.now }
    requires up { rx.old.state ≡ Up }
    requires idle { rx.old.half ≡ false }
    requires synced { rx.old.synced ≡ true }
    requires seen { seen ≤ reach_of rx.old }
    ensures lane { rx.new.lane ≡ lane.now }
    ensures up { rx.new.state ≡ Up }
    ensures idle { rx.new.half ≡ false }
    ensures synced { rx.new.synced ≡ true }
{
    let mut left = seen;
    while left > 0 {
        let packet = rx.take(lane);
        rx.release(lane);
        match packets.push(packet) {
            Ok(()) => (),
            Err(_) => return,
        }
        left -= 1;
    }
}

/// Takes packets until there are so many.
fn receive(
    lane: &Interlink,
    mut rx: RxEnd,
    mut packets: Vec<Packet>,
    count: usize,
) -> (RxEnd, Vec<Packet>)
    requires lane { rx.lane ≡ lane.now }
    requires up { rx.state ≡ Up }
    requires idle { rx.half ≡ false }
    requires synced { rx.synced ≡ true }
    ensures lane { result.0.lane ≡ lane.now }
    ensures up { result.0.state ≡ Up }
    ensures idle { result.0.half ≡ false }
    ensures synced { result.0.synced ≡ true }
{
    for _ in 0..u64::MAX {
        if packets.len() >= count {
            break;
        }
        let seen = rx.look(lane);
        if seen == 0 {
            thread::yield_now();
        }
        receive_some(lane, &mut rx, &mut packets, seen);
    }
    (rx, packets)
}

/// One thread puts all packets while another takes them.
fn hand_over<R: Threads + Sync>(
    rt: &R,
    lane: &Interlink,
    tx: TxEnd,
    rx: RxEnd,
    packets: Vec<Packet>,
    into: Vec<Packet>,
) -> (TxEnd, (RxEnd, Vec<Packet>))
    requires tx_lane { tx.lane ≡ lane.now }
    requires rx_lane { rx.lane ≡ lane.now }
    requires tx_up { tx.state ≡ Up }
    requires rx_up { rx.state ≡ Up }
    requires tx_idle { tx.half ≡ false }
    requires rx_idle { rx.half ≡ false }
    requires synced { rx.synced ≡ true }
    ensures tx_lane { result.0.lane ≡ lane.now }
    ensures rx_lane { result.1.0.lane ≡ lane.now }
    ensures tx_up { result.0.state ≡ Up }
    ensures rx_up { result.1.0.state ≡ Up }
    ensures tx_idle { result.0.half ≡ false }
    ensures rx_idle { result.1.0.half ≡ false }
    ensures synced { result.1.0.synced ≡ true }
{
    let count = packets.len();
    thread::join(
        rt,
        move ||
            requires lane { tx.lane ≡ lane.now }
            requires up { tx.state ≡ Up }
            requires idle { tx.half ≡ false }
            ensures lane { result.lane ≡ lane.entry.now }
            ensures up { result.state ≡ Up }
            ensures idle { result.half ≡ false }
        { send(lane, tx, packets) },
        move ||
            requires lane { rx.lane ≡ lane.now }
            requires up { rx.state ≡ Up }
            requires idle { rx.half ≡ false }
            requires synced { rx.synced ≡ true }
            ensures lane { result.0.lane ≡ lane.entry.now }
            ensures up { result.0.state ≡ Up }
            ensures idle { result.0.half ≡ false }
            ensures synced { result.0.synced ≡ true }
        { receive(lane, rx, into, count) },
    )
}

/// A session, in which all packets go through. None where an end doesn't come up, or something was left.
pub fn session<R: Threads + Sync>(
    rt: &R,
    alloc: Global,
    lane: &Interlink,
    mut tx: TxEnd,
    mut rx: RxEnd,
    packets: Vec<Packet>,
) -> Result<Option<(TxEnd, RxEnd, Vec<Packet>)>, AllocError>
    requires tx_lane { tx.lane ≡ lane.now }
    requires rx_lane { rx.lane ≡ lane.now }
    requires tx_out { tx.state ≡ Out }
    requires rx_out { rx.state ≡ Out }
    requires tx_idle { tx.half ≡ false }
    requires rx_idle { rx.half ≡ false }
    ensures tx_lane { IfOk result (λ ended. IfSome ended (λ e. e.0.lane ≡ lane.now)) }
    ensures rx_lane { IfOk result (λ ended. IfSome ended (λ e. e.1.lane ≡ lane.now)) }
    ensures tx_out { IfOk result (λ ended. IfSome ended (λ e. e.0.state ≡ Out)) }
    ensures rx_out { IfOk result (λ ended. IfSome ended (λ e. e.1.state ≡ Out)) }
    ensures tx_idle { IfOk result (λ ended. IfSome ended (λ e. e.0.half ≡ false)) }
    ensures rx_idle { IfOk result (λ ended. IfSome ended (λ e. e.1.half ≡ false)) }
{
    let into = Vec::with_capacity(alloc, packets.len())?;
    if !come_up(lane, &mut tx, &mut rx) {
        return Ok(None);
    }
    let (mut tx, (mut rx, came)) = hand_over(rt, lane, tx, rx, packets, into);
    if !go(lane, &mut tx, &mut rx) {
        return Ok(None);
    }
    Ok(Some((tx, rx, came)))
}
