//! The worked cases, and what no clause says: that an interlink opens.

ghost use Rattle.std.specs.Prelude.{◌≡◌, true, false, IfSome};
ghost use Rattle.sn_interlink.specs.declared.view.EndState.TheVariants.{Out, Up};

use sn_interlink::{Attached, Detached, EndState, Interlink, RxEnd, TxEnd, close, is_down};
use sn_packet::{Hold, Packet};
use std::alloc::{AllocError, Global};
use std::test::Fail;

/// Packet 7 at turn 0, with three bytes.
fn packet_of_three_bytes(alloc: Global) -> Result<Packet, AllocError> {
    let mut hold = Hold::new(alloc, 1)?;
    hold.reserve(1)?;
    let place = hold.lay(Packet::new(alloc, 7, 0)?);
    hold.fill(place, &[1, 2, 3]);
    Ok(hold.lift(place))
}

/// Whether it is that packet, at this turn.
fn is_that_packet(packet: &Packet, turn: u64) -> bool {
    packet.number() == 7 && packet.turn() == turn && packet.bytes() == [1, 2, 3].as_slice()
}

/// Whether the transmitter comes up from this word.
fn tx_comes(lane: &Interlink, tx: &mut TxEnd, word: u64) -> bool
    requires lane { tx.old.lane ≡ lane.now }
    requires out { tx.old.state ≡ Out }
    requires idle { tx.old.half ≡ false }
    ensures lane { tx.new.lane ≡ lane.now }
    ensures idle { tx.new.half ≡ false }
    ensures up { result ≡ true → tx.new.state ≡ Up }
{
    let seen = tx.look_state(lane);
    if is_down(seen) || seen != word {
        return false;
    }
    match tx.attach(lane, seen) {
        Attached::Up => true,
        Attached::Again(_) => false,
    }
}

/// Whether the receiver comes up from this word, and knows its position.
fn rx_comes(lane: &Interlink, rx: &mut RxEnd, word: u64) -> bool
    requires lane { rx.old.lane ≡ lane.now }
    requires out { rx.old.state ≡ Out }
    requires idle { rx.old.half ≡ false }
    ensures lane { rx.new.lane ≡ lane.now }
    ensures idle { rx.new.half ≡ false }
    ensures up { result ≡ true → rx.new.state ≡ Up }
    ensures synced { result ≡ true → rx.new.synced ≡ true }
{
    let seen = rx.look_state(lane);
    if is_down(seen) || seen != word {
        return false;
    }
    match rx.attach(lane, seen) {
        Attached::Up => (),
        Attached::Again(_) => return false,
    }
    rx.sync(lane);
    rx.synced()
}

/// Whether the transmitter sees room for 1023 packets and puts this one at position 0.
fn tx_puts(lane: &Interlink, tx: &mut TxEnd, packet: Packet) -> bool
    requires lane { tx.old.lane ≡ lane.now }
    requires up { tx.old.state ≡ Up }
    requires idle { tx.old.half ≡ false }
    ensures lane { tx.new.lane ≡ lane.now }
    ensures up { tx.new.state ≡ Up }
    ensures idle { result ≡ true → tx.new.half ≡ false }
{
    if packet.worn() || tx.room(lane) != 1023 {
        return false;
    }
    tx.put_begin(lane, packet);
    let laid = tx.half();
    tx.put_publish(lane) == 0 && laid
}

/// The packet that the receiver takes at position 0, where it sees one.
fn rx_takes(lane: &Interlink, rx: &mut RxEnd) -> Option<Packet>
    requires lane { rx.old.lane ≡ lane.now }
    requires up { rx.old.state ≡ Up }
    requires synced { rx.old.synced ≡ true }
    requires idle { rx.old.half ≡ false }
    ensures lane { rx.new.lane ≡ lane.now }
    ensures up { rx.new.state ≡ Up }
    ensures synced { rx.new.synced ≡ true }
    ensures idle { rx.new.half ≡ false }
{
    if rx.look(lane) != 1 || rx.place() != 0 {
        return None;
    }
    let packet = rx.take(lane);
    rx.release(lane);
    Some(packet)
}

/// Whether the receiver goes from this word as the closer, finds nothing left, and sets the interlink free.
fn rx_closes(lane: &Interlink, rx: &mut RxEnd, word: u64) -> bool
    requires lane { rx.old.lane ≡ lane.now }
    requires up { rx.old.state ≡ Up }
    requires synced { rx.old.synced ≡ true }
    requires idle { rx.old.half ≡ false }
    ensures lane { rx.new.lane ≡ lane.now }
    ensures out { result ≡ true → rx.new.state ≡ Out }
{
    let gone = rx.detach(lane);
    if gone != Detached::Closer(word) || rx.state() != EndState::Closing {
        return false;
    }
    if rx.look(lane) != 0 {
        return false;
    }
    match rx.drain_take(lane) {
        Some(_) => return false,
        None => (),
    }
    rx.reset(lane);
    true
}

/// The packet that the transmitter drains as the closer, which then sets the interlink free.
fn tx_drains(lane: &Interlink, tx: &mut TxEnd) -> Option<Packet>
    requires lane { tx.old.lane ≡ lane.now }
    requires up { tx.old.state ≡ Up }
    requires idle { tx.old.half ≡ false }
{
    tx.detach(lane);
    if tx.state() != EndState::Closing {
        return None;
    }
    tx.room(lane);
    let packet = tx.drain_take(lane)?;
    tx.drain_release(lane);
    match tx.drain_take(lane) {
        Some(_) => return None,
        None => (),
    }
    tx.reset(lane);
    Some(packet)
}

#[test]
fn a_packet_goes_through_and_the_interlink_is_closed(rt: HostRuntime) -> Result<(), Fail> {
    let (lane, mut tx, mut rx) = Interlink::new(rt.alloc())?;
    let packet = packet_of_three_bytes(rt.alloc())?;
    assert!(rt; tx_comes(&lane, &mut tx, 0));
    assert!(rt; tx_puts(&lane, &mut tx, packet));
    assert!(rt; rx_comes(&lane, &mut rx, 4));
    let Some(packet) = rx_takes(&lane, &mut rx) else {
        panic!(rt; "nothing to take")
    };
    assert!(rt; is_that_packet(&packet, 1));
    assert!(rt; tx.detach(&lane) == Detached::Other(5));
    assert!(rt; rx_closes(&lane, &mut rx, 9));
    assert!(rt; tx.look_state(&lane) == 0);
    assert!(rt; tx.state() == EndState::Out);
    let receipt = close(lane, tx, rx);
    assert!(rt; receipt.put == 1 && receipt.taken == 1);
    Ok(())
}

#[test]
fn an_end_finds_that_the_other_came_up_since(rt: HostRuntime) -> Result<(), Fail> {
    let (lane, mut tx, mut rx) = Interlink::new(rt.alloc())?;
    let seen = tx.look_state(&lane);
    assert!(rt; !is_down(seen));
    assert!(rt; rx_comes(&lane, &mut rx, 0));
    assert!(rt; tx.attach(&lane, seen) == Attached::Again(1));
    Ok(())
}

#[test]
fn the_second_end_that_goes_sets_the_interlink_free(rt: HostRuntime) -> Result<(), Fail> {
    let (lane, mut tx, mut rx) = Interlink::new(rt.alloc())?;
    assert!(rt; tx_comes(&lane, &mut tx, 0));
    assert!(rt; rx_comes(&lane, &mut rx, 4));
    assert!(rt; rx.detach(&lane) == Detached::Other(5));
    let gone = tx.detach(&lane);
    assert!(rt; gone == Detached::Closer(6));
    assert!(rt; rx.look_state(&lane) == 10);
    assert!(rt; tx.state() == EndState::Closing);
    assert!(rt; tx.room(&lane) == 1023);
    let None = tx.drain_take(&lane) else {
        panic!(rt; "something is left")
    };
    tx.reset(&lane);
    assert!(rt; rx.look_state(&lane) == 0);
    Ok(())
}

#[test]
fn an_interlink_that_is_closing_is_down(rt: HostRuntime) -> Result<(), Fail> {
    let (lane, mut tx, mut rx) = Interlink::new(rt.alloc())?;
    assert!(rt; tx_comes(&lane, &mut tx, 0));
    assert!(rt; tx.detach(&lane) == Detached::Closer(4));
    let seen = rx.look_state(&lane);
    assert!(rt; seen == 8 && is_down(seen));
    Ok(())
}

#[test]
fn what_was_laid_comes_back_and_what_was_put_is_drained(rt: HostRuntime) -> Result<(), Fail> {
    let (lane, mut tx, _rx) = Interlink::new(rt.alloc())?;
    let packet = packet_of_three_bytes(rt.alloc())?;
    assert!(rt; tx_comes(&lane, &mut tx, 0));
    assert!(rt; tx.room(&lane) == 1023 && !packet.worn());
    tx.put_begin(&lane, packet);
    let back = tx.take_back(&lane);
    assert!(rt; is_that_packet(&back, 0));
    assert!(rt; tx_puts(&lane, &mut tx, back));
    let Some(packet) = tx_drains(&lane, &mut tx) else {
        panic!(rt; "nothing is left")
    };
    assert!(rt; is_that_packet(&packet, 1));
    Ok(())
}
