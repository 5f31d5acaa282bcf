//! What no clause says: that where there is memory two seats hand packets over, and what their journals have then.
ghost use Rattle.std.specs.Prelude.{◌≡◌, ◌≤◌, IsTrue, false, true};
ghost use Rattle.sn_core.specs.declared.events.Side.TheVariants.{Rx};
ghost use Rattle.sn_interlink.specs.declared.view.EndState.TheVariants.{Closing, Out};

use super::*;
use sn_app::{Ctx, Halt, Side};
use sn_interlink::{Attached, EndState, Interlink, TxEnd, is_down};
use sn_journal::{Entry, Payload};
use sn_outside::NoGate;
use sn_packet::{MAX_TURN, Packet};
use sn_seat::{Gave, Live, Seat};
use std::alloc::Global;
use std::test::Fail;

/// What two new workers answered to these calls, and the workers afterwards.
fn played(
    alloc: Global,
    pool: u32,
    calls: &[(Who, Step)],
) -> Result<(Vec<Answer>, Seat, Seat), Fail>
    requires some { 1 ≤ pool }
    requires most { pool ≤ 16384 }
{
    let opened = open_two(alloc, packets_of(alloc, pool)?)?;
    let Opened {
        shared,
        mut first,
        mut second,
    } = opened;
    let mut mine = first.live(&shared, &NoGate);
    let mut other = second.live(&shared, &NoGate);
    let answers = trial(alloc, &mut mine, &mut other, calls);
    let Live {
        seat: _,
        shared: _,
        gate: _,
    } = mine;
    let Live {
        seat: _,
        shared: _,
        gate: _,
    } = other;
    Ok((answers?, first, second))
}

/// The calls in which the first worker hands over a packet, puts another one that nobody takes, and goes; and the second takes
/// the one, and closes the interlink, so that the first can come again.
const CALLS: [(Who, Step); 20] = [
    (Who::First, Step::Look),
    (Who::First, Step::Attach),
    (Who::First, Step::Allocate),
    (Who::First, Step::Zeros(3)),
    (Who::First, Step::Room),
    (Who::First, Step::Put),
    (Who::First, Step::Put),
    (Who::Second, Step::Attach),
    (Who::Second, Step::Take),
    (Who::Second, Step::Look),
    (Who::Second, Step::Take),
    (Who::Second, Step::Free),
    (Who::Second, Step::Look),
    (Who::First, Step::Allocate),
    (Who::First, Step::Put),
    (Who::First, Step::Allocate),
    (Who::First, Step::Detach),
    (Who::Second, Step::Detach),
    (Who::First, Step::Attach),
    (Who::First, Step::Detach),
];

#[test]
fn two_seats_hand_packets_over_and_their_journals_tell_it(rt: HostRuntime) -> Result<(), Fail> {
    let alloc = rt.alloc();
    let (answers, first, second) = played(alloc, 2, &CALLS)?;
    let (done, unready) = (Answer::Done, Answer::Unready);
    let expected = [
        unready,
        done,
        done,
        done,
        Answer::Many(1023),
        done,
        unready,
        done,
        unready,
        Answer::Many(1),
        done,
        done,
        Answer::Many(0),
        done,
        done,
        Answer::Not,
        done,
        done,
        done,
        done,
    ];
    assert_eq!(rt; answers.as_slice(), expected.as_slice());
    let mine = [
        Entry::Attach(0, 0),
        Entry::Got(0, 0),
        Entry::Got(1, 0),
        Entry::Dry,
        Entry::Room(0, 1023),
        Entry::Put(0, 0, 1, 1, Payload::of(vec![in alloc; 0, 0, 0]?)),
        Entry::Put(0, 1, 0, 1, Payload::of(Vec::new(alloc))),
        Entry::Dry,
        Entry::Detach(0, 5),
        Entry::Attach(0, 0),
        Entry::Detach(0, 4),
        Entry::Room(0, 1023),
        Entry::Reset(0),
    ];
    assert_eq!(rt; first.journal().entries(), mine.as_slice());
    let other = [
        Entry::Attach(0, 4),
        Entry::Seen(0, 1),
        Entry::Take(0, 0, 1, 1, Payload::of(vec![in alloc; 0, 0, 0]?)),
        Entry::Seen(0, 0),
        Entry::Detach(0, 9),
        Entry::Seen(0, 1),
        Entry::Drain(0, 1, 0, 1),
        Entry::Reset(0),
    ];
    assert_eq!(rt; second.journal().entries(), other.as_slice());
    Ok(())
}

#[test]
fn an_empty_group_gives_none_and_that_is_noted(rt: HostRuntime) -> Result<(), Fail> {
    let calls = [(Who::First, Step::Allocate), (Who::Second, Step::Allocate)];
    let (answers, _, second) = played(rt.alloc(), 1, &calls)?;
    assert_eq!(rt; answers.as_slice(), [Answer::Done, Answer::Not].as_slice());
    assert_eq!(rt; second.journal().entries(), [Entry::Dry].as_slice());
    Ok(())
}

/// A new transmitter comes up and goes while the receiver isn't there. True where it is to close the interlink.
fn goes_down(lane: &Interlink, tx: &mut TxEnd) -> bool
    requires lane { tx.old.lane ≡ lane.now }
    requires out { tx.old.state ≡ Out }
    requires idle { tx.old.half ≡ false }
    ensures lane { tx.new.lane ≡ lane.now }
    ensures idle { tx.new.half ≡ false }
    ensures closing { result ≡ true → tx.new.state ≡ Closing }
{
    let seen = tx.look_state(lane);
    if is_down(seen) {
        return false;
    }
    match tx.attach(lane, seen) {
        Attached::Up => (),
        Attached::Again(_) => return false,
    }
    tx.detach(lane);
    tx.state() == EndState::Closing
}

/// It closes an interlink on which nothing was put. False where something was.
fn sets_free(lane: &Interlink, tx: &mut TxEnd) -> bool
    requires lane { tx.old.lane ≡ lane.now }
    requires closing { tx.old.state ≡ Closing }
    requires idle { tx.old.half ≡ false }
{
    tx.room(lane);
    match tx.drain_take(lane) {
        Some(_) => return false,
        None => (),
    }
    tx.reset(lane);
    true
}

/// What a new receiver answered to two attachings, one while the interlink is down and one after it was set free. None where it
/// didn't come to that.
fn attached_twice<C: Ctx>(
    second: &mut C,
    lane: &Interlink,
    tx: &mut TxEnd,
) -> Result<Option<(Answer, Answer)>, Halt>
    requires end { IsTrue ((C.tray second.old).log.constants.has_end 0 Rx) }
    requires lane { tx.old.lane ≡ lane.now }
    requires out { tx.old.state ≡ Out }
    requires idle { tx.old.half ≡ false }
    ensures lent { C.lender second.new ≡ C.lender second.old }
{
    let mut hand = Hand::new(Side::Rx);
    if !goes_down(lane, tx) {
        return Ok(None);
    }
    let early = take_step(second, &mut hand, Step::Attach)?;
    if !sets_free(lane, tx) {
        return Ok(None);
    }
    let late = take_step(second, &mut hand, Step::Attach)?;
    Ok(Some((early, late)))
}

/// The same for a new worker, and the worker afterwards.
fn attached_by_seat(alloc: Global) -> Result<(Option<(Answer, Answer)>, Seat), Fail> {
    let half = open_half(alloc, packets_of(alloc, 1)?)?;
    let Half {
        shared,
        mut tx,
        group: _,
        listener: _,
        mut second,
    } = half;
    let mut live = second.live(&shared, &NoGate);
    let answers = attached_twice(&mut live, &shared.lanes[0], &mut tx);
    let Live {
        seat: _,
        shared: _,
        gate: _,
    } = live;
    Ok((answers?, second))
}

#[test]
fn an_end_comes_up_only_once_the_closer_set_the_interlink_free(
    rt: HostRuntime,
) -> Result<(), Fail> {
    let (answers, second) = attached_by_seat(rt.alloc())?;
    assert_eq!(rt; answers, Some((Answer::Not, Answer::Done)));
    let told = [Entry::Unattached(0, 8, 8), Entry::Attach(0, 0)];
    assert_eq!(rt; second.journal().entries(), told.as_slice());
    Ok(())
}

/// How the packet that was allocated is given back, whether it is the least held one then, and how many are free. None where none
/// came.
fn given(live: &mut Live<'_, NoGate>) -> Result<Option<(Gave, bool, u64)>, Halt>
    ensures { live.new.seat.ghost_name ≡ live.old.seat.ghost_name }
{
    let Some(place) = live.allocate()? else {
        return Ok(None);
    };
    let gave = live.give(place)?;
    Ok(Some((gave, live.held(0) == Some(place), live.frees())))
}

/// The same for a new worker over one packet at this turn, and the worker afterwards.
fn given_by_seat(alloc: Global, turn: u64) -> Result<(Option<(Gave, bool, u64)>, Seat), Fail>
    requires { turn ≤ 281474976710655 }
{
    let packets = vec![in alloc; Packet::new(alloc, 0, turn)?]?;
    let opened = open_one(alloc, packets)?;
    let (shared, mut seat) = opened;
    let mut live = seat.live(&shared, &NoGate);
    let answers = given(&mut live);
    let Live {
        seat: _,
        shared: _,
        gate: _,
    } = live;
    Ok((answers?, seat))
}

#[test]
fn a_worn_packet_is_not_given_and_stays_held(rt: HostRuntime) -> Result<(), Fail> {
    let (answers, seat) = given_by_seat(rt.alloc(), MAX_TURN)?;
    assert_eq!(rt; answers, Some((Gave::Worn, true, 0)));
    let told = [
        Entry::Got(0, MAX_TURN),
        Entry::Dry,
        Entry::Worn(0, MAX_TURN),
    ];
    assert_eq!(rt; seat.journal().entries(), told.as_slice());
    Ok(())
}

#[test]
fn a_packet_is_given_back_with_its_turn_raised(rt: HostRuntime) -> Result<(), Fail> {
    let (answers, seat) = given_by_seat(rt.alloc(), 7)?;
    assert_eq!(rt; answers, Some((Gave::Done, false, 0)));
    let told = [Entry::Got(0, 7), Entry::Dry, Entry::Gave(0, 8)];
    assert_eq!(rt; seat.journal().entries(), told.as_slice());
    Ok(())
}
