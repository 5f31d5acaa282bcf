//! What no clause says of a reclamation: that where there is memory it ends, and what the journals have then.
ghost use Rattle.std.specs.Prelude.{◌≡◌, ◌≤◌, IsTrue};
ghost use Rattle.sn_core.specs.declared.events.Side.TheVariants.{Rx, Tx};
ghost use Rattle.sn_seat.specs.Lives.{live_tray};

use super::*;
use sn_journal::{Entry, Payload};
use sn_outside::NoGate;
use sn_reclaim::{ReclaimEnd, reclaim};
use sn_seat::{Live, Seat};
use std::alloc::Global;
use std::test::Fail;

/// These calls of two seats at work that have the two ends. Then each is reclaimed, the second one first.
fn worked_and_reclaimed(
    alloc: Global,
    mine: &mut Live<'_, NoGate>,
    other: &mut Live<'_, NoGate>,
    calls: &[(Who, Step)],
) -> Result<(ReclaimEnd, ReclaimEnd), Fail>
    requires mine { IsTrue ((live_tray mine.old).log.constants.has_end 0 Tx) }
    requires other { IsTrue ((live_tray other.old).log.constants.has_end 0 Rx) }
    ensures lent { mine.new.seat.ghost_name ≡ mine.old.seat.ghost_name }
    ensures other_lent { other.new.seat.ghost_name ≡ other.old.seat.ghost_name }
{
    trial(alloc, mine, other, calls)?;
    let later = reclaim(other.seat, other.shared, other.gate)?;
    let early = reclaim(mine.seat, mine.shared, mine.gate)?;
    Ok((later, early))
}

/// The same over two new workers and so many packets, and the workers afterwards.
fn reclaimed(
    alloc: Global,
    pool: u32,
    calls: &[(Who, Step)],
) -> Result<((ReclaimEnd, ReclaimEnd), Seat, Seat), Fail>
    requires some { 1 ≤ pool }
    requires most { pool ≤ 16384 }
{
    let opened = open_two(alloc, packets_of(alloc, pool)?)?;
    let Opened {
        shared,
        mut first,
        mut second,
    } = opened;
    let mut mine = first.live(&shared, &NoGate);
    let mut other = second.live(&shared, &NoGate);
    let ends = worked_and_reclaimed(alloc, &mut mine, &mut other, calls);
    let Live {
        seat: _,
        shared: _,
        gate: _,
    } = mine;
    let Live {
        seat: _,
        shared: _,
        gate: _,
    } = other;
    Ok((ends?, first, second))
}

/// The calls in which the first worker puts a packet that nobody takes, and goes, while the second one stays up.
const LEFT: [(Who, Step); 7] = [
    (Who::First, Step::Attach),
    (Who::First, Step::Allocate),
    (Who::First, Step::Room),
    (Who::First, Step::Put),
    (Who::First, Step::Allocate),
    (Who::Second, Step::Attach),
    (Who::First, Step::Detach),
];

#[test]
fn what_two_seats_hold_goes_back(rt: HostRuntime) -> Result<(), Fail> {
    let alloc = rt.alloc();
    let (ends, first, second) = reclaimed(alloc, 3, &LEFT)?;
    assert_eq!(rt; ends.0, ReclaimEnd::Reclaimed);
    assert_eq!(rt; ends.1, ReclaimEnd::Reclaimed);
    let drained = [
        Entry::Attach(0, 4),
        Entry::Detach(0, 9),
        Entry::Seen(0, 1),
        Entry::Drain(0, 0, 2, 1),
        Entry::Reset(0),
        Entry::Gave(2, 2),
        Entry::Reclaimed,
    ];
    assert_eq!(rt; second.journal().entries(), drained.as_slice());
    let given = [
        Entry::Attach(0, 0),
        Entry::Got(0, 0),
        Entry::Got(1, 0),
        Entry::Got(2, 0),
        Entry::Dry,
        Entry::Room(0, 1023),
        Entry::Put(0, 0, 2, 1, Payload::of(Vec::new(alloc))),
        Entry::Detach(0, 5),
    ];
    let entries = first.journal().entries();
    assert_eq!(rt; entries.get(..8).unwrap_or(&[]), given.as_slice());
    // The order in which packets go back is open.
    let behind = entries.get(8..).unwrap_or(&[]);
    let rising = [Entry::Gave(0, 1), Entry::Gave(1, 1), Entry::Reclaimed];
    let falling = [Entry::Gave(1, 1), Entry::Gave(0, 1), Entry::Reclaimed];
    assert!(rt; behind == rising.as_slice() || behind == falling.as_slice());
    Ok(())
}
