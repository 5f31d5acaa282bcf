//! The closing of interlinks whose ends closed workers left.
ghost use Rattle.std.specs.Prelude.{◌≡◌, ◌≢◌, ℕ, IfOk, length};
ghost use Rattle.sn_core.specs.declared.events.Side.TheVariants.{Rx, Tx};
ghost use Rattle.sn_interlink.specs.Ends.{shown_log};
ghost use Rattle.sn_interlink.specs.declared.view.EndState.TheVariants.{Out};
ghost use Rattle.sn_sharing.specs.LeftEnds.{HasOut, end_at, lists, said_at};
ghost use Rattle.sn_sharing.specs.Receipts.{AreClosable, AreReceipts, IsClosable, IsReceiptOf};

use crate::lane_ends::take_at;
use sn_interlink as interlink;
use sn_interlink::{Interlink, LaneReceipt, RxEnd, TxEnd};
use sn_scenario::Lane;
use sn_seat::SeatEnd;
use std::alloc::{AllocError, Global};

/// Takes the transmitter of an interlink out of the ends of all workers.
fn take_tx(lane: &Interlink, ends: &mut Vec<Vec<(u32, SeatEnd)>>, worker: u32, number: u32) -> TxEnd
    requires { HasOut Tx number worker lane.now (lists ends.old.items) }
    ensures lane { result.lane ≡ lane.now }
    ensures out { result.state ≡ Out }
    ensures log { shown_log result ≡ said_at number worker (lists ends.old.items) }
    ensures others { (other w : ℕ) → (w ≡ worker → other ≢ number)
        → end_at other w (lists ends.new.items) ≡ end_at other w (lists ends.old.items) }
{
    let _ = lane;
    match take_at(ends, worker, number) {
        SeatEnd::Transmitter(end) => end,
        SeatEnd::Receiver(_) => unreachable!(),
    }
}

/// Takes the receiver of an interlink out of the ends of all workers.
fn take_rx(lane: &Interlink, ends: &mut Vec<Vec<(u32, SeatEnd)>>, worker: u32, number: u32) -> RxEnd
    requires { HasOut Rx number worker lane.now (lists ends.old.items) }
    ensures lane { result.lane ≡ lane.now }
    ensures out { result.state ≡ Out }
    ensures log { shown_log result ≡ said_at number worker (lists ends.old.items) }
    ensures others { (other w : ℕ) → (w ≡ worker → other ≢ number)
        → end_at other w (lists ends.new.items) ≡ end_at other w (lists ends.old.items) }
{
    let _ = lane;
    match take_at(ends, worker, number) {
        SeatEnd::Transmitter(_) => unreachable!(),
        SeatEnd::Receiver(end) => end,
    }
}

/// Closes the interlink of a number, with its two ends out of those of all workers.
fn close_lane(
    lane: Interlink,
    line: &Lane,
    number: u32,
    ends: &mut Vec<Vec<(u32, SeatEnd)>>,
) -> LaneReceipt
    requires { IsClosable number line.now lane (lists ends.old.items) }
    ensures receipt { IsReceiptOf number line.now.tx line.now.rx (lists ends.old.items) result }
    ensures others { (other w : ℕ) → other ≢ number
        → end_at other w (lists ends.new.items) ≡ end_at other w (lists ends.old.items) }
{
    let tx = take_tx(&lane, ends, line.tx, number);
    let rx = take_rx(&lane, ends, line.rx, number);
    interlink::close(lane, tx, rx)
}

/// Closes the interlinks one after another, with their ends out of those of all workers.
pub(crate) fn close_lanes(
    alloc: Global,
    interlinks: Vec<Interlink>,
    lines: &[Lane],
    mut ends: Vec<Vec<(u32, SeatEnd)>>,
) -> Result<Vec<LaneReceipt>, AllocError>
    requires { AreClosable lines.now interlinks.items (lists ends.items) }
    ensures count { IfOk result (λ receipts. length receipts.items ≡ length lines.now) }
    ensures receipts { IfOk result (λ receipts. AreReceipts lines.now (lists ends.items) receipts.items) }
{
    let mut receipts = Vec::new(alloc);
    for lane in interlinks {
        let number = receipts.len();
        receipts.push(close_lane(lane, &lines[number], number as u32, &mut ends))?;
    }
    Ok(receipts)
}
