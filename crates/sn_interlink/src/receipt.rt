//! The closing of an interlink, and its receipt.

ghost use Rattle.std.specs.Prelude.{◌≡◌};
ghost use Rattle.core.specs.Mem.Slots.{IsFull};
ghost use Rattle.sn_core.specs.declared.events.Side.TheVariants.{Tx, Rx};
ghost use Rattle.sn_interlink.specs.declared.view.EndState.TheVariants.{Out};
ghost use Rattle.sn_interlink.specs.Ends.{shown_log};
ghost use Rattle.sn_interlink.specs.Receipt.{IsLife, Fifo};
ghost use Rattle.sn_interlink.specs.Closing.{tx_log, rx_log};

use crate::interlink::{Interlink, READ, WRITE};
use crate::plays::Joining;
use crate::rx_end::RxEnd;
use crate::tx_end::TxEnd;
use crate::view::RingSeat;
use atomic_table::Closed;
use sn_packet::Packet;
use std::alloc::Global;
use std::snapshot::Snapshot;

/// What is left of an interlink. Only `close` makes one. Contracts see the two logs beside the numbers.
#[derive(Drop)]
pub struct LaneReceipt {
    /// How many packets were put.
    pub put: u64,
    /// How many packets were taken or drained.
    pub taken: u64,
    ends: Snapshot<RingSeat>,
}

/// Ends an interlink whose ends are both out.
pub fn close(lane: Interlink, tx: TxEnd, rx: RxEnd) -> LaneReceipt
    requires tx_lane { tx.lane ≡ lane }
    requires rx_lane { rx.lane ≡ lane }
    requires tx_out { tx.state ≡ Out }
    requires rx_out { rx.state ≡ Out }
    ensures tx_log { tx_log result ≡ shown_log tx }
    ensures rx_log { rx_log result ≡ shown_log rx }
    ensures tx_life { IsLife Tx (tx_log result) }
    ensures rx_life { IsLife Rx (rx_log result) }
    ensures fifo { Fifo (tx_log result) (rx_log result) result.put result.taken }
{
    let mut seat = tx.into_end().into_seat();
    let other = rx.into_end().into_seat();
    let Interlink { table } = lane;
    table.shared.join_seat::<Joining>(&mut seat, other);
    let ends = Snapshot::of(&seat);
    let closed = table.close_with(seat);
    let put = closed.word(WRITE);
    let taken = closed.word(READ);
    discard(closed);
    LaneReceipt { put, taken, ends }
}

/// Drops what lies in the slots, and frees the table's memory.
fn discard(mut closed: Closed<Option<Packet>, Global>)
    requires { IsFull closed.slots }
{
    let mut i = 0;
    while i < closed.slot_count() {
        drop(closed.take(i));
        i += 1;
    }
    closed.free();
}
