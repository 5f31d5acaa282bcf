//! The interlink, and how it is opened.

ghost use Rattle.std.specs.Prelude.{◌≡◌, IfOk};
ghost use Rattle.sn_core.specs.declared.events.Side.TheVariants.{Tx, Rx};
ghost use Rattle.sn_interlink.specs.Course.{is_down};
ghost use Rattle.sn_interlink.specs.Ends.{new_lane_end};

use crate::end::End;
use crate::plays::Parting;
use crate::rx_end::RxEnd;
use crate::tx_end::TxEnd;
use crate::view::RingTable;
use sn_core::Side;
use std::alloc::{AllocError, Global};
use std::marker::Model;

/// The places of the ring. One of them stays free.
pub(crate) const PLACES: usize = 1024;

/// Where a table has the state word, the next position to put, and the next position to read.
pub(crate) const STATE: usize = 0;

pub(crate) const WRITE: usize = 1;

pub(crate) const READ: usize = 2;

/// A ring of packets from one worker to another, which the two share. A contract sees which interlink it is.
#[derive(Drop)]
pub struct Interlink {
    pub(crate) table: RingTable,
}

impl Model for Interlink {
    ghost use Rattle.std.specs.Prelude.{◌≡◌};
    ghost use Rattle.sn_interlink.specs.Ends.{LaneId};

    ghost Value = { LaneId };

    ghost view = { λ lane. lane.table.shared.table_id };

    ghost invariant = { λ lane. (lane.table.shared.table_id.words ≡ 3) × (lane.table.shared.table_id.slots ≡ 1024) };
}

/// Whether a state word says that the interlink is down: no end is up, and the closing end hasn't set it free yet.
pub fn is_down(word: u64) -> bool
    ensures { result ≡ is_down word }
{
    word != 0 && word % 4 != 1 && word / 4 != 1
}

impl Interlink {
    /// An interlink through which nothing went, with its two ends.
    ///
    /// # Errors
    /// Want of memory.
    pub fn new(alloc: Global) -> Result<(Interlink, TxEnd, RxEnd), AllocError>
        ensures tx { IfOk result (λ made. made.1 ≡ new_lane_end made.0 Tx) }
        ensures rx { IfOk result (λ made. made.2 ≡ new_lane_end made.0 Rx) }
    {
        let (table, mut seat) = RingTable::vacant(alloc, &[0, 0, 0], PLACES, &())?;
        let other = table.shared.split_seat::<Parting>(&mut seat);
        let tx = TxEnd::of(End::new(seat, Side::Tx));
        let rx = RxEnd::of(End::new(other, Side::Rx));
        Ok((Interlink { table }, tx, rx))
    }
}
