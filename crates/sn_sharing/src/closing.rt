//! How a run's shared objects close, once all its workers are closed.
ghost use Rattle.std.specs.Prelude.{◌≡◌, IfOk, length, map};
ghost use Rattle.sn_scenario.specs.Scenarios.{AreLanes};
ghost use Rattle.sn_sharing.specs.Bonds.{AreBonded};
ghost use Rattle.sn_sharing.specs.Closings.{AreFifo, AreFree, AreHeld, AreKept, AreLogs, AreOut, IsBalanced};
ghost use Rattle.sn_sharing.specs.Columns.{counters_of, files_of, past_of, pasts};
ghost use Rattle.sn_sharing.specs.LeftEnds.{lists};

use crate::apart::{Apart, take_apart};
use crate::keeping::keep_all;
use crate::lane_closing::close_lanes;
use sn_app::{Counters, Output};
use sn_group::GroupReceipt;
use sn_interlink::LaneReceipt;
use sn_journal::Journal;
use sn_scenario::Lane;
use sn_seat::{Seat, Shared};
use std::alloc::{AllocError, Global};

/// What is left of a run whose workers are closed: journals, counters and files by the workers' numbers, the packets that each
/// worker still holds, by number and turn, the interlinks' receipts by the interlinks' numbers, and the group's receipt.
#[derive(Drop)]
pub struct Closed {
    pub journals: Vec<Journal>,
    pub counters: Vec<Counters>,
    pub files: Vec<Vec<Output>>,
    pub kept: Vec<Vec<(u32, u64)>>,
    pub lanes: Vec<LaneReceipt>,
    pub group: GroupReceipt,
}

/// Closes what the workers share. Each end of a worker is out, and each packet that a worker holds is free.
///
/// # Errors
/// Want of memory.
pub fn close(
    alloc: Global,
    lanes: &[Lane],
    shared: Shared,
    seats: Vec<Seat>,
) -> Result<Closed, AllocError>
    requires workers { length seats.items ≡ shared.group.seats }
    requires lanes { AreLanes (length seats.items) lanes.now }
    requires interlinks { length shared.lanes.items ≡ length lanes.now }
    requires bonds { AreBonded lanes.now shared seats.items }
    requires out { AreOut seats.items }
    requires free { AreFree seats.items }
    ensures journals { IfOk result (λ closed. pasts closed.journals.items ≡ map past_of seats.items) }
    ensures counters { IfOk result (λ closed. closed.counters.items ≡ map counters_of seats.items) }
    ensures files { IfOk result (λ closed. lists closed.files.items ≡ map files_of seats.items) }
    ensures logs { IfOk result (λ closed. AreLogs (pasts closed.journals.items) lanes.now closed.lanes.items closed.group) }
    ensures fifo { IfOk result (λ closed. AreFifo closed.lanes.items) }
    ensures balance { IfOk result (λ closed. IsBalanced shared.group.opened closed.group) }
    ensures kept { IfOk result (λ closed. AreKept seats.items (lists closed.kept.items)) }
    ensures held { IfOk result (λ closed. AreHeld (pasts closed.journals.items) (lists closed.kept.items)) }
{
    let Shared {
        lanes: interlinks,
        group,
        channels: _,
        captures: _,
    } = shared;
    let Apart {
        journals,
        counters,
        files,
        holds,
        ends,
        groups,
    } = take_apart(alloc, seats)?;
    let receipts = close_lanes(alloc, interlinks, lanes, ends)?;
    let kept = keep_all(alloc, holds)?;
    Ok(Closed {
        journals,
        counters,
        files,
        kept,
        lanes: receipts,
        group: group.close(groups),
    })
}
