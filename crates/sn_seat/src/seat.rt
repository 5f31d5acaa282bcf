//! A seat: all that a worker keeps.
ghost use Rattle.sn_seat.specs.SeatRows.{HasRows};

use crate::ledger::Ledger;
use sn_app::{Counters, Output};
use sn_names::Roster;
use std::alloc::Global;

/// All that a worker keeps: its journal with the packets, the ends of interlinks, the group's seat and the listener that the
/// journal tells of; its counters and the files that it writes, by the rows of its roster; and where it is to be stopped.
#[derive(Drop)]
pub struct Seat {
    pub(crate) alloc: Global,
    pub(crate) worker: u32,
    pub(crate) ledger: Ledger,
    // How many gates were passed since the last entry.
    pub(crate) gates: u64,
    pub(crate) stops: Vec<(u64, u32)>,
    pub(crate) counters: Counters,
    pub(crate) files: Vec<Output>,
    pub(crate) roster: Roster,
    ghost rows: { HasRows counters files.items roster },
}
