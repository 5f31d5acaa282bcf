//! The journal of a worker, and all that it is written at: packets, ends of interlinks, the group's seat and the listener.
ghost use Rattle.std.specs.Prelude.{◌≤◌};
ghost use Rattle.sn_seat.specs.Resting.{Quiet};
ghost use Rattle.sn_seat.specs.Told.{Told};

use crate::seat_end::SeatEnd;
use sn_channel::Listener;
use sn_group::GroupSeat;
use sn_journal::Journal;
use sn_packet::Hold;

/// A journal with what it tells of. Each step on a shared object and the entry that tells it are one method, so the journal
/// tells all at every moment, and nothing is half done between two methods.
#[derive(Drop)]
pub(crate) struct Ledger {
    pub(crate) journal: Journal,
    pub(crate) hold: Hold,
    pub(crate) ends: Vec<(u32, SeatEnd)>,
    pub(crate) group: GroupSeat,
    pub(crate) listener: Listener,
    ghost told: { Told journal.entries hold ends.items group listener },
    ghost quiet: { Quiet ends.items group },
    // There is always a place for the entry Stop.
    ghost spare: { 1 ≤ journal.room },
}
