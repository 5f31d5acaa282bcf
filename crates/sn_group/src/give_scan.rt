//! The scan for an empty cell: each cell once, round from a cursor on.

ghost use Rattle.std.specs.Prelude.{◌≡◌, MatchOption};
ghost use Rattle.sn_group.specs.Finds.{CanScan, FoundEmpty, FoundNoneEmpty};

use crate::plays::{Fills, GiveClaims, Probes};
use crate::view::{CellSeat, CellSteps};
use crate::way::place;
use crate::words::{BUSY, EMPTY};

/// Claims the first empty cell from `start` on for the packet of this full word, and answers it.
pub fn find_empty(
    steps: &CellSteps,
    seat: &mut CellSeat,
    cells: usize,
    start: usize,
    full: u64,
) -> Option<usize>
    requires table { seat.old.table_id ≡ steps.now.table_id }
    requires scan { CanScan steps.now.table_id.words steps.now.table_id.slots cells start seat.old.me }
    ensures table { seat.new.table_id ≡ seat.old.table_id }
    ensures found { MatchOption result (FoundNoneEmpty cells start seat.old.me.0 full seat.new.me)
        (λ cell. FoundEmpty cells start seat.old.me.0 cell seat.new.me) }
{
    for k in 0..cells {
        let cell = place(cells, start, k);
        let word = steps.load::<Probes>(seat, cell);
        if word == EMPTY && steps.compare_exchange::<GiveClaims>(seat, cell, EMPTY, BUSY) == EMPTY {
            return Some(cell);
        }
    }
    steps.compare_exchange::<Fills>(seat, 0, full, full);
    None
}
