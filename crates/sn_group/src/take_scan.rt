//! The scan for a full cell: each cell once, round from a cursor on.

ghost use Rattle.std.specs.Prelude.{◌≡◌, MatchOption};
ghost use Rattle.sn_group.specs.Finds.{CanScan, FoundFull, FoundNoneFull};

use crate::plays::{Dries, Probes, TakeClaims};
use crate::view::{CellSeat, CellSteps};
use crate::way::place;
use crate::words::{BUSY, FULL};

/// Claims the first full cell from `start` on, and answers it with its word.
pub fn find_full(
    steps: &CellSteps,
    seat: &mut CellSeat,
    cells: usize,
    start: usize,
) -> Option<(usize, u64)>
    requires table { seat.old.table_id ≡ steps.now.table_id }
    requires scan { CanScan steps.now.table_id.words steps.now.table_id.slots cells start seat.old.me }
    ensures table { seat.new.table_id ≡ seat.old.table_id }
    ensures found { MatchOption result (FoundNoneFull cells start seat.old.me.0 seat.new.me)
        (λ found. FoundFull cells start seat.old.me.0 found.0 found.1 seat.new.me) }
{
    for k in 0..cells {
        let cell = place(cells, start, k);
        let word = steps.load::<Probes>(seat, cell);
        if word >= FULL && steps.compare_exchange::<TakeClaims>(seat, cell, word, BUSY) == word {
            return Some((cell, word));
        }
    }
    steps.load::<Dries>(seat, 0);
    None
}
