//! The ends of closed workers, and how one of them is taken out.
ghost use Rattle.std.specs.Prelude.{◌≡◌, ◌≢◌, ℕ, Some, position};
ghost use Rattle.sn_sharing.specs.LeftEnds.{HasEnd, HasEndAt, end_at, end_of, is_of, lists};

use sn_seat::SeatEnd;

/// The place of an interlink's end among a worker's.
fn place_of(ends: &Vec<(u32, SeatEnd)>, number: u32) -> Option<usize>
    ensures { result ≡ position (is_of number) ends.now.items }
{
    ends.iter().position(|end| end.0 == number)
}

/// Takes an interlink's end out of a worker's.
fn take_end(ends: &mut Vec<(u32, SeatEnd)>, number: u32) -> SeatEnd
    requires { HasEnd number ends.old.items }
    ensures end { end_of number ends.old.items ≡ Some result }
    ensures others { (other : ℕ) → other ≢ number → end_of other ends.new.items ≡ end_of other ends.old.items }
{
    let Some(place) = place_of(ends, number) else {
        unreachable!()
    };
    ends.remove(place).1
}

/// Takes an interlink's end out of those of all workers.
pub(crate) fn take_at(ends: &mut Vec<Vec<(u32, SeatEnd)>>, worker: u32, number: u32) -> SeatEnd
    requires { HasEndAt number worker (lists ends.old.items) }
    ensures end { end_at number worker (lists ends.old.items) ≡ Some result }
    ensures others { (other w : ℕ) → (w ≡ worker → other ≢ number)
        → end_at other w (lists ends.new.items) ≡ end_at other w (lists ends.old.items) }
{
    take_end(&mut ends[worker as usize], number)
}
