//! How a reclamation gives each held packet once.
ghost use Rattle.std.specs.Prelude.{◌≡◌, ◌≢◌, ◌+◌, ◌<◌, ◌^◌, IfOk, IfSome, IsSome, None, OnOk, Some, length, ℕ};
ghost use Rattle.sn_packet.specs.Hold.{at_of, put_at};
ghost use Rattle.sn_app.specs.Answers.{OnTray};
ghost use Rattle.sn_app.specs.Calls.{LeavesEnds};
ghost use Rattle.sn_app.specs.Reader.{repeated};
ghost use Rattle.sn_seat.specs.Tellings.{seat_hold};
ghost use Rattle.sn_seat.specs.Trays.{Fits, bond_of, seat_used, tray_in};
ghost use Rattle.sn_reclaim.specs.Attempts.{as_more, as_unit, give_or_end};
ghost use Rattle.sn_reclaim.specs.Lefts.{Walks};

use sn_journal::Entry;
use sn_seat::{Gave, Seat, Shared};
use std::alloc::AllocError;

/// Gives the packet at a place. Where it stays, it becomes free.
fn give_at(seat: &mut Seat, shared: &Shared, place: u32) -> Result<(), AllocError>
    requires fits { Fits seat.old shared.now }
    requires place { IsSome (seat_used seat.old place) }
    ensures reads { OnTray give_or_end (tray_in shared.now seat.old) (tray_in shared.now seat.new) (as_more result) }
    ensures one_more { OnOk result
        (length (tray_in shared.now seat.new).log.past ≡ length (tray_in shared.now seat.old).log.past + 1) }
    ensures used { OnOk result (seat_used seat.new ≡ put_at place None (seat_used seat.old)) }
    ensures held { (q : ℕ) → q ≢ place → at_of (seat_hold seat.new) q ≡ at_of (seat_hold seat.old) q }
    ensures leaves { LeavesEnds (tray_in shared.now seat.old) (tray_in shared.now seat.new) }
    ensures kept { bond_of seat.new ≡ bond_of seat.old }
{
    match seat.give_back(shared, place)? {
        Gave::Done => Ok(()),
        Gave::Full => Ok(seat.free(place)),
        Gave::Worn => Ok(seat.free(place)),
    }
}

/// Gives the packet at a place, and answers the next held place.
fn give_next(seat: &mut Seat, shared: &Shared, place: u32) -> Result<Option<u32>, AllocError>
    requires fits { Fits seat.old shared.now }
    requires walks { Walks (Some place) (seat_hold seat.old) (seat_used seat.old) }
    ensures reads { OnTray give_or_end (tray_in shared.now seat.old) (tray_in shared.now seat.new) (as_more result) }
    ensures one_more { OnOk result
        (length (tray_in shared.now seat.new).log.past ≡ length (tray_in shared.now seat.old).log.past + 1) }
    ensures walks { IfOk result (λ next. Walks next (seat_hold seat.new) (seat_used seat.new)) }
    ensures small { IfOk result (λ next. IfSome next (λ later. later < 2 ^ 32)) }
    ensures behind { IfOk result (λ next. IfSome next (λ later. place < later)) }
    ensures leaves { LeavesEnds (tray_in shared.now seat.old) (tray_in shared.now seat.new) }
    ensures kept { bond_of seat.new ≡ bond_of seat.old }
{
    give_at(seat, shared, place)?;
    // No memory has a packet at each place that 32 bits can name.
    let Some(from) = place.checked_add(1) else {
        return Err(AllocError);
    };
    Ok(seat.held(from))
}

/// Gives each held packet once, and notes that the reclamation ended. What couldn't be given is free.
pub(crate) fn give_all(seat: &mut Seat, shared: &Shared) -> Result<(), AllocError>
    requires fits { Fits seat.old shared.now }
    requires used { seat_used seat.old ≡ at_of (seat_hold seat.old) }
    ensures reads { OnTray (repeated give_or_end) (tray_in shared.now seat.old) (tray_in shared.now seat.new) (as_unit result) }
    ensures used { OnOk result ((place : ℕ) → seat_used seat.new place ≡ None) }
    ensures leaves { LeavesEnds (tray_in shared.now seat.old) (tray_in shared.now seat.new) }
    ensures kept { bond_of seat.new ≡ bond_of seat.old }
{
    let mut left = seat.held(0);
    while left.is_some() {
        let Some(place) = left else { unreachable!() };
        left = give_next(seat, shared, place)?;
    }
    seat.note(Entry::Reclaimed)
}
