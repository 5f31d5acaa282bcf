//! A reclamation: what the seat of a worker holds that was closed or stopped goes back.
ghost use Rattle.std.specs.Prelude.{◌≡◌, [], None, OnOk, ℕ};
ghost use Rattle.sn_core.specs.declared.events.Side.{Side};
ghost use Rattle.sn_packet.specs.Hold.{at_of};
ghost use Rattle.sn_app.specs.Answers.{OnTray};
ghost use Rattle.sn_app.specs.declared.end_state.EndState.TheVariants.{Out};
ghost use Rattle.sn_seat.specs.Settling.{LeavesFiles, settles_lanes};
ghost use Rattle.sn_seat.specs.Tellings.{seat_hold, seat_listener};
ghost use Rattle.sn_seat.specs.Trays.{Fits, bond_of, seat_used, tray_in};
ghost use Rattle.sn_reclaim.specs.Attempts.{as_unit, attempt};

use crate::giving::give_all;
use sn_outside::Gate;
use sn_seat::{Seat, Shared};
use std::alloc::AllocError;

/// How a reclamation ended.
#[derive(Clone, Copy, Debug, PartialEq, Eq)]
pub enum ReclaimEnd {
    /// Each packet that the seat held is given, or free.
    Reclaimed,
}

/// No packet is free, and all ends are out.
fn settle_all(seat: &mut Seat, shared: &Shared) -> Result<(), AllocError>
    requires fits { Fits seat.old shared.now }
    ensures reads { OnTray settles_lanes (record (tray_in shared.now seat.old) { free = [] }) (tray_in shared.now seat.new)
        (as_unit result) }
    ensures out { OnOk result ((lane : ℕ) (side : Side) → ((tray_in shared.now seat.new).ends lane side).state ≡ Out) }
    ensures used { seat_used seat.new ≡ at_of (seat_hold seat.new) }
    ensures leaves { LeavesFiles (tray_in shared.now seat.old) (tray_in shared.now seat.new) }
    ensures kept { bond_of seat.new ≡ bond_of seat.old }
{
    match seat.settle() {
        Ok(()) => (),
        Err(_) => unreachable!(),
    }
    match seat.settle_lanes(shared) {
        Ok(()) => Ok(()),
        Err(_) => Err(AllocError),
    }
}

/// An attempt of a reclamation: no packet of the seat is free, its ends are settled, and then each packet that it holds is given
/// to the group once. Those that couldn't be given are free. No gate stands in it.
///
/// # Errors
/// Want of memory. A later attempt goes on from there.
pub fn reclaim<G: Gate>(
    seat: &mut Seat,
    shared: &Shared,
    _gate: &G,
) -> Result<ReclaimEnd, AllocError>
    requires fits { Fits seat.old shared.now }
    ensures reads { OnTray attempt (tray_in shared.now seat.old) (tray_in shared.now seat.new) (as_unit result) }
    ensures out { OnOk result ((lane : ℕ) (side : Side) → ((tray_in shared.now seat.new).ends lane side).state ≡ Out) }
    ensures used { OnOk result ((place : ℕ) → seat_used seat.new place ≡ None) }
    ensures kept { bond_of seat.new ≡ bond_of seat.old }
    ensures met { (seat_listener seat.new).met ≡ (seat_listener seat.old).met }
{
    settle_all(seat, shared)?;
    give_all(seat, shared)?;
    Ok(ReclaimEnd::Reclaimed)
}
