//! The packets that closed workers still hold.
ghost use Rattle.std.specs.Prelude.{◌≡◌, ℕ, IfOk, Some, slice_get};
ghost use Rattle.sn_packet.specs.Hold.{Held};
ghost use Rattle.sn_sharing.specs.Kept.{AreKeptBy, IsAllFree, IsEmptied, IsKeptBy};
ghost use Rattle.sn_sharing.specs.LeftEnds.{lists};

use sn_packet::Hold;
use std::alloc::{AllocError, Global};

/// The names of the packets of a hold, from the one freed last to the one freed first.
fn names_of(alloc: Global, mut hold: Hold) -> Result<Vec<(u32, u64)>, AllocError>
    requires { IsAllFree hold }
    ensures { IfOk result (λ names. IsEmptied hold names.items) }
{
    let mut names = Vec::new(alloc);
    while let Some(place) = hold.take_free() {
        let packet = hold.lift(place);
        names.push((packet.number(), packet.turn()))?;
    }
    Ok(names)
}

/// The names of the packets of a hold by number and turn, rising.
fn keep(alloc: Global, hold: Hold) -> Result<Vec<(u32, u64)>, AllocError>
    requires { IsAllFree hold }
    ensures { IfOk result (λ names. IsKeptBy hold names.items) }
{
    let mut names = names_of(alloc, hold)?;
    names.sort()?;
    Ok(names)
}

/// The names of the packets of each hold.
pub(crate) fn keep_all(alloc: Global, holds: Vec<Hold>) -> Result<Vec<Vec<(u32, u64)>>, AllocError>
    requires { (worker : ℕ) (hold : Held) → slice_get holds.items worker ≡ Some hold → IsAllFree hold }
    ensures { IfOk result (λ kept. AreKeptBy holds.items (lists kept.items)) }
{
    let mut kept = Vec::new(alloc);
    for hold in holds {
        kept.push(keep(alloc, hold)?)?;
    }
    Ok(kept)
}
