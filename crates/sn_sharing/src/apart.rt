//! Seats taken apart, once their workers are done.
ghost use Rattle.std.specs.Prelude.{[], IfOk, OnOk};
ghost use Rattle.sn_sharing.specs.Columns.{Adds, AreParts};

use sn_app::{Counters, Output};
use sn_group::GroupSeat;
use sn_journal::Journal;
use sn_packet::Hold;
use sn_seat::{Seat, SeatEnd, SeatParts};
use std::alloc::{AllocError, Global};

/// The parts of seats, each kind by the seats' places: journals, counters, files, what they hold, ends of interlinks with their
/// numbers, and seats of the group.
#[derive(Drop)]
pub(crate) struct Apart {
    pub(crate) journals: Vec<Journal>,
    pub(crate) counters: Vec<Counters>,
    pub(crate) files: Vec<Vec<Output>>,
    pub(crate) holds: Vec<Hold>,
    pub(crate) ends: Vec<Vec<(u32, SeatEnd)>>,
    pub(crate) groups: Vec<GroupSeat>,
}

/// No parts yet.
fn no_parts(alloc: Global) -> Apart
    ensures { AreParts [] result }
{
    Apart {
        journals: Vec::new(alloc),
        counters: Vec::new(alloc),
        files: Vec::new(alloc),
        holds: Vec::new(alloc),
        ends: Vec::new(alloc),
        groups: Vec::new(alloc),
    }
}

/// Adds the parts of one seat more.
fn add_seat(apart: &mut Apart, seat: Seat) -> Result<(), AllocError>
    ensures { OnOk result (Adds apart.old seat apart.new) }
{
    let SeatParts {
        journal,
        counters,
        files,
        hold,
        ends,
        group,
    } = seat.into_parts();
    apart.journals.push(journal)?;
    apart.counters.push(counters)?;
    apart.files.push(files)?;
    apart.holds.push(hold)?;
    apart.ends.push(ends)?;
    apart.groups.push(group)?;
    Ok(())
}

/// The parts of these seats.
pub(crate) fn take_apart(alloc: Global, seats: Vec<Seat>) -> Result<Apart, AllocError>
    ensures { IfOk result (AreParts seats.items) }
{
    let mut apart = no_parts(alloc);
    for seat in seats {
        add_seat(&mut apart, seat)?;
    }
    Ok(apart)
}
