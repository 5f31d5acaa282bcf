//! The seats of a run's workers, each with a channel of its own.
ghost use Rattle.std.specs.Prelude.{◌≡◌, ◌<◌, ◌^◌, ℕ, [], IfOk, OnOk, Some, length, slice_get, true};
ghost use Rattle.sn_group.specs.Seats.{new_seats};
ghost use Rattle.sn_seat.specs.Openings.{AreNew, IsNewSeat, all_ends};
ghost use Rattle.sn_seat.specs.declared.ends.Ends.{Ends};
ghost use Rattle.sn_sharing.specs.Opened.{stops_of};
ghost use Rattle.sn_sharing.specs.Seating.{AddsWorker, AreSeated, IsSeatedWith};

use sn_channel::{Channel, Listener, Speaker};
use sn_group::{Group, GroupSeat};
use sn_names::Roster;
use sn_scenario::{Scenario, StopLine};
use sn_seat::{Ends, Seat};
use std::alloc::{AllocError, Global};

/// Workers that are seated, by their numbers: the channel of each, the speaker of its channel, and its seat.
#[derive(Drop)]
pub(crate) struct Seated {
    pub(crate) channels: Vec<Channel>,
    pub(crate) speakers: Vec<Speaker>,
    pub(crate) seats: Vec<Seat>,
}

/// Whether 32 bits number the rows of a roster. Memory lacks long before they don't.
fn is_numbered(roster: &Roster) -> bool
    ensures apps { result ≡ true → length roster.now.apps < 2 ^ 32 }
    ensures links { result ≡ true → length roster.now.links < 2 ^ 32 }
{
    roster.apps.len() < 1 << 32 && roster.links.len() < 1 << 32
}

/// A worker's stop lines: numbers of entries, and of gates behind them.
fn stops_of(alloc: Global, stops: &[StopLine], worker: u32) -> Result<Vec<(u64, u32)>, AllocError>
    ensures { IfOk result (λ pairs. pairs.items ≡ stops_of worker stops.now) }
{
    let mut pairs = Vec::new(alloc);
    for stop in stops {
        if stop.worker == worker {
            pairs.push((stop.entries, stop.gates))?;
        }
    }
    Ok(pairs)
}

/// The seat of a worker that has done nothing.
fn seat_of(
    alloc: Global,
    scenario: &Scenario,
    worker: u32,
    ends: Ends,
    group: GroupSeat,
    listener: Listener,
) -> Result<Seat, AllocError>
    requires worker { worker < scenario.now.settings.workers }
    requires ends { AreNew (all_ends ends.tx.items ends.rx.items) }
    requires group { IsNewSeat group }
    requires heard { listener.heard ≡ [] }
    requires met { listener.met ≡ 0 }
    ensures { IfOk result (IsSeatedWith scenario.now worker ends group.group listener.channel) }
{
    let roster = scenario.roster(alloc, worker)?;
    if !is_numbered(&roster) {
        return Err(AllocError);
    }
    let pool = scenario.settings().pool;
    // Captures, outputs and interlinks are few.
    let _ = scenario.captures();
    let _ = scenario.outputs();
    let _ = scenario.lanes();
    let stops = stops_of(alloc, scenario.stops(), worker)?;
    let seat = Seat::new(alloc, worker, pool, roster, stops, ends, group, listener)?;
    Ok(seat)
}

/// Seats one worker more, on a channel of its own.
fn seat_worker(
    alloc: Global,
    scenario: &Scenario,
    seated: &mut Seated,
    ends: Ends,
    group: GroupSeat,
) -> Result<(), AllocError>
    requires worker { length seated.old.seats.items < scenario.now.settings.workers }
    requires ends { AreNew (all_ends ends.tx.items ends.rx.items) }
    requires group { IsNewSeat group }
    ensures { OnOk result (AddsWorker scenario.now ends group.group seated.old seated.new) }
{
    // Workers are few.
    let _ = scenario.settings();
    let worker = seated.seats.len() as u32;
    let (channel, speaker, listener) = Channel::open(alloc)?;
    let seat = seat_of(alloc, scenario, worker, ends, group, listener)?;
    seated.channels.push(channel)?;
    seated.speakers.push(speaker)?;
    seated.seats.push(seat)?;
    Ok(())
}

/// Seats all workers, each with its ends and its seat of the group.
pub(crate) fn seat_all(
    alloc: Global,
    scenario: &Scenario,
    group: &Group,
    all: Vec<Ends>,
    mut groups: Vec<GroupSeat>,
) -> Result<Seated, AllocError>
    requires workers { length all.items ≡ scenario.now.settings.workers }
    requires ends { (worker : ℕ) (ends : Ends) → slice_get all.items worker ≡ Some ends
        → AreNew (all_ends ends.tx.items ends.rx.items) }
    requires groups { groups.items ≡ new_seats group.now.id scenario.now.settings.workers }
    ensures { IfOk result (AreSeated scenario.now all.items group.now.id) }
{
    let _ = group;
    let mut seated = Seated {
        channels: Vec::new(alloc),
        speakers: Vec::new(alloc),
        seats: Vec::new(alloc),
    };
    for ends in all {
        seat_worker(alloc, scenario, &mut seated, ends, groups.remove(0))?;
    }
    Ok(seated)
}
