//! How a run's shared objects open, with a seat for each worker.
ghost use Rattle.std.specs.Prelude.{◌≡◌, IfOk, length};
ghost use Rattle.sn_sharing.specs.Opened.{AreOpenedSeats, AreSilent, IsOpenedGroup};

use crate::laying::{lay_lanes, packets_of};
use crate::seating::{Seated, seat_all};
use sn_channel::Speaker;
use sn_group::Group;
use sn_pcap::Capture;
use sn_scenario::Scenario;
use sn_seat::{Seat, Shared};
use std::alloc::{AllocError, Global};

/// What the workers of a run share, the seat of each worker by its number, and the speaker of each worker's channel.
#[derive(Drop)]
pub struct Opened {
    pub shared: Shared,
    pub seats: Vec<Seat>,
    pub speakers: Vec<Speaker>,
}

/// Opens what the workers of a scenario share, over these captures: all packets of the pool lie in the group, nothing lies in an
/// interlink, and nothing was said.
///
/// # Errors
/// Want of memory.
pub fn open(
    alloc: Global,
    scenario: &Scenario,
    captures: Vec<Capture>,
) -> Result<Opened, AllocError>
    requires { length captures.items ≡ length scenario.now.captures }
    ensures seats { IfOk result (λ opened. AreOpenedSeats scenario.now opened.shared opened.seats.items) }
    ensures speakers { IfOk result (λ opened. AreSilent opened.speakers.items opened.shared.channels.items) }
    ensures workers { IfOk result (λ opened. length opened.speakers.items ≡ scenario.now.settings.workers) }
    ensures group { IfOk result (λ opened. IsOpenedGroup scenario.now opened.shared.group) }
    ensures lanes { IfOk result (λ opened. length opened.shared.lanes.items ≡ length scenario.now.lanes) }
    ensures captures { IfOk result (λ opened. opened.shared.captures.items ≡ captures.items) }
{
    let settings = scenario.settings();
    let lines = scenario.lanes();
    let packets = packets_of(alloc, settings.pool)?;
    let (group, groups) = Group::new(alloc, packets, settings.workers)?;
    let (lanes, ends) = lay_lanes(alloc, lines, settings.workers)?;
    let Seated {
        channels,
        speakers,
        seats,
    } = seat_all(alloc, scenario, &group, ends, groups)?;
    let shared = Shared {
        lanes,
        group,
        channels,
        captures,
    };
    Ok(Opened {
        shared,
        seats,
        speakers,
    })
}
