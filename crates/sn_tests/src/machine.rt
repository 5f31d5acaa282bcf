//! What no clause says of the core by itself: worked cases, a table of all events, and a long run.

use sn_core::{CoreState, Event, Owner, Side, Stepped};
use std::alloc::AllocError;
use std::test::Fail;

/// A packet goes from a cell to seat 0, over lane 0 to seat 1.
const HAND_OVER: [Event; 9] = [
    Event::TakeClaim { seat: 0, cell: 0 },
    Event::TakeOut { seat: 0 },
    Event::TakeDone { seat: 0 },
    Event::Attach {
        lane: 0,
        side: Side::Tx,
    },
    Event::Lay { lane: 0, packet: 0 },
    Event::Publish { lane: 0 },
    Event::Attach {
        lane: 0,
        side: Side::Rx,
    },
    Event::Take { lane: 0 },
    Event::Release { lane: 0 },
];

#[test]
fn core_hand_over_leaves_the_packet_with_the_receiving_seat(rt: HostRuntime) -> Result<(), Fail> {
    let mut state = CoreState::open(rt.alloc(), 2, 2, &[(0, 1)])?;
    assert_eq!(rt; CoreState::run(&mut state, &HAND_OVER), 9);
    assert_eq!(rt; state.owner(0), Owner::Seat(1));
    assert_eq!(rt; state.owner(1), Owner::Cell(1));
    assert_eq!(rt; state.step(Event::Release { lane: 0 }), Stepped::NotEnabled);
    Ok(())
}

#[test]
fn refused_port_app_event_publish_on_an_opened_core_is_not_enabled(
    rt: HostRuntime,
) -> Result<(), Fail> {
    let mut state = CoreState::open(rt.alloc(), 1, 2, &[(0, 1)])?;
    assert_eq!(rt; state.step(Event::Publish { lane: 0 }), Stepped::NotEnabled);
    Ok(())
}

/// Each event as it is done and as it isn't enabled, one after another on a core of three packets.
const EVERY_EVENT: [(Event, Stepped); 83] = [
    (Event::Look, Stepped::Done),
    (Event::Say { worker: 0, n: 5 }, Stepped::Done),
    (Event::Say { worker: 0, n: 4 }, Stepped::NotEnabled),
    (Event::Say { worker: 2, n: 9 }, Stepped::NotEnabled),
    (Event::Hear { worker: 0 }, Stepped::Done),
    (Event::Hear { worker: 2 }, Stepped::NotEnabled),
    (Event::Stop { seat: 1 }, Stepped::Done),
    (Event::Stop { seat: 2 }, Stepped::NotEnabled),
    (Event::Restart { seat: 0 }, Stepped::Done),
    (Event::Restart { seat: 2 }, Stepped::NotEnabled),
    // a taking.
    (Event::TakeOut { seat: 0 }, Stepped::NotEnabled),
    (Event::TakeDone { seat: 0 }, Stepped::NotEnabled),
    (Event::TakeClaim { seat: 0, cell: 3 }, Stepped::NotEnabled),
    (Event::TakeClaim { seat: 2, cell: 0 }, Stepped::NotEnabled),
    (Event::TakeClaim { seat: 0, cell: 0 }, Stepped::Done),
    (Event::TakeClaim { seat: 0, cell: 1 }, Stepped::NotEnabled),
    (Event::TakeClaim { seat: 1, cell: 0 }, Stepped::NotEnabled),
    (Event::Restart { seat: 0 }, Stepped::NotEnabled),
    (Event::TakeDone { seat: 0 }, Stepped::NotEnabled),
    (Event::TakeOut { seat: 0 }, Stepped::Done),
    (Event::TakeOut { seat: 0 }, Stepped::NotEnabled),
    (Event::TakeDone { seat: 0 }, Stepped::Done),
    (Event::TakeClaim { seat: 1, cell: 0 }, Stepped::NotEnabled),
    // a put.
    (Event::Lay { lane: 0, packet: 0 }, Stepped::NotEnabled),
    (
        Event::Attach {
            lane: 1,
            side: Side::Tx,
        },
        Stepped::NotEnabled,
    ),
    (
        Event::Attach {
            lane: 0,
            side: Side::Tx,
        },
        Stepped::Done,
    ),
    (
        Event::Attach {
            lane: 0,
            side: Side::Tx,
        },
        Stepped::NotEnabled,
    ),
    (Event::Restart { seat: 0 }, Stepped::NotEnabled),
    (Event::Publish { lane: 0 }, Stepped::NotEnabled),
    (Event::TakeBack { lane: 0 }, Stepped::NotEnabled),
    (Event::Lay { lane: 0, packet: 1 }, Stepped::NotEnabled),
    (Event::Lay { lane: 0, packet: 3 }, Stepped::NotEnabled),
    (Event::Lay { lane: 0, packet: 0 }, Stepped::Done),
    (Event::Lay { lane: 0, packet: 0 }, Stepped::NotEnabled),
    (
        Event::GiveClaim {
            seat: 0,
            cell: 0,
            packet: 0,
        },
        Stepped::NotEnabled,
    ),
    (
        Event::Detach {
            lane: 0,
            side: Side::Tx,
        },
        Stepped::NotEnabled,
    ),
    (Event::TakeBack { lane: 0 }, Stepped::Done),
    (Event::Lay { lane: 0, packet: 0 }, Stepped::Done),
    (Event::Publish { lane: 0 }, Stepped::Done),
    // a take.
    (Event::Take { lane: 0 }, Stepped::NotEnabled),
    (
        Event::Attach {
            lane: 0,
            side: Side::Rx,
        },
        Stepped::Done,
    ),
    (Event::Release { lane: 0 }, Stepped::NotEnabled),
    (Event::Take { lane: 0 }, Stepped::Done),
    (Event::Take { lane: 0 }, Stepped::NotEnabled),
    (
        Event::Detach {
            lane: 0,
            side: Side::Rx,
        },
        Stepped::NotEnabled,
    ),
    (Event::Release { lane: 0 }, Stepped::Done),
    (Event::Take { lane: 0 }, Stepped::NotEnabled),
    // a giving.
    (Event::GiveIn { seat: 1 }, Stepped::NotEnabled),
    (Event::GiveDone { seat: 1 }, Stepped::NotEnabled),
    (
        Event::GiveClaim {
            seat: 1,
            cell: 0,
            packet: 1,
        },
        Stepped::NotEnabled,
    ),
    (
        Event::GiveClaim {
            seat: 1,
            cell: 1,
            packet: 0,
        },
        Stepped::NotEnabled,
    ),
    (
        Event::GiveClaim {
            seat: 1,
            cell: 0,
            packet: 0,
        },
        Stepped::Done,
    ),
    (Event::GiveDone { seat: 1 }, Stepped::NotEnabled),
    (Event::GiveIn { seat: 1 }, Stepped::Done),
    (Event::GiveIn { seat: 1 }, Stepped::NotEnabled),
    (Event::GiveDone { seat: 1 }, Stepped::Done),
    // a closing.
    (Event::TakeClaim { seat: 0, cell: 1 }, Stepped::Done),
    (Event::TakeOut { seat: 0 }, Stepped::Done),
    (Event::TakeDone { seat: 0 }, Stepped::Done),
    (Event::Lay { lane: 0, packet: 1 }, Stepped::Done),
    (Event::Publish { lane: 0 }, Stepped::Done),
    (
        Event::Reset {
            lane: 0,
            side: Side::Tx,
        },
        Stepped::NotEnabled,
    ),
    (
        Event::DrainTake {
            lane: 0,
            side: Side::Tx,
        },
        Stepped::NotEnabled,
    ),
    (
        Event::DrainRelease {
            lane: 0,
            side: Side::Tx,
        },
        Stepped::NotEnabled,
    ),
    (
        Event::Detach {
            lane: 0,
            side: Side::Rx,
        },
        Stepped::Done,
    ),
    (
        Event::Detach {
            lane: 0,
            side: Side::Rx,
        },
        Stepped::NotEnabled,
    ),
    (
        Event::Detach {
            lane: 0,
            side: Side::Tx,
        },
        Stepped::Done,
    ),
    (
        Event::Attach {
            lane: 0,
            side: Side::Rx,
        },
        Stepped::NotEnabled,
    ),
    (Event::Restart { seat: 0 }, Stepped::NotEnabled),
    (Event::Restart { seat: 1 }, Stepped::Done),
    (
        Event::Reset {
            lane: 0,
            side: Side::Tx,
        },
        Stepped::NotEnabled,
    ),
    (
        Event::DrainTake {
            lane: 0,
            side: Side::Rx,
        },
        Stepped::NotEnabled,
    ),
    (
        Event::DrainRelease {
            lane: 0,
            side: Side::Tx,
        },
        Stepped::NotEnabled,
    ),
    (
        Event::DrainTake {
            lane: 0,
            side: Side::Tx,
        },
        Stepped::Done,
    ),
    (
        Event::DrainTake {
            lane: 0,
            side: Side::Tx,
        },
        Stepped::NotEnabled,
    ),
    (
        Event::Reset {
            lane: 0,
            side: Side::Tx,
        },
        Stepped::NotEnabled,
    ),
    (
        Event::DrainRelease {
            lane: 0,
            side: Side::Rx,
        },
        Stepped::NotEnabled,
    ),
    (
        Event::DrainRelease {
            lane: 0,
            side: Side::Tx,
        },
        Stepped::Done,
    ),
    (
        Event::Reset {
            lane: 0,
            side: Side::Rx,
        },
        Stepped::NotEnabled,
    ),
    (
        Event::Reset {
            lane: 0,
            side: Side::Tx,
        },
        Stepped::Done,
    ),
    (
        Event::Attach {
            lane: 0,
            side: Side::Rx,
        },
        Stepped::Done,
    ),
    (
        Event::Detach {
            lane: 0,
            side: Side::Rx,
        },
        Stepped::Done,
    ),
    (
        Event::Reset {
            lane: 0,
            side: Side::Rx,
        },
        Stepped::Done,
    ),
];

#[test]
fn every_event_is_done_and_not_enabled(rt: HostRuntime) -> Result<(), Fail> {
    let mut state = CoreState::open(rt.alloc(), 3, 2, &[(0, 1)])?;
    for (row, (event, stepped)) in EVERY_EVENT.iter().enumerate() {
        assert_eq!(rt; state.step(*event), *stepped, "at row {row}");
    }
    Ok(())
}

/// Ten events that take the packet of a cell over the lane and back into the cell.
fn push_round(events: &mut Vec<Event>, cell: u32) -> Result<(), AllocError> {
    let round = [
        Event::TakeClaim { seat: 0, cell },
        Event::TakeOut { seat: 0 },
        Event::TakeDone { seat: 0 },
        Event::Lay {
            lane: 0,
            packet: cell,
        },
        Event::Publish { lane: 0 },
        Event::Take { lane: 0 },
        Event::Release { lane: 0 },
        Event::GiveClaim {
            seat: 1,
            cell,
            packet: cell,
        },
        Event::GiveIn { seat: 1 },
        Event::GiveDone { seat: 1 },
    ];
    events.extend_from_slice(&round)
}

#[test]
fn a_hundred_thousand_events_are_done_over_a_pool_of_4096(rt: HostRuntime) -> Result<(), Fail> {
    let mut state = CoreState::open(rt.alloc(), 4096, 2, &[(0, 1)])?;
    let mut events = Vec::new(rt.alloc());
    for round in 0..10_000_u32 {
        push_round(&mut events, round % 4096)?;
    }
    let attached = [
        Event::Attach {
            lane: 0,
            side: Side::Tx,
        },
        Event::Attach {
            lane: 0,
            side: Side::Rx,
        },
    ];
    assert_eq!(rt; CoreState::run(&mut state, &attached), 2);
    assert_eq!(rt; CoreState::run(&mut state, events.as_slice()), 100_000);
    Ok(())
}
