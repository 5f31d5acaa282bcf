//! Shared objects, and new seats over them.
ghost use Rattle.std.specs.Prelude.{◌≡◌, ◌≤◌, [], ◌∷◌, IfOk, length};
ghost use Rattle.sn_core.specs.declared.events.Side.TheVariants.{Rx, Tx};
ghost use Rattle.sn_group.specs.Seats.{new_seat};
ghost use Rattle.sn_seat.specs.Openings.{AreNew, IsNewSeat, all_ends};
ghost use Rattle.sn_seat.specs.SeatEnds.{has_wire, wires};
ghost use Rattle.sn_seat.specs.Trays.{Fits, bond_of, no_captures, seat_tray, seat_used};
ghost use Rattle.sn_app.specs.Desk.{roster_of};
ghost use Rattle.seat_rig.specs.Workers.{HasNone, IsForFirst, IsNewWorker};

use sn_channel::{Channel, Listener};
use sn_group::{Group, GroupSeat};
use sn_interlink::{Interlink, RxEnd, TxEnd};
use sn_names::{Name, Roster};
use sn_packet::Packet;
use sn_seat::{Ends, Seat, Shared};
use std::alloc::Global;
use std::test::Fail;

/// The names of two apps, and of the interlink.
fn names(alloc: Global) -> Result<Roster, Fail>
    ensures apps { IfOk result (λ roster. length roster.apps ≡ 2) }
    ensures links { IfOk result (λ roster. length roster.links ≡ 0) }
    ensures captures { IfOk result (λ roster. length roster.captures ≡ 0) }
    ensures files { IfOk result (λ roster. length roster.files ≡ 0) }
    ensures lanes { IfOk result (λ roster. roster.lanes ≡ (120 ∷ []) ∷ []) }
{
    Ok(Roster {
        apps: vec![in alloc; Name::parse(alloc, b"a")?, Name::parse(alloc, b"b")?]?,
        links: Vec::new(alloc),
        captures: Vec::new(alloc),
        files: Vec::new(alloc),
        lanes: vec![in alloc; Name::parse(alloc, b"x")?]?,
    })
}

/// So many packets at turn 0, numbered from 0.
///
/// # Errors
/// Want of memory.
pub fn packets_of(alloc: Global, pool: u32) -> Result<Vec<Packet>, Fail>
    requires { pool ≤ 16384 }
    ensures { IfOk result (λ packets. length packets.items ≡ pool) }
{
    let mut packets = Vec::with_capacity(alloc, pool as usize)?;
    for number in 0..pool {
        packets.push(Packet::new(alloc, number, 0)?)?;
    }
    Ok(packets)
}

/// The seat of a worker with these ends.
fn seat_of(
    alloc: Global,
    worker: u32,
    pool: u32,
    ends: Ends,
    group: GroupSeat,
    listener: Listener,
) -> Result<Seat, Fail>
    requires ends { AreNew (all_ends ends.tx.items ends.rx.items) }
    requires group { IsNewSeat group }
    requires listener { listener.heard ≡ [] }
    ensures apps { IfOk result (λ seat. length (roster_of (seat_tray no_captures seat)).apps ≡ 2) }
    ensures lanes { IfOk result (λ seat. (roster_of (seat_tray no_captures seat)).lanes ≡ (120 ∷ []) ∷ []) }
    ensures has_end { IfOk result (λ seat. (seat_tray no_captures seat).log.constants.has_end
        ≡ has_wire (wires (all_ends ends.tx.items ends.rx.items))) }
    ensures none { IfOk result (λ seat. HasNone (seat_used seat)) }
    ensures bond { IfOk result (λ seat. bond_of seat
        ≡ record {
          worker = worker;
          wiring = record {
            ends = wires (all_ends ends.tx.items ends.rx.items);
            group = group.group;
            channel = listener.channel;
            met = listener.met;
          };
          captures = 0;
          lanes = 1;
        }) }
{
    let roster = names(alloc)?;
    let stops = Vec::new(alloc);
    let seat = Seat::new(alloc, worker, pool, roster, stops, ends, group, listener)?;
    Ok(seat)
}

/// The ends of a worker that has one transmitter, of interlink 0.
fn transmitter(alloc: Global, end: TxEnd) -> Result<Ends, Fail>
    ensures tx { IfOk result (λ ends. ends.tx.items ≡ (0, end) ∷ []) }
    ensures rx { IfOk result (λ ends. ends.rx.items ≡ []) }
{
    Ok(Ends {
        tx: vec![in alloc; (0_u32, end)]?,
        rx: Vec::new(alloc),
    })
}

/// The ends of a worker that has one receiver, of interlink 0.
fn receiver(alloc: Global, end: RxEnd) -> Result<Ends, Fail>
    ensures tx { IfOk result (λ ends. ends.tx.items ≡ []) }
    ensures rx { IfOk result (λ ends. ends.rx.items ≡ (0, end) ∷ []) }
{
    Ok(Ends {
        tx: Vec::new(alloc),
        rx: vec![in alloc; (0_u32, end)]?,
    })
}

/// A group of these packets, with its two seats.
fn group_of_two(
    alloc: Global,
    packets: Vec<Packet>,
) -> Result<(Group, (GroupSeat, GroupSeat)), Fail>
    requires { 1 ≤ length packets.items }
    ensures first { IfOk result (λ made. made.1.0 ≡ new_seat made.0.id 0) }
    ensures second { IfOk result (λ made. made.1.1 ≡ new_seat made.0.id 1) }
{
    let (group, mut seats) = Group::new(alloc, packets, 2)?;
    let Some(second) = seats.pop() else {
        unreachable!()
    };
    let Some(first) = seats.pop() else {
        unreachable!()
    };
    Ok((group, (first, second)))
}

/// What two workers share, over one interlink and with no captures.
fn shared_by_two(
    alloc: Global,
    lane: Interlink,
    group: Group,
    first: Channel,
    second: Channel,
) -> Result<Shared, Fail>
    ensures lanes { IfOk result (λ shared. shared.lanes.items ≡ lane ∷ []) }
    ensures group { IfOk result (λ shared. shared.group ≡ group) }
    ensures channels { IfOk result (λ shared. shared.channels.items ≡ first ∷ second ∷ []) }
    ensures captures { IfOk result (λ shared. length shared.captures.items ≡ 0) }
{
    Ok(Shared {
        lanes: vec![in alloc; lane]?,
        group,
        channels: vec![in alloc; first, second]?,
        captures: Vec::new(alloc),
    })
}

/// A worker with the receiver of interlink 0, what it shares, and what another worker would have: the transmitter, a seat of the
/// group, and a listener.
#[derive(Drop)]
pub struct Half {
    pub shared: Shared,
    pub tx: TxEnd,
    pub group: GroupSeat,
    pub listener: Listener,
    pub second: Seat,
}

/// A worker that has done nothing and has the receiver of the one interlink, over a group of these packets. It is the second of
/// two, and the first isn't there yet.
///
/// # Errors
/// Want of memory.
pub fn open_half(alloc: Global, packets: Vec<Packet>) -> Result<Half, Fail>
    requires some { 1 ≤ length packets.items }
    requires most { length packets.items ≤ 16384 }
    ensures second { IfOk result (λ half. IsNewWorker Rx half.shared half.second) }
    ensures first { IfOk result (λ half. IsForFirst half.shared half.tx half.group half.listener) }
{
    let pool = packets.len() as u32;
    let (lane, tx, rx) = Interlink::new(alloc)?;
    let (group, (first, second)) = group_of_two(alloc, packets)?;
    let (channel, _, listener) = Channel::open(alloc)?;
    let (other, _, hearer) = Channel::open(alloc)?;
    let ends = receiver(alloc, rx)?;
    let seat = seat_of(alloc, 1, pool, ends, second, hearer)?;
    let shared = shared_by_two(alloc, lane, group, channel, other)?;
    Ok(Half {
        shared,
        tx,
        group: first,
        listener,
        second: seat,
    })
}

/// Two workers, and what they share: one interlink, of which the first has the transmitter and the second the receiver, a group
/// of packets, and a channel each.
#[derive(Drop)]
pub struct Opened {
    pub shared: Shared,
    pub first: Seat,
    pub second: Seat,
}

/// Two workers that have done nothing, over a group of these packets.
///
/// # Errors
/// Want of memory.
pub fn open_two(alloc: Global, packets: Vec<Packet>) -> Result<Opened, Fail>
    requires some { 1 ≤ length packets.items }
    requires most { length packets.items ≤ 16384 }
    ensures first { IfOk result (λ opened. IsNewWorker Tx opened.shared opened.first) }
    ensures second { IfOk result (λ opened. IsNewWorker Rx opened.shared opened.second) }
{
    let pool = packets.len() as u32;
    let half = open_half(alloc, packets)?;
    let Half {
        shared,
        tx,
        group,
        listener,
        second,
    } = half;
    let ends = transmitter(alloc, tx)?;
    let seat = seat_of(alloc, 0, pool, ends, group, listener)?;
    Ok(Opened {
        shared,
        first: seat,
        second,
    })
}

/// One worker that has done nothing and has no end of an interlink, over a group of these packets.
///
/// # Errors
/// Want of memory.
pub fn open_one(alloc: Global, packets: Vec<Packet>) -> Result<(Shared, Seat), Fail>
    requires some { 1 ≤ length packets.items }
    requires most { length packets.items ≤ 16384 }
    ensures fits { IfOk result (λ opened. Fits opened.1 opened.0) }
    ensures none { IfOk result (λ opened. HasNone (seat_used opened.1)) }
{
    let pool = packets.len() as u32;
    let (group, mut seats) = Group::new(alloc, packets, 1)?;
    let Some(only) = seats.pop() else {
        unreachable!()
    };
    let (channel, _, listener) = Channel::open(alloc)?;
    let ends = Ends {
        tx: Vec::new(alloc),
        rx: Vec::new(alloc),
    };
    let seat = seat_of(alloc, 0, pool, ends, only, listener)?;
    let shared = Shared {
        lanes: Vec::new(alloc),
        group,
        channels: vec![in alloc; channel]?,
        captures: Vec::new(alloc),
    };
    Ok((shared, seat))
}
