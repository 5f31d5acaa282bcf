//! What no clause says: worked cases, the order of the packets in a receipt, and real threads.

ghost use Rattle.std.specs.Prelude.{◌≡◌, ◌≤◌, length, false, IfOk, OnSome};
ghost use Rattle.sn_packet.specs.Packet.{is_worn, most_packets};
ghost use Rattle.sn_group.specs.Seats.{IsAtRest};

use sn_group::{GiveClaim, Group, GroupReceipt, GroupSeat, TakeClaim};
use sn_packet::Packet;
use std::alloc::{AllocError, Global};
use std::test::Fail;
use std::thread;
use std::thread::Threads;

/// How often each thread takes a packet and gives it back, where it can.
const TIMES: u32 = 100_000;

/// How many packets the threads share.
const POOL: u32 = 6;

/// Packets of these numbers, at turn 0.
fn pool(alloc: Global, count: u32) -> Result<Vec<Packet>, AllocError>
    requires { count ≤ most_packets }
    ensures { IfOk result (λ packets. length packets.items ≡ count) }
{
    let mut packets = Vec::new(alloc);
    for number in 0..count {
        packets.push(Packet::new(alloc, number, 0)?)?;
    }
    Ok(packets)
}

/// Takes a packet, if there is one that can be claimed.
fn take_one(group: &Group, seat: &mut GroupSeat) -> Option<Packet>
    requires { IsAtRest group.now.id seat.old }
    ensures { IsAtRest group.now.id seat.new }
{
    match seat.take_claim(group) {
        TakeClaim::Dry => None,
        TakeClaim::Claimed { number: _, turn: _ } => {
            let packet = seat.take_out(group);
            seat.take_done(group);
            Some(packet)
        }
    }
}

/// Gives a packet, and answers it where it is worn or no cell could be claimed.
fn give_one(group: &Group, seat: &mut GroupSeat, packet: Packet) -> Option<Packet>
    requires { IsAtRest group.now.id seat.old }
    ensures { IsAtRest group.now.id seat.new }
{
    if packet.worn() {
        return Some(packet);
    }
    match seat.give_claim(group, packet) {
        GiveClaim::Full(packet) => Some(packet),
        GiveClaim::Claimed => {
            seat.give_in(group);
            seat.give_done(group);
            None
        }
    }
}

/// A group with two seats at rest.
fn two_seats(
    alloc: Global,
    packets: Vec<Packet>,
) -> Result<(Group, GroupSeat, GroupSeat), AllocError>
    requires { 1 ≤ length packets.items }
    ensures seats { IfOk result (λ made. made.0.seats ≡ 2) }
    ensures first { IfOk result (λ made. IsAtRest made.0.id made.1) }
    ensures second { IfOk result (λ made. IsAtRest made.0.id made.2) }
{
    let (group, mut seats) = Group::new(alloc, packets, 2)?;
    let Some(second) = seats.pop() else {
        unreachable!()
    };
    let Some(first) = seats.pop() else {
        unreachable!()
    };
    Ok((group, first, second))
}

/// Closes a group with its two seats.
fn closed(
    alloc: Global,
    group: Group,
    first: GroupSeat,
    second: GroupSeat,
) -> Result<GroupReceipt, AllocError>
    requires seats { group.seats ≡ 2 }
    requires first { IsAtRest group.id first }
    requires second { IsAtRest group.id second }
{
    let mut seats = Vec::new(alloc);
    seats.push(first)?;
    seats.push(second)?;
    Ok(group.close(seats))
}

/// The first seat takes the one packet while the second finds none and no room for its own, and gives it back: what the
/// two claims answered, the number of the packet that came back, and what was given.
fn hand_round(
    group: &Group,
    first: &mut GroupSeat,
    second: &mut GroupSeat,
    own: Packet,
) -> Option<(TakeClaim, TakeClaim, u32, (u32, u64))>
    requires first { IsAtRest group.now.id first.old }
    requires second { IsAtRest group.now.id second.old }
    requires own { is_worn own ≡ false }
    ensures first { OnSome result (IsAtRest group.now.id first.new) }
    ensures second { OnSome result (IsAtRest group.now.id second.new) }
{
    let claimed = first.take_claim(group);
    let TakeClaim::Claimed { number: _, turn: _ } = claimed else {
        return None;
    };
    let TakeClaim::Dry = second.take_claim(group) else {
        return None;
    };
    let GiveClaim::Full(back) = second.give_claim(group, own) else {
        return None;
    };
    let packet = first.take_out(group);
    first.take_done(group);
    if packet.worn() {
        return None;
    }
    let GiveClaim::Claimed = first.give_claim(group, packet) else {
        return None;
    };
    first.give_in(group);
    let given = first.give_done(group);
    Some((claimed, TakeClaim::Dry, back.number(), given))
}

#[test]
fn a_group_of_one_packet_is_dry_and_full_for_the_second_seat(rt: HostRuntime) -> Result<(), Fail> {
    let (group, mut first, mut second) = two_seats(rt.alloc(), pool(rt.alloc(), 1)?)?;
    let own = Packet::new(rt.alloc(), 5, 0)?;
    let round = hand_round(&group, &mut first, &mut second, own);
    let Some((claimed, other, back, given)) = round else {
        panic!(rt; "a claim answered otherwise");
    };
    assert_eq!(rt; claimed, TakeClaim::Claimed { number: 0, turn: 0 });
    assert_eq!(rt; other, TakeClaim::Dry);
    assert_eq!(rt; (back, given), (5, (0, 1)));
    let receipt = closed(rt.alloc(), group, first, second)?;
    assert_eq!(rt; receipt.packets.len(), 1);
    assert_eq!(rt;
        (receipt.packets[0].number(), receipt.packets[0].turn()),
        (0, 1)
    );
    Ok(())
}

/// Takes two packets, and gives the second first.
fn swapped(group: &Group, seat: &mut GroupSeat) -> bool
    requires { IsAtRest group.now.id seat.old }
    ensures { IsAtRest group.now.id seat.new }
{
    let Some(one) = take_one(group, seat) else {
        return false;
    };
    let Some(two) = take_one(group, seat) else {
        return false;
    };
    give_one(group, seat, two).is_none() && give_one(group, seat, one).is_none()
}

#[test]
fn the_receipt_has_the_packets_in_the_order_of_cells(rt: HostRuntime) -> Result<(), Fail> {
    let (group, mut first, second) = two_seats(rt.alloc(), pool(rt.alloc(), 3)?)?;
    assert!(rt; swapped(&group, &mut first));
    let receipt = closed(rt.alloc(), group, first, second)?;
    let mut found = Vec::new(rt.alloc());
    for packet in &receipt.packets {
        found.push((packet.number(), packet.turn()))?;
    }
    assert_eq!(rt; found.as_slice(), [(1, 1), (0, 1), (2, 0)].as_slice());
    Ok(())
}

/// A seat after its work, the packet that it still has, and how often it gave one.
type Worked = (GroupSeat, Option<Packet>, u32);

/// Takes a packet where the seat has none, and else gives the one that it has, again and again.
fn take_and_give(group: &Group, mut seat: GroupSeat) -> Worked
    requires { IsAtRest group.now.id seat }
    ensures { IsAtRest group.now.id result.0 }
{
    let mut held = None;
    let mut given = 0;
    for _ in 0..2 * TIMES {
        match held {
            None => held = take_one(group, &mut seat),
            Some(packet) => {
                held = give_one(group, &mut seat, packet);
                if held.is_none() {
                    given += 1;
                }
            }
        }
    }
    (seat, held, given)
}

/// Two seats at work, each in a thread of its own.
fn in_two_threads<R: Threads + Sync>(
    rt: &R,
    group: &Group,
    one: GroupSeat,
    two: GroupSeat,
) -> (Worked, Worked)
    requires one { IsAtRest group.now.id one }
    requires two { IsAtRest group.now.id two }
    ensures one { IsAtRest group.now.id result.0.0 }
    ensures two { IsAtRest group.now.id result.1.0 }
{
    thread::join(
        rt,
        move ||
            requires { IsAtRest group.now.id one }
            ensures { IsAtRest group.entry.now.id result.0 }
        { take_and_give(group, one) },
        move ||
            requires { IsAtRest group.now.id two }
            ensures { IsAtRest group.entry.now.id result.0 }
        { take_and_give(group, two) },
    )
}

/// The same with four.
fn in_four_threads<R: Threads + Sync>(
    rt: &R,
    group: &Group,
    first: (GroupSeat, GroupSeat),
    second: (GroupSeat, GroupSeat),
) -> ((Worked, Worked), (Worked, Worked))
    requires one { IsAtRest group.now.id first.0 }
    requires two { IsAtRest group.now.id first.1 }
    requires three { IsAtRest group.now.id second.0 }
    requires four { IsAtRest group.now.id second.1 }
    ensures one { IsAtRest group.now.id result.0.0.0 }
    ensures two { IsAtRest group.now.id result.0.1.0 }
    ensures three { IsAtRest group.now.id result.1.0.0 }
    ensures four { IsAtRest group.now.id result.1.1.0 }
{
    thread::join(
        rt,
        move ||
            requires one { IsAtRest group.now.id first.0 }
            requires two { IsAtRest group.now.id first.1 }
            ensures one { IsAtRest group.entry.now.id result.0.0 }
            ensures two { IsAtRest group.entry.now.id result.1.0 }
        { in_two_threads(rt, group, first.0, first.1) },
        move ||
            requires three { IsAtRest group.now.id second.0 }
            requires four { IsAtRest group.now.id second.1 }
            ensures three { IsAtRest group.entry.now.id result.0.0 }
            ensures four { IsAtRest group.entry.now.id result.1.0 }
        { in_two_threads(rt, group, second.0, second.1) },
    )
}

/// Gives the packet that the seat still has; how often the seat gave one in all.
fn settled(group: &Group, worked: Worked) -> (GroupSeat, u64)
    requires { IsAtRest group.now.id worked.0 }
    ensures { IsAtRest group.now.id result.0 }
{
    let (mut seat, held, given) = worked;
    match held {
        None => (seat, given as u64),
        Some(packet) => {
            give_one(group, &mut seat, packet);
            (seat, given as u64 + 1)
        }
    }
}

/// Closes a group with its four seats.
fn four_closed(
    alloc: Global,
    group: Group,
    first: (GroupSeat, GroupSeat),
    second: (GroupSeat, GroupSeat),
) -> Result<GroupReceipt, AllocError>
    requires seats { group.seats ≡ 4 }
    requires one { IsAtRest group.id first.0 }
    requires two { IsAtRest group.id first.1 }
    requires three { IsAtRest group.id second.0 }
    requires four { IsAtRest group.id second.1 }
{
    let mut seats = Vec::new(alloc);
    seats.push(first.0)?;
    seats.push(first.1)?;
    seats.push(second.0)?;
    seats.push(second.1)?;
    Ok(group.close(seats))
}

/// How many packets have this number, and the sum of their turns.
fn found(packets: &[Packet], number: u32) -> (u32, u64) {
    let mut count: u32 = 0;
    let mut turns: u64 = 0;
    for packet in packets {
        if packet.number() == number {
            count = count.saturating_add(1);
            turns = turns.saturating_add(packet.turn());
        }
    }
    (count, turns)
}

/// The sum of the packets' turns, where each number of the pool stands once.
fn turns_of(packets: &[Packet]) -> Option<u64> {
    if packets.len() != POOL as usize {
        return None;
    }
    let mut turns: u64 = 0;
    for number in 0..POOL {
        let (count, sum) = found(packets, number);
        if count != 1 {
            return None;
        }
        turns = turns.saturating_add(sum);
    }
    Some(turns)
}

/// Four seats at work, each in a thread of its own, and all done again: the group with its seats, and how often they gave.
fn worked_in_four_threads<R: Threads + Sync>(
    rt: &R,
    group: &Group,
    first: (GroupSeat, GroupSeat),
    second: (GroupSeat, GroupSeat),
) -> (((GroupSeat, GroupSeat), (GroupSeat, GroupSeat)), u64)
    requires one { IsAtRest group.now.id first.0 }
    requires two { IsAtRest group.now.id first.1 }
    requires three { IsAtRest group.now.id second.0 }
    requires four { IsAtRest group.now.id second.1 }
    ensures one { IsAtRest group.now.id result.0.0.0 }
    ensures two { IsAtRest group.now.id result.0.0.1 }
    ensures three { IsAtRest group.now.id result.0.1.0 }
    ensures four { IsAtRest group.now.id result.0.1.1 }
{
    let worked = in_four_threads(rt, group, first, second);
    let (one, a) = settled(group, worked.0.0);
    let (two, b) = settled(group, worked.0.1);
    let (three, c) = settled(group, worked.1.0);
    let (four, d) = settled(group, worked.1.1);
    let given = a.saturating_add(b).saturating_add(c).saturating_add(d);
    (((one, two), (three, four)), given)
}

/// A group with four seats at rest.
fn four_seats(
    alloc: Global,
    packets: Vec<Packet>,
) -> Result<(Group, (GroupSeat, GroupSeat), (GroupSeat, GroupSeat)), AllocError>
    requires { 1 ≤ length packets.items }
    ensures seats { IfOk result (λ made. made.0.seats ≡ 4) }
    ensures one { IfOk result (λ made. IsAtRest made.0.id made.1.0) }
    ensures two { IfOk result (λ made. IsAtRest made.0.id made.1.1) }
    ensures three { IfOk result (λ made. IsAtRest made.0.id made.2.0) }
    ensures four { IfOk result (λ made. IsAtRest made.0.id made.2.1) }
{
    let (group, mut seats) = Group::new(alloc, packets, 4)?;
    let Some(four) = seats.pop() else {
        unreachable!()
    };
    let Some(three) = seats.pop() else {
        unreachable!()
    };
    let Some(two) = seats.pop() else {
        unreachable!()
    };
    let Some(one) = seats.pop() else {
        unreachable!()
    };
    Ok((group, (one, two), (three, four)))
}

#[test]
fn four_threads_take_and_give_and_every_packet_is_there_at_the_end(
    rt: HostRuntime,
) -> Result<(), Fail> {
    let (group, first, second) = four_seats(rt.alloc(), pool(rt.alloc(), POOL)?)?;
    let ((first, second), given) = worked_in_four_threads(&rt, &group, first, second);
    let receipt = four_closed(rt.alloc(), group, first, second)?;
    assert_eq!(rt; turns_of(&receipt.packets), Some(given));
    assert!(rt; given >= TIMES as u64);
    Ok(())
}
