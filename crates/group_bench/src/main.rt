//! The program that `bench/group` times: threads that take packets from one group and give them back.
//!
//! `group_bench THREADS TIMES ROW`: one thread, or four, each with a seat of its own, take ROW packets one after another
//! and give them back, TIMES times. The group has 4,096 packets. The program prints nothing, and ends with status 0
//! where every packet is there at the end.
#![tactic(auto)]

ghost use Rattle.std.specs.Prelude.{◌≡◌, ◌≤◌, length, IfOk};
ghost use Rattle.sn_group.specs.Seats.{IsAtRest};

use sn_group::{GiveClaim, Group, GroupReceipt, GroupSeat, TakeClaim};
use sn_packet::Packet;
use std::alloc::{AllocError, Global};
use std::process::ExitCode;
use std::thread::Threads;
use std::{env, io, thread};

/// How many packets the group has.
const POOL: u32 = 4096;

/// A seat with the packets that it has.
type Holder = (GroupSeat, Vec<Packet>);

/// How often a seat takes how many packets.
#[derive(Clone, Copy)]
struct Work {
    times: u32,
    row: u32,
}

fn main(rt: HostRuntime) -> ExitCode {
    let Ok(numbers) = numbers_of(&rt) else {
        return ExitCode::FAILURE;
    };
    if numbers.len() != 3 {
        return ExitCode::FAILURE;
    }
    let work = Work {
        times: numbers[1],
        row: numbers[2],
    };
    match run_group(&rt, rt.alloc(), numbers[0] > 1, work) {
        Ok(true) => ExitCode::SUCCESS,
        Ok(false) => ExitCode::FAILURE,
        Err(_) => ExitCode::FAILURE,
    }
}

/// The numbers that the program's words are, and 0 for a word that is none.
fn numbers_of(rt: &HostRuntime) -> io::Result<Vec<u32>> {
    let mut numbers = Vec::new(rt.alloc());
    for word in env::args(rt)?.skip(1) {
        numbers.push(word.parse::<u32>().unwrap_or(0))?;
    }
    Ok(numbers)
}

/// Runs one thread or four, and answers whether every packet is there at the end.
fn run_group<R: Threads + Sync>(
    rt: &R,
    alloc: Global,
    all: bool,
    work: Work,
) -> Result<bool, AllocError> {
    let (group, first, second) = four_seats(alloc, pool(alloc)?)?;
    let one = (first.0, room(alloc, work)?);
    let two = (first.1, room(alloc, work)?);
    let three = (second.0, room(alloc, work)?);
    let four = (second.1, room(alloc, work)?);
    let (first, second) = run(rt, &group, all, work, (one, two), (three, four));
    let receipt = four_closed(alloc, group, first, second)?;
    Ok(receipt.packets.len() == POOL as usize)
}

/// Four seats, of which one works, or all do, after which they give all that they still have.
fn run<R: Threads + Sync>(
    rt: &R,
    group: &Group,
    all: bool,
    work: Work,
    first: (Holder, Holder),
    second: (Holder, Holder),
) -> ((GroupSeat, GroupSeat), (GroupSeat, GroupSeat))
    requires one { IsAtRest group.now.id first.0.0 }
    requires two { IsAtRest group.now.id first.1.0 }
    requires three { IsAtRest group.now.id second.0.0 }
    requires four { IsAtRest group.now.id second.1.0 }
    ensures one { IsAtRest group.now.id result.0.0 }
    ensures two { IsAtRest group.now.id result.0.1 }
    ensures three { IsAtRest group.now.id result.1.0 }
    ensures four { IsAtRest group.now.id result.1.1 }
{
    if all {
        let (first, second) = in_four_threads(rt, group, work, first, second);
        return (both_settled(group, first), both_settled(group, second));
    }
    let one = hold(group, first.0, work);
    (
        both_settled(group, (one, first.1)),
        both_settled(group, second),
    )
}

/// Two seats after they gave all that they still had.
fn both_settled(group: &Group, both: (Holder, Holder)) -> (GroupSeat, GroupSeat)
    requires one { IsAtRest group.now.id both.0.0 }
    requires two { IsAtRest group.now.id both.1.0 }
    ensures one { IsAtRest group.now.id result.0 }
    ensures two { IsAtRest group.now.id result.1 }
{
    (settled(group, both.0), settled(group, both.1))
}

/// Room for as many packets as a seat takes in a row.
fn room(alloc: Global, work: Work) -> Result<Vec<Packet>, AllocError> {
    Vec::with_capacity(alloc, work.row as usize)
}

/// The packets of the group, at turn 0.
fn pool(alloc: Global) -> Result<Vec<Packet>, AllocError>
    ensures { IfOk result (λ packets. length packets.items ≡ 4096) }
{
    let mut packets = Vec::with_capacity(alloc, POOL as usize)?;
    for number in 0..POOL {
        packets.push(Packet::new(alloc, number, 0)?)?;
    }
    Ok(packets)
}

/// Takes and gives, as often as the work says.
fn hold(group: &Group, holder: Holder, work: Work) -> Holder
    requires { IsAtRest group.now.id holder.0 }
    ensures { IsAtRest group.now.id result.0 }
{
    let (mut seat, mut packets) = holder;
    for _ in 0..work.times {
        take_row(group, &mut seat, &mut packets, work.row);
        give_row(group, &mut seat, &mut packets);
    }
    (seat, packets)
}

/// Takes at most so many packets, as many as can be claimed.
fn take_row(group: &Group, seat: &mut GroupSeat, packets: &mut Vec<Packet>, row: u32)
    requires { IsAtRest group.now.id seat.old }
    ensures { IsAtRest group.now.id seat.new }
{
    for _ in 0..row {
        match seat.take_claim(group) {
            TakeClaim::Dry => return,
            TakeClaim::Claimed { number: _, turn: _ } => {
                let packet = seat.take_out(group);
                seat.take_done(group);
                match packets.push(packet) {
                    Ok(()) => (),
                    Err(_) => return,
                }
            }
        }
    }
}

/// Gives packets, as many as find a cell.
fn give_row(group: &Group, seat: &mut GroupSeat, packets: &mut Vec<Packet>)
    requires { IsAtRest group.now.id seat.old }
    ensures { IsAtRest group.now.id seat.new }
{
    while packets.len() > 0 {
        let Some(packet) = packets.pop() else {
            unreachable!()
        };
        if packet.worn() {
            return;
        }
        match seat.give_claim(group, packet) {
            GiveClaim::Claimed => {
                seat.give_in(group);
                seat.give_done(group);
            }
            GiveClaim::Full(packet) => {
                packets.push_reserved(packet);
                return;
            }
        }
    }
}

/// A seat after it gave all that it still had.
fn settled(group: &Group, holder: Holder) -> GroupSeat
    requires { IsAtRest group.now.id holder.0 }
    ensures { IsAtRest group.now.id result }
{
    let (mut seat, mut packets) = holder;
    give_row(group, &mut seat, &mut packets);
    seat
}

/// Two seats at work, each in a thread of its own.
fn in_two_threads<R: Threads + Sync>(
    rt: &R,
    group: &Group,
    work: Work,
    one: Holder,
    two: Holder,
) -> (Holder, Holder)
    requires one { IsAtRest group.now.id one.0 }
    requires two { IsAtRest group.now.id two.0 }
    ensures one { IsAtRest group.now.id result.0.0 }
    ensures two { IsAtRest group.now.id result.1.0 }
{
    thread::join(
        rt,
        move ||
            requires { IsAtRest group.now.id one.0 }
            ensures { IsAtRest group.entry.now.id result.0 }
        { hold(group, one, work) },
        move ||
            requires { IsAtRest group.now.id two.0 }
            ensures { IsAtRest group.entry.now.id result.0 }
        { hold(group, two, work) },
    )
}

/// The same with four.
fn in_four_threads<R: Threads + Sync>(
    rt: &R,
    group: &Group,
    work: Work,
    first: (Holder, Holder),
    second: (Holder, Holder),
) -> ((Holder, Holder), (Holder, Holder))
    requires one { IsAtRest group.now.id first.0.0 }
    requires two { IsAtRest group.now.id first.1.0 }
    requires three { IsAtRest group.now.id second.0.0 }
    requires four { IsAtRest group.now.id second.1.0 }
    ensures one { IsAtRest group.now.id result.0.0.0 }
    ensures two { IsAtRest group.now.id result.0.1.0 }
    ensures three { IsAtRest group.now.id result.1.0.0 }
    ensures four { IsAtRest group.now.id result.1.1.0 }
{
    thread::join(
        rt,
        move ||
            requires one { IsAtRest group.now.id first.0.0 }
            requires two { IsAtRest group.now.id first.1.0 }
            ensures one { IsAtRest group.entry.now.id result.0.0 }
            ensures two { IsAtRest group.entry.now.id result.1.0 }
        { in_two_threads(rt, group, work, first.0, first.1) },
        move ||
            requires three { IsAtRest group.now.id second.0.0 }
            requires four { IsAtRest group.now.id second.1.0 }
            ensures three { IsAtRest group.entry.now.id result.0.0 }
            ensures four { IsAtRest group.entry.now.id result.1.0 }
        { in_two_threads(rt, group, work, second.0, second.1) },
    )
}

/// A group with four seats at rest.
fn four_seats(
    alloc: Global,
    packets: Vec<Packet>,
) -> Result<(Group, (GroupSeat, GroupSeat), (GroupSeat, GroupSeat)), AllocError>
    requires { 1 ≤ length packets.items }
    ensures seats { IfOk result (λ made. made.0.seats ≡ 4) }
    ensures one { IfOk result (λ made. IsAtRest made.0.id made.1.0) }
    ensures two { IfOk result (λ made. IsAtRest made.0.id made.1.1) }
    ensures three { IfOk result (λ made. IsAtRest made.0.id made.2.0) }
    ensures four { IfOk result (λ made. IsAtRest made.0.id made.2.1) }
{
    let (group, mut seats) = Group::new(alloc, packets, 4)?;
    let Some(four) = seats.pop() else {
        unreachable!()
    };
    let Some(three) = seats.pop() else {
        unreachable!()
    };
    let Some(two) = seats.pop() else {
        unreachable!()
    };
    let Some(one) = seats.pop() else {
        unreachable!()
    };
    Ok((group, (one, two), (three, four)))
}

/// Closes a group with its four seats.
fn four_closed(
    alloc: Global,
    group: Group,
    first: (GroupSeat, GroupSeat),
    second: (GroupSeat, GroupSeat),
) -> Result<GroupReceipt, AllocError>
    requires seats { group.seats ≡ 4 }
    requires one { IsAtRest group.id first.0 }
    requires two { IsAtRest group.id first.1 }
    requires three { IsAtRest group.id second.0 }
    requires four { IsAtRest group.id second.1 }
{
    let mut seats = Vec::new(alloc);
    seats.push(first.0)?;
    seats.push(first.1)?;
    seats.push(second.0)?;
    seats.push(second.1)?;
    Ok(group.close(seats))
}
