//! The group, how it opens, and how it closes with its receipt.

ghost use Rattle.std.specs.Prelude.{◌≡◌, ◌<◌, ◌≤◌, ℕ, ◌+◌, [], ◌∷◌, Some, map, length, vec_capacity, IfOk, OnOk, All};
ghost use Rattle.sn_group.specs.Cells.{named, full_word, weigh, IsSmall};
ghost use Rattle.sn_group.specs.Views.{dealt as dealt_view, all_gained, all_given};
ghost use Rattle.sn_group.specs.Seats.{new_seats, log_of, IsAtRest, IsGathered};
ghost use Rattle.sn_group.specs.Receipts.{logs_of};

use crate::plays::{Deals, Gathers};
use crate::receipt::{GroupReceipt, collect};
use crate::seat::GroupSeat;
use crate::view::{CellSeat, CellSteps, CellTable, Opening};
use crate::words::full;
use sn_core::Packet as Named;
use sn_packet::Packet;
use std::alloc::{AllocError, Global};
use std::marker::Model;
use std::snapshot::Snapshot;

/// Cells that seats in any thread take packets from and give packets to.
///
/// A contract sees which group it is, the packets that it opened with, in the order of cells, and how many seats it has.
#[derive(Drop)]
pub struct Group {
    pub(crate) table: CellTable,
    // Memory for the packets that `close` gives.
    spare: Vec<Packet>,
}

impl Model for Group {
    ghost use Rattle.std.specs.Prelude.{◌≡◌, ◌<◌, ◌≤◌, ℕ, [], length, vec_capacity};
    ghost use Rattle.sn_group.specs.Seats.{GroupState};

    ghost Value = { GroupState };

    ghost view = { λ g. record {
      id = g.table.shared.table_id;
      opened = g.table.shared.key.packets.items;
      seats = g.table.shared.key.seats;
    } };

    ghost invariant = { λ g. (g.table.shared.table_id.words ≡ length g.table.shared.key.packets.items)
        × (g.table.shared.table_id.slots ≡ length g.table.shared.key.packets.items)
        × (0 < length g.table.shared.key.packets.items) × (0 < g.table.shared.key.seats) × (g.spare.items ≡ [])
        × (length g.table.shared.key.packets.items ≤ vec_capacity g.spare) };
}

impl Group {
    /// A group whose cells have these packets, in their order, with its seats by number.
    ///
    /// # Errors
    /// Want of memory.
    pub fn new(
        alloc: Global,
        packets: Vec<Packet>,
        seats: u32,
    ) -> Result<(Group, Vec<GroupSeat>), AllocError>
        requires packets { 1 ≤ length packets.items }
        requires seats { 1 ≤ seats }
        ensures opened { IfOk result (λ made. made.0.opened ≡ map named packets.items) }
        ensures count { IfOk result (λ made. made.0.seats ≡ seats) }
        ensures seats { IfOk result (λ made. made.1.items ≡ new_seats made.0.id seats) }
    {
        let all = packets.as_slice();
        let words = words_of(alloc, all)?;
        let opening = Opening {
            packets: names_of(alloc, all)?,
            seats,
            groups: 1,
        };
        let spare = Vec::with_capacity(alloc, packets.len())?;
        let mut dealt = Vec::with_capacity(alloc, seats as usize)?;
        let slots = slots_of(alloc, packets)?;
        let Ok((table, seat)) = CellTable::new(alloc, words.as_slice(), slots, &opening) else {
            return Err(AllocError);
        };
        deal(&table.shared, seat, seats, &mut dealt);
        Ok((Group { table, spare }, dealt))
    }

    /// Closes the group, once all its seats are done.
    pub fn close(self, seats: Vec<GroupSeat>) -> GroupReceipt
        requires all { length seats.items ≡ self.seats }
        requires rest { All (IsAtRest self.id) seats.items }
        ensures logs { logs_of result ≡ map log_of seats.items }
        ensures balance { (h : ℕ → ℕ → ℕ) → weigh h self.opened + all_given h (logs_of result)
            ≡ all_gained h (logs_of result) + weigh h (map named result.packets.items) }
    {
        let Group { table, spare } = self;
        let whole = gather(&table.shared, seats);
        let logs = Snapshot::of(&whole);
        let closed = table.close_with(whole);
        GroupReceipt {
            packets: collect(closed, spare),
            logs,
        }
    }

    /// How many cells there are.
    pub(crate) fn cells(&self) -> usize
        ensures count { result ≡ length self.now.opened }
        ensures words { result ≡ self.now.id.words }
        ensures slots { result ≡ self.now.id.slots }
    {
        self.table.word_count()
    }
}

/// Cuts the first seat into as many as there are to be, and adds them by number.
fn deal(steps: &CellSteps, first: CellSeat, seats: u32, dealt: &mut Vec<GroupSeat>)
    requires table { first.table_id ≡ steps.now.table_id }
    requires words { 0 < steps.now.table_id.words }
    requires slots { 0 < steps.now.table_id.slots }
    requires view { first.me ≡ (dealt_view 1 0 seats, []) }
    requires groups { steps.now.key.groups ≡ 1 }
    requires seats { 1 ≤ seats }
    requires none { dealt.old.items ≡ [] }
    requires room { seats ≤ vec_capacity dealt.old }
    ensures { dealt.new.items ≡ new_seats steps.now.table_id seats }
{
    let mut seat = first;
    for _ in 0..seats - 1 {
        let rest = steps.split_seat::<Deals>(&mut seat);
        dealt.push_reserved(GroupSeat::fresh(seat));
        seat = rest;
    }
    dealt.push_reserved(GroupSeat::fresh(seat));
}

/// Joins all seats into one, from the last to the first.
fn gather(steps: &CellSteps, mut seats: Vec<GroupSeat>) -> CellSeat
    requires some { 0 < length seats.items }
    requires words { 0 < steps.now.table_id.words }
    requires rest { All (IsAtRest steps.now.table_id) seats.items }
    ensures table { result.table_id ≡ steps.now.table_id }
    ensures all { IsGathered (length seats.items) (map log_of seats.items) result.me }
{
    let Some(last) = seats.pop() else {
        unreachable!()
    };
    let mut whole = last.into_token();
    while seats.len() > 0 {
        let Some(next) = seats.pop() else {
            unreachable!()
        };
        steps.join_seat::<Gathers>(&mut whole, next.into_token());
    }
    whole
}

/// The words of full cells.
fn words_of(alloc: Global, packets: &[Packet]) -> Result<Vec<u64>, AllocError>
    ensures words { IfOk result (λ words. words.items ≡ map (λ packet. full_word packet.number packet.turn) packets.now) }
    ensures small { OnOk result (All IsSmall packets.now) }
{
    let mut words = Vec::with_capacity(alloc, packets.len())?;
    for packet in packets {
        words.push(full(packet.number(), packet.turn()))?;
    }
    Ok(words)
}

/// The packets by number and turn.
fn names_of(alloc: Global, packets: &[Packet]) -> Result<Vec<Named>, AllocError>
    ensures { IfOk result (λ names. names.items ≡ map named packets.now) }
{
    packets
        .iter()
        .map(|packet| Named {
            number: packet.number(),
            turn: packet.turn(),
        })
        .collect(alloc)
}

/// The packets in their slots.
fn slots_of(alloc: Global, packets: Vec<Packet>) -> Result<Vec<Option<Packet>>, AllocError>
    ensures { IfOk result (λ slots. slots.items ≡ map (λ packet. Some packet) packets.items) }
{
    packets
        .into_iter()
        .map(|packet| Some(packet))
        .collect(alloc)
}
