//! The token that takes packets from a group and gives them back.

ghost use Rattle.std.specs.Prelude.{◌≡◌, ◌<◌, ◌∷◌, ◌++◌, [], false, map, length, IfSome};
ghost use Rattle.sn_packet.specs.Packet.{is_worn};
ghost use Rattle.sn_group.specs.Cells.{named};
ghost use Rattle.sn_group.specs.Views.{dealt};
ghost use Rattle.sn_group.specs.Scans.{PassedFull, PassedEmpty, PassesEach};
ghost use Rattle.sn_group.specs.Seats.{new_seat, after_taking, after_giving, TakeScan, GiveScan, IsDryOnlyWhere, IsFullOnlyWhere, IsClaimedWithin, IsRested, after_given, IsRaised};

use crate::answers::{GiveClaim, Pending, TakeClaim};
use crate::give_scan::find_empty;
use crate::group::Group;
use crate::plays::{GiveEnds, TakeEnds};
use crate::take_scan::find_full;
use crate::view::CellSeat;
use crate::words::{EMPTY, full, number_of, turn_of};
use sn_packet::Packet;
use std::marker::Model;

/// The token that takes packets from a group and gives them back, one at a time.
///
/// A contract sees its group and its own number, its log, what is under way, where its next scans start, and what its
/// last scan saw.
#[derive(Drop)]
pub struct GroupSeat {
    pub(crate) seat: CellSeat,
    pub(crate) pending: Pending,
    // The cells that were claimed last, to take and to give.
    pub(crate) take_from: usize,
    pub(crate) give_from: usize,
    // The packet of the transfer, with its turn not raised.
    pub(crate) number: u32,
    pub(crate) turn: u64,
    // The packet, from its claim until it is in.
    pub(crate) kept: Option<Packet>,
}

impl Model for GroupSeat {
    ghost use Rattle.std.specs.Prelude.{◌<◌};
    ghost use Rattle.sn_group.specs.Seats.{SeatState, seat_state, IsSeat};

    ghost Value = { SeatState };

    ghost view = { λ s. seat_state s.seat.table_id s.seat.me.0 s.pending s.number s.turn s.take_from s.give_from };

    ghost invariant = { λ s. IsSeat s.pending s.take_from s.give_from s.number s.turn s.kept s.seat.me
        × (s.take_from < s.seat.table_id.slots) × (s.give_from < s.seat.table_id.slots) };
}

impl GroupSeat {
    /// A seat that has done nothing.
    pub(crate) fn fresh(seat: CellSeat) -> GroupSeat
        requires view { seat.me ≡ (dealt 1 seat.me.0.number 1, []) }
        requires slots { 0 < seat.table_id.slots }
        ensures { result ≡ new_seat seat.table_id seat.me.0.number }
    {
        GroupSeat {
            seat,
            pending: Pending::Nothing,
            take_from: 0,
            give_from: 0,
            number: 0,
            turn: 0,
            kept: None,
        }
    }

    /// The token of a seat at rest.
    pub(crate) fn into_token(self) -> CellSeat
        requires rest { self.pending ≡ Pending.Nothing }
        ensures table { result.table_id ≡ self.group }
        ensures rested { IsRested self result.me }
    {
        let GroupSeat {
            seat,
            pending: _,
            take_from: _,
            give_from: _,
            number: _,
            turn: _,
            kept,
        } = self;
        drop(kept);
        seat
    }

    /// How far the transfer that is under way has come.
    pub fn pending(&self) -> Pending
        ensures { result ≡ self.now.pending }
    {
        self.pending
    }

    /// Claims a full cell: the first that can be claimed, from the cell that was claimed last to take on. Each cell is
    /// loaded once, and a full one is exchanged from the word just loaded.
    pub fn take_claim(&mut self, group: &Group) -> TakeClaim
        requires group { self.old.group ≡ group.now.id }
        requires idle { self.old.pending ≡ Pending.Nothing }
        ensures state { self.new ≡ after_taking result self.new.take_from self.new.scan self.old }
        ensures scan { TakeScan (length group.now.opened) self.old.take_from result self.new.take_from self.new.scan }
        ensures dry { IsDryOnlyWhere (PassesEach PassedFull (length group.now.opened) self.new.scan) result }
        ensures within { IsClaimedWithin result }
    {
        let cells = group.cells();
        let Some((cell, word)) = find_full(
            &group.table.shared,
            &mut self.seat,
            cells,
            self.take_from,
        ) else {
            return TakeClaim::Dry;
        };
        self.pending = Pending::Taking;
        self.take_from = cell;
        self.number = number_of(word);
        self.turn = turn_of(word);
        TakeClaim::Claimed {
            number: self.number,
            turn: self.turn,
        }
    }

    /// Takes the packet out of the claimed cell.
    pub fn take_out(&mut self, group: &Group) -> Packet
        requires group { self.old.group ≡ group.now.id }
        requires taking { self.old.pending ≡ Pending.Taking }
        ensures packet { self.old.carried ≡ named result ∷ [] }
        ensures state { self.new ≡ record self.old { pending = Pending.TakenOut; carried = [] } }
    {
        let load = group
            .table
            .shared
            .exchange(&mut self.seat, self.take_from, None);
        self.pending = Pending::TakenOut;
        let Some(packet) = load else { unreachable!() };
        packet
    }

    /// Lets the emptied cell go.
    pub fn take_done(&mut self, group: &Group)
        requires group { self.old.group ≡ group.now.id }
        requires out { self.old.pending ≡ Pending.TakenOut }
        ensures state { self.new ≡ record self.old { pending = Pending.Nothing } }
    {
        group
            .table
            .shared
            .store::<TakeEnds>(&mut self.seat, self.take_from, EMPTY);
        self.pending = Pending::Nothing;
    }

    /// Claims an empty cell for a packet: the first that can be claimed, from the cell that was claimed last to give
    /// on. Each cell is loaded once, and an empty one is exchanged from the 0 just loaded.
    pub fn give_claim(&mut self, group: &Group, packet: Packet) -> GiveClaim
        requires group { self.old.group ≡ group.now.id }
        requires idle { self.old.pending ≡ Pending.Nothing }
        requires fresh { is_worn packet ≡ false }
        ensures state { self.new ≡ after_giving packet result self.new.give_from self.new.scan self.old }
        ensures scan { GiveScan (length group.now.opened) self.old.give_from result self.new.give_from self.new.scan }
        ensures full { IsFullOnlyWhere (λ back. PassesEach PassedEmpty (length group.now.opened) self.new.scan) result }
        ensures back { IsFullOnlyWhere (λ back. back ≡ packet) result }
    {
        let number = packet.number();
        let turn = packet.turn();
        let cells = group.cells();
        let word = full(number, turn);
        let Some(cell) = find_empty(
            &group.table.shared,
            &mut self.seat,
            cells,
            self.give_from,
            word,
        ) else {
            return GiveClaim::Full(packet);
        };
        self.pending = Pending::Giving;
        self.give_from = cell;
        self.number = number;
        self.turn = turn;
        self.kept = Some(packet);
        GiveClaim::Claimed
    }

    /// Lays the packet into the claimed cell, with its turn raised.
    pub fn give_in(&mut self, group: &Group)
        requires group { self.old.group ≡ group.now.id }
        requires giving { self.old.pending ≡ Pending.Giving }
        ensures state { self.new ≡ record self.old { pending = Pending.GivenIn } }
    {
        let Some(mut packet) = self.kept.take() else {
            unreachable!()
        };
        packet.up();
        let empty = group
            .table
            .shared
            .exchange(&mut self.seat, self.give_from, Some(packet));
        let None = empty else { unreachable!() };
        self.pending = Pending::GivenIn;
    }

    /// Lets the filled cell go, and answers the packet's number and its raised turn.
    pub fn give_done(&mut self, group: &Group) -> (u32, u64)
        requires group { self.old.group ≡ group.now.id }
        requires given { self.old.pending ≡ Pending.GivenIn }
        ensures given { IsRaised self.old.carried result.0 result.1 }
        ensures state { self.new ≡ after_given result.0 result.1 self.old }
    {
        let turn = self.turn + 1;
        group
            .table
            .shared
            .store::<GiveEnds>(&mut self.seat, self.give_from, full(self.number, turn));
        self.pending = Pending::Nothing;
        (self.number, turn)
    }
}
