//! One end of an interlink, which serves as its transmitter and as its receiver: how it comes up, goes and is set free.
//!
//! - `words`: what it does with the words, as plain numbers
//! - `putting`: what it does as a transmitter
//! - `taking`: what it does as a receiver, and as the one that empties the ring
ghost use Rattle.std.specs.Prelude.{◌≡◌, ◌||◌, [], Some, true, false};
ghost use Rattle.sn_core.specs.declared.events.Side.TheVariants.{Rx};
ghost use Rattle.sn_interlink.specs.Answers.{AttachStep, DetachStep, found_in, left_word};
ghost use Rattle.sn_interlink.specs.Plays.{Finds};
ghost use Rattle.sn_interlink.specs.Closing.{IsSeatOf};
ghost use Rattle.sn_interlink.specs.Course.{is_down};
ghost use Rattle.sn_interlink.specs.Ends.{is_tx, looks_at, new_lane_end, part_of, sets_free, syncs_at};
ghost use Rattle.sn_interlink.specs.Rule.{opening_view};
ghost use Rattle.sn_interlink.specs.declared.view.EndState.TheVariants.{Closing, Out, Up};

mod putting;
mod taking;
mod words;

use crate::answers::{Attached, Detached};
use crate::interlink::{Interlink, READ, STATE};
use crate::plays::{ComesUp, Goes, LooksAt, SetsFree, Syncs};
use crate::view::{EndState, RingSeat};
use sn_core::Side;
use std::marker::Model;
use words::{is_transmitter, left_state, still_synced, unit_of, up_word};

/// One end. Contracts see a `LaneEnd`.
#[derive(Drop)]
pub(crate) struct End {
    seat: RingSeat,
    side: Side,
    state: EndState,
    /// The position that it moves next.
    place: u64,
    /// The positions below it may be moved, where the far word was loaded.
    bound: u64,
    /// Whether the far word was loaded since the end came up or went.
    loaded: bool,
    synced: bool,
    half: bool,
}

impl Model for End {
    ghost use Rattle.std.specs.Prelude.{◌≡◌};
    ghost use Rattle.sn_interlink.specs.Ends.{LaneEnd, fields, end_of, IsEnd};

    ghost Value = { LaneEnd };

    ghost view = { λ e. end_of e.seat.table_id (fields e.side e.state e.place e.bound e.loaded e.synced e.half) e.seat.me };

    ghost invariant = { λ e. IsEnd (fields e.side e.state e.place e.bound e.loaded e.synced e.half) e.seat.me };
}

impl End {
    /// The end of a new interlink with this seat.
    pub(crate) fn new(seat: RingSeat, side: Side) -> End
        requires seat { seat.me ≡ (part_of side opening_view, []) }
        ensures { result ≡ new_lane_end seat.table_id side }
    {
        End {
            seat,
            side,
            state: EndState::Out,
            place: 0,
            bound: 0,
            loaded: false,
            synced: is_transmitter(side),
            half: false,
        }
    }

    /// The seat of an end that is out.
    pub(crate) fn into_seat(self) -> RingSeat
        requires out { self.state ≡ Out }
        ensures { IsSeatOf self result.table_id result.me }
    {
        let End {
            seat,
            side: _,
            state: _,
            place: _,
            bound: _,
            loaded: _,
            synced: _,
            half: _,
        } = self;
        seat
    }

    pub(crate) fn state(&self) -> EndState
        ensures { result ≡ self.now.state }
    {
        self.state
    }

    pub(crate) fn half(&self) -> bool
        ensures { result ≡ self.now.half }
    {
        self.half
    }

    pub(crate) fn synced(&self) -> bool
        ensures { result ≡ self.now.synced }
    {
        self.synced
    }

    pub(crate) fn place(&self) -> u64
        ensures { result ≡ self.now.place }
    {
        self.place
    }

    pub(crate) fn look_state(&mut self, lane: &Interlink) -> u64
        requires lane { self.old.lane ≡ lane.now }
        ensures word { Finds self.old.side self.old.state result }
        ensures step { self.new ≡ looks_at result self.old }
    {
        lane.table.shared.load::<LooksAt>(&mut self.seat, STATE)
    }

    pub(crate) fn attach(&mut self, lane: &Interlink, seen: u64) -> Attached
        requires lane { self.old.lane ≡ lane.now }
        requires out { self.old.state ≡ Out }
        requires seen { self.old.seen ≡ Some seen }
        requires open_yet { is_down seen ≡ false }
        ensures word { Finds self.old.side self.old.state (found_in seen result) }
        ensures step { AttachStep seen self.old result self.new }
    {
        let new = up_word(self.side, seen);
        let found = lane
            .table
            .shared
            .compare_exchange::<ComesUp>(&mut self.seat, STATE, seen, new);
        if found != seen {
            return Attached::Again(found);
        }
        self.state = EndState::Up;
        self.synced = is_transmitter(self.side);
        Attached::Up
    }

    pub(crate) fn detach(&mut self, lane: &Interlink) -> Detached
        requires lane { self.old.lane ≡ lane.now }
        requires up { self.old.state ≡ Up }
        requires idle { self.old.half ≡ false }
        requires synced { (is_tx self.old.side || self.old.synced) ≡ true }
        ensures word { Finds self.old.side self.old.state (left_word result) }
        ensures step { DetachStep self.old result self.new }
    {
        let added = unit_of(self.side);
        let word = lane
            .table
            .shared
            .fetch_add::<Goes>(&mut self.seat, STATE, added);
        let left = left_state(self.side, word);
        self.state = left;
        self.loaded = false;
        self.synced = still_synced(left, self.side, self.synced);
        match left {
            EndState::Out => Detached::Other(word),
            EndState::Up => Detached::Other(word),
            EndState::Closing => Detached::Closer(word),
        }
    }

    pub(crate) fn reset(&mut self, lane: &Interlink)
        requires lane { self.old.lane ≡ lane.now }
        requires closing { self.old.state ≡ Closing }
        requires nothing_left { self.old.reach ≡ Some 0 }
        requires idle { self.old.half ≡ false }
        ensures step { self.new ≡ sets_free self.old }
    {
        lane.table
            .shared
            .store::<SetsFree>(&mut self.seat, STATE, 0);
        self.state = EndState::Out;
        self.loaded = false;
        self.synced = is_transmitter(self.side);
    }

    pub(crate) fn sync(&mut self, lane: &Interlink)
        requires lane { self.old.lane ≡ lane.now }
        requires rx { self.old.side ≡ Rx }
        requires up { self.old.state ≡ Up }
        requires unsynced { self.old.synced ≡ false }
        ensures step { self.new ≡ syncs_at self.new.place self.old }
    {
        self.place = lane.table.shared.load::<Syncs>(&mut self.seat, READ);
        self.synced = true;
    }
}
