//! The transmitter.

ghost use Rattle.std.specs.Prelude.{◌≡◌, ◌<◌, true, false, [], ◌∷◌, Some, IsSome};
ghost use Rattle.sn_core.specs.declared.events.Side.TheVariants.{Tx};
ghost use Rattle.sn_packet.specs.Packet.{is_worn};
ghost use Rattle.sn_interlink.specs.declared.view.EndState.TheVariants.{Out, Up, Closing};
ghost use Rattle.sn_interlink.specs.Course.{is_down};
ghost use Rattle.sn_interlink.specs.Plays.{Finds, room_by, InRing};
ghost use Rattle.sn_interlink.specs.Ends.{is_on_state, reach_of, own_place, looks_at, sets_free, sees_room_as, lays};
ghost use Rattle.sn_interlink.specs.Ends.{takes_back, publishes, releases};
ghost use Rattle.sn_interlink.specs.Answers.{AttachStep, DetachStep, DrainStep, found_in, left_word};

use crate::answers::{Attached, Detached};
use crate::end::End;
use crate::interlink::Interlink;
use crate::view::EndState;
use sn_packet::Packet;
use std::marker::Model;

/// The end that puts packets. It belongs to one worker.
#[derive(Drop)]
pub struct TxEnd {
    pub(crate) end: End,
}

impl Model for TxEnd {
    ghost use Rattle.std.specs.Prelude.{◌≡◌};
    ghost use Rattle.sn_core.specs.declared.events.Side.TheVariants.{Tx};
    ghost use Rattle.sn_interlink.specs.Ends.{LaneEnd};

    ghost Value = { LaneEnd };

    ghost view = { λ tx. tx.end };

    ghost invariant = { λ tx. tx.end.side ≡ Tx };
}

impl TxEnd {
    pub(crate) fn of(end: End) -> TxEnd
        requires { end.side ≡ Tx }
        ensures { result ≡ end }
    {
        TxEnd { end }
    }

    pub(crate) fn into_end(self) -> End
        ensures end { result ≡ self }
        ensures side { result.side ≡ Tx }
    {
        let TxEnd { end } = self;
        end
    }

    /// Whether the end is out, up, or closing.
    pub fn state(&self) -> EndState
        ensures { result ≡ self.now.state }
    {
        self.end.state()
    }

    /// Whether something is half done: a packet is laid and not published, or drained and not released.
    pub fn half(&self) -> bool
        ensures { result ≡ self.now.half }
    {
        self.end.half()
    }

    /// The position that the end moves next: the next to put, and while it closes, the next to drain.
    pub fn place(&self) -> u64
        ensures { result ≡ self.now.place }
    {
        self.end.place()
    }

    /// The state word, as one load finds it.
    pub fn look_state(&mut self, lane: &Interlink) -> u64
        requires lane { self.old.lane ≡ lane.now }
        ensures word { Finds self.old.side self.old.state result }
        ensures step { self.new ≡ looks_at result self.old }
    {
        self.end.look_state(lane)
    }

    /// The end comes up, unless the state word is another than the one that was seen.
    pub fn attach(&mut self, lane: &Interlink, seen: u64) -> Attached
        requires lane { self.old.lane ≡ lane.now }
        requires out { self.old.state ≡ Out }
        requires seen { self.old.seen ≡ Some seen }
        requires open_yet { is_down seen ≡ false }
        ensures side { self.old.side ≡ Tx }
        ensures word { Finds self.old.side self.old.state (found_in seen result) }
        ensures step { AttachStep seen self.old result self.new }
    {
        self.end.attach(lane, seen)
    }

    /// The end goes. Where the other end isn't up it closes the interlink: it drains what is left, and
    /// sets the interlink free.
    pub fn detach(&mut self, lane: &Interlink) -> Detached
        requires lane { self.old.lane ≡ lane.now }
        requires up { self.old.state ≡ Up }
        requires idle { self.old.half ≡ false }
        ensures side { self.old.side ≡ Tx }
        ensures word { Finds self.old.side self.old.state (left_word result) }
        ensures step { DetachStep self.old result self.new }
    {
        self.end.detach(lane)
    }

    /// The closing end takes the next packet out. None where nothing is left, and then nothing is done.
    pub fn drain_take(&mut self, lane: &Interlink) -> Option<Packet>
        requires lane { self.old.lane ≡ lane.now }
        requires closing { self.old.state ≡ Closing }
        requires loaded { IsSome self.old.reach }
        requires idle { self.old.half ≡ false }
        ensures step { DrainStep self.old result self.new }
    {
        self.end.drain_take(lane)
    }

    /// The closing end gives the emptied place back.
    pub fn drain_release(&mut self, lane: &Interlink)
        requires lane { self.old.lane ≡ lane.now }
        requires closing { self.old.state ≡ Closing }
        requires half { self.old.half ≡ true }
        ensures step { self.new ≡ releases self.old }
    {
        self.end.drain_release(lane)
    }

    /// The closing end sets the interlink free, once nothing is left.
    pub fn reset(&mut self, lane: &Interlink)
        requires lane { self.old.lane ≡ lane.now }
        requires closing { self.old.state ≡ Closing }
        requires nothing_left { self.old.reach ≡ Some 0 }
        requires idle { self.old.half ≡ false }
        ensures step { self.new ≡ sets_free self.old }
    {
        self.end.reset(lane)
    }

    /// How many packets may be put, by one load of the position that the receiver reads next: at most 1023,
    /// and none from position 2^62 on. While the end closes, the load tells what is left to be drained.
    pub fn room(&mut self, lane: &Interlink) -> u32
        requires lane { self.old.lane ≡ lane.now }
        requires on { is_on_state self.old.state ≡ true }
        requires idle { self.old.half ≡ false }
        ensures ring { InRing self.new.far (own_place self.old) }
        ensures answer { result ≡ room_by (own_place self.old) self.new.far }
        ensures step { self.new ≡ sees_room_as self.old.state self.new.far (own_place self.old) self.old }
    {
        self.end.room(lane)
    }

    /// Lays the packet into the next place, with its turn raised.
    pub fn put_begin(&mut self, lane: &Interlink, packet: Packet)
        requires lane { self.old.lane ≡ lane.now }
        requires up { self.old.state ≡ Up }
        requires idle { self.old.half ≡ false }
        requires room { 0 < reach_of self.old }
        requires fresh { is_worn packet ≡ false }
        ensures step { self.new ≡ lays packet self.old }
    {
        self.end.put_begin(lane, packet)
    }

    /// Publishes what is laid, and answers its position.
    pub fn put_publish(&mut self, lane: &Interlink) -> u64
        requires lane { self.old.lane ≡ lane.now }
        requires up { self.old.state ≡ Up }
        requires half { self.old.half ≡ true }
        ensures place { result ≡ self.old.place }
        ensures step { self.new ≡ publishes self.old }
    {
        self.end.put_publish(lane)
    }

    /// Takes back what is laid, with its old turn.
    pub fn take_back(&mut self, lane: &Interlink) -> Packet
        requires lane { self.old.lane ≡ lane.now }
        requires up { self.old.state ≡ Up }
        requires half { self.old.half ≡ true }
        ensures packet { self.old.laid ≡ result ∷ [] }
        ensures step { self.new ≡ takes_back self.old }
    {
        self.end.take_back(lane)
    }
}
