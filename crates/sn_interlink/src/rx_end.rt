//! The receiver.

ghost use Rattle.std.specs.Prelude.{◌≡◌, ◌<◌, ◌-◌, true, false, Some, IsSome};
ghost use Rattle.sn_core.specs.declared.events.Side.TheVariants.{Rx};
ghost use Rattle.sn_interlink.specs.declared.view.EndState.TheVariants.{Out, Up, Closing};
ghost use Rattle.sn_interlink.specs.Course.{is_down};
ghost use Rattle.sn_interlink.specs.Plays.{Finds, InRing};
ghost use Rattle.sn_interlink.specs.Ends.{can_look, reach_of, looks_at, sets_free, syncs_at, sees_packets, takes_out, releases};
ghost use Rattle.sn_interlink.specs.Answers.{AttachStep, DetachStep, DrainStep, found_in, left_word};

use crate::answers::{Attached, Detached};
use crate::end::End;
use crate::interlink::Interlink;
use crate::view::EndState;
use sn_packet::Packet;
use std::marker::Model;

/// The end that takes packets. It belongs to one worker.
#[derive(Drop)]
pub struct RxEnd {
    pub(crate) end: End,
}

impl Model for RxEnd {
    ghost use Rattle.std.specs.Prelude.{◌≡◌};
    ghost use Rattle.sn_core.specs.declared.events.Side.TheVariants.{Rx};
    ghost use Rattle.sn_interlink.specs.Ends.{LaneEnd};

    ghost Value = { LaneEnd };

    ghost view = { λ rx. rx.end };

    ghost invariant = { λ rx. rx.end.side ≡ Rx };
}

impl RxEnd {
    pub(crate) fn of(end: End) -> RxEnd
        requires { end.side ≡ Rx }
        ensures { result ≡ end }
    {
        RxEnd { end }
    }

    /// Whether the end knows its position: from `sync` on, until it is out.
    pub fn synced(&self) -> bool
        ensures { result ≡ self.now.synced }
    {
        self.end.synced()
    }

    pub(crate) fn into_end(self) -> End
        ensures end { result ≡ self }
        ensures side { result.side ≡ Rx }
    {
        let RxEnd { end } = self;
        end
    }

    /// Whether the end is out, up, or closing.
    pub fn state(&self) -> EndState
        ensures { result ≡ self.now.state }
    {
        self.end.state()
    }

    /// Whether something is half done: a packet is taken or drained, and its place not released.
    pub fn half(&self) -> bool
        ensures { result ≡ self.now.half }
    {
        self.end.half()
    }

    /// The position that the end moves next, where it is known: the next to take or to drain.
    pub fn place(&self) -> u64
        ensures { result ≡ self.now.place }
    {
        self.end.place()
    }

    /// The state word, as one load finds it.
    pub fn look_state(&mut self, lane: &Interlink) -> u64
        requires lane { self.old.lane ≡ lane.now }
        ensures word { Finds self.old.side self.old.state result }
        ensures step { self.new ≡ looks_at result self.old }
    {
        self.end.look_state(lane)
    }

    /// The end comes up, unless the state word is another than the one that was seen.
    pub fn attach(&mut self, lane: &Interlink, seen: u64) -> Attached
        requires lane { self.old.lane ≡ lane.now }
        requires out { self.old.state ≡ Out }
        requires seen { self.old.seen ≡ Some seen }
        requires open_yet { is_down seen ≡ false }
        ensures side { self.old.side ≡ Rx }
        ensures word { Finds self.old.side self.old.state (found_in seen result) }
        ensures step { AttachStep seen self.old result self.new }
    {
        self.end.attach(lane, seen)
    }

    /// The end goes. Where the other end isn't up it closes the interlink: it drains what is left, and
    /// sets the interlink free.
    pub fn detach(&mut self, lane: &Interlink) -> Detached
        requires lane { self.old.lane ≡ lane.now }
        requires up { self.old.state ≡ Up }
        requires idle { self.old.half ≡ false }
        requires synced { self.old.synced ≡ true }
        ensures side { self.old.side ≡ Rx }
        ensures word { Finds self.old.side self.old.state (left_word result) }
        ensures step { DetachStep self.old result self.new }
    {
        self.end.detach(lane)
    }

    /// The closing end takes the next packet out. None where nothing is left, and then nothing is done.
    pub fn drain_take(&mut self, lane: &Interlink) -> Option<Packet>
        requires lane { self.old.lane ≡ lane.now }
        requires closing { self.old.state ≡ Closing }
        requires loaded { IsSome self.old.reach }
        requires idle { self.old.half ≡ false }
        ensures step { DrainStep self.old result self.new }
    {
        self.end.drain_take(lane)
    }

    /// The closing end gives the emptied place back.
    pub fn drain_release(&mut self, lane: &Interlink)
        requires lane { self.old.lane ≡ lane.now }
        requires closing { self.old.state ≡ Closing }
        requires half { self.old.half ≡ true }
        ensures step { self.new ≡ releases self.old }
    {
        self.end.drain_release(lane)
    }

    /// The closing end sets the interlink free, once nothing is left.
    pub fn reset(&mut self, lane: &Interlink)
        requires lane { self.old.lane ≡ lane.now }
        requires closing { self.old.state ≡ Closing }
        requires nothing_left { self.old.reach ≡ Some 0 }
        requires idle { self.old.half ≡ false }
        ensures step { self.new ≡ sets_free self.old }
    {
        self.end.reset(lane)
    }

    /// Learns the position, by one load of the word that only this end writes while it is up.
    pub fn sync(&mut self, lane: &Interlink)
        requires lane { self.old.lane ≡ lane.now }
        requires up { self.old.state ≡ Up }
        requires unsynced { self.old.synced ≡ false }
        ensures step { self.new ≡ syncs_at self.new.place self.old }
    {
        self.end.sync(lane)
    }

    /// How many packets may be taken, by one load of the position that the transmitter puts next.
    pub fn look(&mut self, lane: &Interlink) -> u32
        requires lane { self.old.lane ≡ lane.now }
        requires knows { can_look self.old ≡ true }
        requires idle { self.old.half ≡ false }
        ensures ring { InRing self.old.place self.new.far }
        ensures answer { result ≡ self.new.far - self.old.place }
        ensures step { self.new ≡ sees_packets self.new.far self.old }
    {
        self.end.look(lane)
    }

    /// Takes the next packet.
    pub fn take(&mut self, lane: &Interlink) -> Packet
        requires lane { self.old.lane ≡ lane.now }
        requires up { self.old.state ≡ Up }
        requires idle { self.old.half ≡ false }
        requires seen { 0 < reach_of self.old }
        ensures step { self.new ≡ takes_out result self.old }
    {
        self.end.take(lane)
    }

    /// Gives the emptied place back.
    pub fn release(&mut self, lane: &Interlink)
        requires lane { self.old.lane ≡ lane.now }
        requires up { self.old.state ≡ Up }
        requires half { self.old.half ≡ true }
        ensures step { self.new ≡ releases self.old }
    {
        self.end.release(lane)
    }
}
