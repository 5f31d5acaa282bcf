//! One end of an interlink, as a seat keeps it: a transmitter or a receiver.
ghost use Rattle.std.specs.Prelude.{◌≡◌, ◌≤◌, ◌<◌, IsSome, Some, false, true};
ghost use Rattle.sn_core.specs.declared.events.Side.TheVariants.{Rx, Tx};
ghost use Rattle.sn_packet.specs.Packet.{is_worn};
ghost use Rattle.sn_interlink.specs.Answers.{DetachStep, found_in, left_word};
ghost use Rattle.sn_interlink.specs.Course.{is_down};
ghost use Rattle.sn_interlink.specs.Ends.{can_look, is_on_state, lays, looks_at, publishes, reach_of, releases, sets_free};
ghost use Rattle.sn_interlink.specs.Ends.{takes_out};
ghost use Rattle.sn_interlink.specs.Plays.{Finds};
ghost use Rattle.sn_interlink.specs.declared.view.EndState.TheVariants.{Closing, Out, Up};
ghost use Rattle.sn_seat.specs.EndSteps.{DrainedStep, SeesFar, UpStep};
ghost use Rattle.sn_seat.specs.SeatEnds.{end_in, side_in};

use sn_core::Side;
use sn_interlink::{Attached, Detached, EndState, Interlink, RxEnd, TxEnd};
use sn_packet::Packet;

/// An end of an interlink.
#[derive(Drop)]
pub enum SeatEnd {
    /// The transmitter.
    Transmitter(TxEnd),
    /// The receiver.
    Receiver(RxEnd),
}

impl SeatEnd {
    /// Whether it is the end of this side.
    pub(crate) fn side(&self) -> Side
        ensures { result ≡ side_in self.now }
    {
        match self {
            SeatEnd::Transmitter(_) => Side::Tx,
            SeatEnd::Receiver(_) => Side::Rx,
        }
    }

    pub(crate) fn state(&self) -> EndState
        ensures { result ≡ (end_in self.now).state }
    {
        match self {
            SeatEnd::Transmitter(end) => end.state(),
            SeatEnd::Receiver(end) => end.state(),
        }
    }

    /// The position that the end moves next.
    pub(crate) fn place(&self) -> u64
        ensures { result ≡ (end_in self.now).place }
    {
        match self {
            SeatEnd::Transmitter(end) => end.place(),
            SeatEnd::Receiver(end) => end.place(),
        }
    }

    /// The state word, as one load finds it.
    pub(crate) fn look_state(&mut self, lane: &Interlink) -> u64
        requires lane { (end_in self.old).lane ≡ lane.now }
        ensures word { Finds (end_in self.old).side (end_in self.old).state result }
        ensures step { end_in self.new ≡ looks_at result (end_in self.old) }
        ensures side { side_in self.new ≡ side_in self.old }
    {
        match self {
            SeatEnd::Transmitter(end) => end.look_state(lane),
            SeatEnd::Receiver(end) => end.look_state(lane),
        }
    }

    /// The end comes up, unless the state word is another than the one that was seen. A receiver reads its position then.
    pub(crate) fn attach(&mut self, lane: &Interlink, seen: u64) -> Attached
        requires lane { (end_in self.old).lane ≡ lane.now }
        requires out { (end_in self.old).state ≡ Out }
        requires seen { (end_in self.old).seen ≡ Some seen }
        requires open_yet { is_down seen ≡ false }
        ensures word { Finds (end_in self.old).side (end_in self.old).state (found_in seen result) }
        ensures step { UpStep (side_in self.old) seen (end_in self.old) result (end_in self.new) }
        ensures side { side_in self.new ≡ side_in self.old }
    {
        match self {
            SeatEnd::Transmitter(end) => end.attach(lane, seen),
            SeatEnd::Receiver(end) => attach_receiver(end, lane, seen),
        }
    }

    /// The end goes.
    pub(crate) fn detach(&mut self, lane: &Interlink) -> Detached
        requires lane { (end_in self.old).lane ≡ lane.now }
        requires up { (end_in self.old).state ≡ Up }
        requires idle { (end_in self.old).half ≡ false }
        requires synced { (end_in self.old).synced ≡ true }
        ensures word { Finds (end_in self.old).side (end_in self.old).state (left_word result) }
        ensures step { DetachStep (end_in self.old) result (end_in self.new) }
        ensures side { side_in self.new ≡ side_in self.old }
    {
        match self {
            SeatEnd::Transmitter(end) => end.detach(lane),
            SeatEnd::Receiver(end) => end.detach(lane),
        }
    }

    /// How many places the end sees, by one load of the other end's word: room of a transmitter, packets of a receiver.
    pub(crate) fn look_far(&mut self, lane: &Interlink) -> u32
        requires lane { (end_in self.old).lane ≡ lane.now }
        requires knows { can_look (end_in self.old) ≡ true }
        requires idle { (end_in self.old).half ≡ false }
        ensures few { result ≤ 1023 }
        ensures step { SeesFar (side_in self.old) result (end_in self.old) (end_in self.new) }
        ensures side { side_in self.new ≡ side_in self.old }
    {
        match self {
            SeatEnd::Transmitter(end) => see_room(end, lane),
            SeatEnd::Receiver(end) => see_packets(end, lane),
        }
    }

    /// A transmitter puts the packet, and answers its position.
    pub(crate) fn put(&mut self, lane: &Interlink, packet: Packet) -> u64
        requires side { side_in self.old ≡ Tx }
        requires lane { (end_in self.old).lane ≡ lane.now }
        requires up { (end_in self.old).state ≡ Up }
        requires idle { (end_in self.old).half ≡ false }
        requires room { 0 < reach_of (end_in self.old) }
        requires fresh { is_worn packet ≡ false }
        ensures place { result ≡ (end_in self.old).place }
        ensures step { end_in self.new ≡ publishes (lays packet (end_in self.old)) }
        ensures side { side_in self.new ≡ Tx }
    {
        match self {
            SeatEnd::Transmitter(end) => {
                end.put_begin(lane, packet);
                end.put_publish(lane)
            }
            SeatEnd::Receiver(_) => unreachable!(),
        }
    }

    /// A receiver takes the next packet, and gives its place back.
    pub(crate) fn take(&mut self, lane: &Interlink) -> Packet
        requires side { side_in self.old ≡ Rx }
        requires lane { (end_in self.old).lane ≡ lane.now }
        requires up { (end_in self.old).state ≡ Up }
        requires idle { (end_in self.old).half ≡ false }
        requires seen { 0 < reach_of (end_in self.old) }
        ensures step { end_in self.new ≡ releases (takes_out result (end_in self.old)) }
        ensures side { side_in self.new ≡ Rx }
    {
        match self {
            SeatEnd::Transmitter(_) => unreachable!(),
            SeatEnd::Receiver(end) => {
                let packet = end.take(lane);
                end.release(lane);
                packet
            }
        }
    }

    /// The closing end takes the next packet out, and gives its place back. None where nothing is left.
    pub(crate) fn drain(&mut self, lane: &Interlink) -> Option<Packet>
        requires lane { (end_in self.old).lane ≡ lane.now }
        requires closing { (end_in self.old).state ≡ Closing }
        requires loaded { IsSome (end_in self.old).reach }
        requires idle { (end_in self.old).half ≡ false }
        ensures step { DrainedStep (end_in self.old) result (end_in self.new) }
        ensures side { side_in self.new ≡ side_in self.old }
    {
        match self {
            SeatEnd::Transmitter(end) => drain_transmitter(end, lane),
            SeatEnd::Receiver(end) => drain_receiver(end, lane),
        }
    }

    /// The closing end sets the interlink free, once nothing is left.
    pub(crate) fn reset(&mut self, lane: &Interlink)
        requires lane { (end_in self.old).lane ≡ lane.now }
        requires closing { (end_in self.old).state ≡ Closing }
        requires nothing_left { (end_in self.old).reach ≡ Some 0 }
        requires idle { (end_in self.old).half ≡ false }
        ensures step { end_in self.new ≡ sets_free (end_in self.old) }
        ensures side { side_in self.new ≡ side_in self.old }
    {
        match self {
            SeatEnd::Transmitter(end) => end.reset(lane),
            SeatEnd::Receiver(end) => end.reset(lane),
        }
    }
}

fn attach_receiver(end: &mut RxEnd, lane: &Interlink, seen: u64) -> Attached
    requires lane { end.old.lane ≡ lane.now }
    requires out { end.old.state ≡ Out }
    requires seen { end.old.seen ≡ Some seen }
    requires open_yet { is_down seen ≡ false }
    ensures side { end.old.side ≡ Rx }
    ensures word { Finds end.old.side end.old.state (found_in seen result) }
    ensures step { UpStep Rx seen end.old result end.new }
{
    match end.attach(lane, seen) {
        Attached::Up => {
            end.sync(lane);
            Attached::Up
        }
        Attached::Again(found) => Attached::Again(found),
    }
}

fn see_room(end: &mut TxEnd, lane: &Interlink) -> u32
    requires lane { end.old.lane ≡ lane.now }
    requires on { is_on_state end.old.state ≡ true }
    requires idle { end.old.half ≡ false }
    ensures few { result ≤ 1023 }
    ensures step { SeesFar Tx result end.old end.new }
{
    end.room(lane)
}

fn see_packets(end: &mut RxEnd, lane: &Interlink) -> u32
    requires lane { end.old.lane ≡ lane.now }
    requires knows { can_look end.old ≡ true }
    requires idle { end.old.half ≡ false }
    ensures few { result ≤ 1023 }
    ensures step { SeesFar Rx result end.old end.new }
{
    end.look(lane)
}

fn drain_transmitter(end: &mut TxEnd, lane: &Interlink) -> Option<Packet>
    requires lane { end.old.lane ≡ lane.now }
    requires closing { end.old.state ≡ Closing }
    requires loaded { IsSome end.old.reach }
    requires idle { end.old.half ≡ false }
    ensures step { DrainedStep end.old result end.new }
{
    match end.drain_take(lane) {
        None => None,
        Some(packet) => {
            end.drain_release(lane);
            Some(packet)
        }
    }
}

fn drain_receiver(end: &mut RxEnd, lane: &Interlink) -> Option<Packet>
    requires lane { end.old.lane ≡ lane.now }
    requires closing { end.old.state ≡ Closing }
    requires loaded { IsSome end.old.reach }
    requires idle { end.old.half ≡ false }
    ensures step { DrainedStep end.old result end.new }
{
    match end.drain_take(lane) {
        None => None,
        Some(packet) => {
            end.drain_release(lane);
            Some(packet)
        }
    }
}
