//! Both ends of an interlink, as a bench has them.
ghost use Rattle.std.specs.Prelude.{◌≡◌, ◌<◌, ◌≤◌, OnOk, length, true};
ghost use Rattle.sn_app.specs.Bench.{end_of, ends_of, lane_at, with_side};
ghost use Rattle.sn_app.specs.Desk.{all_published, all_released, end_at, set_end, with_known, with_laid, with_taken};
ghost use Rattle.sn_core.specs.declared.events.Side.TheVariants.{Rx, Tx};

use crate::EndState;
use sn_core::Side;
use sn_packet::Packet;
use std::alloc::{AllocError, Global};
use std::marker::Model;

/// One end of an interlink: how it stands, and how many places it saw and hasn't used.
#[derive(Clone, Copy)]
pub(crate) struct LaneEnd {
    state: EndState,
    known: u32,
}

/// Both ends of an interlink, and what was laid where no entry said that it was put.
#[derive(Drop)]
pub(crate) struct Lane {
    tx: LaneEnd,
    rx: LaneEnd,
    laid: Vec<Packet>,
}

impl Model for Lane {
    ghost use Rattle.std.specs.Prelude.{◌-◌, [], true, vec_capacity, vec_len};
    ghost use Rattle.sn_app.specs.Bench.{LaneEnds};

    ghost Value = { LaneEnds };

    ghost view = { λ l. record {
      tx = record { state = l.tx.state; known = l.tx.known; laid = l.laid.items; unreleased = 0; synced = true };
      rx = record { state = l.rx.state; known = l.rx.known; laid = []; unreleased = 0; synced = true };
      room = vec_capacity l.laid - vec_len l.laid;
    } };
}

impl Lane {
    /// An interlink that nobody attached to.
    pub(crate) fn new(alloc: Global) -> Lane
        ensures tx { result.tx ≡ end_at EndState.Out 0 true }
        ensures rx { result.rx ≡ end_at EndState.Out 0 true }
    {
        let end = LaneEnd {
            state: EndState::Out,
            known: 0,
        };
        Lane {
            tx: end,
            rx: end,
            laid: Vec::new(alloc),
        }
    }

    fn state(&self, side: Side) -> EndState
        ensures { result ≡ (end_of side self.now).state }
    {
        match side {
            Side::Tx => self.tx.state,
            Side::Rx => self.rx.state,
        }
    }

    fn learn(&mut self, side: Side, known: u32)
        ensures { self.new ≡ with_side side (with_known known (end_of side self.old)) self.old }
    {
        match side {
            Side::Tx => self.tx.known = known,
            Side::Rx => self.rx.known = known,
        }
    }

    /// An end that stands so knows of no places, and has laid nothing.
    fn settle(&mut self, side: Side, state: EndState)
        ensures { self.new ≡ record (with_side side (end_at state 0 true) self.old) { room = self.new.room } }
    {
        let end = LaneEnd { state, known: 0 };
        match side {
            Side::Tx => {
                self.tx = end;
                self.laid.clear();
            }
            Side::Rx => self.rx = end,
        }
    }

    fn take(&mut self)
        requires { 0 < self.old.rx.known }
        ensures { self.new ≡ record self.old { rx = all_released (with_taken self.old.rx) } }
    {
        self.rx.known -= 1;
    }

    fn reserve(&mut self) -> Result<(), AllocError>
        ensures room { OnOk result (1 ≤ self.new.room) }
        ensures rest { self.new ≡ record self.old { room = self.new.room } }
    {
        self.laid.reserve(1)
    }

    fn lay(&mut self, packet: Packet)
        requires known { 0 < self.old.tx.known }
        requires room { 1 ≤ self.old.room }
        ensures { self.new ≡ record self.old { tx = with_laid packet self.old.tx; room = self.new.room } }
    {
        self.tx.known -= 1;
        self.laid.push_reserved(packet);
    }

    fn publish(&mut self)
        ensures { self.new ≡ record self.old { tx = all_published self.old.tx; room = self.new.room } }
    {
        self.laid.clear();
    }
}

/// How an end stands.
pub(crate) fn state_at(lanes: &[Lane], lane: u32, side: Side) -> EndState
    requires { lane < length lanes.now }
    ensures { result ≡ (ends_of lanes.now lane side).state }
{
    lanes[lane as usize].state(side)
}

/// So many places are known at an end.
pub(crate) fn learn_at(lanes: &mut Vec<Lane>, lane: u32, side: Side, known: u32)
    requires { lane < length lanes.old.items }
    ensures ends { let ends = ends_of lanes.old.items in
        ends_of lanes.new.items ≡ set_end lane side (with_known known (ends lane side)) ends }
    ensures len { length lanes.new.items ≡ length lanes.old.items }
{
    lanes[lane as usize].learn(side, known);
}

/// An end stands so, knows of no places, and has laid nothing.
pub(crate) fn settle_at(lanes: &mut Vec<Lane>, lane: u32, side: Side, state: EndState)
    requires { lane < length lanes.old.items }
    ensures ends { ends_of lanes.new.items ≡ set_end lane side (end_at state 0 true) (ends_of lanes.old.items) }
    ensures len { length lanes.new.items ≡ length lanes.old.items }
{
    lanes[lane as usize].settle(side, state);
}

/// The receiver's end uses one place that it saw, and gives it back.
pub(crate) fn take_at(lanes: &mut Vec<Lane>, lane: u32)
    requires lane { lane < length lanes.old.items }
    requires known { 0 < (ends_of lanes.old.items lane Rx).known }
    ensures ends { let ends = ends_of lanes.old.items in
        ends_of lanes.new.items ≡ set_end lane Rx (all_released (with_taken (ends lane Rx))) ends }
    ensures len { length lanes.new.items ≡ length lanes.old.items }
{
    lanes[lane as usize].take();
}

/// Makes room for a packet at the transmitter's end.
pub(crate) fn reserve_at(lanes: &mut Vec<Lane>, lane: u32) -> Result<(), AllocError>
    requires { lane < length lanes.old.items }
    ensures room { OnOk result (1 ≤ (lane_at lanes.new.items lane).room) }
    ensures ends { ends_of lanes.new.items ≡ ends_of lanes.old.items }
    ensures len { length lanes.new.items ≡ length lanes.old.items }
{
    lanes[lane as usize].reserve()
}

/// The transmitter's end lays a packet, and uses one place that it saw.
pub(crate) fn lay_at(lanes: &mut Vec<Lane>, lane: u32, packet: Packet)
    requires lane { lane < length lanes.old.items }
    requires known { 0 < (ends_of lanes.old.items lane Tx).known }
    requires room { 1 ≤ (lane_at lanes.old.items lane).room }
    ensures ends { let ends = ends_of lanes.old.items in
        ends_of lanes.new.items ≡ set_end lane Tx (with_laid packet (ends lane Tx)) ends }
    ensures len { length lanes.new.items ≡ length lanes.old.items }
{
    lanes[lane as usize].lay(packet);
}

/// What the transmitter's end laid has gone.
pub(crate) fn publish_at(lanes: &mut Vec<Lane>, lane: u32)
    requires { lane < length lanes.old.items }
    ensures ends { let ends = ends_of lanes.old.items in
        ends_of lanes.new.items ≡ set_end lane Tx (all_published (ends lane Tx)) ends }
    ensures len { length lanes.new.items ≡ length lanes.old.items }
{
    lanes[lane as usize].publish();
}
