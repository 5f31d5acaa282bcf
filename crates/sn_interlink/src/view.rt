//! What the seats of an interlink's table know, and the rule over its words, slots and views.

use crate::entry::LaneEntry;
use atomic_table::{Seat, Table, TableRule};
use sn_core::Side;
use sn_packet::Packet;
use std::alloc::Global;
use std::collections::LinkedList;

/// Whether an end is out, is up, or closes the interlink.
#[derive(Clone, Copy, Debug, PartialEq, Eq)]
pub enum EndState {
    Out,
    Up,
    Closing,
}

/// The positions that an end may move, by the far word that it loaded: the next one and the bound.
/// The slot of the next one is out with the end. No value of it is made.
pub enum Hand {
    /// No far word was loaded.
    Nothing,
    /// Positions to be put.
    Writing(u64, u64),
    /// Positions to be taken or drained, and the packet in the slot of the next one.
    Reading(u64, u64, Option<Packet>),
}

/// What one end knows. No value of it is made.
pub struct Known {
    /// Its steps, as far as they are settled: a taken place that isn't released is not among them.
    pub log: LinkedList<LaneEntry>,
    pub state: EndState,
    /// How often it loaded the state word.
    pub loads: u64,
    /// What it loaded last of the state word, where it tried no attaching since.
    pub seen: Option<u64>,
    /// What it loaded last of the other end's word.
    pub far: u64,
    /// Its own position, where it is known.
    pub place: Option<u64>,
    pub hand: Hand,
}

/// What one seat knows. No value of it is made.
pub enum View {
    /// Both ends of a new interlink: the transmitter and the receiver.
    Fresh(Known, Known),
    /// One end.
    One(Side, Known),
    /// Both ends, joined again.
    Both(Known, Known),
    /// Nothing more.
    Spent,
}

/// Words, slots and views are what one history of the two ends leads to.
pub struct HistoryLeads;

impl TableRule<Option<Packet>, View, ()> for HistoryLeads {
    ghost use Rattle.sn_interlink.specs.Rule.{Rule, opening_view};

    ghost holds = { λ _. Rule };

    ghost first = { λ _. opening_view };
}

/// Three words (the state, the next position to put, the next position to read) and a slot for each place of the ring.
pub type RingTable = Table<Option<Packet>, View, (), HistoryLeads, Global>;

/// The right of an end to step. It has no bytes.
pub type RingSeat = Seat<Option<Packet>, View>;
