//! What a seat knows of a group, and the rule over the words, the slots and all views.

use crate::entry::{GroupEntry, Probe};
use atomic_table::{Seat, Shared, Table, TableRule};
use sn_core::Packet as Named;
use sn_packet::Packet;
use std::alloc::Global;
use std::collections::LinkedList;

/// What one seat knows. No value of it is made.
pub struct View {
    /// The seat's own number.
    pub number: u64,
    /// How many freelists the group is cut into: one so far.
    pub groups: u64,
    /// How many seats it stands for: itself, and those that it will make or that were joined into it.
    pub parts: u64,
    /// What its steps said, the first first.
    pub log: LinkedList<LinkedList<GroupEntry>>,
    /// The logs of the seats that were joined into it, each with the seat's number.
    pub joined: LinkedList<(u64, LinkedList<LinkedList<GroupEntry>>)>,
    /// The cells that it has claimed.
    pub cells: LinkedList<u64>,
    /// What the scan that is under way saw, the newest first.
    pub scan: LinkedList<Probe>,
    /// What the last scan saw, the newest first.
    pub last: LinkedList<Probe>,
}

/// What a group is told when it opens.
#[derive(Drop)]
pub struct Opening {
    /// The packets of the cells, in order.
    pub packets: Vec<Named>,
    pub seats: u32,
    pub groups: u32,
}

/// Words, slots and views agree on what stands in each cell.
pub struct CellsAgree;

impl TableRule<Option<Packet>, View, Opening> for CellsAgree {
    ghost use Rattle.sn_group.specs.Rule.{Rule};
    ghost use Rattle.sn_group.specs.Views.{dealt};

    ghost holds = { λ opening. Rule opening.packets.items opening.seats opening.groups };

    ghost first = { λ opening. dealt opening.groups 0 opening.seats };
}

/// A word and a slot for each cell.
pub type CellTable = Table<Option<Packet>, View, Opening, CellsAgree, Global>;

/// The table's steps.
pub type CellSteps = Shared<Option<Packet>, View, Opening, CellsAgree>;

/// The right to step on cells.
pub type CellSeat = Seat<Option<Packet>, View>;
