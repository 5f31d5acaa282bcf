//! What a group had when it closed.

ghost use Rattle.std.specs.Prelude.{◌≡◌, ◌<◌, ◌≤◌, ◌++◌, ◌∷◌, [], length, vec_capacity};
ghost use Rattle.core.specs.Mem.Slots.{slots_items, slots_len, IsFull};
ghost use Rattle.sn_group.specs.Cells.{somes};

use crate::view::CellSeat;
use atomic_table::Closed;
use sn_packet::Packet;
use std::alloc::Global;
use std::snapshot::Snapshot;

/// What a group had when it closed. A contract sees the packets and the logs of all seats.
#[derive(Drop)]
pub struct GroupReceipt {
    /// The packets of all full cells, in the order of cells.
    pub packets: Vec<Packet>,
    // The token that all seats were joined into, as it was then.
    pub(crate) logs: Snapshot<CellSeat>,
}

/// Adds the packet of a slot, if one lies there.
fn keep(slot: Option<Packet>, packets: &mut Vec<Packet>)
    requires { length packets.old.items < vec_capacity packets.old }
    ensures items { packets.new.items ≡ packets.old.items ++ somes (slot ∷ []) }
    ensures room { vec_capacity packets.new ≡ vec_capacity packets.old }
{
    match slot {
        None => (),
        Some(packet) => packets.push_reserved(packet),
    }
}

/// Takes the packets out of the cells, in their order.
pub fn collect(mut closed: Closed<Option<Packet>, Global>, spare: Vec<Packet>) -> Vec<Packet>
    requires full { IsFull closed.slots }
    requires none { spare.items ≡ [] }
    requires room { slots_len closed.slots ≤ vec_capacity spare }
    ensures { result.items ≡ somes (slots_items closed.slots) }
{
    let mut packets = spare;
    let mut i = 0;
    while i < closed.slot_count() {
        keep(closed.take(i), &mut packets);
        i += 1;
    }
    closed.free();
    packets
}
