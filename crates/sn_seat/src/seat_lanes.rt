//! What a seat does at ends of interlinks that are up.
ghost use Rattle.std.specs.Prelude.{◌≡◌, ◌<◌, Some, length, slice_get};

use crate::gates::Before;
use crate::seat::Seat;
use crate::shared::Shared;
use sn_app::Halt;
use sn_core::Side;
use sn_interlink::Interlink;
use sn_journal::Payload;
use sn_packet::MAX_PAYLOAD;
use std::alloc::AllocError;

/// The interlink of this number.
pub(crate) fn link_of(shared: &Shared, lane: u32) -> &Interlink
    requires { lane < length shared.now.lanes.items }
    ensures { slice_get shared.now.lanes.items lane ≡ Some result.now }
{
    &shared.lanes[lane as usize]
}

impl Seat {
    ghost use Rattle.std.specs.Prelude.{◌≡◌, ◌≢◌, ◌≤◌, ◌<◌, [], IfOk, IsSome, List, None, Ok, OnOk, false, vec_capacity, ℕ};
    ghost use Rattle.sn_core.specs.declared.events.Side.TheVariants.{Rx, Tx};
    ghost use Rattle.sn_packet.specs.Hold.{put_at};
    ghost use Rattle.sn_packet.specs.Packet.{is_worn};
    ghost use Rattle.sn_app.specs.Answers.{OnTray};
    ghost use Rattle.sn_app.specs.Calls.{AfterPut, AfterTake, IsFresh, Knows, LeavesOtherEnds, bytes_at, packet_there};
    ghost use Rattle.sn_app.specs.Rows.{row_look, row_put, row_room, row_take};
    ghost use Rattle.sn_app.specs.World.{packet_at};
    ghost use Rattle.sn_app.specs.declared.end_state.EndState.TheVariants.{Up};
    ghost use Rattle.sn_seat.specs.LaneSteps.{HasEnd, Stands};
    ghost use Rattle.sn_seat.specs.SeatEnds.{ends_in};
    ghost use Rattle.sn_seat.specs.Trays.{Fits, bond_of, seat_tray, seat_used, tray_in};

    /// How many packets the receiver of an interlink can take.
    pub(crate) fn lane_look<G: Before>(
        &mut self,
        shared: &Shared,
        gate: &G,
        lane: u32,
    ) -> Result<u32, Halt>
        requires fits { Fits self.old shared.now }
        requires end { HasEnd self.old.ledger.ends.items lane Rx }
        requires up { Stands self.old.ledger.ends.items lane Rx Up }
        ensures reads { OnTray (row_look lane) (tray_in shared.now self.old) (tray_in shared.now self.new) result }
        ensures known { IfOk result (Knows lane Rx (tray_in shared.now self.old) (tray_in shared.now self.new)) }
        ensures used { seat_used self.new ≡ seat_used self.old }
        ensures leaves { LeavesOtherEnds lane Rx (tray_in shared.now self.old) (tray_in shared.now self.new) }
        ensures kept { bond_of self.new ≡ bond_of self.old }
    {
        self.gate(gate)?;
        let seen = self.ledger.look_far(lane, Side::Rx, link_of(shared, lane));
        self.gates = 0;
        Ok(seen)
    }

    /// For how many packets the transmitter of an interlink has room.
    pub(crate) fn lane_room<G: Before>(
        &mut self,
        shared: &Shared,
        gate: &G,
        lane: u32,
    ) -> Result<u32, Halt>
        requires fits { Fits self.old shared.now }
        requires end { HasEnd self.old.ledger.ends.items lane Tx }
        requires up { Stands self.old.ledger.ends.items lane Tx Up }
        ensures reads { OnTray (row_room lane) (tray_in shared.now self.old) (tray_in shared.now self.new) result }
        ensures known { IfOk result (Knows lane Tx (tray_in shared.now self.old) (tray_in shared.now self.new)) }
        ensures used { seat_used self.new ≡ seat_used self.old }
        ensures leaves { LeavesOtherEnds lane Tx (tray_in shared.now self.old) (tray_in shared.now self.new) }
        ensures kept { bond_of self.new ≡ bond_of self.old }
    {
        self.gate(gate)?;
        let seen = self.ledger.look_far(lane, Side::Tx, link_of(shared, lane));
        self.gates = 0;
        Ok(seen)
    }

    /// Makes room for a packet that comes, and memory for its payload.
    fn room_to_take(&mut self) -> Result<Vec<u8>, AllocError>
        ensures none { IfOk result (λ bytes. bytes.items ≡ []) }
        ensures memory { IfOk result (λ bytes. 10240 ≤ vec_capacity bytes) }
        ensures room { OnOk result (1 ≤ self.new.ledger.hold.room) }
        ensures tray { (captures : List (List ℕ)) → seat_tray captures self.new ≡ seat_tray captures self.old }
        ensures used { seat_used self.new ≡ seat_used self.old }
        ensures ends { self.new.ledger.ends ≡ self.old.ledger.ends }
        ensures kept { bond_of self.new ≡ bond_of self.old }
    {
        let bytes = Vec::with_capacity(self.alloc, MAX_PAYLOAD as usize)?;
        self.ledger.reserve_place()?;
        Ok(bytes)
    }

    /// Takes the next packet of an interlink.
    pub(crate) fn lane_take<G: Before>(
        &mut self,
        shared: &Shared,
        gate: &G,
        lane: u32,
    ) -> Result<u32, Halt>
        requires fits { Fits self.old shared.now }
        requires end { HasEnd self.old.ledger.ends.items lane Rx }
        requires up { Stands self.old.ledger.ends.items lane Rx Up }
        requires known { 0 < (ends_in self.old.ledger.ends.items lane Rx).known }
        ensures reads { OnTray (row_take lane) (tray_in shared.now self.old) (tray_in shared.now self.new)
            (packet_there (seat_used self.new) result) }
        ensures fresh { IfOk result (IsFresh (seat_used self.old) (seat_used self.new)) }
        ensures others { (q : ℕ) → result ≢ Ok q → seat_used self.new q ≡ seat_used self.old q }
        ensures known { OnOk result (AfterTake lane (tray_in shared.now self.old) (tray_in shared.now self.new)) }
        ensures leaves { LeavesOtherEnds lane Rx (tray_in shared.now self.old) (tray_in shared.now self.new) }
        ensures kept { bond_of self.new ≡ bond_of self.old }
    {
        let bytes = self.room_to_take()?;
        self.gate(gate)?;
        let place = self.ledger.take(lane, link_of(shared, lane), bytes);
        self.gates = 0;
        Ok(place)
    }

    /// The payload of the packet at a place.
    fn payload_at(&self, place: u32) -> Result<Payload, AllocError>
        requires { IsSome (seat_used self.now place) }
        ensures { IfOk result (λ payload. payload ≡ bytes_at (seat_used self.now) place) }
    {
        let bytes = self.ledger.hold.packet(place).bytes().to_vec(self.alloc)?;
        Ok(Payload::of(bytes))
    }

    /// Puts the packet at a place into an interlink.
    pub(crate) fn lane_put<G: Before>(
        &mut self,
        shared: &Shared,
        gate: &G,
        lane: u32,
        place: u32,
    ) -> Result<(), Halt>
        requires fits { Fits self.old shared.now }
        requires end { HasEnd self.old.ledger.ends.items lane Tx }
        requires up { Stands self.old.ledger.ends.items lane Tx Up }
        requires known { 0 < (ends_in self.old.ledger.ends.items lane Tx).known }
        requires place { IsSome (seat_used self.old place) }
        requires worn { is_worn (packet_at (seat_used self.old) place) ≡ false }
        ensures reads { OnTray (row_put lane (packet_at (seat_used self.old) place)) (tray_in shared.now self.old)
            (tray_in shared.now self.new) result }
        ensures gone { OnOk result (seat_used self.new ≡ put_at place None (seat_used self.old)) }
        ensures others { (q : ℕ) → q ≢ place → seat_used self.new q ≡ seat_used self.old q }
        ensures known { OnOk result
            (AfterPut lane (packet_at (seat_used self.old) place) (tray_in shared.now self.old) (tray_in shared.now self.new)) }
        ensures leaves { LeavesOtherEnds lane Tx (tray_in shared.now self.old) (tray_in shared.now self.new) }
        ensures kept { bond_of self.new ≡ bond_of self.old }
    {
        let payload = self.payload_at(place)?;
        self.gate(gate)?;
        self.ledger.put(lane, link_of(shared, lane), place, payload);
        self.gates = 0;
        Ok(())
    }
}
