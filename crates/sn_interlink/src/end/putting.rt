//! What a transmitter does: it loads how much room there is, lays a packet, and publishes it or takes it back.
ghost use Rattle.std.specs.Prelude.{◌≡◌, ◌<◌, [], ◌∷◌, true, false};
ghost use Rattle.sn_core.specs.declared.events.Side.TheVariants.{Tx};
ghost use Rattle.sn_packet.specs.Packet.{is_worn};
ghost use Rattle.sn_interlink.specs.Ends.{is_on_state, lays, own_place, publishes, reach_of, sees_room_as, takes_back};
ghost use Rattle.sn_interlink.specs.Plays.{InRing, room_by};
ghost use Rattle.sn_interlink.specs.declared.view.EndState.TheVariants.{Closing, Up};

use super::End;
use super::words::{known_bound, room_of, slot_of};
use crate::interlink::{Interlink, READ, WRITE};
use crate::plays::{Publishes, SeesRest, SeesRoom};
use crate::view::EndState;
use sn_packet::Packet;

impl End {
    pub(crate) fn room(&mut self, lane: &Interlink) -> u32
        requires lane { self.old.lane ≡ lane.now }
        requires tx { self.old.side ≡ Tx }
        requires on { is_on_state self.old.state ≡ true }
        requires idle { self.old.half ≡ false }
        ensures ring { InRing self.new.far (own_place self.old) }
        ensures answer { result ≡ room_by (own_place self.old) self.new.far }
        ensures step { self.new ≡ sees_room_as self.old.state self.new.far (own_place self.old) self.old }
    {
        match self.state {
            EndState::Out => unreachable!(),
            EndState::Up => self.room_up(lane),
            EndState::Closing => self.room_closing(lane),
        }
    }

    fn room_up(&mut self, lane: &Interlink) -> u32
        requires lane { self.old.lane ≡ lane.now }
        requires tx { self.old.side ≡ Tx }
        requires up { self.old.state ≡ Up }
        requires idle { self.old.half ≡ false }
        ensures ring { InRing self.new.far (own_place self.old) }
        ensures answer { result ≡ room_by (own_place self.old) self.new.far }
        ensures step { self.new ≡ sees_room_as self.old.state self.new.far (own_place self.old) self.old }
    {
        let read = lane.table.shared.load::<SeesRoom>(&mut self.seat, READ);
        let room = room_of(self.place, read);
        self.bound = self.place + room as u64;
        self.loaded = true;
        room
    }

    fn room_closing(&mut self, lane: &Interlink) -> u32
        requires lane { self.old.lane ≡ lane.now }
        requires tx { self.old.side ≡ Tx }
        requires closing { self.old.state ≡ Closing }
        requires idle { self.old.half ≡ false }
        ensures ring { InRing self.new.far (own_place self.old) }
        ensures answer { result ≡ room_by (own_place self.old) self.new.far }
        ensures step { self.new ≡ sees_room_as self.old.state self.new.far (own_place self.old) self.old }
    {
        let own = known_bound(self.loaded, self.bound, self.place);
        let read = lane.table.shared.load::<SeesRest>(&mut self.seat, READ);
        self.place = read;
        self.bound = own;
        self.loaded = true;
        room_of(own, read)
    }

    pub(crate) fn put_begin(&mut self, lane: &Interlink, mut packet: Packet)
        requires lane { self.old.lane ≡ lane.now }
        requires tx { self.old.side ≡ Tx }
        requires up { self.old.state ≡ Up }
        requires idle { self.old.half ≡ false }
        requires room { 0 < reach_of self.old }
        requires fresh { is_worn packet ≡ false }
        ensures step { self.new ≡ lays packet self.old }
    {
        packet.up();
        let slot = slot_of(self.place);
        match lane
            .table
            .shared
            .exchange(&mut self.seat, slot, Some(packet))
        {
            None => (),
            Some(_) => unreachable!(),
        }
        self.half = true;
    }

    pub(crate) fn put_publish(&mut self, lane: &Interlink) -> u64
        requires lane { self.old.lane ≡ lane.now }
        requires tx { self.old.side ≡ Tx }
        requires up { self.old.state ≡ Up }
        requires half { self.old.half ≡ true }
        ensures place { result ≡ self.old.place }
        ensures step { self.new ≡ publishes self.old }
    {
        let place = self.place;
        let next = place + 1;
        lane.table
            .shared
            .store::<Publishes>(&mut self.seat, WRITE, next);
        self.place = next;
        self.half = false;
        place
    }

    pub(crate) fn take_back(&mut self, lane: &Interlink) -> Packet
        requires lane { self.old.lane ≡ lane.now }
        requires tx { self.old.side ≡ Tx }
        requires up { self.old.state ≡ Up }
        requires half { self.old.half ≡ true }
        ensures packet { self.old.laid ≡ result ∷ [] }
        ensures step { self.new ≡ takes_back self.old }
    {
        let slot = slot_of(self.place);
        let Some(mut packet) = lane.table.shared.exchange(&mut self.seat, slot, None) else {
            unreachable!()
        };
        packet.down();
        self.half = false;
        packet
    }
}
