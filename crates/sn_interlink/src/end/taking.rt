//! What a receiver does: it loads how many packets there are, takes one, and gives its slot back. A closer empties the ring so.
ghost use Rattle.std.specs.Prelude.{◌≡◌, ◌<◌, ◌-◌, IsSome, true, false};
ghost use Rattle.sn_core.specs.declared.events.Side.TheVariants.{Rx};
ghost use Rattle.sn_interlink.specs.Answers.{DrainStep};
ghost use Rattle.sn_interlink.specs.Ends.{can_look, reach_of, releases, sees_packets, takes_out};
ghost use Rattle.sn_interlink.specs.Plays.{InRing};
ghost use Rattle.sn_interlink.specs.declared.view.EndState.TheVariants.{Closing, Up};

use super::End;
use super::words::slot_of;
use crate::interlink::{Interlink, READ, WRITE};
use crate::plays::{Releases, ReleasesDrained, SeesPackets};
use sn_packet::Packet;

impl End {
    pub(crate) fn look(&mut self, lane: &Interlink) -> u32
        requires lane { self.old.lane ≡ lane.now }
        requires rx { self.old.side ≡ Rx }
        requires knows { can_look self.old ≡ true }
        requires idle { self.old.half ≡ false }
        ensures ring { InRing self.old.place self.new.far }
        ensures answer { result ≡ self.new.far - self.old.place }
        ensures step { self.new ≡ sees_packets self.new.far self.old }
    {
        let write = lane.table.shared.load::<SeesPackets>(&mut self.seat, WRITE);
        self.bound = write;
        self.loaded = true;
        (write - self.place) as u32
    }

    pub(crate) fn take(&mut self, lane: &Interlink) -> Packet
        requires lane { self.old.lane ≡ lane.now }
        requires rx { self.old.side ≡ Rx }
        requires up { self.old.state ≡ Up }
        requires idle { self.old.half ≡ false }
        requires seen { 0 < reach_of self.old }
        ensures step { self.new ≡ takes_out result self.old }
    {
        let slot = slot_of(self.place);
        let Some(packet) = lane.table.shared.exchange(&mut self.seat, slot, None) else {
            unreachable!()
        };
        self.half = true;
        packet
    }

    pub(crate) fn release(&mut self, lane: &Interlink)
        requires lane { self.old.lane ≡ lane.now }
        requires rx { self.old.side ≡ Rx }
        requires up { self.old.state ≡ Up }
        requires half { self.old.half ≡ true }
        ensures step { self.new ≡ releases self.old }
    {
        let next = self.place + 1;
        lane.table
            .shared
            .store::<Releases>(&mut self.seat, READ, next);
        self.place = next;
        self.half = false;
    }

    pub(crate) fn drain_take(&mut self, lane: &Interlink) -> Option<Packet>
        requires lane { self.old.lane ≡ lane.now }
        requires closing { self.old.state ≡ Closing }
        requires loaded { IsSome self.old.reach }
        requires idle { self.old.half ≡ false }
        ensures step { DrainStep self.old result self.new }
    {
        if self.place == self.bound {
            return None;
        }
        let slot = slot_of(self.place);
        let Some(packet) = lane.table.shared.exchange(&mut self.seat, slot, None) else {
            unreachable!()
        };
        self.half = true;
        Some(packet)
    }

    pub(crate) fn drain_release(&mut self, lane: &Interlink)
        requires lane { self.old.lane ≡ lane.now }
        requires closing { self.old.state ≡ Closing }
        requires half { self.old.half ≡ true }
        ensures step { self.new ≡ releases self.old }
    {
        let next = self.place + 1;
        lane.table
            .shared
            .store::<ReleasesDrained>(&mut self.seat, READ, next);
        self.place = next;
        self.half = false;
    }
}
