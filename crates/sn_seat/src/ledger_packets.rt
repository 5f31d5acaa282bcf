//! How packets come to a ledger and go from it: put, taken and drained at its ends, and claimed from the group.
ghost use Rattle.std.specs.Prelude.{◌≡◌, ◌≤◌, [], vec_capacity};

use crate::ledger::Ledger;
use crate::ledger_ends::end_place;
use sn_core::Side;
use sn_group::{Group, TakeClaim};
use sn_interlink::Interlink;
use sn_journal::{Entry, Payload};
use sn_packet::Packet;

/// The packet's bytes as a payload, in memory that was made for them. What isn't needed of it is given back.
fn payload_of(mut bytes: Vec<u8>, packet: &Packet) -> Payload
    requires none { bytes.items ≡ [] }
    requires room { 10240 ≤ vec_capacity bytes }
    ensures { result ≡ packet.now.bytes }
{
    match bytes.extend_from_slice(packet.bytes()) {
        Ok(()) => (),
        Err(_) => unreachable!(),
    }
    bytes.shrink_to_fit();
    Payload::of(bytes)
}

impl Ledger {
    ghost use Rattle.std.specs.Prelude.{◌≡◌, ◌≤◌, ◌<◌, ◌+◌, ◌∷◌, ◌++◌, [], vec_capacity, None, IsSome, false};
    ghost use Rattle.sn_core.specs.declared.events.Side.TheVariants.{Rx, Tx};
    ghost use Rattle.sn_packet.specs.Hold.{frees_of, put_at, used_of};
    ghost use Rattle.sn_packet.specs.Packet.{is_worn};
    ghost use Rattle.sn_seat.specs.LaneSteps.{AtEnd, HasEnd, Links, Stands};
    ghost use Rattle.sn_seat.specs.Ledgers.{wiring_of};
    ghost use Rattle.sn_seat.specs.SeatEnds.{ends_in, reach_in};
    ghost use Rattle.sn_app.specs.Calls.{bytes_at};
    ghost use Rattle.sn_app.specs.Desk.{all_published, all_released, set_end, with_laid, with_taken};
    ghost use Rattle.sn_app.specs.World.{packet_at};
    ghost use Rattle.sn_app.specs.declared.end_state.EndState.TheVariants.{Closing, Up};
    ghost use Rattle.sn_seat.specs.PacketSteps.{ClaimStep, DrainStep, TakeStep, drained_end, put_entry};

    /// Puts the packet at a place into an interlink, and answers its position.
    pub(crate) fn put(&mut self, number: u32, link: &Interlink, place: u32, payload: Payload) -> u64
        requires has { HasEnd self.old.ends.items number Tx }
        requires link { Links self.old.ends.items number link.now }
        requires up { Stands self.old.ends.items number Tx Up }
        requires known { 0 < (ends_in self.old.ends.items number Tx).known }
        requires place { IsSome (used_of self.old.hold place) }
        requires worn { is_worn (packet_at (used_of self.old.hold) place) ≡ false }
        requires bytes { payload ≡ bytes_at (used_of self.old.hold) place }
        requires room { 2 ≤ self.old.journal.room }
        ensures entries { self.new.journal.entries ≡ self.old.journal.entries
            ++ put_entry number result (packet_at (used_of self.old.hold) place) ∷ [] }
        ensures used { used_of self.new.hold ≡ put_at place None (used_of self.old.hold) }
        ensures frees { frees_of self.new.hold ≡ frees_of self.old.hold }
        ensures ends { ends_in self.new.ends.items ≡ set_end number Tx
            (all_published (with_laid (packet_at (used_of self.old.hold) place) (ends_in self.old.ends.items number Tx)))
            (ends_in self.old.ends.items) }
        ensures wiring { wiring_of self.new ≡ wiring_of self.old }
    {
        let packet = self.hold.lift(place);
        let name = packet.number();
        let turn = packet.turn() + 1;
        let k = end_place(&self.ends, number, Side::Tx);
        let end = &mut self.ends[k];
        let at = end.1.put(link, packet);
        self.journal
            .add(Entry::Put(number, at, name, turn, payload));
        at
    }

    /// Takes the next packet of an interlink, and answers its place.
    pub(crate) fn take(&mut self, number: u32, link: &Interlink, bytes: Vec<u8>) -> u32
        requires has { HasEnd self.old.ends.items number Rx }
        requires link { Links self.old.ends.items number link.now }
        requires up { Stands self.old.ends.items number Rx Up }
        requires known { 0 < (ends_in self.old.ends.items number Rx).known }
        requires none { bytes.items ≡ [] }
        requires memory { 10240 ≤ vec_capacity bytes }
        requires place { 1 ≤ self.old.hold.room }
        requires room { 2 ≤ self.old.journal.room }
        ensures step { TakeStep number self.old.journal.entries self.old.hold result self.new.journal.entries self.new.hold }
        ensures ends { ends_in self.new.ends.items
            ≡ set_end number Rx (all_released (with_taken (ends_in self.old.ends.items number Rx)))
            (ends_in self.old.ends.items) }
        ensures wiring { wiring_of self.new ≡ wiring_of self.old }
    {
        let k = end_place(&self.ends, number, Side::Rx);
        let end = &mut self.ends[k];
        let at = end.1.place();
        let packet = end.1.take(link);
        let payload = payload_of(bytes, &packet);
        self.journal.add(Entry::Take(number, at, packet.number(), packet.turn(), payload));
        self.hold.lay(packet)
    }

    /// The closing end takes the next packet out, and answers its place. None where nothing was left: the interlink is free then.
    pub(crate) fn drain(&mut self, number: u32, side: Side, link: &Interlink) -> Option<u32>
        requires has { HasEnd self.old.ends.items number side }
        requires link { Links self.old.ends.items number link.now }
        requires closing { Stands self.old.ends.items number side Closing }
        requires loaded { AtEnd self.old.ends.items number side (λ e. IsSome e.reach) }
        requires place { 1 ≤ self.old.hold.room }
        requires room { 2 ≤ self.old.journal.room }
        ensures step { DrainStep number self.old.journal.entries self.old.hold result self.new.journal.entries self.new.hold }
        ensures ends { ends_in self.new.ends.items ≡ set_end number side (drained_end result) (ends_in self.old.ends.items) }
        ensures less { IsSome result → reach_in self.new.ends.items number side < reach_in self.old.ends.items number side }
        ensures loaded { IsSome result → AtEnd self.new.ends.items number side (λ e. IsSome e.reach) }
        ensures wiring { wiring_of self.new ≡ wiring_of self.old }
    {
        let k = end_place(&self.ends, number, side);
        let end = &mut self.ends[k];
        let at = end.1.place();
        match end.1.drain(link) {
            None => {
                end.1.reset(link);
                self.journal.add(Entry::Reset(number));
                None
            }
            Some(packet) => {
                self.journal
                    .add(Entry::Drain(number, at, packet.number(), packet.turn()));
                Some(self.hold.lay(packet))
            }
        }
    }

    /// Claims a packet from the group, and takes it out. None where the group had none.
    pub(crate) fn claim(&mut self, group: &Group) -> Option<u32>
        requires group { self.old.group.group ≡ group.now.id }
        requires place { 1 ≤ self.old.hold.room }
        requires room { 2 ≤ self.old.journal.room }
        ensures step { ClaimStep self.old.journal.entries self.old.hold result self.new.journal.entries self.new.hold }
        ensures ends { self.new.ends ≡ self.old.ends }
        ensures wiring { wiring_of self.new ≡ wiring_of self.old }
    {
        match self.group.take_claim(group) {
            TakeClaim::Dry => {
                self.journal.add(Entry::Dry);
                None
            }
            TakeClaim::Claimed { number, turn } => {
                let packet = self.group.take_out(group);
                self.group.take_done(group);
                self.journal.add(Entry::Got(number, turn));
                Some(self.hold.lay(packet))
            }
        }
    }
}
