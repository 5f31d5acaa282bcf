//! A seat at work is a context: each call is one of the seat, over what it shares and with its gate.
use crate::Live;
use crate::gates::Turnstile;
use sn_app::{Counter, Ctx, Halt};
use sn_core::Side;
use sn_link::LinkCounts;
use sn_names::{FileName, LinkSpec, Name};
use sn_outside::Gate;
use sn_pcap::RecordAt;

impl<'a, G: Gate> Ctx for Live<'a, G> {
    ghost use Rattle.std.specs.Prelude.{◌≡◌, IsSome, None};
    ghost use Rattle.sn_packet.specs.Hold.{at_of, put_at};
    ghost use Rattle.sn_app.specs.Desk.{freed, name_of};
    ghost use Rattle.sn_app.specs.World.{packet_at};
    ghost use Rattle.sn_seat.specs.Lenders.{lent_as};
    ghost use Rattle.sn_seat.specs.Lives.{live_tray, live_used};
    ghost use Rattle.sn_seat.specs.Tellings.{seat_hold};
    ghost use Rattle.sn_seat.specs.Trays.{bond_of, captures_of, seat_tray, seat_used};

    ghost tray = { λ live. seat_tray (captures_of live.shared.now) live.seat.now };

    ghost used = { λ live. seat_used live.seat.now };

    ghost lender = { λ live. lent_as live.seat.ghost_name (bond_of live.seat.now) };

    fn allocate(&mut self) -> Result<Option<u32>, Halt> {
        self.seat
            .allocate(self.shared, &Turnstile { gate: self.gate })
    }

    fn free(&mut self, place: u32)
        requires { IsSome (live_used self.old place) }
        ensures tray { live_tray self.new ≡ freed (name_of (packet_at (live_used self.old) place)) (live_tray self.old) }
        ensures used { live_used self.new ≡ put_at place None (live_used self.old) }
        ensures held { at_of (seat_hold self.new.seat.now) ≡ at_of (seat_hold self.old.seat.now) }
        ensures lent { lent_as self.new.seat.ghost_name (bond_of self.new.seat.now)
            ≡ lent_as self.old.seat.ghost_name (bond_of self.old.seat.now) }
        ensures name { self.new.seat.ghost_name ≡ self.old.seat.ghost_name }
        ensures kept { bond_of self.new.seat.now ≡ bond_of self.old.seat.now }
        ensures shared { self.new.shared.now ≡ self.old.shared.now }
    {
        self.seat.free(place);
    }

    fn zeros(&mut self, place: u32, len: u32) {
        self.seat.zeros(place, len);
    }

    fn copy(&mut self, from: u32, to: u32) {
        self.seat.copy(from, to);
    }

    fn cut(&mut self, place: u32, len: u32) {
        self.seat.cut(place, len);
    }

    fn load(&mut self, place: u32, capture: u32, at: RecordAt) {
        let payload = self.shared.captures[capture as usize].payload(at);
        self.seat.fill(place, payload);
    }

    fn lane_attach(&mut self, lane: u32, side: Side) -> Result<bool, Halt> {
        self.seat
            .lane_attach(self.shared, &Turnstile { gate: self.gate }, lane, side)
    }

    fn lane_detach(&mut self, lane: u32, side: Side) -> Result<(), Halt> {
        self.seat
            .lane_detach(self.shared, &Turnstile { gate: self.gate }, lane, side)
    }

    fn lane_look(&mut self, lane: u32) -> Result<u32, Halt> {
        self.seat
            .lane_look(self.shared, &Turnstile { gate: self.gate }, lane)
    }

    fn lane_take(&mut self, lane: u32) -> Result<u32, Halt> {
        self.seat
            .lane_take(self.shared, &Turnstile { gate: self.gate }, lane)
    }

    fn lane_room(&mut self, lane: u32) -> Result<u32, Halt> {
        self.seat
            .lane_room(self.shared, &Turnstile { gate: self.gate }, lane)
    }

    fn lane_put(&mut self, lane: u32, place: u32) -> Result<(), Halt> {
        self.seat
            .lane_put(self.shared, &Turnstile { gate: self.gate }, lane, place)
    }

    fn file_start(&mut self, file: u32) -> Result<(), Halt> {
        self.seat.file_start(file)
    }

    fn file_append(&mut self, file: u32, place: u32) -> Result<bool, Halt> {
        self.seat.file_append(file, place)
    }

    fn count(&mut self, app: u32, counter: Counter, by: u64) {
        self.seat.count(app, counter, by);
    }

    fn keep_counts(&mut self, link: u32, counts: LinkCounts) {
        self.seat.keep_counts(link, counts);
    }

    fn size(&self, place: u32) -> u32 {
        self.seat.size(place)
    }

    fn worn(&self, place: u32) -> bool {
        self.seat.worn(place)
    }

    fn byte(&self, place: u32, at: u32) -> Option<u8> {
        self.seat.byte(place, at)
    }

    fn first(&self, capture: u32) -> u64 {
        self.shared.captures[capture as usize].first()
    }

    fn record(&self, capture: u32, at: u64) -> Option<RecordAt> {
        self.shared.captures[capture as usize].record(at)
    }

    fn app_row(&self, name: &Name) -> u32 {
        self.seat.app_row(name)
    }

    fn link_row(&self, link: &LinkSpec) -> u32 {
        self.seat.link_row(link)
    }

    fn capture_of(&self, name: &FileName) -> u32 {
        self.seat.capture_of(name)
    }

    fn file_of(&self, name: &FileName) -> u32 {
        self.seat.file_of(name)
    }

    fn lane_of(&self, name: &Name) -> u32 {
        self.seat.lane_of(name)
    }
}
