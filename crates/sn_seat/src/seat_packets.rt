//! What a seat does with packets that it holds.
use crate::seat::Seat;

impl Seat {
    ghost use Rattle.std.specs.Prelude.{◌≡◌, ◌≤◌, IsSome, List, None, length, replicate, slice_get, take, ℕ};
    ghost use Rattle.sn_packet.specs.Hold.{at_of, put_at};
    ghost use Rattle.sn_packet.specs.Packet.{is_worn, most_bytes};
    ghost use Rattle.sn_app.specs.Calls.{bytes_at, rewritten_at};
    ghost use Rattle.sn_app.specs.Desk.{freed, name_of};
    ghost use Rattle.sn_app.specs.World.{packet_at};
    ghost use Rattle.sn_seat.specs.Tellings.{seat_hold};
    ghost use Rattle.sn_seat.specs.Trays.{bond_of, seat_tray, seat_used};

    /// The packet at a place becomes free.
    pub fn free(&mut self, place: u32)
        requires { IsSome (seat_used self.old place) }
        ensures tray { (captures : List (List ℕ)) → seat_tray captures self.new
            ≡ freed (name_of (packet_at (seat_used self.old) place)) (seat_tray captures self.old) }
        ensures used { seat_used self.new ≡ put_at place None (seat_used self.old) }
        ensures held { at_of (seat_hold self.new) ≡ at_of (seat_hold self.old) }
        ensures kept { bond_of self.new ≡ bond_of self.old }
    {
        self.ledger.hold.free(place);
    }

    /// How many bytes the packet at a place has.
    pub(crate) fn size(&self, place: u32) -> u32
        requires { IsSome (seat_used self.now place) }
        ensures value { result ≡ length (bytes_at (seat_used self.now) place) }
        ensures most { result ≤ most_bytes }
    {
        self.ledger.hold.packet(place).bytes().len() as u32
    }

    /// Whether the packet at a place is at the highest turn.
    pub(crate) fn worn(&self, place: u32) -> bool
        requires { IsSome (seat_used self.now place) }
        ensures { result ≡ is_worn (packet_at (seat_used self.now) place) }
    {
        self.ledger.hold.packet(place).worn()
    }

    /// A byte of the packet at a place.
    pub(crate) fn byte(&self, place: u32, at: u32) -> Option<u8>
        requires { IsSome (seat_used self.now place) }
        ensures { result ≡ slice_get (bytes_at (seat_used self.now) place) at }
    {
        self.ledger
            .hold
            .packet(place)
            .bytes()
            .get(at as usize)
            .copied()
    }

    /// The packet at a place becomes so many zeros.
    pub(crate) fn zeros(&mut self, place: u32, len: u32)
        requires place { IsSome (seat_used self.old place) }
        requires len { len ≤ most_bytes }
        ensures tray { (captures : List (List ℕ)) → seat_tray captures self.new ≡ seat_tray captures self.old }
        ensures used { seat_used self.new ≡ rewritten_at place (replicate len 0) (seat_used self.old) }
        ensures kept { bond_of self.new ≡ bond_of self.old }
    {
        self.ledger.hold.zeros(place, len);
    }

    /// The packet at `to` gets the bytes of the one at `from`.
    pub(crate) fn copy(&mut self, from: u32, to: u32)
        requires from { IsSome (seat_used self.old from) }
        requires to { IsSome (seat_used self.old to) }
        ensures tray { (captures : List (List ℕ)) → seat_tray captures self.new ≡ seat_tray captures self.old }
        ensures used { seat_used self.new ≡ rewritten_at to (bytes_at (seat_used self.old) from) (seat_used self.old) }
        ensures kept { bond_of self.new ≡ bond_of self.old }
    {
        self.ledger.hold.copy(from, to);
    }

    /// The packet at a place keeps its first bytes alone.
    pub(crate) fn cut(&mut self, place: u32, len: u32)
        requires place { IsSome (seat_used self.old place) }
        requires len { len ≤ length (bytes_at (seat_used self.old) place) }
        ensures tray { (captures : List (List ℕ)) → seat_tray captures self.new ≡ seat_tray captures self.old }
        ensures used { seat_used self.new ≡ rewritten_at place (take len (bytes_at (seat_used self.old) place))
            (seat_used self.old) }
        ensures kept { bond_of self.new ≡ bond_of self.old }
    {
        self.ledger.hold.cut(place, len);
    }

    /// The packet at a place gets these bytes.
    pub(crate) fn fill(&mut self, place: u32, bytes: &[u8])
        requires place { IsSome (seat_used self.old place) }
        requires len { length bytes.now ≤ most_bytes }
        ensures tray { (captures : List (List ℕ)) → seat_tray captures self.new ≡ seat_tray captures self.old }
        ensures used { seat_used self.new ≡ rewritten_at place bytes.now (seat_used self.old) }
        ensures kept { bond_of self.new ≡ bond_of self.old }
    {
        self.ledger.hold.fill(place, bytes);
    }
}
