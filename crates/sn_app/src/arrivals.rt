//! Packets that come into a bench.
ghost use Rattle.std.specs.Prelude.{◌≡◌, ◌+◌, ◌++◌, ◌≤◌, ◌∷◌, [], None, Some, length};
ghost use Rattle.sn_packet.specs.Hold.{frees_of, put_at, used_of};
ghost use Rattle.sn_packet.specs.Packet.{most_bytes, with_bytes};

use sn_packet::{Hold, Packet};

/// A packet of these bytes comes, and is held and not free. Its place.
pub(crate) fn lay_filled(hold: &mut Hold, packet: Packet, bytes: &[u8]) -> u32
    requires room { 1 ≤ hold.old.room }
    requires len { length bytes.now ≤ most_bytes }
    ensures none { used_of hold.old result ≡ None }
    ensures used { used_of hold.new ≡ put_at result (Some (with_bytes bytes.now packet)) (used_of hold.old) }
    ensures frees { frees_of hold.new ≡ frees_of hold.old }
{
    let place = hold.lay(packet);
    hold.fill(place, bytes);
    place
}

/// A packet comes, and is free at once.
pub(crate) fn lay_free(hold: &mut Hold, packet: Packet)
    requires { 1 ≤ hold.old.room }
    ensures used { used_of hold.new ≡ used_of hold.old }
    ensures frees { frees_of hold.new ≡ frees_of hold.old ++ packet ∷ [] }
    ensures room { hold.new.room + 1 ≡ hold.old.room }
{
    let place = hold.lay(packet);
    hold.free(place);
}
