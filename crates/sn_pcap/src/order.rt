//! The byte order of a capture's numbers.

ghost use Rattle.std.specs.Prelude.{◌≡◌, ◌≤◌, length};
ghost use Rattle.sn_pcap.specs.Grammar.{number_in};

use byteorder::{BigEndian, ByteOrder, LittleEndian};

/// The byte order of a capture's numbers, which is the order of its magic.
#[derive(Clone, Copy, Debug, PartialEq, Eq)]
pub(crate) enum Order {
    Little,
    Big,
}

/// The number in the first four bytes.
#[tactic(auto, unfolding(crate::specs::Grammar::number_in))]
pub(crate) fn number_at(order: Order, bytes: &[u8]) -> u32
    requires { 4 ≤ length bytes.now }
    ensures { result ≡ number_in order bytes.now }
{
    match order {
        Order::Little => LittleEndian::read_u32(bytes),
        Order::Big => BigEndian::read_u32(bytes),
    }
}
