//! The header of a capture, as far as its reader looks at it.

ghost use Rattle.std.specs.Prelude.{◌≡◌, ◌≤◌, ◌↔◌, length, take, drop, IsTrue, IfSome, IfNone};
ghost use Rattle.sn_pcap.specs.declared.order.Order.{Order};
ghost use Rattle.sn_pcap.specs.Grammar.{IsMagic, version};

use crate::order::Order;

/// How many bytes a capture's header takes.
pub(crate) const HEADER_LEN: usize = 24;

/// The byte order that the magic tells, or None where the first four bytes are no magic.
#[tactic(auto, unfolding(crate::specs::Grammar::micro, crate::specs::Grammar::nano))]
pub(crate) fn order_of_magic(bytes: &[u8]) -> Option<Order>
    ensures magic { IfSome result (λ order. IsMagic order (take 4 bytes.now)) }
    ensures other { IfNone result ((order : Order) → IsMagic order (take 4 bytes.now) → ⊥) }
{
    match bytes {
        [0xd4, 0xc3, 0xb2, 0xa1, ..] => Some(Order::Little),
        [0x4d, 0x3c, 0xb2, 0xa1, ..] => Some(Order::Little),
        [0xa1, 0xb2, 0xc3, 0xd4, ..] => Some(Order::Big),
        [0xa1, 0xb2, 0x3c, 0x4d, ..] => Some(Order::Big),
        _ => None,
    }
}

/// Whether the four bytes behind the magic are version 2.4.
#[tactic(auto, unfolding(crate::specs::Grammar::version))]
pub(crate) fn has_version(order: Order, bytes: &[u8]) -> bool
    requires { 8 ≤ length bytes.now }
    ensures { IsTrue result ↔ (take 4 (drop 4 bytes.now) ≡ version order) }
{
    match order {
        Order::Little => matches!(&bytes[4..8], [2, 0, 4, 0]),
        Order::Big => matches!(&bytes[4..8], [0, 2, 0, 4]),
    }
}
