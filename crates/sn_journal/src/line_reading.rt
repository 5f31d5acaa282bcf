//! The line of a kind and its numbers.
ghost use Rattle.sn_journal.specs.JournalText.{fits, is_u32, line_kind, line_numbers};
ghost use Rattle.sn_journal.specs.LineReading.{
  carried,
  drained,
  line_from,
  no_number,
  one_large,
  one_small,
  small_large,
  small_two_large,
  two_small,
};
ghost use Rattle.std.specs.Prelude.{IfSome, None, Some, cond, true, ◌≡◌};

use crate::Line;
use crate::kind::Kind;

/// The number, where it is a u32.
fn small(n: u64) -> Option<u32>
    ensures { result ≡ cond (is_u32 n) (Some n) None }
{
    if n > u64::from(u32::MAX) {
        return None;
    }
    Some(n as u32)
}

/// This line, where there are no numbers.
fn no_number(line: Line, numbers: &[u64]) -> Option<Line>
    ensures { result ≡ no_number line numbers.now }
{
    if !numbers.is_empty() {
        return None;
    }
    Some(line)
}

/// A u32 alone.
fn one_small(numbers: &[u64]) -> Option<u32>
    ensures { result ≡ one_small numbers.now }
{
    match numbers {
        [a] => small(*a),
        _ => None,
    }
}

/// A u64 alone.
fn one_large(numbers: &[u64]) -> Option<u64>
    ensures { result ≡ one_large numbers.now }
{
    match numbers {
        [a] => Some(*a),
        _ => None,
    }
}

/// Two u32.
fn two_small(numbers: &[u64]) -> Option<(u32, u32)>
    ensures { result ≡ two_small numbers.now }
{
    match numbers {
        [a, b] => Some((small(*a)?, small(*b)?)),
        _ => None,
    }
}

/// A u32 and a u64.
fn small_large(numbers: &[u64]) -> Option<(u32, u64)>
    ensures { result ≡ small_large numbers.now }
{
    match numbers {
        [a, b] => Some((small(*a)?, *b)),
        _ => None,
    }
}

/// A u32 and two u64.
fn small_two_large(numbers: &[u64]) -> Option<(u32, u64, u64)>
    ensures { result ≡ small_two_large numbers.now }
{
    match numbers {
        [a, b, c] => Some((small(*a)?, *b, *c)),
        _ => None,
    }
}

/// An interlink, a position, a packet and its turn.
fn drained(numbers: &[u64]) -> Option<(u32, u64, u32, u64)>
    ensures { result ≡ drained numbers.now }
{
    match numbers {
        [a, b, c, d] => Some((small(*a)?, *b, small(*c)?, *d)),
        _ => None,
    }
}

/// An interlink, a position, a packet, its turn and a number of bytes.
fn carried(numbers: &[u64]) -> Option<(u32, u64, u32, u64, u32)>
    ensures { result ≡ carried numbers.now }
{
    match numbers {
        [a, b, c, d, e] => Some((small(*a)?, *b, small(*c)?, *d, small(*e)?)),
        _ => None,
    }
}

/// The line of a kind with these numbers, where it has as many and they are of its types.
pub(crate) fn line_from(kind: Kind, numbers: &[u64]) -> Option<Line>
    ensures exact { result ≡ line_from kind numbers.now }
    ensures kind { IfSome result (λ line. line_kind line ≡ kind) }
    ensures numbers { IfSome result (λ line. line_numbers line ≡ numbers.now) }
    ensures fits { IfSome result (λ line. fits line ≡ true) }
{
    match kind {
        Kind::Round => one_small(numbers).map(|x| Line::Round(x)),
        Kind::Hear => one_large(numbers).map(|x| Line::Hear(x)),
        Kind::Breath => no_number(Line::Breath, numbers),
        Kind::Attach => small_large(numbers).map(|x| Line::Attach(x.0, x.1)),
        Kind::Unattached => small_two_large(numbers).map(|x| Line::Unattached(x.0, x.1, x.2)),
        Kind::Detach => small_large(numbers).map(|x| Line::Detach(x.0, x.1)),
        Kind::Reset => one_small(numbers).map(|x| Line::Reset(x)),
        Kind::Seen => two_small(numbers).map(|x| Line::Seen(x.0, x.1)),
        Kind::Room => two_small(numbers).map(|x| Line::Room(x.0, x.1)),
        Kind::Put => carried(numbers).map(|x| Line::Put(x.0, x.1, x.2, x.3, x.4)),
        Kind::Take => carried(numbers).map(|x| Line::Take(x.0, x.1, x.2, x.3, x.4)),
        Kind::Drain => drained(numbers).map(|x| Line::Drain(x.0, x.1, x.2, x.3)),
        Kind::Got => small_large(numbers).map(|x| Line::Got(x.0, x.1)),
        Kind::Dry => no_number(Line::Dry, numbers),
        Kind::Gave => small_large(numbers).map(|x| Line::Gave(x.0, x.1)),
        Kind::Full => small_large(numbers).map(|x| Line::Full(x.0, x.1)),
        Kind::Worn => small_large(numbers).map(|x| Line::Worn(x.0, x.1)),
        Kind::Spent => no_number(Line::Spent, numbers),
        Kind::Stop => no_number(Line::Stop, numbers),
        Kind::Close => no_number(Line::Close, numbers),
        Kind::Reclaimed => no_number(Line::Reclaimed, numbers),
        Kind::Restart => no_number(Line::Restart, numbers),
    }
}
