//! The lesser of two numbers.
ghost use Rattle.std.specs.Prelude.{◌≡◌, ◌≤◌, min};

/// The lesser of two numbers.
pub(crate) fn lesser_of(a: u32, b: u32) -> u32
    ensures value { result ≡ min a b }
    ensures first { result ≤ a }
    ensures second { result ≤ b }
{
    if a < b { a } else { b }
}
