//! Numbers of at most 64 bits, read from their decimal digits.
ghost use Rattle.sn_journal.specs.Cutting.{number_of};
ghost use Rattle.std.specs.Fmt.{decimal as digits_of};
ghost use Rattle.std.specs.Prelude.{IfSome, IsTrue, false, length, slice_index, ℕ, ◌<◌, ◌^◌, ◌≡◌, ◌≢◌};

use std::str;

/// The u64 whose digits a text is, without a sign and without a leading zero but in `0`.
pub(crate) fn number(text: &[u8]) -> Option<u64>
    ensures exact { result ≡ number_of text.now }
    ensures digits { IfSome result (λ n. text.now ≡ digits_of n) }
{
    if !begins_plainly(text) {
        return None;
    }
    let Ok(digits) = str::from_utf8(text) else {
        return None;
    };
    let Ok(number) = digits.parse::<u64>() else {
        return None;
    };
    Some(number)
}

/// Whether a text begins as a number's digits do: not with a sign, nor with a zero before a digit.
#[tactic(auto, using(crate::proofs::Digits::digits_begin))]
fn begins_plainly(text: &[u8]) -> bool
    ensures sign { IsTrue result → slice_index text.now 0 ≢ 43 }
    ensures zero { IsTrue result → slice_index text.now 0 ≡ 48 → length text.now ≡ 1 }
    ensures no { result ≡ false → (n : ℕ) → n < 2 ^ 64 → text.now ≡ digits_of n → ⊥ }
{
    if text.is_empty() {
        return false;
    }
    let first = text[0];
    if first == b'+' {
        return false;
    }
    first != b'0' || text.len() == 1
}
