//! Numbers in decimal digits.
ghost use Rattle.sn_names.specs.DecimalText.{IsDecimal};
ghost use Rattle.std.specs.Fmt.{decimal as digits_of};
ghost use Rattle.std.specs.Prelude.{IfNone, IfSome, IsTrue, OnErr, OnOk, false, length, slice_index, ℕ, ◌++◌, ◌<◌, ◌^◌, ◌≡◌, ◌≢◌, ◌≤◌};

use itoa::Buffer;
use std::alloc::AllocError;
use std::str;

/// The most digits that a number has: enough for each u32, and the number is then below 2 ^ 64.
const MOST_DIGITS: usize = 10;

/// The number that a text of 1 to 10 decimal digits writes, without a sign and without a leading
/// zero but in `0`. None exactly where the text isn't of this form or the number is over `max`.
#[tactic(auto, using(crate::proofs::Decimals::digits_parse))]
pub fn decimal(text: &[u8], max: u64) -> Option<u64>
    ensures found { IfSome result (λ n. IsDecimal text.now max n) }
    ensures none { IfNone result ((n : ℕ) → IsDecimal text.now max n → ⊥) }
    ensures only { IfSome result (λ n. (other : ℕ) → IsDecimal text.now max other → other ≡ n) }
{
    if text.len() > MOST_DIGITS {
        return None;
    }
    if !begins_plainly(text) {
        return None;
    }
    let Ok(digits) = str::from_utf8(text) else {
        return None;
    };
    let Ok(number) = digits.parse::<u64>() else {
        return None;
    };
    if number > max {
        return None;
    }
    Some(number)
}

/// Whether a text begins as a number's digits do: not with a sign, nor with a zero before a digit.
#[tactic(auto, using(crate::proofs::Decimals::digits_begin))]
fn begins_plainly(text: &[u8]) -> bool
    ensures sign { IsTrue result → slice_index text.now 0 ≢ 43 }
    ensures zero { IsTrue result → slice_index text.now 0 ≡ 48 → length text.now ≡ 1 }
    ensures no { result ≡ false → (n : ℕ) → n < 2 ^ 64 → text.now ≡ digits_of n → ⊥ }
{
    if text.is_empty() {
        return false;
    }
    let first = text[0];
    if first == b'+' {
        return false;
    }
    first != b'0' || text.len() == 1
}

/// Appends the number's decimal digits, which `decimal` reads back where they are at most ten.
///
/// # Errors
/// Want of memory. The bytes are then as before.
#[tactic(auto, using(crate::proofs::Decimals::reads_back))]
pub fn push_decimal(into: &mut Vec<u8>, n: u64) -> Result<(), AllocError>
    ensures ok { OnOk result (into.new.items ≡ into.old.items ++ digits_of n) }
    ensures err { OnErr result (into.new.items ≡ into.old.items) }
    ensures reads_back { n < 10 ^ 10 → (max : ℕ) → n ≤ max → IsDecimal (digits_of n) max n }
{
    let mut buffer = Buffer::new();
    into.extend_from_slice(buffer.format(n).as_bytes())?;
    Ok(())
}
