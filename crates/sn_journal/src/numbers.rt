//! The numbers of a line.
ghost use Rattle.sn_journal.specs.Cutting.{is_no_space, numbers_behind};
ghost use Rattle.sn_journal.specs.JournalText.{spaced};
ghost use Rattle.sn_names.specs.Parts.{starts};
ghost use Rattle.std.specs.Prelude.{None, Ok, Some, false, true, ◌≡◌};

use crate::cutting::split_word;
use crate::number::number;
use std::alloc::AllocError;

/// Whether a text is numbers, each behind a space. They stand in `into` then, in place of what it had.
///
/// # Errors
/// Want of memory.
pub(crate) fn read_numbers(into: &mut Vec<u64>, text: &[u8]) -> Result<bool, AllocError>
    requires { starts is_no_space text.now ≡ false }
    ensures read { result ≡ Ok true → numbers_behind text.now ≡ Some into.new.items }
    ensures text { result ≡ Ok true → text.now ≡ spaced into.new.items }
    ensures none { result ≡ Ok false → numbers_behind text.now ≡ None }
{
    into.clear();
    let mut rest = text;
    while !rest.is_empty() {
        let (_, next) = rest.split_at(1);
        let (word, behind) = split_word(next);
        let Some(n) = number(word) else {
            return Ok(false);
        };
        into.push(n)?;
        rest = behind;
    }
    Ok(true)
}
