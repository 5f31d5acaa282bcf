//! The lines of a journal's text, read back.
ghost use Rattle.sn_journal.specs.Cutting.{read_line};
ghost use Rattle.sn_journal.specs.JournalText.{fits, line_text};
ghost use Rattle.sn_journal.specs.Outline.{IsFirstFault, IsOutline};
ghost use Rattle.std.specs.Prelude.{IfErr, IfOk, IfSome, List, [], true, ℕ, ◌++◌, ◌∷◌, ◌≡◌};

use crate::cutting::{split_line, split_word};
use crate::kind::Kind;
use crate::line_reading::line_from;
use crate::numbers::read_numbers;
use crate::{Line, OutlineFault};
use std::alloc::{AllocError, Global};

/// The line that a text without its line feed is. `numbers` is room for its numbers.
fn read_line(numbers: &mut Vec<u64>, text: &[u8]) -> Result<Option<Line>, AllocError>
    ensures exact { IfOk result (λ read. read ≡ read_line text.now) }
    ensures spelled { IfOk result (λ read. IfSome read (λ line. text.now ++ 10 ∷ [] ≡ line_text line)) }
    ensures fits { IfOk result (λ read. IfSome read (λ line. fits line ≡ true)) }
{
    let (word, rest) = split_word(text);
    let Some(kind) = Kind::of(word) else {
        return Ok(None);
    };
    if !read_numbers(numbers, rest)? {
        return Ok(None);
    }
    Ok(line_from(kind, numbers))
}

/// The lines of a journal's text. A line is a word and its numbers, each behind one space and in decimal digits without leading
/// zeros, and it ends with a line feed.
///
/// # Errors
/// `Line(n)` exactly where line `n`, counted from 1, is the first that isn't of this form; what follows the last line feed, where
/// it isn't empty, is a line that isn't. Else want of memory.
pub fn outline(alloc: Global, text: &[u8]) -> Result<Vec<Line>, OutlineFault>
    ensures read { IfOk result (λ lines. IsOutline text.now lines.items) }
    ensures only { IfOk result (λ lines. (others : List Line) → IsOutline text.now others → others ≡ lines.items) }
    ensures fault { IfErr result (λ fault. (n : ℕ) → fault ≡ OutlineFault.Line n → IsFirstFault text.now n) }
    ensures none { IfErr result (λ fault. (n : ℕ) (lines : List Line)
        → fault ≡ OutlineFault.Line n → IsOutline text.now lines → ⊥) }
{
    let mut numbers = Vec::new(alloc);
    let mut lines = Vec::new(alloc);
    let mut rest = text;
    while !rest.is_empty() {
        let number = lines.len() as u64 + 1;
        let Some((line, behind)) = split_line(rest) else {
            return Err(OutlineFault::Line(number));
        };
        let Some(line) = read_line(&mut numbers, line)? else {
            return Err(OutlineFault::Line(number));
        };
        lines.push(line)?;
        rest = behind;
    }
    Ok(lines)
}
