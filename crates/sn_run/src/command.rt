//! The words of a command.
ghost use Rattle.sn_run.specs.Commands.{IsCommand, IsCommandOf, texts};
ghost use Rattle.std.specs.Fmt.{decimal};
ghost use Rattle.std.specs.Prelude.{ℕ, List, [], ◌∷◌, IfNone, IfSome, IsTrue, length, ◌≡◌, ◌≤◌, ◌↔◌};

use crate::texts::is_same;
use sn_names::decimal;

/// The most bytes of a file's word.
const MOST_WORD: usize = 4096;

/// The greatest number of a worker.
const MOST_WORKER: u64 = 15;

/// What is done with the file of a command.
#[derive(Clone, Copy, Debug, PartialEq, Eq)]
pub enum Command {
    /// Its scenario is run.
    Run,
    /// Its scenario is read.
    Check,
    /// The actions of this worker are printed.
    Actions(u32),
}

/// Whether a word is a file's.
fn is_file(word: &str) -> bool
    ensures { IsTrue result ↔ ((1 ≤ length word.now) × (length word.now ≤ 4096)) }
{
    !word.is_empty() && word.len() <= MOST_WORD
}

/// The worker that a word numbers.
fn worker_of(word: &str) -> Option<u32>
    ensures found { IfSome result (λ worker. (word.now ≡ decimal worker) × (worker ≤ 15)) }
    ensures none { IfNone result ((worker : ℕ) → worker ≤ 15 → word.now ≡ decimal worker → ⊥) }
{
    match decimal(word.as_bytes(), MOST_WORKER) {
        Some(worker) => Some(worker as u32),
        None => None,
    }
}

/// The command of two words.
fn two_words(word: &str, file: &str) -> Option<Command>
    ensures found { IfSome result (λ command. IsCommandOf (word.now ∷ file.now ∷ []) file.now command) }
    ensures none { IfNone result (IsCommand (word.now ∷ file.now ∷ []) → ⊥) }
{
    if !is_file(file) {
        return None;
    }
    if is_same(word.as_bytes(), b"run") {
        return Some(Command::Run);
    }
    if is_same(word.as_bytes(), b"check") {
        return Some(Command::Check);
    }
    None
}

/// The command of three words.
fn three_words(word: &str, file: &str, number: &str) -> Option<Command>
    ensures found { IfSome result (λ command. IsCommandOf (word.now ∷ file.now ∷ number.now ∷ []) file.now command) }
    ensures none { IfNone result (IsCommand (word.now ∷ file.now ∷ number.now ∷ []) → ⊥) }
{
    if !is_file(file) {
        return None;
    }
    if !is_same(word.as_bytes(), b"actions") {
        return None;
    }
    match worker_of(number) {
        Some(worker) => Some(Command::Actions(worker)),
        None => None,
    }
}

/// The file of a command and what is done with it, or None where the words are no command.
pub(crate) fn command_of(words: &[String]) -> Option<(&str, Command)>
    ensures found { IfSome result (λ found. IsCommandOf (texts words.now) found.0.now found.1) }
    ensures none { IfNone result (IsCommand (texts words.now) → ⊥) }
{
    if words.len() == 2 {
        let (word, file) = (words[0].as_str(), words[1].as_str());
        return match two_words(word, file) {
            Some(command) => Some((file, command)),
            None => None,
        };
    }
    if words.len() == 3 {
        let (word, file) = (words[0].as_str(), words[1].as_str());
        return match three_words(word, file, words[2].as_str()) {
            Some(command) => Some((file, command)),
            None => None,
        };
    }
    None
}
