//! How a run ends.
ghost use Rattle.sn_run.specs.Reported.{ended_by_limit, first_full, has_spent, is_spent};
ghost use Rattle.sn_run.specs.Ways.{way_of, finished};
ghost use Rattle.std.specs.Prelude.{length, map, ◌<◌, ◌^◌, ◌≡◌};

use crate::Status;
use sn_journal::{Entry, Journal};

/// How a run ended.
#[derive(Clone, Copy, Debug, PartialEq, Eq)]
pub enum Outcome {
    /// Nothing was left to do.
    Drained,
    /// The rounds were used up, and so much was left: actions that weren't applied, records that
    /// weren't read, and packets in links and interlinks.
    RoundsUsed(u64),
    /// The journal of this worker is full, and no worker before it has a full one.
    JournalLimit(u32),
}

/// Whether an entry says that the journal is full.
fn is_spent(entry: &Entry) -> bool
    ensures { result ≡ is_spent entry.now }
{
    matches!(entry, Entry::Spent)
}

/// Whether an entry of a journal says that it is full.
fn has_spent(journal: &Journal) -> bool
    ensures { result ≡ has_spent journal.now.entries }
{
    journal.entries().iter().any(|entry| is_spent(entry))
}

/// The first worker whose journal is full.
fn first_full(journals: &[Journal]) -> Option<u32>
    requires { length journals.now < 2 ^ 32 }
    ensures { result ≡ first_full 0 (map (λ j. j.entries) journals.now) }
{
    for worker in 0..journals.len() {
        if has_spent(&journals[worker]) {
            return Some(worker as u32);
        }
    }
    None
}

/// How a run ended that leaves these journals, and so much undone.
pub(crate) fn ended_by(journals: &[Journal], left: u64) -> Outcome
    requires { length journals.now < 2 ^ 32 }
    ensures { result ≡ ended_by_limit (first_full 0 (map (λ j. j.entries) journals.now)) left }
{
    match first_full(journals) {
        Some(worker) => Outcome::JournalLimit(worker),
        None if left == 0 => Outcome::Drained,
        None => Outcome::RoundsUsed(left),
    }
}

/// The status that tells an outcome.
pub(crate) fn status_of(outcome: Outcome) -> Status
    ensures { way_of result ≡ finished outcome }
{
    match outcome {
        Outcome::Drained => Status::Drained,
        Outcome::RoundsUsed(left) => Status::RoundsUsed(left),
        Outcome::JournalLimit(worker) => Status::JournalLimit(worker),
    }
}
