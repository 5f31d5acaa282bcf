//! The text of a journal.
ghost use Rattle.sn_journal.specs.JournalText.{fits, journal_text, kind_word, line_of, line_text, spaced, spelled};
ghost use Rattle.sn_journal.specs.Outline.{IsOutline};
ghost use Rattle.std.specs.List.{list_all};
ghost use Rattle.std.specs.Prelude.{OnErr, OnOk, length, map, take, true, ◌++◌, ◌≡◌};

use crate::kind::Kind;
use crate::{Entry, Journal};
use sn_names::push_decimal;
use std::alloc::AllocError;

/// Appends numbers in decimal digits, each behind a space.
#[tactic(auto, using(crate::proofs::KeptFront::kept_front))]
fn push_numbers(into: &mut Vec<u8>, numbers: &[u64]) -> Result<(), AllocError>
    ensures ok { OnOk result (into.new.items ≡ into.old.items ++ spaced numbers.now) }
    ensures before { take (length into.old.items) into.new.items ≡ into.old.items }
{
    for n in numbers {
        into.push(b' ')?;
        push_decimal(into, *n)?;
    }
    Ok(())
}

/// Appends a line of these numbers.
#[tactic(auto, using(crate::proofs::KeptFront::kept_front), unfolding(crate::specs::JournalText::spelled))]
fn push_line(into: &mut Vec<u8>, kind: Kind, numbers: &[u64]) -> Result<(), AllocError>
    ensures ok { OnOk result (into.new.items ≡ into.old.items ++ spelled (kind_word kind) numbers.now) }
    ensures before { take (length into.old.items) into.new.items ≡ into.old.items }
{
    into.extend_from_slice(kind.word().as_bytes())?;
    push_numbers(into, numbers)?;
    into.push(b'\n')?;
    Ok(())
}

/// Appends the line of an entry.
fn push_entry(into: &mut Vec<u8>, entry: &Entry) -> Result<(), AllocError>
    ensures ok { OnOk result (into.new.items ≡ into.old.items ++ line_text (line_of entry.now)) }
    ensures before { take (length into.old.items) into.new.items ≡ into.old.items }
    ensures fits { fits (line_of entry.now) ≡ true }
{
    match entry {
        Entry::Round(round) => push_line(into, Kind::Round, &[u64::from(*round)]),
        Entry::Hear(due) => push_line(into, Kind::Hear, &[*due]),
        Entry::Breath => push_line(into, Kind::Breath, &[]),
        Entry::Attach(lane, found) => push_line(into, Kind::Attach, &[u64::from(*lane), *found]),
        Entry::Unattached(lane, loaded, found) => push_line(
            into,
            Kind::Unattached,
            &[u64::from(*lane), *loaded, *found],
        ),
        Entry::Detach(lane, old) => push_line(into, Kind::Detach, &[u64::from(*lane), *old]),
        Entry::Reset(lane) => push_line(into, Kind::Reset, &[u64::from(*lane)]),
        Entry::Seen(lane, seen) => push_line(
            into,
            Kind::Seen,
            &[u64::from(*lane), u64::from(*seen)],
        ),
        Entry::Room(lane, room) => push_line(
            into,
            Kind::Room,
            &[u64::from(*lane), u64::from(*room)],
        ),
        Entry::Put(lane, at, packet, turn, bytes) => push_line(
            into,
            Kind::Put,
            &[
                u64::from(*lane),
                *at,
                u64::from(*packet),
                *turn,
                bytes.bytes().len() as u64,
            ],
        ),
        Entry::Take(lane, at, packet, turn, bytes) => push_line(
            into,
            Kind::Take,
            &[
                u64::from(*lane),
                *at,
                u64::from(*packet),
                *turn,
                bytes.bytes().len() as u64,
            ],
        ),
        Entry::Drain(lane, at, packet, turn) => push_line(
            into,
            Kind::Drain,
            &[u64::from(*lane), *at, u64::from(*packet), *turn],
        ),
        Entry::Got(packet, turn) => push_line(into, Kind::Got, &[u64::from(*packet), *turn]),
        Entry::Dry => push_line(into, Kind::Dry, &[]),
        Entry::Gave(packet, turn) => push_line(into, Kind::Gave, &[u64::from(*packet), *turn]),
        Entry::Full(packet, turn) => push_line(into, Kind::Full, &[u64::from(*packet), *turn]),
        Entry::Worn(packet, turn) => push_line(into, Kind::Worn, &[u64::from(*packet), *turn]),
        Entry::Spent => push_line(into, Kind::Spent, &[]),
        Entry::Stop => push_line(into, Kind::Stop, &[]),
        Entry::Close => push_line(into, Kind::Close, &[]),
        Entry::Reclaimed => push_line(into, Kind::Reclaimed, &[]),
        Entry::Restart => push_line(into, Kind::Restart, &[]),
    }
}

/// Appends the lines of all entries.
#[tactic(auto, using(crate::proofs::KeptFront::kept_front))]
fn push_entries(into: &mut Vec<u8>, entries: &[Entry]) -> Result<(), AllocError>
    ensures ok { OnOk result (into.new.items ≡ into.old.items ++ journal_text entries.now) }
    ensures before { take (length into.old.items) into.new.items ≡ into.old.items }
    ensures fits { OnOk result (list_all fits (map line_of entries.now) ≡ true) }
{
    for entry in entries {
        push_entry(into, entry)?;
    }
    Ok(())
}

impl Journal {
    /// Appends the journal's text, a line for each entry, which `outline` reads back.
    ///
    /// # Errors
    /// Want of memory. The bytes are then as before.
    pub fn print(&self, into: &mut Vec<u8>) -> Result<(), AllocError>
        ensures ok { OnOk result (into.new.items ≡ into.old.items ++ journal_text self.now.entries) }
        ensures err { OnErr result (into.new.items ≡ into.old.items) }
        ensures reads_back { OnOk result (IsOutline (journal_text self.now.entries) (map line_of self.now.entries)) }
    {
        let start = into.len();
        match push_entries(into, self.entries()) {
            Ok(()) => Ok(()),
            Err(error) => {
                into.truncate(start);
                Err(error)
            }
        }
    }
}
