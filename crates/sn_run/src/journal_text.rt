//! The text of a run's journals.
ghost use Rattle.sn_run.specs.Reported.{WrittenFile};
ghost use Rattle.sn_run.specs.Written.{journal_files, journals_text, worker_text};
ghost use Rattle.std.specs.Option.{option_copied};
ghost use Rattle.std.specs.Prelude.{List, ℕ, IfOk, OnOk, map, ◌++◌, ◌≡◌};

use crate::{OutFile, Report};
use sn_journal::Journal;
use sn_names::{FileName, push_decimal};
use std::alloc::{AllocError, Global};

/// Appends a line with a worker's number, and the lines of its journal.
fn push_worker(into: &mut Vec<u8>, worker: u64, journal: &Journal) -> Result<(), AllocError>
    ensures { OnOk result (into.new.items ≡ into.old.items ++ worker_text worker journal.now.entries) }
{
    into.extend_from_slice(b"worker ")?;
    push_decimal(into, worker)?;
    into.push(b'\n')?;
    journal.print(into)?;
    Ok(())
}

/// Appends the text of the workers' journals, the first worker's first.
fn push_journals(into: &mut Vec<u8>, journals: &[Journal]) -> Result<(), AllocError>
    ensures { OnOk result (into.new.items ≡ into.old.items ++ journals_text 0 (map (λ j. j.entries) journals.now)) }
{
    let mut worker = 0;
    for journal in journals {
        push_worker(into, worker, journal)?;
        worker += 1;
    }
    Ok(())
}

/// The file of a run's journals with its text, where one is named.
///
/// # Errors
/// Want of memory.
pub(crate) fn journal_files(
    alloc: Global,
    name: Option<&FileName>,
    report: &Report,
) -> Result<Vec<OutFile>, AllocError>
    ensures { IfOk result (λ made. made.items ≡ journal_files (option_copied name.entry) report.now.journals) }
{
    let mut files = Vec::new(alloc);
    if let Some(name) = name {
        let mut bytes = Vec::new(alloc);
        push_journals(&mut bytes, &report.journals)?;
        files.push(OutFile {
            name: name.copy(alloc)?,
            bytes,
        })?;
    }
    Ok(files)
}
