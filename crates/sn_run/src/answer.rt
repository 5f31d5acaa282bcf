//! Answers with their texts, and refusals.
ghost use Rattle.sn_run.specs.Texts.{SaysOrStarves, said_of, saying, starving};
ghost use Rattle.sn_run.specs.Ways.{way_of};
ghost use Rattle.std.specs.Prelude.{◌≡◌};

use crate::texts::status_text;
use crate::{Report, Status};
use std::alloc::Global;

/// An answer, its text, and the report where there is one.
#[derive(Drop)]
pub(crate) struct Answer {
    pub(crate) status: Status,
    pub(crate) report: Option<Report>,
    pub(crate) text: Vec<u8>,
}

/// An answer without a report, and its text.
#[derive(Drop)]
pub(crate) struct Refusal {
    pub(crate) status: Status,
    pub(crate) text: Vec<u8>,
}

/// The answer for want of memory.
pub(crate) fn starved(alloc: Global) -> Answer
    ensures says { saying result.status result.text.items ≡ starving }
    ensures report { result.report ≡ None }
{
    Answer {
        status: Status::OutOfMemory,
        report: None,
        text: Vec::new(alloc),
    }
}

/// The answer of a refusal.
pub(crate) fn refused(refusal: Refusal) -> Answer
    ensures says { saying result.status result.text.items ≡ saying refusal.status refusal.text.items }
    ensures report { result.report ≡ None }
{
    let Refusal { status, text } = refusal;
    Answer {
        status,
        report: None,
        text,
    }
}

/// The refusal for want of memory, which takes none.
pub(crate) fn out_of_memory(alloc: Global) -> Refusal
    ensures { saying result.status result.text.items ≡ starving }
{
    Refusal {
        status: Status::OutOfMemory,
        text: Vec::new(alloc),
    }
}

/// The refusal with this answer, or for want of memory for its text.
pub(crate) fn refusal_of(alloc: Global, status: Status) -> Refusal
    ensures { SaysOrStarves (saying result.status result.text.items) (said_of (way_of status)) }
{
    let Ok(text) = status_text(alloc, &status) else {
        return out_of_memory(alloc);
    };
    Refusal { status, text }
}
