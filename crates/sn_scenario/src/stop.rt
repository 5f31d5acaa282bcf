//! Stops of workers.
ghost use Rattle.sn_scenario.specs.Cutting.{tokens};
ghost use Rattle.sn_scenario.specs.Results.{Leaves};
ghost use Rattle.sn_scenario.specs.StopLines.{has_stop, same_stop, stop_line};
ghost use Rattle.std.specs.Prelude.{◌≡◌};

use crate::Why;
use crate::fault::LineFault;
use crate::reading::{number_of, worker_of};
use crate::shape::three_tokens;

/// The most stops: a bound that the format sets.
const MOST_STOPS: usize = 1000;
/// The most entries before a stop. No run's journal has so many.
const MOST_ENTRIES: u32 = 1_000_000_000;
/// The most gates behind an entry.
const MOST_GATES: u32 = 1_000_000;

/// A stop of a worker: at a gate, after so many entries of its journal.
#[derive(Clone, Copy, Debug, PartialEq, Eq)]
pub struct StopLine {
    /// The worker.
    pub worker: u32,
    /// How many entries come before, at most 1,000,000,000.
    pub entries: u64,
    /// How many gates come after the last of them, at most 1,000,000.
    pub gates: u32,
}

/// Whether both are the same.
fn same_stop(a: &StopLine, b: &StopLine) -> bool
    ensures { result ≡ same_stop a.now b.now }
{
    a.worker == b.worker && a.entries == b.entries && a.gates == b.gates
}

/// Whether the stop is there.
fn has_stop(stops: &[StopLine], stop: &StopLine) -> bool
    ensures { result ≡ has_stop stop.now stops.now }
{
    stops.iter().any(|other| same_stop(other, stop))
}

/// Reads a stop's line after its first token.
#[tactic(auto, unfolding(crate::specs::StopLines::stop_line))]
pub(crate) fn stop_line(
    stops: &mut Vec<StopLine>,
    workers: u32,
    text: &[u8],
) -> Result<(), LineFault>
    ensures { Leaves stops.new.items result (stop_line workers stops.old.items (tokens text.now)) }
{
    let (worker, entries, gates) = three_tokens(text)?;
    let worker = worker_of(worker, workers)?;
    let entries = number_of(entries, 0, MOST_ENTRIES)?;
    let gates = number_of(gates, 0, MOST_GATES)?;
    let stop = StopLine {
        worker,
        entries: u64::from(entries),
        gates,
    };
    if has_stop(stops, &stop) {
        return Err(LineFault::Bad(Why::Twice));
    }
    if stops.len() >= MOST_STOPS {
        return Err(LineFault::Bad(Why::TooMany));
    }
    stops.push(stop)?;
    Ok(())
}
