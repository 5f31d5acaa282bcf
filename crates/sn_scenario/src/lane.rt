//! Interlinks.
ghost use Rattle.sn_scenario.specs.Cutting.{tokens};
ghost use Rattle.sn_scenario.specs.LaneLines.{has_lane, lane_line};
ghost use Rattle.sn_scenario.specs.Results.{Leaves};
ghost use Rattle.std.specs.Prelude.{◌≡◌};

use crate::Why;
use crate::fault::LineFault;
use crate::reading::{name_of, worker_of};
use crate::shape::three_tokens;
use sn_names::Name;
use std::alloc::Global;

/// The most interlinks: a bound that the format sets.
const MOST_LANES: usize = 16;

/// An interlink.
#[derive(Debug, Drop)]
pub struct Lane {
    /// Its name.
    pub name: Name,
    /// The worker that transmits.
    pub tx: u32,
    /// The worker that receives.
    pub rx: u32,
}

/// Whether there is an interlink of this name.
fn has_lane(lanes: &[Lane], name: &Name) -> bool
    ensures { result ≡ has_lane name.now lanes.now }
{
    lanes.iter().any(|lane| lane.name == *name)
}

/// Reads an interlink's line after its first token.
#[tactic(auto, unfolding(crate::specs::LaneLines::lane_line))]
pub(crate) fn lane_line(
    alloc: Global,
    lanes: &mut Vec<Lane>,
    workers: u32,
    text: &[u8],
) -> Result<(), LineFault>
    ensures { Leaves lanes.new.items result (lane_line workers lanes.old.items (tokens text.now)) }
{
    let (name, tx, rx) = three_tokens(text)?;
    let name = name_of(alloc, name)?;
    let tx = worker_of(tx, workers)?;
    let rx = worker_of(rx, workers)?;
    if tx == rx {
        return Err(LineFault::Bad(Why::Worker));
    }
    if has_lane(lanes, &name) {
        return Err(LineFault::Bad(Why::Twice));
    }
    if lanes.len() >= MOST_LANES {
        return Err(LineFault::Bad(Why::TooMany));
    }
    lanes.push(Lane { name, tx, rx })?;
    Ok(())
}
