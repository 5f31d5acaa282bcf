//! The links of a configuration.
ghost use Rattle.sn_scenario.specs.LinkLines.{link_line};
ghost use Rattle.sn_scenario.specs.Results.{Leaves};

use crate::Why;
use crate::fault::LineFault;
use crate::reading::link_of;
use sn_config::{Config, ConfigFault};
use std::alloc::Global;

/// Reads a link's line after its first token.
#[tactic(auto, unfolding(crate::specs::LinkLines::link_line))]
pub(crate) fn link_line(alloc: Global, config: &mut Config, text: &[u8]) -> Result<(), LineFault>
    ensures { Leaves config.new result (link_line config.old text.now) }
{
    let link = link_of(alloc, text)?;
    match config.add_link(link) {
        Ok(()) => Ok(()),
        Err(ConfigFault::Twice) => Err(LineFault::Bad(Why::Twice)),
        Err(ConfigFault::NoSuchApp) => Err(LineFault::Bad(Why::NoApp)),
        Err(ConfigFault::BadArg) => Err(LineFault::Bad(Why::Arg)),
        Err(ConfigFault::PortTaken) => Err(LineFault::Bad(Why::PortTaken)),
        Err(ConfigFault::TooMany) => Err(LineFault::Bad(Why::TooMany)),
        Err(ConfigFault::OutOfMemory) => Err(LineFault::OutOfMemory),
    }
}
