//! Text that goes to a sink, piece by piece.
ghost use Rattle.sn_outside.specs.Counts.{FaultCounted};
ghost use Rattle.sn_run.specs.Printed.{TookAll, TookFront, sunk};
ghost use Rattle.std.specs.Prelude.{ℕ, List, OnErr, OnOk, ◌≡◌};

use sn_outside::{Sink, SinkFault};

/// Writes a text to a sink, all of it.
///
/// # Errors
/// `Failed` where the sink failed, with the front of the text taken.
pub(crate) fn print_text<O: Sink>(out: &mut O, text: &[u8]) -> Result<(), SinkFault>
    ensures ok { OnOk result (TookAll (sunk O.tells (O.state out.old) (O.state out.new)) text.now) }
    ensures err { OnErr result (TookFront (sunk O.tells (O.state out.old) (O.state out.new)) text.now) }
    ensures still { OnOk result ((O.state out.new).faults ≡ (O.state out.old).faults) }
    ensures cause { OnErr result (FaultCounted (O.state out.old).faults (O.state out.new).faults) }
{
    let mut at = 0;
    while at < text.len() {
        at += out.write(&text[at..])?;
    }
    Ok(())
}
