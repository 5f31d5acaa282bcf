//! Two workers, called in turn.
ghost use Rattle.std.specs.Prelude.{◌≡◌, IsTrue, OnOk};
ghost use Rattle.sn_core.specs.declared.events.Side.TheVariants.{Rx, Tx};
ghost use Rattle.seat_rig.specs.Hands.{Holds};

use crate::hands::{Answer, Hand, Step, take_step};
use sn_app::{Ctx, Halt, Side};
use std::alloc::Global;
use std::test::Fail;

/// Who is called.
#[derive(Clone, Copy, Debug, PartialEq, Eq)]
pub enum Who {
    First,
    Second,
}

/// One of the two is called.
fn turn<C: Ctx, D: Ctx>(
    first: &mut C,
    mine: &mut Hand,
    second: &mut D,
    other: &mut Hand,
    who: Who,
    call: Step,
) -> Result<Answer, Halt>
    requires mine { Holds mine.old (C.tray first.old) (C.used first.old) }
    requires other { Holds other.old (D.tray second.old) (D.used second.old) }
    ensures mine { OnOk result (Holds mine.new (C.tray first.new) (C.used first.new)) }
    ensures other { OnOk result (Holds other.new (D.tray second.new) (D.used second.new)) }
    ensures lent { C.lender first.new ≡ C.lender first.old }
    ensures other_lent { D.lender second.new ≡ D.lender second.old }
{
    match who {
        Who::First => take_step(first, mine, call),
        Who::Second => take_step(second, other, call),
    }
}

/// All calls in their order, the first worker at the transmitter of interlink 0 and the second at its receiver, and what each
/// call answered.
///
/// # Errors
/// Those of the calls, and want of memory.
pub fn trial<C: Ctx, D: Ctx>(
    alloc: Global,
    first: &mut C,
    second: &mut D,
    calls: &[(Who, Step)],
) -> Result<Vec<Answer>, Fail>
    requires first { IsTrue ((C.tray first.old).log.constants.has_end 0 Tx) }
    requires second { IsTrue ((D.tray second.old).log.constants.has_end 0 Rx) }
    ensures lent { C.lender first.new ≡ C.lender first.old }
    ensures other_lent { D.lender second.new ≡ D.lender second.old }
{
    let mut answers = Vec::with_capacity(alloc, calls.len())?;
    let mut mine = Hand::new(Side::Tx);
    let mut other = Hand::new(Side::Rx);
    for (who, call) in calls {
        let answer = turn(first, &mut mine, second, &mut other, *who, *call)?;
        answers.push(answer)?;
    }
    Ok(answers)
}
