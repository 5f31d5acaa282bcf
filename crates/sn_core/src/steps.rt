//! One step of the machine, by its event.

ghost use Rattle.sn_core.specs.Core.{IsStep};
ghost use Rattle.sn_core.specs.Invariant.{IsKept};
ghost use Rattle.sn_core.specs.State.{core_of};

use crate::events::{Event, Stepped};
use crate::machine::Machine;

impl Machine {
    /// Makes the event where it is enabled.
    pub fn step(&mut self, event: Event) -> Stepped
        requires { IsKept (core_of self.old) }
        ensures { IsStep (core_of self.old) event result (core_of self.new) }
    {
        match event {
            Event::Look => Stepped::Done,
            Event::Attach { lane, side } => self.attach(lane, side),
            Event::Detach { lane, side } => self.detach(lane, side),
            Event::Reset { lane, side } => self.reset(lane, side),
            Event::Take { lane } => self.take(lane),
            Event::Release { lane } => self.release(lane),
            Event::Lay { lane, packet } => self.lay(lane, packet),
            Event::Publish { lane } => self.publish(lane),
            Event::TakeBack { lane } => self.take_back(lane),
            Event::DrainTake { lane, side } => self.drain_take(lane, side),
            Event::DrainRelease { lane, side } => self.drain_release(lane, side),
            Event::TakeClaim { seat, cell } => self.take_claim(seat, cell),
            Event::TakeOut { seat } => self.take_out(seat),
            Event::TakeDone { seat } => self.take_done(seat),
            Event::GiveClaim { seat, cell, packet } => self.give_claim(seat, cell, packet),
            Event::GiveIn { seat } => self.give_in(seat),
            Event::GiveDone { seat } => self.give_done(seat),
            Event::Say { worker, n } => self.say(worker, n),
            Event::Hear { worker } => self.hear(worker),
            Event::Stop { seat } => self.stop(seat),
            Event::Restart { seat } => self.restart(seat),
        }
    }
}
