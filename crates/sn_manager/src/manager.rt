//! The manager of a run.
ghost use Rattle.std.specs.Borrow.{sem};
ghost use Rattle.std.specs.Prelude.{◌≡◌, ◌<◌, ◌≤◌, ℕ, IsOk, Some, length, slice_get};
ghost use Rattle.sn_manager.specs.Managers.{AreOf, LendsSpeaker, due_in, speakers_in};
ghost use Rattle.sn_manager.specs.Saying.{HasSaid, NoneAhead};

use sn_channel::Speaker;
use sn_scenario::Scenario;
use sn_seat::Shared;
use std::alloc::{AllocError, Global};

/// The manager of a run: a speaker for each worker, by the worker's number. Contracts see what each of them said.
#[derive(Drop)]
pub struct Manager {
    pub(crate) speakers: Vec<Speaker>,
}

impl Manager {
    /// A manager with these speakers, one for each worker, in the order of the workers' numbers. It takes no memory.
    pub fn new(speakers: Vec<Speaker>) -> Manager
        ensures { speakers_in result ≡ speakers.items }
    {
        Manager { speakers }
    }

    /// Says to each worker how many actions of its configurations up to this round there are. It may be said in every round,
    /// of one scenario, and in no round that comes before one in which it was said.
    ///
    /// # Errors
    /// None.
    pub fn round(
        &mut self,
        alloc: Global,
        shared: &Shared,
        scenario: &Scenario,
        round: u32,
    ) -> Result<(), AllocError>
        requires channels { AreOf (speakers_in self.old) shared.now.channels.items }
        requires workers { length (speakers_in self.old) ≡ scenario.now.settings.workers }
        requires ahead { NoneAhead (due_in scenario.now round) (speakers_in self.old) }
        ensures said { HasSaid (due_in scenario.now round) (speakers_in self.old) (speakers_in self.new) }
        ensures ahead { (later : ℕ) → round ≤ later → NoneAhead (due_in scenario.now later) (speakers_in self.new) }
        ensures channels { AreOf (speakers_in self.new) shared.now.channels.items }
        ensures ok { IsOk result }
    {
        let workers = scenario.settings().workers;
        for worker in 0..workers {
            let due = scenario.due(alloc, worker, round)?;
            self.speakers[worker as usize].say(&shared.channels[worker as usize], due);
        }
        Ok(())
    }

    /// The speaker of a worker.
    pub fn speaker(&mut self, worker: u32) -> &mut Speaker
        requires { worker < length (speakers_in self.old) }
        ensures* writes_back { sem 𝓛 (LendsSpeaker self.entry worker result) }
        ensures value { slice_get (speakers_in self.old) worker ≡ Some result.now }
    {
        &mut self.speakers[worker as usize]
    }
}
