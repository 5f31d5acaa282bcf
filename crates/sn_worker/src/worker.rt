//! A worker.
ghost use Rattle.std.specs.Prelude.{◌≡◌, ℕ, []};
ghost use Rattle.sn_actions.specs.PlainForms.{empty_form};
ghost use Rattle.sn_app.specs.Desk.{Tray};
ghost use Rattle.sn_app.specs.World.{Used, world};
ghost use Rattle.sn_worker.specs.Lives.{new_life};
ghost use Rattle.sn_worker.specs.Plans.{CanTake, FindsAll};
ghost use Rattle.sn_worker.specs.Workers.{CanWork, kept_of, life_of, plan_in, world_around};

use sn_actions::Action;
use sn_network::Network;
use std::alloc::Global;
use std::mem;

/// A worker: its network, its plan, and how far it took and applied it.
///
/// Contracts see it with the tray and the used packets of the context that it runs over, as its life (`life_of`). Every call is
/// with a context of the same roster.
#[derive(Drop)]
pub struct Worker {
    pub(crate) network: Network,
    pub(crate) plan: Vec<Action>,
    /// How many actions were applied, and how many were taken.
    pub(crate) applied: usize,
    pub(crate) taken: usize,
    /// Whether its journal was full at the beginning of a turn.
    pub(crate) spent: bool,
}

impl Worker {
    /// A worker that took no action of its plan, with an empty network.
    pub fn new(alloc: Global, plan: Vec<Action>) -> Worker
        requires { CanTake plan.items empty_form }
        ensures plan { plan_in result ≡ plan.items }
        ensures life { (used : Used) (t : Tray) → life_of result used t ≡ new_life }
        ensures works { (used : Used) (t : Tray) → FindsAll plan.items t → CanWork result used t }
        ensures kept { (place : ℕ) → kept_of result place ≡ 0 }
        ensures queues { (used : Used) (t : Tray) → world_around result used t ≡ world t used [] }
    {
        Worker {
            network: Network::new(alloc),
            plan,
            applied: 0,
            taken: 0,
            spent: false,
        }
    }

    /// Takes its network out. An empty one stays.
    pub(crate) fn take_network(&mut self, alloc: Global) -> Network
        ensures network { result ≡ self.old.network }
        ensures queues { (used : Used) (t : Tray) → world_around self.new used t ≡ world t used [] }
        ensures plan { plan_in self.new ≡ plan_in self.old }
    {
        mem::replace(&mut self.network, Network::new(alloc))
    }
}
