//! A slot of a scenario.
ghost use Rattle.std.specs.Prelude.{◌≡◌, ◌<◌, ℕ, [], false, IfOk, List};
ghost use Rattle.sn_app.specs.World.{desk_of, world};
ghost use Rattle.sn_scenario.specs.Plans.{plan_of, roster_of};
ghost use Rattle.sn_scenario.specs.Scenarios.{AreBounded};
ghost use Rattle.sn_worker.specs.Plans.{Serves};
ghost use Rattle.sn_worker.specs.SlotViews.{CanRun, slot_desk, slot_life, slot_plan, slot_seat, slot_spent, slot_tray, slot_used};
ghost use Rattle.sn_worker.specs.Slots.{keep_of, new_slot_life};

use crate::Slot;
use sn_scenario::{Scenario, Settings};
use sn_seat::Seat;
use std::alloc::{AllocError, Global};

/// How many free packets a worker keeps: its share of half the pool, and at least one.
fn keep_of(settings: Settings) -> u64
    requires { AreBounded settings }
    ensures { result ≡ keep_of settings }
{
    u64::from((settings.pool / (2 * settings.workers)).max(1))
}

impl Slot {
    /// The slot of a scenario's worker, by its number below the number of workers, with its seat that has done nothing. It took
    /// no action of its plan.
    ///
    /// # Errors
    /// Want of memory.
    pub fn of_scenario(
        alloc: Global,
        seat: Seat,
        scenario: &Scenario,
        number: u32,
    ) -> Result<Slot, AllocError>
        requires { number < scenario.now.settings.workers }
        ensures seat { IfOk result (λ slot. slot_seat slot ≡ seat) }
        ensures plan { IfOk result (λ slot. slot_plan slot ≡ plan_of number scenario.now) }
        ensures breaths { IfOk result (λ slot. slot.breaths ≡ scenario.now.settings.breaths) }
        ensures restarts { IfOk result (λ slot. slot.restarts ≡ scenario.now.settings.restarts) }
        ensures keep { IfOk result (λ slot. slot.keep ≡ keep_of scenario.now.settings) }
        ensures life { IfOk result (λ slot. (captures : List (List ℕ)) → slot_life captures slot ≡ new_slot_life) }
        ensures desk { IfOk result (λ slot. (captures : List (List ℕ)) → slot_desk captures slot
            ≡ desk_of (world (slot_tray captures slot) (slot_used slot) [])) }
        ensures can { IfOk result (λ slot. (captures : List (List ℕ))
            → Serves (roster_of number scenario.now) scenario.now.lanes number (slot_tray captures slot)
            → CanRun captures slot) }
        ensures unspent { IfOk result (λ slot. slot_spent slot ≡ false) }
    {
        let settings = scenario.settings();
        let plan = scenario.plan(alloc, number)?;
        Ok(Slot::new(
            alloc,
            seat,
            plan,
            settings.breaths,
            settings.restarts,
            keep_of(settings),
        ))
    }
}
