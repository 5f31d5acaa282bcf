//! A slot: a worker with its seat, round by round.
ghost use Rattle.std.specs.Prelude.{◌≡◌, ℕ, All, [], false, if◌then◌else◌, IfOk, List, OnOk, Some, slice_get};
ghost use Rattle.sn_actions.specs.PlainForms.{empty_form};
ghost use Rattle.sn_app.specs.World.{desk_of, world};
ghost use Rattle.sn_channel.specs.Ends.{IsRising, IsSaid, last_said};
ghost use Rattle.sn_seat.specs.Fitting.{met_again};
ghost use Rattle.sn_seat.specs.Told.{of_channel};
ghost use Rattle.sn_seat.specs.Trays.{captures_of};
ghost use Rattle.sn_worker.specs.Ends.{left_of};
ghost use Rattle.sn_worker.specs.Plans.{CanTake, FindsAll};
ghost use Rattle.sn_worker.specs.SlotViews.{CanRun, RoundRead, SameSlot, SlotFits, slot_bond, slot_desk, slot_life, slot_plan};
ghost use Rattle.sn_worker.specs.SlotViews.{slot_seat, slot_spent, slot_state, slot_tray, slot_used};
ghost use Rattle.sn_worker.specs.Slots.{new_slot_life};
ghost use Rattle.sn_worker.specs.declared.slot.RoundEnd.TheVariants.{Next, Spent};

use crate::Worker;
use crate::slot_turns::take_round;
use sn_actions::Action;
use sn_channel::Speaker;
use sn_journal::{Journal, SlotState};
use sn_outside::Gate;
use sn_seat::{Live, Seat, Shared};
use std::alloc::{AllocError, Global};

/// How a round of a slot ended.
#[derive(Clone, Copy, Debug, PartialEq, Eq)]
pub enum RoundEnd {
    /// The next round may follow.
    Next,
    /// The journal was full at the beginning of a turn.
    Spent,
}

/// A worker with its seat: how many turns it takes in a round, how often it may be started again, how many free packets it keeps,
/// and how many breaths it took since a hundred of them were full.
#[derive(Drop)]
pub struct Slot {
    pub(crate) seat: Seat,
    pub(crate) worker: Worker,
    pub(crate) alloc: Global,
    pub(crate) breaths: u32,
    pub(crate) restarts: u32,
    pub(crate) keep: u64,
    pub(crate) breathed: u32,
    pub(crate) state: SlotState,
    pub(crate) closed: bool,
}

impl Slot {
    /// A slot of a seat that has done nothing: its worker took no action of its plan.
    pub fn new(
        alloc: Global,
        seat: Seat,
        plan: Vec<Action>,
        breaths: u32,
        restarts: u32,
        keep: u64,
    ) -> Slot
        requires { CanTake plan.items empty_form }
        ensures seat { slot_seat result ≡ seat }
        ensures plan { slot_plan result ≡ plan.items }
        ensures breaths { result.breaths ≡ breaths }
        ensures restarts { result.restarts ≡ restarts }
        ensures keep { result.keep ≡ keep }
        ensures life { (captures : List (List ℕ)) → slot_life captures result ≡ new_slot_life }
        ensures desk { (captures : List (List ℕ)) → slot_desk captures result
            ≡ desk_of (world (slot_tray captures result) (slot_used result) []) }
        ensures can { (captures : List (List ℕ)) → FindsAll plan.items (slot_tray captures result) → CanRun captures result }
        ensures unspent { slot_spent result ≡ false }
    {
        Slot {
            seat,
            worker: Worker::new(alloc, plan),
            alloc,
            breaths,
            restarts,
            keep,
            breathed: 0,
            state: SlotState::Running,
            closed: false,
        }
    }

    /// The slot's listener meets its worker's speaker. From now on it hears at least what the speaker has said last.
    pub fn meet(&mut self, shared: &Shared, speaker: &mut Speaker)
        requires fits { SlotFits self.old shared.now }
        requires speaker { slice_get shared.now.channels.items (slot_bond self.old).worker ≡ Some speaker.old.channel }
        ensures among { (captures : List (List ℕ))
            → All (IsSaid speaker.old.said) (of_channel (slot_tray captures self.old).log.past) }
        ensures rises { (captures : List (List ℕ)) → IsRising (of_channel (slot_tray captures self.old).log.past) }
        ensures bond { slot_bond self.new ≡ met_again (last_said speaker.old.said) (slot_bond self.old) }
        ensures tray { (captures : List (List ℕ)) → slot_tray captures self.new ≡ slot_tray captures self.old }
        ensures used { slot_used self.new ≡ slot_used self.old }
        ensures same { self.new ≡ record self.old { seat = slot_seat self.new } }
        ensures fits { SlotFits self.new shared.now }
        ensures speaker { speaker.new ≡ speaker.old }
    {
        self.seat.meet(shared, speaker);
    }

    /// A round: its number is noted, and then so many turns are taken. It ends early where the journal is full at the beginning
    /// of a turn.
    ///
    /// # Errors
    /// Want of memory, also where the worker is stopped. The slot then takes no further call.
    pub fn round<G: Gate>(
        &mut self,
        number: u32,
        shared: &Shared,
        gate: &G,
    ) -> Result<RoundEnd, AllocError>
        requires fits { SlotFits self.old shared.now }
        requires can { CanRun (captures_of shared.now) self.old }
        ensures can { OnOk result (CanRun (captures_of shared.now) self.new) }
        ensures reads { OnOk result (RoundRead (captures_of shared.now) number self.old self.new) }
        ensures answer { IfOk result (λ ended. ended ≡ (if slot_spent self.new then Spent else Next)) }
        ensures bond { slot_bond self.new ≡ slot_bond self.old }
        ensures same { SameSlot self.old self.new }
        ensures fits { SlotFits self.new shared.now }
    {
        let mut live = self.seat.live(shared, gate);
        let ended = take_round(
            &mut self.worker,
            &mut self.breathed,
            &mut live,
            number,
            self.breaths,
            self.keep,
        );
        let Live {
            seat: _,
            shared: _,
            gate: _,
        } = live;
        if ended.is_err() {
            return Err(AllocError);
        }
        if self.worker.spent {
            return Ok(RoundEnd::Spent);
        }
        Ok(RoundEnd::Next)
    }

    /// How many actions of its plan weren't applied, how many records its readers haven't passed, and how many packets are in its
    /// links, together; 2^64 - 1 where that is more.
    pub fn left(&self, shared: &Shared) -> u64
        requires { CanRun (captures_of shared.now) self.now }
        ensures { result ≡ left_of (slot_plan self.now) (slot_life (captures_of shared.now) self.now).life
            (slot_desk (captures_of shared.now) self.now) }
    {
        let unapplied = (self.worker.plan.len() - self.worker.applied) as u64;
        unapplied.saturating_add(self.worker.network.left_among(&shared.captures))
    }

    /// Whether its journal was full at the beginning of a turn.
    pub fn is_spent(&self) -> bool
        ensures { result ≡ slot_spent self.now }
    {
        self.worker.spent
    }

    /// How the slot stands.
    pub fn state(&self) -> SlotState
        ensures { result ≡ slot_state self.now }
    {
        self.state
    }

    /// The journal.
    pub fn journal(&self) -> &Journal
        ensures { (captures : List (List ℕ)) → result.now.entries ≡ (slot_tray captures self.now).log.past }
    {
        self.seat.journal()
    }
}
