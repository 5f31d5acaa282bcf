//! How a slot is closed.
ghost use Rattle.std.specs.Prelude.{◌≡◌, [], None, OnOk, ℕ};
ghost use Rattle.sn_app.specs.Answers.{Reads};
ghost use Rattle.sn_app.specs.World.{desk_of, world};
ghost use Rattle.sn_app.specs.declared.end_state.EndState.TheVariants.{Out};
ghost use Rattle.sn_core.specs.declared.events.Side.{Side};
ghost use Rattle.sn_network.specs.Networks.{CanBeLost, world_of};
ghost use Rattle.sn_seat.specs.Trays.{captures_of};
ghost use Rattle.sn_wiring.specs.Lost.{lost};
ghost use Rattle.sn_worker.specs.SlotTurns.{slot_closes};
ghost use Rattle.sn_worker.specs.SlotViews.{CanRun, IsClosed, SameSlot, SlotFits, slot_bond, slot_desk, slot_seat};
ghost use Rattle.sn_worker.specs.SlotViews.{slot_state, slot_tray, slot_used};

use crate::Slot;
use sn_journal::Entry;
use sn_network::Network;
use sn_outside::Gate;
use sn_reclaim::reclaim;
use sn_seat::{Live, Seat, Shared};
use std::alloc::AllocError;

impl Slot {
    /// A network over the slot's seat is lost, and the counts of all its links are kept.
    fn lose<G: Gate>(&mut self, shared: &Shared, gate: &G, network: Network)
        requires fits { SlotFits self.old shared.now }
        requires network { CanBeLost network (slot_tray (captures_of shared.now) self.old) }
        ensures lost { desk_of (world (slot_tray (captures_of shared.now) self.new) (slot_used self.new) [])
            ≡ lost (desk_of (world_of network (slot_used self.old) (slot_tray (captures_of shared.now) self.old))) }
        ensures bond { slot_bond self.new ≡ slot_bond self.old }
        ensures same { self.new ≡ record self.old { seat = slot_seat self.new } }
    {
        let mut live = self.seat.live(shared, gate);
        network.lose(&mut live);
        let Live {
            seat: _,
            shared: _,
            gate: _,
        } = live;
    }

    /// Closes the slot: this is noted, its worker's network is lost, and what its seat holds is reclaimed. All ends are out then,
    /// and what is still held is free. The slot runs no further round.
    ///
    /// # Errors
    /// Want of memory. The slot then takes no further call.
    pub fn close<G: Gate>(&mut self, shared: &Shared, gate: &G) -> Result<(), AllocError>
        requires fits { SlotFits self.old shared.now }
        requires can { CanRun (captures_of shared.now) self.old }
        ensures reads { OnOk result (Reads slot_closes (slot_desk (captures_of shared.now) self.old)
            (slot_desk (captures_of shared.now) self.new) tt) }
        ensures out { OnOk result ((lane : ℕ) (side : Side)
            → ((slot_tray (captures_of shared.now) self.new).ends lane side).state ≡ Out) }
        ensures used { OnOk result ((place : ℕ) → slot_used self.new place ≡ None) }
        ensures closed { OnOk result (IsClosed self.new) }
        ensures state { slot_state self.new ≡ slot_state self.old }
        ensures bond { slot_bond self.new ≡ slot_bond self.old }
        ensures same { SameSlot self.old self.new }
        ensures fits { SlotFits self.new shared.now }
    {
        self.seat.note(Entry::Close)?;
        let network = self.worker.take_network(self.alloc);
        self.lose(shared, gate, network);
        reclaim(&mut self.seat, shared, gate)?;
        self.closed = true;
        Ok(())
    }

    /// The seat of a slot that is done.
    pub fn into_seat(self) -> Seat
        ensures { result ≡ slot_seat self }
    {
        let Slot {
            seat,
            worker: _,
            alloc: _,
            breaths: _,
            restarts: _,
            keep: _,
            breathed: _,
            state: _,
            closed: _,
        } = self;
        seat
    }
}
