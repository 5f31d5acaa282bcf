//! A seat at work is a context for its worker and its slot.
use crate::work::FULL_COST;
use crate::{Seated, Work};
use sn_app::Halt;
use sn_journal::Entry;
use sn_outside::Gate;
use sn_seat::{Gave, Live, Turnstile};

impl<'a, G: Gate> Work for Live<'a, G> {
    fn note(&mut self, entry: Entry) -> Result<(), Halt> {
        self.seat.note(entry)?;
        Ok(())
    }

    fn is_full(&self) -> bool {
        self.seat.journal().cost() >= FULL_COST
    }
}

impl<'a, G: Gate> Seated for Live<'a, G> {
    ghost use Rattle.sn_worker.specs.Floors.{lent_floor};

    ghost floor = { lent_floor };

    fn hear(&mut self) -> Result<u64, Halt> {
        self.seat.hear(self.shared, &Turnstile { gate: self.gate })
    }

    fn give(&mut self, place: u32) -> Result<Gave, Halt> {
        self.seat
            .give(self.shared, &Turnstile { gate: self.gate }, place)
    }

    fn frees(&self) -> u64 {
        self.seat.frees()
    }
}
