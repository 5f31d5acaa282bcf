//! Where a seat is stopped.
ghost use Rattle.std.specs.Prelude.{◌≡◌, ◌==◌, ◌&&◌};
ghost use Rattle.std.specs.List.{list_any};

use crate::seat::Seat;
use sn_app::Halt;
use sn_journal::Entry;
use sn_outside::Gate;

/// What is called at each gate of a seat that stands (`stands` of `sn_app`). It is a gate without what threads ask of it.
pub trait Before {
    /// Comes before the step of a worker's seat that follows so many entries and so many gates.
    fn before(&self, seat: u32, entries: u64, gates: u32);
}

/// A gate, as a seat calls it.
#[derive(Clone, Copy)]
pub struct Turnstile<'a, G: Gate> {
    pub gate: &'a G,
}

impl<'a, G: Gate> Before for Turnstile<'a, G> {
    fn before(&self, seat: u32, entries: u64, gates: u32) {
        self.gate.before(seat, entries, gates);
    }
}

/// The most gates that a gate is told of.
const MOST_TOLD: u64 = 4_294_967_295;

/// Whether a stop line names the gate behind so many entries and so many gates.
fn is_named(stops: &[(u64, u32)], entries: u64, gates: u64) -> bool
    ensures { result ≡ list_any (λ line. line.0 == entries && line.1 == gates) stops.now }
{
    stops
        .iter()
        .any(|line| line.0 == entries && line.1 as u64 == gates)
}

/// So many gates as 32 bits can tell.
fn told_gates(gates: u64) -> u32 {
    if gates < MOST_TOLD {
        gates as u32
    } else {
        MOST_TOLD as u32
    }
}

impl Seat {
    ghost use Rattle.std.specs.Prelude.{◌≡◌, ◌≤◌, OnOk};
    ghost use Rattle.sn_seat.specs.GateSteps.{GateStep};
    ghost use Rattle.sn_seat.specs.Trays.{bond_of};

    /// A gate: makes room for an entry, and then the worker is stopped exactly where a stop line names this gate.
    pub(crate) fn gate<G: Before>(&mut self, gate: &G) -> Result<(), Halt>
        ensures step { GateStep self.old result self.new }
        ensures room { OnOk result (2 ≤ self.new.ledger.journal.room) }
        ensures hold { self.new.ledger.hold ≡ self.old.ledger.hold }
        ensures ends { self.new.ledger.ends ≡ self.old.ledger.ends }
        ensures kept { bond_of self.new ≡ bond_of self.old }
    {
        self.ledger.reserve()?;
        let entries = self.ledger.journal.entries().len() as u64;
        gate.before(self.worker, entries, told_gates(self.gates));
        if is_named(&self.stops, entries, self.gates) {
            self.ledger.note(Entry::Stop);
            self.gates = 0;
            return Err(Halt::Stopped);
        }
        self.gates = self.gates.saturating_add(1);
        Ok(())
    }
}
