//! What a worker's turns need of a context beside the calls of its apps.
ghost use Rattle.std.specs.Prelude.{◌≡◌, true, IfErr, OnErr, OnOk};
ghost use Rattle.sn_app.specs.Desk.{after_entry};
ghost use Rattle.sn_app.specs.declared.halt.Halt.TheVariants.{OutOfMemory};
ghost use Rattle.sn_worker.specs.Own.{is_full, is_own};

use sn_app::{Ctx, Halt};
use sn_journal::Entry;

/// The cost from which on a journal is full: 128 MiB.
pub(crate) const FULL_COST: u64 = 134_217_728;

/// A context in whose journal a worker notes what it does itself.
pub trait Work: Ctx {
    /// Adds an entry of the worker's own to the journal: a round, a breath, or that the journal is full.
    ///
    /// # Errors
    /// Want of memory, and nothing changes.
    fn note(&mut self, entry: Entry) -> Result<(), Halt>
        requires { is_own entry ≡ true }
        ensures noted { OnOk result (Self.tray self.new ≡ after_entry entry (Self.tray self.old)) }
        ensures may { (Self.tray self.old).log.constants.may entry ≡ true }
        ensures refused { OnErr result (Self.tray self.new ≡ Self.tray self.old) }
        ensures memory { IfErr result (λ halt. halt ≡ OutOfMemory) }
        ensures used { Self.used self.new ≡ Self.used self.old }
        ensures lent { Self.lender self.new ≡ Self.lender self.old };

    /// Whether the journal is full: its entries cost at least 134,217,728.
    fn is_full(&self) -> bool
        ensures { result ≡ is_full (Self.tray self.now) };
}
