//! A gate before steps that two workers can both see.

/// What is called before each such step.
///
/// It may wait a bounded number of turns, as tests do to hold a worker back. Nothing that a contract
/// speaks of depends on it.
pub trait Gate: Sync {
    /// Comes before the step of a worker's seat that follows `entries` entries of its journal and
    /// `gates` gates passed since the last of them.
    fn before(&self, seat: u32, entries: u64, gates: u32);
}

/// The gate that returns at once.
#[derive(Clone, Copy, Debug)]
pub struct NoGate;

impl Gate for NoGate {
    fn before(&self, _seat: u32, _entries: u64, _gates: u32) {}
}
