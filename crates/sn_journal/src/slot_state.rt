//! How a worker's slot stands.

/// How a worker's slot stands.
#[derive(Clone, Copy, Debug, PartialEq, Eq)]
pub enum SlotState {
    /// The worker lives.
    Running,
    /// The worker was stopped, and what it held is being reclaimed.
    Stopped,
    /// What it held was reclaimed, and it isn't started again.
    Ended,
}
