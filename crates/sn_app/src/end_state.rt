//! How an end of an interlink stands.

/// How an end of an interlink stands with its own worker.
#[derive(Clone, Copy, Debug, PartialEq, Eq)]
pub enum EndState {
    /// It isn't attached.
    Out,
    /// It is attached.
    Up,
    /// It detached as the last of both ends, and empties the interlink before it sets it free.
    Closing,
}
