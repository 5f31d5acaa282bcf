//! What attaching and detaching answer.

/// How an end came up, or didn't.
#[derive(Clone, Copy, Debug, PartialEq, Eq)]
pub enum Attached {
    /// It is up.
    Up,
    /// Another state word was found, this one, and the end stays out.
    Again(u64),
}

/// How an end went, with the old state word.
#[derive(Clone, Copy, Debug, PartialEq, Eq)]
pub enum Detached {
    /// The other end is up, and may close the interlink later.
    Other(u64),
    /// The other end isn't up, so this end closes the interlink.
    Closer(u64),
}
