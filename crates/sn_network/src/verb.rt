//! What is done with an app in a breath.

/// What is done with an app: it brings packets in, or passes them on.
#[derive(Clone, Copy, Debug, PartialEq, Eq)]
pub(crate) enum Verb {
    Pull,
    Push,
}
