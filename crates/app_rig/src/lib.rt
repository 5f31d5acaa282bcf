//! Apps over a bench with links, one call after another, for tests and for timing.
//!
//! - `links`: links in a slab, each with its row
//! - `turns`: a pull or a push of an app at its ports
//! - `rig`: a bench with four links
//! - `trials`: a source, a sample and an app, called in turn
#![tactic(auto)]

mod links;
mod rig;
#[cfg(test)]
mod tests;
mod trials;
mod turns;

pub use links::four_links;
pub use rig::{At, Rig};
pub use trials::{Turn, Who, trial};
pub use turns::{pull_once, push_once};
