//! Two seats over one interlink on one thread, for tests and for timing.
//!
//! - `opening`: shared objects, and new seats over them
//! - `hands`: a call of a context where it may come, and what is known of the end and of a packet afterwards
//! - `trials`: two workers, called in turn
#![tactic(auto)]

mod hands;
mod opening;
#[cfg(test)]
mod reclaim_tests;
#[cfg(test)]
mod tests;
mod trials;

pub use hands::{Answer, Hand, Step, take_step};
pub use opening::{Half, Opened, open_half, open_one, open_two, packets_of};
pub use trials::{Who, trial};
