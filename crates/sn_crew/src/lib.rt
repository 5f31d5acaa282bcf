//! The workers of a run: how they begin, how they work beside each other round by round, and how they end.
//!
//! - `place`: a worker's slot, and how its last round went
//! - `crew`: all workers of a scenario, with what they share and their manager
//! - `opening`: how a crew begins
//! - `meeting`: the slots and the speakers meet
//! - `rounds`: a round in threads of their own, and one in order
//! - `leaving`: what is left, and how a crew ends
#![tactic(auto)]

mod crew;
mod leaving;
mod meeting;
mod opening;
mod place;
mod rounds;

pub use crew::Crew;
pub use leaving::Left;
