//! A link: a bounded queue of packets, by their places, with five counts.
//!
//! - `counts`: the counts, each of which stops at its greatest value
//! - `link`: the queue
#![tactic(auto)]

mod counts;
mod link;

pub use counts::LinkCounts;
pub use link::{Link, MAX_QUEUED};
