//! What the workers of a run share: how it opens with a seat for each worker, and how it closes.
//!
//! - `opening`: the shared objects and all seats
//! - `laying`: packets and interlinks, and the ends that each worker gets
//! - `seating`: the seats, each with a channel
//! - `closing`: the receipts, and what is left of each worker
//! - `apart`: the seats taken apart
//! - `lane_ends`, `lane_closing`: the ends that workers leave, and the closing of interlinks
//! - `keeping`: the packets that workers still hold
#![tactic(auto)]

mod apart;
mod closing;
mod keeping;
mod lane_closing;
mod lane_ends;
mod laying;
mod opening;
mod seating;

pub use closing::{Closed, close};
pub use opening::{Opened, open};
