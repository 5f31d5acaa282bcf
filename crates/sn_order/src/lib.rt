//! The orders in which the apps of a worker are called in a breath.
//!
//! - `names`: names in bytewise order, and links as pairs of ranks
//! - `ranks`: apps placed one after another, by their ranks
//! - `targets`: the apps that the links of one lead to
//! - `orders`: the order of pulls, and that of pushes
#![tactic(auto)]

mod names;
mod orders;
mod ranks;
mod targets;

pub use orders::{pull_order, push_order};
