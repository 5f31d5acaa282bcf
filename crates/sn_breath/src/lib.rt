//! One breath of a network.
#![tactic(auto)]

mod breath;

pub use breath::breathe;
