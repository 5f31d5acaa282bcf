//! The manager of a run: round after round it tells each worker how many actions of the worker's plan are due.
#![tactic(auto)]

mod manager;

pub use manager::Manager;
