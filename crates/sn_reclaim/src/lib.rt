//! The reclamation of a worker's packets, when it was closed or stopped.
#![tactic(auto)]

mod giving;
mod reclaiming;

pub use reclaiming::{ReclaimEnd, reclaim};
