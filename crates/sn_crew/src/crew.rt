//! The workers of a scenario, with what they share and their manager.
use crate::place::Place;
use sn_manager::Manager;
use sn_scenario::Scenario;
use sn_seat::Shared;
use std::alloc::Global;

/// The workers of a scenario, with what they share and their manager, between two rounds.
///
/// Contracts see it as its workers' stands (`stands_in`), and how far it is (`IsUnderway`).
#[derive(Drop)]
pub struct Crew {
    pub(crate) alloc: Global,
    pub(crate) scenario: Scenario,
    pub(crate) shared: Shared,
    pub(crate) places: Vec<Place>,
    pub(crate) manager: Manager,
    // How many rounds were made.
    pub(crate) rounds: u32,
}
