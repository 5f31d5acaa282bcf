//! Scenarios, and what they say.
ghost use Rattle.sn_scenario.specs.Scenarios.{AreBounded, AreFiles, AreLanes, AreServed, AreStops, HaveOneUse, HaveOneWriter};
ghost use Rattle.std.specs.Option.{option_copied};
ghost use Rattle.std.specs.Prelude.{◌≡◌};

use crate::placed::Placed;
use crate::{Lane, Settings, StopLine};
use sn_names::FileName;
use std::marker::Model;

/// A scenario: the settings of a run, its interlinks and stops, and the configurations of its
/// workers.
#[derive(Debug, Drop)]
pub struct Scenario {
    pub(crate) settings: Settings,
    pub(crate) lanes: Vec<Lane>,
    pub(crate) journal: Option<FileName>,
    pub(crate) placed: Vec<Placed>,
    pub(crate) stops: Vec<StopLine>,
    pub(crate) captures: Vec<FileName>,
    pub(crate) outputs: Vec<FileName>,
    // how many actions each configuration has
    pub(crate) counts: Vec<u32>,
}

impl Model for Scenario {
    ghost use Rattle.sn_scenario.specs.PlanLaws.{AreCounts};
    ghost use Rattle.sn_scenario.specs.Scenarios.{IsBounded, ScenarioForm};

    ghost Value = { ScenarioForm };

    ghost view = { λ s. record {
      settings = s.settings;
      lanes = s.lanes.items;
      journal = s.journal;
      placed = s.placed.items;
      stops = s.stops.items;
      captures = s.captures.items;
      outputs = s.outputs.items;
    } };

    ghost invariant = { λ s. IsBounded (record {
      settings = s.settings;
      lanes = s.lanes.items;
      journal = s.journal;
      placed = s.placed.items;
      stops = s.stops.items;
      captures = s.captures.items;
      outputs = s.outputs.items;
    }) × AreCounts s.placed.items s.counts.items };
}

impl Scenario {
    /// The settings, with the defaults of those that aren't given.
    #[tactic(auto, unfolding(crate::specs::Scenarios::IsBounded))]
    pub fn settings(&self) -> Settings
        ensures same { result ≡ self.now.settings }
        ensures bounds { AreBounded self.now.settings }
    {
        self.settings
    }

    /// The interlinks, in the scenario's order: at most 16.
    #[tactic(auto, unfolding(crate::specs::Scenarios::IsBounded))]
    pub fn lanes(&self) -> &[Lane]
        ensures same { result.now ≡ self.now.lanes }
        ensures bounds { AreLanes self.now.settings.workers self.now.lanes }
        ensures served { AreServed self.now.lanes self.now.captures self.now.outputs self.now.placed }
    {
        &self.lanes
    }

    /// The captures that are read, in the bytewise order of their names: at most 16.
    #[tactic(auto, unfolding(crate::specs::Scenarios::IsBounded))]
    pub fn captures(&self) -> &[FileName]
        ensures same { result.now ≡ self.now.captures }
        ensures bounds { AreFiles self.now.captures }
        ensures uses { HaveOneUse self.now.journal self.now.captures self.now.outputs }
    {
        &self.captures
    }

    /// The files that are written, in the bytewise order of their names: at most 16.
    #[tactic(auto, unfolding(crate::specs::Scenarios::IsBounded))]
    pub fn outputs(&self) -> &[FileName]
        ensures same { result.now ≡ self.now.outputs }
        ensures bounds { AreFiles self.now.outputs }
        ensures uses { HaveOneUse self.now.journal self.now.captures self.now.outputs }
        ensures writers { HaveOneWriter self.now.placed }
    {
        &self.outputs
    }

    /// The journal's file, where one is given.
    pub fn journal(&self) -> Option<&FileName>
        ensures { option_copied result ≡ self.now.journal }
    {
        self.journal.as_ref()
    }

    /// The stops, in the scenario's order: at most 1,000.
    #[tactic(auto, unfolding(crate::specs::Scenarios::IsBounded))]
    pub fn stops(&self) -> &[StopLine]
        ensures same { result.now ≡ self.now.stops }
        ensures bounds { AreStops self.now.settings.workers self.now.stops }
    {
        &self.stops
    }
}
