//! The scenarios that run so far.
ghost use Rattle.sn_run.specs.Now.{runs_now};
ghost use Rattle.std.specs.Prelude.{length, ◌≡◌};

use sn_scenario::Scenario;

/// Whether the scenario runs so far: it stops no worker.
pub fn runs_now(scenario: &Scenario) -> bool
    ensures { result ≡ runs_now scenario.now }
{
    scenario.stops().is_empty()
}
