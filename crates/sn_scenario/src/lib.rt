//! Scenarios, read from their text, and what they have each worker do.
#![tactic(auto)]

mod app_line;
mod counts;
mod cutting;
mod draft;
mod ends;
mod fault;
mod files;
mod kind;
mod lane;
mod link_line;
mod parse;
mod placed;
mod plain;
mod plan;
mod reading;
mod roster;
mod scenario;
mod settings;
mod shape;
mod stop;
mod why;

pub use fault::{ParseFault, ScenarioFault};
pub use lane::Lane;
pub use plain::plain_text;
pub use scenario::Scenario;
pub use settings::Settings;
pub use stop::StopLine;
pub use why::Why;
