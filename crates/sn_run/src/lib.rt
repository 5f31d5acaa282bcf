//! The commands over a scenario, from their words to the bytes written and the text printed.
//!
//! * `command`: the words of a command
//! * `reading`: the files that a command reads
//! * `commands`: what each command does with its file
//! * `now`: which scenarios run so far
//! * `values`, `run`, `reporting`: the run of one over captures, round by round, and what is reported of it
//! * `writing`, `journal_text`: the files that a run writes, and the journal's text
//! * `status`, `outcome`, `report`: how a command and a run end, and what a run leaves
//! * `answer`, `texts`, `action_text`, `printing`: answers, their texts, and the sink that takes them
//! * `top`: the top call
#![tactic(auto)]

mod action_text;
mod answer;
mod command;
mod commands;
mod journal_text;
mod now;
mod outcome;
mod printing;
mod reading;
mod report;
mod reporting;
mod run;
mod status;
mod texts;
mod top;
mod values;
mod writing;

pub use now::runs_now;
pub use outcome::Outcome;
pub use report::{Kept, OutFile, Report};
pub use run::Run;
pub use status::{Ended, Status};
pub use top::snabb_main;
pub use values::run_scenario;
