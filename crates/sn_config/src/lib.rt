//! Configurations: which apps there are, and how they are linked.
#![tactic(auto)]

mod app_spec;
mod arg_text;
mod config;
mod fault;

pub use app_spec::AppSpec;
pub use arg_text::read_arg;
pub use config::Config;
pub use fault::ConfigFault;
