//! Actions on a network of apps, and the list of them that leads from one configuration to the next.
#![tactic(auto)]

mod action;
mod differences;
mod fault;
mod kept;
mod plain;
mod ports;
mod same;

pub use action::Action;
pub use differences::diff;
pub use fault::ActionFault;
pub use plain::Plain;
pub use ports::is_at_port;
