//! What the lines of a scenario are made of: numbers, names of files, apps, ports and interlinks,
//! links, classes and arguments. A roster has the names that a worker's rows are numbered by.
#![tactic(auto)]

mod arg;
mod class;
mod decimal_text;
mod fault;
mod file_name;
mod limits;
mod link;
mod link_text;
mod name;
mod parts;
mod roster;

pub use arg::Arg;
pub use class::Class;
pub use decimal_text::{decimal, push_decimal};
pub use fault::NameFault;
pub use file_name::FileName;
pub use limits::{MAX_CAPTURE, MAX_FILE_NAME, MAX_PAYLOAD, MAX_PULL, MAX_SCENARIO};
pub use link::LinkSpec;
pub use name::Name;
pub use roster::Roster;
