//! Tests of what no clause says, over the public calls of all crates that the program stands on.
//! They stand here, and not in the crates, so that no crate is proved a second time for its tests.
//!
//! * `names`: names, links, classes and decimals
//! * `outsides`, `full_disk`: files, sinks and the adapters, and a disk that is full
//! * `captures`: captures, written and read
//! * `machine`: the machine of packets
//! * `configurations`, `actions`, `scenarios`: configurations, the actions between two, scenarios
//! * `commands`: a command over files in memory, and what is expected of it
//! * `copies`, `runs`, `refusals`, `plans`: commands that run, that are refused, and that read a scenario alone
//! * `workers`: runs of several workers, in threads and in order
#![tactic(auto)]

#[cfg(test)]
mod actions;
#[cfg(test)]
mod captures;
#[cfg(test)]
mod commands;
#[cfg(test)]
mod configurations;
#[cfg(test)]
mod copies;
#[cfg(test)]
mod full_disk;
#[cfg(test)]
mod machine;
#[cfg(test)]
mod names;
#[cfg(test)]
mod outsides;
#[cfg(test)]
mod plans;
#[cfg(test)]
mod refusals;
#[cfg(test)]
mod runs;
#[cfg(test)]
mod scenarios;
#[cfg(test)]
mod workers;
