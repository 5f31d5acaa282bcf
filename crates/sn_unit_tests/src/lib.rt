//! Tests of what no clause says, over the public calls of the crates of packets, journals, apps and shared objects.
//! They stand here, and not in the crates, so that no crate is proved a second time for its tests.
//!
//! * `packets`, `links`: packets at places, and the queue of a link
//! * `journals`: what entries cost, and their text both ways
//! * `channels`, `groups`, `interlinks`: what workers share, step by step and in threads
//! * `benches`, `edges`: the context over lists, and the apps of files and interlinks over it
//! * `orders`: the orders of calls in a breath
#![tactic(auto)]

#[cfg(test)]
mod benches;
#[cfg(test)]
mod channels;
#[cfg(test)]
mod edges;
#[cfg(test)]
mod groups;
#[cfg(test)]
mod interlinks;
#[cfg(test)]
mod journals;
#[cfg(test)]
mod links;
#[cfg(test)]
mod orders;
#[cfg(test)]
mod packets;
