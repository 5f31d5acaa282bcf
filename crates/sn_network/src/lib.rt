//! A worker's network: apps of all classes, the links between them, and what actions and calls do to them.
//!
//! - `network`: the network
//! - `acting`: what each action does
//! - `linking`: what actions do to the plain form and to links
//! - `starting`: an app starts, stops, or takes a new argument
//! - `committing`: a commit
//! - `ports`: the ports of apps, made from the plain form
//! - `orders`: the orders in which apps are called
//! - `calls`: a pull or a push of one of the apps
//! - `place`: an app with its name and its ports
//! - `finding`: the app of a name
//! - `left`: the records and packets that are left
//! - `verb`: what is done with an app in a breath
#![tactic(auto)]

mod acting;
mod calls;
mod committing;
mod finding;
mod left;
mod linking;
mod network;
mod orders;
mod place;
mod ports;
mod starting;
mod verb;

pub use network::Network;
