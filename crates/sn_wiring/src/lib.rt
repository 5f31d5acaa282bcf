//! A worker's links in a slab, by their rows, and the ports of apps made from a plain form.
//!
//! - `keys`: the link of a row, by its key
//! - `coming`: a link comes
//! - `going`: a link goes, and its packets become free
//! - `wires`: the ports of an app
//! - `losing`: a network's links are lost, and their counts kept
#![tactic(auto)]

mod coming;
mod going;
mod keys;
mod losing;
mod wires;

pub use coming::open_link;
pub use going::free_link;
pub use keys::readable_at;
pub use losing::lose_links;
pub use wires::wired_ports;
