//! The basic apps: those that need no file and no interlink.
//!
//! - `source`: makes packets of zeros
//! - `sink`: takes all and frees it
//! - `truncate`: cuts packets to a length
//! - `byte_filter`: passes the packets with a byte at a place
//! - `moving`: as many packets as find room go from an input to an output
//! - `join`: from every input to one output
//! - `sample`: passes every nth packet
//! - `split`: from every input to every output in turn
//! - `freeing`: packets in hand are freed
//! - `tee`: a copy of each packet to every output
//! - `repeater`: keeps packets, and sends copies of them in turn
#![tactic(auto)]

mod byte_filter;
mod freeing;
mod join;
mod moving;
mod repeater;
mod sample;
mod sink;
mod source;
mod split;
mod tee;
mod truncate;

pub use byte_filter::ByteFilter;
pub use join::Join;
pub use repeater::Repeater;
pub use sample::Sample;
pub use sink::Sink;
pub use source::Source;
pub use split::Split;
pub use tee::Tee;
pub use truncate::Truncate;
