//! The edge apps: those that read captures, write files, and stand at the ends of interlinks.
//!
//! - `pcap_writer`: writes packets to a file
//! - `pcap_reader`: sends the records of a capture
//! - `receiver`: takes packets from an interlink
//! - `transmitter`: puts packets into an interlink
//! - `lesser`: the lesser of two numbers
#![tactic(auto)]

mod lesser;
mod pcap_reader;
mod pcap_writer;
mod receiver;
mod transmitter;

pub use pcap_reader::PcapReader;
pub use pcap_writer::PcapWriter;
pub use receiver::Receiver;
pub use transmitter::Transmitter;
