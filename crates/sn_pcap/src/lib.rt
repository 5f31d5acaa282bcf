//! Captures of network packets in libpcap's file format 2.4, read and written.
#![tactic(auto)]

mod capture;
mod fault;
mod header;
mod laws;
mod order;
mod record;
mod writing;

pub use capture::Capture;
pub use fault::PcapFault;
pub use laws::{no_fault, one_fault, one_reading, written_is_read};
pub use record::RecordAt;
pub use writing::{write_header, write_record};
