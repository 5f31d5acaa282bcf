//! Captures written, piece by piece.

ghost use Rattle.std.specs.Prelude.{◌≡◌, ◌≤◌, ◌++◌, length, OnOk, OnErr};
ghost use Rattle.sn_pcap.specs.Written.{written_header, header_of, written_record};

use crate::header::HEADER_LEN;
use crate::record::RECORD_HEADER_LEN;
use byteorder::{ByteOrder, LittleEndian};
use std::alloc::AllocError;

/// The header of a written capture: little endian, microseconds, version 2.4, snaplen 65,535, Ethernet.
const HEADER: [u8; HEADER_LEN] = [
    0xd4, 0xc3, 0xb2, 0xa1, 2, 0, 4, 0, 0, 0, 0, 0, 0, 0, 0, 0, 0xff, 0xff, 0, 0, 1, 0, 0, 0,
];

/// Appends the header of a capture, 24 bytes. Without memory for it nothing is appended.
#[tactic(auto, unfolding(crate::specs::Written::written_header))]
pub fn write_header(into: &mut Vec<u8>) -> Result<(), AllocError>
    ensures ok { OnOk result (into.new.items ≡ into.old.items ++ written_header) }
    ensures err { OnErr result (into.new.items ≡ into.old.items) }
{
    into.extend_from_slice(&HEADER)?;
    Ok(())
}

/// The header of a written record: a time of 0, and both lengths.
#[tactic(auto, unfolding(crate::specs::Written::header_of))]
fn record_header(len: u32) -> [u8; RECORD_HEADER_LEN]
    ensures { result ≡ header_of len }
{
    let mut header = [0; RECORD_HEADER_LEN];
    LittleEndian::write_u32(&mut header[8..], len);
    LittleEndian::write_u32(&mut header[12..], len);
    header
}

/// Appends a record: 16 bytes of header, with a time of 0 and both lengths, and then its payload of at most 10,240 bytes.
/// Without memory for all of it nothing is appended.
#[tactic(auto, unfolding(crate::specs::Written::written_record))]
pub fn write_record(into: &mut Vec<u8>, payload: &[u8]) -> Result<(), AllocError>
    requires { length payload.now ≤ 10240 }
    ensures ok { OnOk result (into.new.items ≡ into.old.items ++ written_record payload.now) }
    ensures err { OnErr result (into.new.items ≡ into.old.items) }
{
    into.reserve(RECORD_HEADER_LEN + payload.len())?;
    let header = record_header(payload.len() as u32);
    into.extend_from_slice(&header)?;
    into.extend_from_slice(payload)?;
    Ok(())
}
