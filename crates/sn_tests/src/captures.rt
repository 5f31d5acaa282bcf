//! Captures written, opened and read again, each fault once, and callers proved from the contracts
//! alone.
ghost use Rattle.std.specs.Prelude.{◌≡◌, ◌≤◌, ◌↔◌, length, map, All, IsTrue, IfOk};
ghost use Rattle.sn_pcap.specs.Faults.{HasFault};
ghost use Rattle.sn_pcap.specs.Places.{payloads_of};

use sn_names::MAX_PAYLOAD;
use sn_pcap::*;
use std::alloc::{AllocError, Global};
use std::process::Abort;
use std::test::Fail;

/// How many records a capture has, by a walk over them.
fn count_of(capture: &Capture) -> u64
    ensures { result ≡ length (payloads_of capture.now) }
{
    let mut at = capture.first();
    let mut count = 0;
    while let Some(found) = capture.record(at) {
        at = found.next;
        count += 1;
    }
    count
}

/// A capture's records, and their payloads joined end to end.
fn walked(alloc: Global, capture: &Capture) -> Result<(Vec<RecordAt>, Vec<u8>), AllocError> {
    let mut records = Vec::new(alloc);
    let mut payloads = Vec::new(alloc);
    let mut at = capture.first();
    while let Some(found) = capture.record(at) {
        records.push(found)?;
        payloads.extend_from_slice(capture.payload(found))?;
        at = found.next;
    }
    Ok((records, payloads))
}

/// How many records the bytes have, or what is wrong with them.
fn outcome_of(bytes: Vec<u8>) -> Result<u64, PcapFault> {
    let capture = Capture::open(bytes)?;
    Ok(count_of(&capture))
}

/// Whether this is what is wrong with the bytes.
fn has_fault(bytes: Vec<u8>, fault: PcapFault) -> bool
    ensures { IsTrue result ↔ HasFault bytes.items fault }
{
    one_fault();
    no_fault();
    match Capture::open(bytes) {
        Ok(_) => false,
        Err(found) => found == fault,
    }
}

/// Payloads written and opened again: never refused, and the same.
fn reopened(alloc: Global, payloads: &[Vec<u8>]) -> Result<Capture, AllocError>
    requires { All (λ payload. length payload ≤ 10240) (map (λ v. v.items) payloads.now) }
    ensures { IfOk result (λ capture. payloads_of capture ≡ map (λ v. v.items) payloads.now) }
{
    let mut bytes = Vec::new(alloc);
    write_header(&mut bytes)?;
    for payload in payloads {
        write_record(&mut bytes, payload)?;
    }
    written_is_read();
    one_reading();
    match Capture::open(bytes) {
        Ok(capture) => Ok(capture),
        Err(_) => unreachable!(),
    }
}

/// The written form of payloads of 60, 60 and 1514 bytes.
fn three_records(alloc: Global) -> Result<Vec<u8>, AllocError> {
    let mut bytes = Vec::new(alloc);
    write_header(&mut bytes)?;
    write_record(&mut bytes, &[1; 60])?;
    write_record(&mut bytes, &[2; 60])?;
    write_record(&mut bytes, &[3; 1514])?;
    Ok(bytes)
}

/// These payloads, end to end.
fn three_payloads(alloc: Global) -> Result<Vec<u8>, AllocError> {
    let mut bytes = Vec::from_slice(alloc, &[1; 60])?;
    bytes.extend_from_slice(&[2; 60])?;
    bytes.extend_from_slice(&[3; 1514])?;
    Ok(bytes)
}

/// The places of these records.
const PLACES: [RecordAt; 3] = [
    RecordAt {
        start: 40,
        len: 60,
        oversize: false,
        next: 100,
    },
    RecordAt {
        start: 116,
        len: 60,
        oversize: false,
        next: 176,
    },
    RecordAt {
        start: 192,
        len: 1514,
        oversize: false,
        next: 1706,
    },
];

#[test]
fn what_is_written_is_read_again(rt: HostRuntime) -> Result<(), Fail> {
    let opened = Capture::open(three_records(rt.alloc())?);
    let Ok(capture) = opened else {
        return Err("a capture")?;
    };
    let (records, payloads) = walked(rt.alloc(), &capture)?;
    assert_eq!(rt; records.as_slice(), PLACES.as_slice());
    let want = three_payloads(rt.alloc())?;
    assert_eq!(rt; payloads, want);
    Ok(())
}

#[test]
fn payloads_that_were_written_are_opened_again(rt: HostRuntime) -> Result<(), Fail> {
    let sent = [Vec::from_slice(rt.alloc(), &[1; 60])?];
    let capture = reopened(rt.alloc(), &sent)?;
    assert_eq!(rt; count_of(&capture), 1);
    Ok(())
}

/// The written record of a payload of so many bytes, where it may have as many.
fn record_of(alloc: Global, payload: &[u8]) -> Result<Vec<u8>, AllocError> {
    let mut written = Vec::new(alloc);
    if payload.len() <= MAX_PAYLOAD as usize {
        write_record(&mut written, payload)?;
    }
    Ok(written)
}

#[test]
fn the_longest_payload_is_written_where_there_is_memory(rt: HostRuntime) -> Result<(), Fail> {
    let written = record_of(rt.alloc(), &[4; 10_240])?;
    assert_eq!(rt; written.len(), 10_256);
    Ok(())
}

/// Lengths of a prefix of three records, from the first to before the second, and its outcome.
const PREFIXES: [(usize, usize, Result<u64, PcapFault>); 8] = [
    (0, 24, Err(PcapFault::ShortHeader)),
    (24, 25, Ok(0)),
    (25, 100, Err(PcapFault::CutRecord { nth: 1 })),
    (100, 101, Ok(1)),
    (101, 176, Err(PcapFault::CutRecord { nth: 2 })),
    (176, 177, Ok(2)),
    (177, 1706, Err(PcapFault::CutRecord { nth: 3 })),
    (1706, 1707, Ok(3)),
];

/// How many records the front of some bytes has, or what is wrong with it.
fn outcome_of_front(
    alloc: Global,
    bytes: &[u8],
    length: usize,
) -> Result<Result<u64, PcapFault>, AllocError> {
    let front = bytes.get(..length).unwrap_or(bytes);
    Ok(outcome_of(Vec::from_slice(alloc, front)?))
}

#[test]
fn every_prefix_has_its_outcome(rt: HostRuntime) -> Result<(), Fail> {
    let bytes = three_records(rt.alloc())?;
    for (low, high, want) in PREFIXES {
        for length in low..high {
            let found = outcome_of_front(rt.alloc(), &bytes, length)?;
            assert_eq!(rt; found, want, "at {length}");
        }
    }
    Ok(())
}

/// A magic, a version and a length of five as a machine writes them, and the outcome.
const FRONTS: [([u8; 4], [u8; 4], [u8; 4], Result<u64, PcapFault>); 8] = [
    ([0xd4, 0xc3, 0xb2, 0xa1], [2, 0, 4, 0], [5, 0, 0, 0], Ok(1)),
    ([0x4d, 0x3c, 0xb2, 0xa1], [2, 0, 4, 0], [5, 0, 0, 0], Ok(1)),
    ([0xa1, 0xb2, 0xc3, 0xd4], [0, 2, 0, 4], [0, 0, 0, 5], Ok(1)),
    ([0xa1, 0xb2, 0x3c, 0x4d], [0, 2, 0, 4], [0, 0, 0, 5], Ok(1)),
    (
        [0xa1, 0xb2, 0xc3, 0xd4],
        [2, 0, 4, 0],
        [5, 0, 0, 0],
        Err(PcapFault::BadVersion),
    ),
    (
        [0xd4, 0xc3, 0xb2, 0xa1],
        [0, 2, 0, 4],
        [0, 0, 0, 5],
        Err(PcapFault::BadVersion),
    ),
    (
        [0xd4, 0xc3, 0xb2, 0xa2],
        [2, 0, 4, 0],
        [5, 0, 0, 0],
        Err(PcapFault::BadMagic),
    ),
    (
        [0x0a, 0x0d, 0x0d, 0x0a],
        [2, 0, 4, 0],
        [5, 0, 0, 0],
        Err(PcapFault::BadMagic),
    ),
];

/// A capture of one record of five bytes, with this magic, version and length.
fn one_record(
    alloc: Global,
    magic: &[u8],
    version: &[u8],
    length: &[u8],
) -> Result<Vec<u8>, AllocError> {
    [magic, version, &[9; 24], length, &[9; 9]].concat(alloc)
}

#[test]
fn both_orders_and_both_magics_are_read(rt: HostRuntime) -> Result<(), Fail> {
    for (magic, version, length, want) in FRONTS {
        let bytes = one_record(rt.alloc(), &magic, &version, &length)?;
        assert_eq!(rt; outcome_of(bytes), want, "at {magic:?}");
    }
    Ok(())
}

/// The header of a capture, and of a record of 96 of 1,514 bytes.
const CUT_OFF: [u8; 40] = [
    0xd4, 0xc3, 0xb2, 0xa1, 2, 0, 4, 0, 0, 0, 0, 0, 0, 0, 0, 0, 0, 0, 4, 0, 1, 0, 0, 0, 1, 2, 3, 4,
    5, 6, 7, 8, 96, 0, 0, 0, 0xea, 5, 0, 0,
];

/// The header of such a record as it is written.
const BOTH_CAPTURED: [u8; 16] = [0, 0, 0, 0, 0, 0, 0, 0, 96, 0, 0, 0, 96, 0, 0, 0];

/// The payloads of a capture, end to end.
fn payloads_joined(alloc: Global, bytes: Vec<u8>) -> Result<Vec<u8>, Fail> {
    match Capture::open(bytes) {
        Ok(capture) => {
            let (_, payloads) = walked(alloc, &capture)?;
            Ok(payloads)
        }
        Err(_) => Err("a capture")?,
    }
}

#[test]
fn lengths_rewritten_are_both_what_was_captured(rt: HostRuntime) -> Result<(), Fail> {
    let bytes = [CUT_OFF.as_slice(), &[7; 96]].concat(rt.alloc())?;
    let payload = payloads_joined(rt.alloc(), bytes)?;
    let written = record_of(rt.alloc(), &payload)?;
    let want = [BOTH_CAPTURED.as_slice(), &[7; 96]].concat(rt.alloc())?;
    assert_eq!(rt; written, want);
    Ok(())
}

/// The header of a capture, and 17 bytes: a record of none, and a byte of another.
const ONE_AND_A_BYTE: [u8; 41] = [
    0xd4, 0xc3, 0xb2, 0xa1, 2, 0, 4, 0, 0, 0, 0, 0, 0, 0, 0, 0, 0xff, 0xff, 0, 0, 1, 0, 0, 0, 0, 0,
    0, 0, 0, 0, 0, 0, 0, 0, 0, 0, 0, 0, 0, 0, 0,
];

/// The magic of a capture, and no version.
const NO_VERSION: [u8; 24] = [
    0xd4, 0xc3, 0xb2, 0xa1, 0, 0, 0, 0, 0, 0, 0, 0, 0, 0, 0, 0, 0, 0, 0, 0, 0, 0, 0, 0,
];

/// Expects that this is what is wrong with the bytes, and that it is printed so.
fn expect_fault<R: Abort + AllocGlobal>(
    rt: &R,
    bytes: &[u8],
    fault: PcapFault,
    word: &str,
) -> Result<(), Fail> {
    let read = Vec::from_slice(rt.alloc(), bytes)?;
    assert!(rt; has_fault(read, fault), "{word}");
    let printed = format!(in rt.alloc(); "{fault}")?;
    assert_eq!(rt; printed.as_str(), word);
    Ok(())
}

#[test]
fn each_fault_has_its_bytes_and_its_word(rt: HostRuntime) -> Result<(), Fail> {
    expect_fault(&rt, &[0; 23], PcapFault::ShortHeader, "short-header")?;
    expect_fault(&rt, &[0; 24], PcapFault::BadMagic, "bad-magic")?;
    expect_fault(&rt, &NO_VERSION, PcapFault::BadVersion, "bad-version")?;
    let cut = PcapFault::CutRecord { nth: 2 };
    expect_fault(&rt, &ONE_AND_A_BYTE, cut, "cut-record 2")
}
