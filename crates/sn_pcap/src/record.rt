//! Records of a capture, by the places where they stand.

ghost use Rattle.std.specs.Prelude.{◌≡◌, ◌+◌, ◌<◌, ◌≤◌, length, drop, IfSome, IfNone};
ghost use Rattle.sn_pcap.specs.Places.{captured_at, order_of, payloads_of, extent, IsPlace, StandsAt};

use crate::header::HEADER_LEN;
use crate::order::{Order, number_at};
use sn_names::MAX_PAYLOAD;

/// How many bytes a record's header takes: its time, its captured and its original length.
pub(crate) const RECORD_HEADER_LEN: usize = 16;

/// A record of a capture, by its place. It holds no bytes: `Capture::payload` gives them.
#[derive(Clone, Copy, Debug, PartialEq, Eq)]
pub struct RecordAt {
    /// Where its captured bytes begin, in bytes from the capture's start.
    pub start: u64,
    /// How many bytes were captured.
    pub len: u32,
    /// Whether that is more than `MAX_PAYLOAD`.
    pub oversize: bool,
    /// Where the next record begins, or the capture ends.
    pub next: u64,
}

/// The captured length in the record header at a place.
#[tactic(auto, using(crate::proofs::Stepping::captured_there))]
pub(crate) fn captured_length(order: Order, bytes: &[u8], at: usize) -> u32
    requires { at + 16 ≤ length bytes.now }
    ensures { result ≡ captured_at order (drop at bytes.now) }
{
    number_at(order, &bytes[at + 8..])
}

/// The whole record that stands at a place before the end.
pub(crate) fn found_at(order: Order, bytes: &[u8], at: u64) -> RecordAt
    requires order { order ≡ order_of bytes.now }
    requires place { IsPlace bytes.now at }
    requires left { at < length bytes.now }
    ensures { StandsAt bytes.now at result }
{
    let len = captured_length(order, bytes, at as usize);
    let start = at + RECORD_HEADER_LEN as u64;
    RecordAt {
        start,
        len,
        oversize: len > MAX_PAYLOAD,
        next: start + u64::from(len),
    }
}

/// Where the whole record at a place ends, or None where it isn't whole.
fn record_end(order: Order, bytes: &[u8], at: usize) -> Option<usize>
    requires { at ≤ length bytes.now }
    ensures whole { IfSome result (λ next.
        (next ≡ at + (16 + captured_at order (drop at bytes.now))) × (next ≤ length bytes.now)) }
    ensures cut { IfNone result
        (length bytes.now < at + (16 + captured_at order (drop at bytes.now))) }
{
    let left = bytes.len() - at;
    if left < RECORD_HEADER_LEN {
        return None;
    }
    let captured = captured_length(order, bytes, at) as usize;
    if left - RECORD_HEADER_LEN < captured {
        return None;
    }
    Some(at + RECORD_HEADER_LEN + captured)
}

/// The number, counted from 1, of the first record that isn't whole, or None where all are.
#[tactic(auto, using(crate::proofs::Stepping::steps, crate::proofs::Stepping::at_cut))]
pub(crate) fn cut_record(order: Order, bytes: &[u8]) -> Option<u64>
    requires header { 24 ≤ length bytes.now }
    requires order { order ≡ order_of bytes.now }
    ensures whole { IfNone result (24 + extent (payloads_of bytes.now) ≡ length bytes.now) }
    ensures cut { IfSome result (λ nth.
        (nth ≡ length (payloads_of bytes.now) + 1)
        × (24 + extent (payloads_of bytes.now) < length bytes.now)) }
{
    let mut at = HEADER_LEN;
    let mut nth: u64 = 1;
    while at < bytes.len() {
        match record_end(order, bytes, at) {
            Some(next) => at = next,
            None => return Some(nth),
        }
        nth += 1;
    }
    None
}
