//! A capture, opened once and then read record by record.

ghost use Rattle.std.specs.Prelude.{◌≡◌, ℕ, List, IfOk, IfErr, OnErr, IfSome, IfNone, length};
ghost use Rattle.sn_pcap.specs.declared.fault.PcapFault.{PcapFault};
ghost use Rattle.sn_pcap.specs.Faults.{HasFault};
ghost use Rattle.sn_pcap.specs.Grammar.{PcapText};
ghost use Rattle.sn_pcap.specs.Places.{payloads_of, payload_of, IsPlace, IsRecordOf, StandsAt, IsAtEnd, IsOpened};

use crate::fault::PcapFault;
use crate::header::{HEADER_LEN, has_version, order_of_magic};
use crate::order::Order;
use crate::record::{RecordAt, cut_record, found_at};
use std::marker::Model;

/// A capture in libpcap's file format 2.4, all of its records whole. Contracts see its bytes.
#[derive(Debug, Drop)]
pub struct Capture {
    bytes: Vec<u8>,
    order: Order,
}

impl Model for Capture {
    ghost Value = { List ℕ };

    ghost view = { λ c. c.bytes.items };

    ghost invariant = { λ c. IsOpened c.order c.bytes.items };
}

/// The byte order of a capture, or what is wrong with the bytes.
fn order_if_whole(bytes: &[u8]) -> Result<Order, PcapFault>
    ensures opened { IfOk result (λ order. IsOpened order bytes.now) }
    ensures fault { IfErr result (HasFault bytes.now) }
{
    if bytes.len() < HEADER_LEN {
        return Err(PcapFault::ShortHeader);
    }
    let Some(order) = order_of_magic(bytes) else {
        return Err(PcapFault::BadMagic);
    };
    if !has_version(order, bytes) {
        return Err(PcapFault::BadVersion);
    }
    match cut_record(order, bytes) {
        Some(nth) => Err(PcapFault::CutRecord { nth }),
        None => Ok(order),
    }
}

impl Capture {
    /// Opens a capture: a header of 24 bytes, and then whole records to the end. Zone, sigfigs, snaplen, link type, times
    /// and original lengths may be anything. It takes no memory, and walks once over the record headers.
    ///
    /// What comes first of these is the fault: fewer than 24 bytes, another magic, another version than 2.4, and a
    /// record that isn't whole.
    pub fn open(bytes: Vec<u8>) -> Result<Capture, PcapFault>
        // The capture is the bytes, and they are the text of its records.
        ensures opened { IfOk result (λ c. c ≡ bytes.items) }
        ensures text { IfOk result (λ c. PcapText c (payloads_of c)) }

        // Only what isn't the text of any records is refused.
        ensures fault { OnErr result ((records : List (List ℕ)) → PcapText bytes.items records → ⊥) }

        // The fault is one that the bytes have, and each one that they have is it.
        ensures cause { IfErr result (HasFault bytes.items) }
        ensures exact { (fault : PcapFault) → HasFault bytes.items fault → result ≡ Err fault }
    {
        let order = order_if_whole(&bytes)?;
        Ok(Capture { bytes, order })
    }

    /// How many bytes the capture has, its header among them.
    pub fn size(&self) -> usize
        ensures { result ≡ length self.now }
    {
        self.bytes.len()
    }

    /// Where the first record begins, or the capture ends: 24 bytes from its start.
    pub fn first(&self) -> u64
        ensures first { result ≡ 24 }
        ensures place { IsPlace self.now 24 }
        ensures text { PcapText self.now (payloads_of self.now) }
    {
        let _ = &self.order;
        HEADER_LEN as u64
    }

    /// The record at a place, which is `first()` or a record's `next`, or None exactly at the end.
    pub fn record(&self, at: u64) -> Option<RecordAt>
        requires { IsPlace self.now at }
        ensures found { IfSome result (StandsAt self.now at) }
        ensures end { IfNone result (IsAtEnd self.now at) }
    {
        if at as usize == self.bytes.len() {
            return None;
        }
        Some(found_at(self.order, &self.bytes, at))
    }

    /// The captured bytes of a record that `record` of this capture found.
    pub fn payload(&self, at: RecordAt) -> &[u8]
        requires { IsRecordOf self.now at }
        ensures { result.now ≡ payload_of self.now at }
    {
        let start = at.start as usize;
        &self.bytes[start..start + at.len as usize]
    }
}
