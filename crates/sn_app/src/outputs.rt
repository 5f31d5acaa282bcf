//! A file that an app writes, kept in memory.
ghost use Rattle.std.specs.Prelude.{◌≡◌, ◌≤◌, IfOk, IsSome, None, OnErr, OnOk, Some, length, option_map, replicate};
ghost use Rattle.sn_packet.specs.Packet.{most_bytes};
ghost use Rattle.sn_pcap.specs.Written.{written_header};
ghost use Rattle.sn_app.specs.Outputs.{appended, fits_into};

use sn_pcap::{write_header, write_record};
use std::alloc::{AllocError, Global};
use std::marker::Model;

/// The most bytes of a file.
const MOST_BYTES: usize = 33_554_432;

/// How many bytes a record's header takes.
const RECORD_HEADER: usize = 16;

/// A file that an app writes: its bytes, or none where it was never started. It starts with a header, and each packet adds a
/// record, in the format of libpcap's files of version 2.4.
#[derive(Drop)]
pub struct Output {
    bytes: Option<Vec<u8>>,
}

impl Model for Output {
    ghost use Rattle.std.specs.Prelude.{ℕ, List, Option, option_map};

    ghost Value = { Option (List ℕ) };

    ghost view = { λ o. option_map (λ bytes. bytes.items) o.bytes };
}

impl Output {
    /// A file that was never started.
    pub fn never_started() -> Output
        ensures { result ≡ None }
    {
        Output { bytes: None }
    }

    /// Its bytes, None exactly where it was never started.
    pub fn bytes(&self) -> Option<&[u8]>
        ensures { option_map (λ bytes. bytes.now) result ≡ self.now }
    {
        match &self.bytes {
            None => None,
            Some(bytes) => Some(bytes.as_slice()),
        }
    }

    /// Its bytes, in the memory that they were written to. None exactly where it was never started.
    pub fn into_bytes(self) -> Option<Vec<u8>>
        ensures { option_map (λ bytes. bytes.items) result ≡ self }
    {
        self.bytes
    }

    /// Empties it to its header.
    ///
    /// # Errors
    /// Want of memory, and it stays as it was.
    pub fn start(&mut self, alloc: Global) -> Result<(), AllocError>
        ensures begun { OnOk result (self.new ≡ Some written_header) }
        ensures refused { OnErr result (self.new ≡ self.old) }
    {
        let mut begun = Vec::new(alloc);
        write_header(&mut begun)?;
        self.bytes = Some(begun);
        Ok(())
    }

    /// Adds the record of a packet with these bytes. False, with the file unchanged, exactly where it would pass 33,554,432
    /// bytes.
    ///
    /// # Errors
    /// Want of memory, and it stays as it was.
    pub fn append(&mut self, payload: &[u8]) -> Result<bool, AllocError>
        requires started { IsSome self.old }
        requires len { length payload.now ≤ most_bytes }
        ensures fits { IfOk result (λ added. added ≡ fits_into self.old payload.now) }
        ensures bytes { IfOk result (λ added. self.new ≡ appended added payload.now self.old) }
        ensures refused { OnErr result (self.new ≡ self.old) }
    {
        let Some(bytes) = &mut self.bytes else {
            unreachable!()
        };
        if bytes.len() + (RECORD_HEADER + payload.len()) > MOST_BYTES {
            return Ok(false);
        }
        write_record(bytes, payload)?;
        Ok(true)
    }
}

/// So many files that were never started.
///
/// # Errors
/// Want of memory.
pub fn no_files(alloc: Global, count: usize) -> Result<Vec<Output>, AllocError>
    ensures { IfOk result (λ files. files.items ≡ replicate count None) }
{
    let mut files = Vec::with_capacity(alloc, count)?;
    for _file in 0..count {
        files.push_reserved(Output::never_started());
    }
    Ok(files)
}
