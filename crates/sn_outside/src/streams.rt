//! Bytes taken from any reader and handed to any writer, as the adapters do.
ghost use Rattle.sn_outside.specs.Appended.{Appends};
ghost use Rattle.sn_outside.specs.Counts.{FaultCounted};
ghost use Rattle.sn_outside.specs.declared.fault.FileFault.TheVariants.{Failed, TooLong};
ghost use Rattle.std.specs.Io.KnownBytes.{Appends as Gains, WriteAppends};
ghost use Rattle.std.specs.Prelude.{Err, IfErr, IfOk, IfSome, OnErr, OnOk, length, ◌++◌, ◌<◌, ◌≡◌, ◌≢◌, ◌≤◌};

use crate::{FileFault, SinkFault};
use std::io;
use std::io::{ErrorKind, Read, Write};

/// What a failure of the system is, where nothing was touched yet: want of memory, or a fault.
pub(crate) fn fault_of(error: &io::Error) -> FileFault
    ensures { result ≢ TooLong }
{
    if error.kind() == ErrorKind::OutOfMemory {
        FileFault::OutOfMemory
    } else {
        FileFault::Failed
    }
}

/// Appends all that a reader gives, at most `limit` bytes.
///
/// # Errors
/// `Failed` where the reader fails; `TooLong` where it gives more; want of memory. Then `into` is
/// as before.
pub fn read_within<I: Read + Drop>(
    reader: I,
    limit: u64,
    into: &mut Vec<u8>,
) -> Result<(), FileFault>
    ensures appends { OnOk result (Appends into.old.items into.new.items limit) }
    ensures refused { OnErr result (into.new.items ≡ into.old.items) }
    // Where it is known what the reader gives, just that was appended,
    ensures whole { OnOk result (IfSome (I.remaining reader) (λ bytes. into.new.items ≡ into.old.items ++ bytes)) }
    // or it is more than allowed.
    ensures long { result ≡ Err TooLong → IfSome (I.remaining reader) (λ bytes. limit < length bytes) }
{
    let start = into.len();
    let mut front = reader.take(limit.saturating_add(1));
    match front.read_to_end(into) {
        Ok(n) => {
            if n as u64 > limit {
                into.truncate(start);
                return Err(FileFault::TooLong);
            }
            Ok(())
        }
        Err(e) => {
            into.truncate(start);
            Err(fault_of(&e))
        }
    }
}

/// Hands a writer all of the bytes.
///
/// # Errors
/// `Failed`, and some of the bytes may have been taken.
pub fn write_whole<O: Write>(writer: &mut O, bytes: &[u8]) -> Result<(), FileFault>
    // Where it is known what the writer holds, it gained just the bytes.
    ensures whole { OnOk result (Gains (O.contents writer.old) (O.contents writer.new) bytes.now) }
    ensures fault { IfErr result (λ fault. fault ≡ Failed) }
{
    match writer.write_all(bytes) {
        Ok(()) => Ok(()),
        Err(_) => Err(FileFault::Failed),
    }
}

/// Hands a writer some of the bytes, from the front, and answers how many. Where it takes none,
/// that is counted.
///
/// # Errors
/// `Failed`, and none of the bytes were taken.
pub fn write_some<O: Write>(
    writer: &mut O,
    bytes: &[u8],
    faults: &mut u64,
) -> Result<usize, SinkFault>
    ensures some { IfOk result (λ n. 0 < n) }
    ensures within { IfOk result (λ n. n ≤ length bytes.now) }
    // Where it is known what the writer holds, it gained just so many.
    ensures taken { WriteAppends (O.contents writer.old) (O.contents writer.new) result bytes.now }
    ensures later { faults.old ≤ faults.new }
    ensures failed { OnErr result (FaultCounted faults.old faults.new) }
    ensures still { OnOk result (faults.new ≡ faults.old) }
{
    for _ in 0..=bytes.len() {
        match writer.write(bytes) {
            Ok(0) => break,
            Ok(n) => return Ok(n),
            Err(e) => {
                if e.kind() != ErrorKind::Interrupted {
                    break;
                }
            }
        }
    }
    *faults = faults.saturating_add(1);
    Err(SinkFault::Failed)
}
