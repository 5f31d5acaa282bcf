//! The adapter to the system's files.
ghost use Rattle.sn_outside.specs.Appended.{Appends};
ghost use Rattle.sn_outside.specs.Contents.{contents_of};
ghost use Rattle.sn_outside.specs.declared.fault.FileFault.TheVariants.{Failed, TooLong};
ghost use Rattle.std.specs.Prelude.{Bool, [], Err, IfErr, OnErr, OnOk, false, ◌≡◌};

use crate::streams::{fault_of, read_within, write_whole};
use crate::{FileFault, Files};
use sn_names::FileName;
use std::alloc::{AllocError, Global};
use std::fs::{OpenFile, OpenOptions};
use std::io::ErrorKind;
use std::os::unix::fs::{OpenOptionsExt, PermissionsExt};
use std::{fs, rt};

/// The mode of a file that is made anew, of which the system takes off what the user's mask says.
const NEW_MODE: u32 = 0o666;

/// How many names of partial files are tried: one is there already where another run writes into
/// the same folder, or was cut off.
const MOST_PARTS: u32 = 100;

/// The system's files, which tell nothing of what they hold. A name is a path, from the folder that
/// the program was started in.
///
/// Where a regular file or none has the name, a write makes a file beside it and renames that, so
/// that a failed write leaves the old file. A device, a pipe and a symbolic link are written
/// directly.
#[derive(Drop)]
pub struct RealFiles<'a, R: rt::Files + AllocGlobal> {
    rt: &'a R,
    faults: u64,
}

impl<'a, R: rt::Files + AllocGlobal> RealFiles<'a, R> {
    /// The files of this runtime.
    pub fn new(rt: &'a R) -> RealFiles<'a, R> {
        RealFiles { rt, faults: 0 }
    }
}

/// Makes room for a file whose length the system tells, so that reading it moves nothing. Where it
/// tells none, or there is no room, reading makes its own.
fn make_room<F: OpenFile>(file: &F, limit: u64, into: &mut Vec<u8>)
    ensures { into.new.items ≡ into.old.items }
{
    let Ok(metadata) = file.metadata() else {
        return;
    };
    let most = metadata.len().min(limit).saturating_add(1);
    let _ = into.reserve_exact(most as usize);
}

/// Appends a file's bytes, at most `limit` of them.
fn read_file<R: rt::Files>(
    rt: &R,
    path: &str,
    limit: u64,
    into: &mut Vec<u8>,
) -> Result<(), FileFault>
    ensures appends { OnOk result (Appends into.old.items into.new.items limit) }
    ensures refused { OnErr result (into.new.items ≡ into.old.items) }
{
    match fs::open(rt, path) {
        Ok(file) => {
            make_room(&file, limit, into);
            read_within(file, limit, into)
        }
        Err(e) => Err(fault_of(&e)),
    }
}

/// Makes these bytes the file's content.
fn write_file<R: rt::Files + AllocGlobal>(rt: &R, path: &str, bytes: &[u8]) -> Result<(), FileFault>
    ensures { result ≡ Err TooLong → ⊥ }
{
    match fs::symlink_metadata(rt, path) {
        Ok(metadata) => {
            if !metadata.is_file() {
                return write_through(rt, path, bytes);
            }
            if let Err(e) = OpenOptions::new().write(true).open(rt, path) {
                return Err(fault_of(&e));
            }
            replace(rt, path, metadata.permissions().mode(), bytes)
        }
        Err(e) => {
            if e.kind() != ErrorKind::NotFound {
                return Err(fault_of(&e));
            }
            replace(rt, path, NEW_MODE, bytes)
        }
    }
}

/// Writes a device, a pipe or what a symbolic link names.
fn write_through<R: rt::Files>(rt: &R, path: &str, bytes: &[u8]) -> Result<(), FileFault>
    ensures { result ≡ Err TooLong → ⊥ }
{
    match fs::create(rt, path) {
        Ok(mut file) => write_whole(&mut file, bytes),
        Err(e) => Err(fault_of(&e)),
    }
}

/// Writes a partial file beside a path, and gives it the path's name once it is whole.
fn replace<R: rt::Files + AllocGlobal>(
    rt: &R,
    path: &str,
    mode: u32,
    bytes: &[u8],
) -> Result<(), FileFault>
    ensures { result ≡ Err TooLong → ⊥ }
{
    for number in 0..MOST_PARTS {
        let part = part_path(rt.alloc(), path, number)?;
        let mut how = OpenOptions::new();
        how.write(true).create_new(true).mode(mode);
        match how.open(rt, part.as_str()) {
            Ok(file) => return fill_and_rename(rt, file, part.as_str(), path, bytes),
            Err(e) => {
                if e.kind() != ErrorKind::AlreadyExists {
                    return Err(fault_of(&e));
                }
            }
        }
    }
    Err(FileFault::Failed)
}

/// Fills a partial file, and gives it the path's name. Where that fails it is taken away.
fn fill_and_rename<R: rt::Files>(
    rt: &R,
    mut file: R::File,
    part: &str,
    path: &str,
    bytes: &[u8],
) -> Result<(), FileFault>
    ensures { IfErr result (λ fault. fault ≡ Failed) }
{
    if write_whole(&mut file, bytes).is_ok() && fs::rename(rt, part, path).is_ok() {
        return Ok(());
    }
    let _ = fs::remove_file(rt, part);
    Err(FileFault::Failed)
}

/// The path of a partial file, in the folder of another path. Its name is short, so that it fits
/// where the other does.
fn part_path(alloc: Global, path: &str, number: u32) -> Result<String, AllocError> {
    match path.rsplit_once('/') {
        Some((folder, _)) => format!(in alloc; "{folder}/.part-{number}"),
        None => format!(in alloc; ".part-{number}"),
    }
}

impl<'a, R: rt::Files + AllocGlobal> Files for RealFiles<'a, R> {
    ghost tells = { false };

    ghost state = { λ f. record { contents = contents_of []; calls = []; faults = f.faults } };

    fn read(&mut self, name: &FileName, limit: u64, into: &mut Vec<u8>) -> Result<(), FileFault> {
        let answer = read_file(self.rt, name.as_str(), limit, into);
        if answer == Err(FileFault::Failed) {
            self.faults = self.faults.saturating_add(1);
        }
        answer
    }

    fn write(&mut self, name: &FileName, bytes: &[u8]) -> Result<(), FileFault> {
        let answer = write_file(self.rt, name.as_str(), bytes);
        if answer == Err(FileFault::Failed) {
            self.faults = self.faults.saturating_add(1);
        }
        answer
    }
}
