//! Each outside, called once: files and a sink in memory, streams, and the two adapters.
use crate::full_disk::FullDisk;
use crate::names::file_name;
use sn_names::FileName;
use sn_outside::*;
use std::alloc::{AllocError, Global};
use std::fs::Permissions;
use std::io::ErrorKind;
use std::os::unix::fs::{PermissionsExt, symlink};
use std::test::Fail;
use std::{env, fs};

/// Whether a read of at most so many bytes gives these, or is refused so.
fn reads<F: Files>(
    alloc: Global,
    files: &mut F,
    name: &FileName,
    limit: u64,
    want: Result<&[u8], FileFault>,
) -> bool {
    let mut into = Vec::new(alloc);
    match (files.read(name, limit, &mut into), want) {
        (Ok(()), Ok(bytes)) => into.as_slice() == bytes,
        (Err(found), Err(fault)) => found == fault && into.is_empty(),
        _ => false,
    }
}

/// Whether a write of these bytes is answered so.
fn writes<F: Files>(
    files: &mut F,
    name: &FileName,
    bytes: &[u8],
    want: Result<(), FileFault>,
) -> bool {
    files.write(name, bytes) == want
}

/// Whether a sink takes so many of these bytes, or is refused so.
fn takes<O: Sink>(out: &mut O, bytes: &[u8], want: Result<usize, SinkFault>) -> bool {
    !bytes.is_empty() && out.write(bytes) == want
}

/// Whether the files in memory have these bytes under a name.
fn has(files: &MemFiles, name: &FileName, want: Option<&[u8]>) -> bool {
    files.bytes(name) == want
}

/// Files in memory: `a` with three bytes. The fourth call fails.
fn mem_files(alloc: Global) -> Result<MemFiles, Fail> {
    let bytes = Vec::from_slice(alloc, b"abc")?;
    let held = vec![in alloc; (file_name(alloc, "a")?, bytes)]?;
    Ok(MemFiles::new(alloc, held, vec![in alloc; 4]?))
}

/// Whether the calls are of these kinds.
fn are_kinds(calls: &[FileCall], kinds: &[CallKind]) -> bool {
    for (at, call) in calls.iter().enumerate() {
        if kinds.get(at) != Some(&call.kind) {
            return false;
        }
    }
    calls.len() == kinds.len()
}

/// The kinds of the calls that are made in memory.
const KINDS: [CallKind; 5] = [
    CallKind::Read,
    CallKind::Read,
    CallKind::Read,
    CallKind::Write,
    CallKind::Write,
];

/// Whether reads of files in memory are answered as their limits and what is there make it.
fn reads_in_memory(alloc: Global, files: &mut MemFiles, a: &FileName, b: &FileName) -> bool {
    reads(alloc, files, a, 3, Ok(b"abc"))
        && reads(alloc, files, a, 2, Err(FileFault::TooLong))
        && reads(alloc, files, b, 3, Err(FileFault::Failed))
}

/// Whether the first write fails and changes nothing, and the second makes the file.
fn writes_in_memory(files: &mut MemFiles, b: &FileName) -> bool {
    writes(files, b, b"x", Err(FileFault::Failed))
        && has(files, b, None)
        && writes(files, b, b"x", Ok(()))
        && has(files, b, Some(b"x"))
}

#[test]
fn files_in_memory_tell_their_calls(rt: HostRuntime) -> Result<(), Fail> {
    let a = file_name(rt.alloc(), "a")?;
    let b = file_name(rt.alloc(), "b")?;
    let mut files = mem_files(rt.alloc())?;
    assert!(rt; reads_in_memory(rt.alloc(), &mut files, &a, &b));
    assert!(rt; writes_in_memory(&mut files, &b));
    assert!(rt; are_kinds(files.calls(), &KINDS));
    Ok(())
}

/// A sink in memory that takes two bytes a call and three in all. The second call fails.
fn mem_sink(alloc: Global) -> Result<MemSink, AllocError> {
    MemSink::new(alloc, 2, 3, vec![in alloc; 2]?)
}

#[test]
fn a_sink_in_memory_takes_a_piece_at_a_time(rt: HostRuntime) -> Result<(), Fail> {
    let mut sink = mem_sink(rt.alloc())?;
    assert!(rt; takes(&mut sink, b"abc", Ok(2)));
    assert!(rt; takes(&mut sink, b"c", Err(SinkFault::Failed)));
    assert!(rt; takes(&mut sink, b"cd", Ok(1)));
    assert!(rt; takes(&mut sink, b"d", Err(SinkFault::Failed)));
    assert_eq!(rt; sink.taken(), b"abc".as_slice());
    Ok(())
}

#[test]
fn standard_output_takes_a_byte_and_no_gate_does_nothing(rt: HostRuntime) {
    NoGate.before(0, 0, 0);
    assert!(rt; takes(&mut StdOut::new(&rt), b"\n", Ok(1)));
}

/// Whether reading within a limit gives these bytes, or is refused so.
fn reads_stream(alloc: Global, bytes: &[u8], limit: u64, want: Result<(), FileFault>) -> bool {
    let mut into = Vec::new(alloc);
    let answer = read_within(bytes, limit, &mut into);
    answer == want && (answer.is_err() || into.as_slice() == bytes)
}

#[test]
fn streams_are_read_within_the_limit(rt: HostRuntime) {
    assert!(rt; reads_stream(rt.alloc(), b"abc", 2, Err(FileFault::TooLong)));
    assert!(rt; reads_stream(rt.alloc(), b"abc", 3, Ok(())));
}

#[test]
fn a_stream_is_written_whole(rt: HostRuntime) {
    let mut into = Vec::new(rt.alloc());
    let answer = write_whole(&mut into, b"de");
    assert_eq!(rt; answer, Ok(()));
    assert_eq!(rt; into.as_slice(), b"de".as_slice());
}

#[test]
fn a_stream_is_written_in_part(rt: HostRuntime) {
    let mut into = Vec::new(rt.alloc());
    let mut faults = 0;
    let answer = write_some(&mut into, b"f", &mut faults);
    assert_eq!(rt; answer, Ok(1));
    assert_eq!(rt; into.as_slice(), b"f".as_slice());
}

/// Makes an empty folder for a test, of this name.
fn folder_for(rt: &HostRuntime, test: &str) -> Result<String, Fail> {
    let id = std::process::id(rt.process());
    let top = env::temp_dir(rt)?;
    let folder = format!(in rt.alloc(); "{}/sn_tests-{test}-{id}", top.as_str())?;
    fs::create_dir(rt, folder.as_str())?;
    Ok(folder)
}

/// The name of a file in a folder.
fn file_in(alloc: Global, folder: &str, file: &str) -> Result<FileName, Fail> {
    let path = format!(in alloc; "{folder}/{file}")?;
    file_name(alloc, path.as_str())
}

/// Takes a file away, and then its folder, where it is the last.
fn take_away(rt: &HostRuntime, folder: &str, file: &FileName) -> Result<(), Fail> {
    fs::remove_file(rt, file.as_str())?;
    fs::remove_dir(rt, folder)?;
    Ok(())
}

/// Whether a file that isn't there is told, then a long one is written and read to its limit, and
/// then fewer bytes leave none of it.
fn writes_anew<F: Files>(alloc: Global, files: &mut F, file: &FileName, long: &[u8]) -> bool {
    reads(alloc, files, file, 9, Err(FileFault::Failed))
        && writes(files, file, long, Ok(()))
        && reads(alloc, files, file, 199_999, Err(FileFault::TooLong))
        && reads(alloc, files, file, 200_000, Ok(long))
        && writes(files, file, b"abc", Ok(()))
        && reads(alloc, files, file, 9, Ok(b"abc"))
}

#[test]
fn real_files_are_read_to_their_limit_and_written_anew(rt: HostRuntime) -> Result<(), Fail> {
    let folder = folder_for(&rt, "anew")?;
    let file = file_in(rt.alloc(), folder.as_str(), "file")?;
    // More than 64 KiB.
    let long = vec![in rt.alloc(); 7; 200_000]?;
    assert!(rt; writes_anew(rt.alloc(), &mut RealFiles::new(&rt), &file, &long));
    take_away(&rt, folder.as_str(), &file)
}

/// Makes a file that its owner alone may use.
fn make_private(rt: &HostRuntime, file: &FileName) -> Result<(), Fail> {
    fs::write(rt, file.as_str(), b"longer")?;
    fs::set_permissions(rt, file.as_str(), Permissions::from_mode(0o600))?;
    Ok(())
}

/// Who may use a file.
fn mode_of(rt: &HostRuntime, file: &FileName) -> Result<u32, Fail> {
    let mode = fs::metadata(rt, file.as_str())?.permissions().mode();
    Ok(mode & 0o777)
}

#[test]
fn a_file_that_is_replaced_keeps_its_mode(rt: HostRuntime) -> Result<(), Fail> {
    let folder = folder_for(&rt, "mode")?;
    let file = file_in(rt.alloc(), folder.as_str(), "file")?;
    make_private(&rt, &file)?;
    assert!(rt; writes(&mut RealFiles::new(&rt), &file, b"abc", Ok(())));
    assert_eq!(rt; mode_of(&rt, &file)?, 0o600);
    take_away(&rt, folder.as_str(), &file)
}

#[test]
fn no_file_is_written_where_there_is_no_folder(rt: HostRuntime) -> Result<(), Fail> {
    let lost = file_name(rt.alloc(), "/tmp/sn_tests-none/none/file")?;
    let failed = Err(FileFault::Failed);
    assert!(rt; writes(&mut RealFiles::new(&rt), &lost, b"abc", failed));
    Ok(())
}

/// Whether a write on a disk that has room for so many bytes is answered so.
fn writes_on_disk(
    rt: &HostRuntime,
    room: usize,
    file: &FileName,
    bytes: &[u8],
    want: Result<(), FileFault>,
) -> bool {
    let fault = ErrorKind::OutOfMemory;
    let disk = (FullDisk { rt, room, fault }, rt.alloc());
    writes(&mut RealFiles::new(&disk), file, bytes, want)
}

/// Whether a write that fits is whole, though few bytes are taken at a time, and those that don't
/// fit fail; with no room at all no file gets another name.
fn writes_what_fits(rt: &HostRuntime, old: &FileName, new: &FileName, fits: &[u8]) -> bool {
    let failed = Err(FileFault::Failed);
    let long = b"twenty-one bytes here";
    writes_on_disk(rt, 20, old, fits, Ok(()))
        && writes_on_disk(rt, 20, old, long, failed)
        && writes_on_disk(rt, 20, new, long, failed)
        && writes_on_disk(rt, 0, old, b"", failed)
}

#[test]
fn a_failed_write_leaves_the_old_file(rt: HostRuntime) -> Result<(), Fail> {
    let folder = folder_for(&rt, "full")?;
    let old = file_in(rt.alloc(), folder.as_str(), "old")?;
    let new = file_in(rt.alloc(), folder.as_str(), "new")?;
    let fits = b"twenty bytes at most";
    assert!(rt; writes_what_fits(&rt, &old, &new, fits));
    assert!(rt; reads(rt.alloc(), &mut RealFiles::new(&rt), &old, 99, Ok(fits)));
    // The folder has no other file.
    take_away(&rt, folder.as_str(), &old)
}

/// Makes a file, and a link to it.
fn make_link(rt: &HostRuntime, file: &FileName, link: &FileName) -> Result<(), Fail> {
    fs::write(rt, file.as_str(), b"longer")?;
    symlink(rt, file.as_str(), link.as_str())?;
    Ok(())
}

/// Takes a link away, and tells whether it was one.
fn take_link_away(rt: &HostRuntime, link: &FileName) -> Result<bool, Fail> {
    let is_link = fs::symlink_metadata(rt, link.as_str())?.is_symlink();
    fs::remove_file(rt, link.as_str())?;
    Ok(is_link)
}

#[test]
fn devices_and_links_are_written_directly(rt: HostRuntime) -> Result<(), Fail> {
    let folder = folder_for(&rt, "links")?;
    let file = file_in(rt.alloc(), folder.as_str(), "file")?;
    let link = file_in(rt.alloc(), folder.as_str(), "link")?;
    make_link(&rt, &file, &link)?;
    assert!(rt; writes(&mut RealFiles::new(&rt), &link, b"abc", Ok(())));
    assert!(rt; reads(rt.alloc(), &mut RealFiles::new(&rt), &file, 99, Ok(b"abc")));
    assert!(rt; take_link_away(&rt, &link)?);
    take_away(&rt, folder.as_str(), &file)
}

#[test]
fn a_full_device_is_written_directly(rt: HostRuntime) -> Result<(), Fail> {
    let full = file_name(rt.alloc(), "/dev/full")?;
    let failed = Err(FileFault::Failed);
    assert!(rt; writes(&mut RealFiles::new(&rt), &full, b"abc", failed));
    Ok(())
}
