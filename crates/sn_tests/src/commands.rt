//! A command over files in memory, and what is expected of it.
use crate::names::file_name;
use sn_names::FileName;
use sn_outside::{Gate, MemFiles, MemSink, NoGate};
use sn_run::{Ended, snabb_main};
use std::alloc::{AllocError, Global};
use std::process::Abort;
use std::test::Fail;
use std::thread::Threads;

/// The header of a written capture.
const HEADER: [u8; 24] = [
    0xd4, 0xc3, 0xb2, 0xa1, 2, 0, 4, 0, 0, 0, 0, 0, 0, 0, 0, 0, 0xff, 0xff, 0, 0, 1, 0, 0, 0,
];

/// The most bytes of a record here: one more than those of the longest that is written.
const LONGEST: u32 = 10_241;

/// So many bytes, of which neighbours differ.
fn payload(alloc: Global) -> Result<Vec<u8>, AllocError> {
    let mut bytes = Vec::new(alloc);
    for j in 0..LONGEST {
        bytes.push((j % 251) as u8)?;
    }
    Ok(bytes)
}

/// A capture of records of these lengths.
pub fn capture(alloc: Global, lengths: &[u32]) -> Result<Vec<u8>, AllocError> {
    let longest = payload(alloc)?;
    let mut bytes = Vec::from_slice(alloc, &HEADER)?;
    for len in lengths {
        bytes.extend_from_slice(&[0; 8])?;
        bytes.extend_from_slice(&len.to_le_bytes())?;
        bytes.extend_from_slice(&len.to_le_bytes())?;
        let record = longest.get(..*len as usize).unwrap_or(&longest);
        bytes.extend_from_slice(record)?;
    }
    Ok(bytes)
}

/// The scenario that copies `in.pcap` into `out.pcap` in one round of so many breaths.
pub fn scenario(alloc: Global, breaths: u32) -> Result<String, AllocError> {
    format!(in alloc;
        "scenario 1\nbreaths {breaths}\nrounds 1\nconfig 0 0\napp r PcapReader in.pcap\napp w PcapWriter out.pcap\nlink r.output -> w.input\nend\n"
    )
}

/// What is expected: the exit status, that of the answer which a print fault replaced, what the
/// sink took, what `out.pcap` holds, the bytes of the report's one file with how much is left, and
/// how many calls on files there were.
#[derive(Clone, Copy)]
pub struct Want<'a> {
    pub number: u8,
    pub replaced: Option<u8>,
    pub text: &'a str,
    pub written: Option<&'a [u8]>,
    pub report: Option<(&'a [u8], u64)>,
    pub calls: usize,
}

/// The words of a command.
fn words_of(alloc: Global, texts: &[&str]) -> Result<Vec<String>, AllocError> {
    let mut words = Vec::new(alloc);
    for text in texts {
        words.push(String::from_str(alloc, text)?)?;
    }
    Ok(words)
}

/// Files in memory: a scenario's under this name, and `in.pcap` where there is a capture. The calls
/// of these numbers fail.
pub fn files_of(
    alloc: Global,
    name: &str,
    scenario: &[u8],
    input: Option<&[u8]>,
    failing: &[u64],
) -> Result<MemFiles, Fail> {
    let mut held = Vec::new(alloc);
    let text = Vec::from_slice(alloc, scenario)?;
    held.push((file_name(alloc, name)?, text))?;
    if let Some(bytes) = input {
        let records = Vec::from_slice(alloc, bytes)?;
        held.push((file_name(alloc, "in.pcap")?, records))?;
    }
    let failing = Vec::from_slice(alloc, failing)?;
    Ok(MemFiles::new(alloc, held, failing))
}

/// No files.
pub fn no_files(alloc: Global) -> MemFiles {
    MemFiles::new(alloc, Vec::new(alloc), Vec::new(alloc))
}

/// A sink that takes seven bytes at a time. The calls of these numbers fail.
fn sink_of(alloc: Global, failing: &[u64]) -> Result<MemSink, AllocError> {
    MemSink::new(alloc, 7, 1000, Vec::from_slice(alloc, failing)?)
}

/// The exit status of the answer that a print fault replaced.
fn replaced_number(ended: &Ended) -> Option<u8> {
    match &ended.replaced {
        Some(status) => Some(status.number()),
        None => None,
    }
}

/// Whether the report of a call is the one that is expected.
fn is_reported(ended: &Ended, want: Option<(&[u8], u64)>) -> bool {
    match (&ended.report, want) {
        (None, None) => true,
        (Some(report), Some((bytes, left))) => {
            report.files.len() == 1
                && report.files[0].bytes.as_slice() == bytes
                && report.left == left
        }
        _ => false,
    }
}

/// Runs a command over these files and this sink.
fn call<R: Threads + Sync>(
    rt: &R,
    alloc: Global,
    words: &[String],
    files: &mut MemFiles,
    out: &mut MemSink,
) -> Ended {
    snabb_main(rt, alloc, words, files, out, &NoGate)
}

/// Runs the scenario that the file `s` of these files holds, and answers how that ended, and the sink that took what was printed.
pub fn run<R: Threads + Sync + AllocGlobal>(
    rt: &R,
    files: &mut MemFiles,
) -> Result<(Ended, MemSink), Fail> {
    let alloc = rt.alloc();
    let words = words_of(alloc, &["run", "s"])?;
    let mut out = sink_of(alloc, &[])?;
    let ended = call(rt, alloc, &words, files, &mut out);
    Ok((ended, out))
}

/// The same with a gate before the workers' steps; what was printed is let go.
pub fn run_with<R: Threads + Sync + AllocGlobal, G: Gate>(
    rt: &R,
    files: &mut MemFiles,
    gate: &G,
) -> Result<Ended, Fail> {
    let alloc = rt.alloc();
    let words = words_of(alloc, &["run", "s"])?;
    let mut out = sink_of(alloc, &[])?;
    Ok(snabb_main(rt, alloc, &words, files, &mut out, gate))
}

/// Compares how a command ended with what is expected.
fn expect_ended<R: Abort>(rt: &R, ended: &Ended, want: &Want) {
    assert_eq!(rt; ended.status.number(), want.number);
    assert_eq!(rt; replaced_number(ended), want.replaced);
    assert!(rt; is_reported(ended, want.report));
}

/// Compares what files and sink tell with what is expected.
fn expect_told<R: Abort>(rt: &R, output: &FileName, files: &MemFiles, out: &MemSink, want: &Want) {
    assert_eq!(rt; out.taken(), want.text.as_bytes());
    assert_eq!(rt; files.calls().len(), want.calls);
    assert!(rt; files.bytes(output) == want.written);
}

/// Runs a command over files, and a sink whose calls of these numbers fail, and compares what comes
/// of it with what is expected.
pub fn expect<R: Threads + Sync + Abort + AllocGlobal>(
    rt: &R,
    words: &[&str],
    files: MemFiles,
    sink_fails: &[u64],
    want: &Want,
) -> Result<(), Fail> {
    let alloc = rt.alloc();
    let output = file_name(alloc, "out.pcap")?;
    let words = words_of(alloc, words)?;
    let mut out = sink_of(alloc, sink_fails)?;
    let mut files = files;
    let ended = call(rt, alloc, &words, &mut files, &mut out);
    expect_ended(rt, &ended, want);
    expect_told(rt, &output, &files, &out, want);
    Ok(())
}
