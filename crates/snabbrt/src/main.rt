//! The program `snabbrt`: it hands the system's files and standard output to the top call, and ends
//! with the number of its status.
#![tactic(auto)]

ghost use Rattle.sn_run.specs.Commands.{texts};
ghost use Rattle.sn_run.specs.Exit.{ExitsWith, exit_number};
ghost use Rattle.sn_run.specs.Printed.{sunk};
ghost use Rattle.sn_run.specs.Seen.{seen};
ghost use Rattle.std.specs.Process.{exit_status};
ghost use Rattle.std.specs.Prelude.{◌≡◌};

use sn_outside::{Files, Gate, NoGate, RealFiles, Sink, StdOut};
use sn_run::{Status, snabb_main};
use std::alloc::Global;
use std::io::ErrorKind;
use std::process::ExitCode;
use std::thread::Threads;
use std::{env, io};

/// The words after the program's name.
///
/// # Errors
/// A word that isn't UTF-8, or want of memory.
fn words_of(rt: &HostRuntime) -> io::Result<Vec<String>> {
    let mut words = Vec::new(rt.alloc());
    for word in env::args(rt)?.skip(1) {
        words.push(word)?;
    }
    Ok(words)
}

/// The exit code of a status.
fn exit_code(status: &Status) -> ExitCode
    ensures { exit_status result ≡ exit_number status.now }
{
    ExitCode::from(status.number())
}

/// Runs a command over these files and this sink, and answers the exit code of how it ended.
fn run_words<R: Threads + Sync, F: Files, O: Sink, G: Gate>(
    rt: &R,
    alloc: Global,
    words: &[String],
    files: &mut F,
    out: &mut O,
    gate: &G,
) -> ExitCode
    ensures { ExitsWith
        (seen F.tells (F.state files.old) (F.state files.new))
        (sunk O.tells (O.state out.old) (O.state out.new))
        (texts words.now)
        (exit_status result) }
{
    let ended = snabb_main(rt, alloc, words, files, out, gate);
    exit_code(&ended.status)
}

fn main(rt: HostRuntime) -> ExitCode {
    let words = match words_of(&rt) {
        Ok(words) => words,
        Err(e) if e.kind() == ErrorKind::OutOfMemory => return exit_code(&Status::OutOfMemory),
        // A word that isn't UTF-8 belongs to no command, as no words do.
        Err(_) => Vec::new(rt.alloc()),
    };
    let mut files = RealFiles::new(&rt);
    let mut out = StdOut::new(&rt);
    run_words(&rt, rt.alloc(), &words, &mut files, &mut out, &NoGate)
}
