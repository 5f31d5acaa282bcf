//! What a run reports of what its workers leave.
ghost use Rattle.sn_run.specs.Replay.{first_of, first_started, kept_at, kept_from, over, started, together};
ghost use Rattle.sn_run.specs.Reported.{WrittenFile};
ghost use Rattle.std.specs.Prelude.{List, ℕ, IfOk, OnOk, [], ◌∷◌, ◌++◌, ◌≡◌, ◌<◌, ◌^◌, length, map};

use crate::{Kept, OutFile};
use sn_app::{Output, no_files};
use sn_names::FileName;
use std::alloc::{AllocError, Global};
use std::collections::VecDeque;

/// Adds a file of this name, where it was started.
fn push_started(
    alloc: Global,
    files: &mut Vec<OutFile>,
    name: &FileName,
    output: Output,
) -> Result<(), AllocError>
    ensures { OnOk result (files.new.items ≡ files.old.items ++ started (name.now ∷ []) (output ∷ [])) }
{
    let Some(bytes) = output.into_bytes() else {
        return Ok(());
    };
    let name = name.copy(alloc)?;
    files.push(OutFile { name, bytes })?;
    Ok(())
}

/// The files that were started, of these by their names.
pub(crate) fn out_files(
    alloc: Global,
    names: &[FileName],
    outputs: Vec<Output>,
) -> Result<Vec<OutFile>, AllocError>
    ensures { IfOk result (λ files. files.items ≡ started names.now outputs.items) }
{
    let mut outputs = VecDeque::from_vec(outputs);
    let mut files = Vec::new(alloc);
    for name in names {
        let Some(output) = outputs.pop_front() else {
            return Ok(files);
        };
        push_started(alloc, &mut files, name, output)?;
    }
    Ok(files)
}

/// The file that was started, the first one where both were.
fn first_started(file: Output, other: Output) -> Output
    ensures { result ≡ first_started file other }
{
    if file.bytes().is_some() {
        return file;
    }
    other
}

/// The same, where there is another.
fn over_one(file: Output, other: Option<Output>) -> Output
    ensures { result ≡ first_of file other }
{
    match other {
        Some(other) => first_started(file, other),
        None => file,
    }
}

/// Row by row the file that was started. There are as many rows as of the first.
fn over(alloc: Global, files: Vec<Output>, others: Vec<Output>) -> Result<Vec<Output>, AllocError>
    ensures { IfOk result (λ all. all.items ≡ over files.items others.items) }
{
    let mut files = VecDeque::from_vec(files);
    let mut others = VecDeque::from_vec(others);
    let mut all = Vec::new(alloc);
    while !files.is_empty() {
        let Some(file) = files.pop_front() else {
            unreachable!()
        };
        all.push(over_one(file, others.pop_front()))?;
    }
    Ok(all)
}

/// The files of all workers together, by their rows.
pub(crate) fn together(
    alloc: Global,
    rows: usize,
    files: Vec<Vec<Output>>,
) -> Result<Vec<Output>, AllocError>
    ensures { IfOk result (λ all. all.items ≡ together rows (map (λ v. v.items) files.items)) }
{
    let mut all = no_files(alloc, rows)?;
    let mut files = VecDeque::from_vec(files);
    while !files.is_empty() {
        let Some(others) = files.pop_front() else {
            unreachable!()
        };
        all = over(alloc, all, others)?;
    }
    Ok(all)
}

/// Adds the packets that a worker keeps.
fn push_kept(kept: &mut Vec<Kept>, worker: u32, names: &[(u32, u64)]) -> Result<(), AllocError>
    ensures { OnOk result (kept.new.items ≡ kept.old.items ++ map (kept_at worker) names.now) }
{
    for name in names {
        kept.push(Kept {
            worker,
            number: name.0,
            turn: name.1,
        })?;
    }
    Ok(())
}

/// The packets that workers keep, by the workers' numbers.
pub(crate) fn kept_of(alloc: Global, names: &[Vec<(u32, u64)>]) -> Result<Vec<Kept>, AllocError>
    requires { length names.now < 2 ^ 32 }
    ensures { IfOk result (λ kept. kept.items ≡ kept_from 0 (map (λ v. v.items) names.now)) }
{
    let mut kept = Vec::new(alloc);
    for worker in 0..names.len() {
        push_kept(&mut kept, worker as u32, &names[worker])?;
    }
    Ok(kept)
}
