//! Files in memory, for tests: they tell what they hold and which calls were made, and fail at
//! chosen calls.
ghost use Rattle.sn_outside.specs.Appended.{Appends};
ghost use Rattle.sn_outside.specs.Contents.{contents_of};
ghost use Rattle.sn_outside.specs.Counts.{HasCause};
ghost use Rattle.sn_outside.specs.Memory.{FailsIf, FailsNext, IsMissing};
ghost use Rattle.sn_outside.specs.Told.{GainedFile, ToldRead, ToldWrite};
ghost use Rattle.sn_outside.specs.declared.fault.FileFault.TheVariants.{TooLong};
ghost use Rattle.std.specs.FinMap as map;
ghost use Rattle.std.specs.Prelude.{ℕ, Bool, List, [], ◌∷◌, ◌++◌, true, Ok, Err, None, Some, Contains, IsTrue, IsOk, IsNone, OnOk, OnErr, length, map as each, option_map, vec_len, vec_capacity, ◌+◌, ◌≡◌, ◌<◌, ◌⊎◌, ◌↔◌};

use crate::{CallKind, FileCall, FileFault, Files};
use sn_names::FileName;
use std::alloc::Global;
use std::marker::Model;

/// Files in memory. Calls are numbered from 1, and one that is refused for want of memory has no
/// number.
#[derive(Drop)]
pub struct MemFiles {
    alloc: Global,
    files: Vec<(FileName, Vec<u8>)>,
    calls: Vec<FileCall>,
    failing: Vec<u64>,
    faults: u64,
}

impl Model for MemFiles {
    ghost use Rattle.sn_outside.specs.Memory.{MemFilesView};
    ghost use Rattle.sn_outside.specs.Contents.{contents_code, contents_of};
    ghost use Rattle.sn_outside.specs.contracts.files.FileCall as call;
    ghost use Rattle.std.specs.Coded.{codes};
    ghost use Rattle.std.specs.Prelude.{map as each};

    ghost Value = { MemFilesView };

    ghost coded = { Prim.hlevel (codes, contents_code, call.the_row.coded) };

    ghost view = { λ m. record {
      state = record {
        contents = contents_of (each (λ f. (f.0, f.1.items)) m.files.items);
        calls = m.calls.items;
        faults = m.faults;
      };
      failing = m.failing.items;
    } };
}

impl MemFiles {
    /// These files, of which the first of a name stands. The calls whose numbers are in `failing`
    /// will fail.
    pub fn new(alloc: Global, files: Vec<(FileName, Vec<u8>)>, failing: Vec<u64>) -> MemFiles
        ensures { result ≡ record {
          state = record {
            contents = contents_of (each (λ f. (f.0, f.1.items)) files.items);
            calls = [];
            faults = 0;
          };
          failing = failing.items;
        } }
    {
        MemFiles {
            alloc,
            files,
            calls: Vec::new(alloc),
            failing,
            faults: 0,
        }
    }

    /// The content of a file, or None where there is none of this name.
    pub fn bytes(&self, name: &FileName) -> Option<&[u8]>
        ensures { option_map (λ found. found.now) result ≡ map.get self.now.state.contents name.now }
    {
        look_up(&self.files, name)
    }

    /// The calls made so far, the oldest first.
    pub fn calls(&self) -> &[FileCall]
        ensures { result.now ≡ self.now.state.calls }
    {
        &self.calls
    }
}

/// The content of the first file of this name.
fn look_up<'a>(files: &'a [(FileName, Vec<u8>)], name: &FileName) -> Option<&'a [u8]>
    ensures { option_map (λ found. found.now) result ≡ map.get (contents_of (each (λ f. (f.0, f.1.items)) files.now)) name.now }
{
    for (held, bytes) in files {
        if is_named(held, name) {
            return Some(bytes);
        }
    }
    None
}

/// Whether the two names are the same.
fn is_named(held: &FileName, name: &FileName) -> bool
    ensures { IsTrue result ↔ (held.now ≡ name.now) }
{
    held == name
}

/// Whether the call after these is to fail.
fn fails_next(failing: &[u64], calls: &[FileCall]) -> bool
    ensures { IsTrue result ↔ Contains failing.now (length calls.now + 1) }
{
    let number = calls.len() as u64 + 1;
    failing.contains(&number)
}

/// Adds a call to the list, which has room for it.
fn note(calls: &mut Vec<FileCall>, kind: CallKind, name: FileName, answer: Result<(), FileFault>)
    requires { vec_len calls.old < vec_capacity calls.old }
    ensures { calls.new.items ≡ calls.old.items ++ record { kind = kind; name = name; answer = answer } ∷ [] }
{
    let call = FileCall { kind, name, answer };
    if calls.push(call).is_err() {
        unreachable!()
    }
}

/// Puts a file in front of all others, for which there is room.
fn keep(files: &mut Vec<(FileName, Vec<u8>)>, name: FileName, bytes: Vec<u8>)
    requires { vec_len files.old < vec_capacity files.old }
    ensures { files.new.items ≡ (name, bytes) ∷ files.old.items }
{
    if files.insert(0, (name, bytes)).is_err() {
        unreachable!()
    }
}

impl Files for MemFiles {
    ghost tells = { true };

    ghost state = { λ m. m.state };

    /// As for all files; it fails where the call's number is one of those that fail, and where
    /// there is no file of this name.
    fn read(&mut self, name: &FileName, limit: u64, into: &mut Vec<u8>) -> Result<(), FileFault>
        ensures cause { HasCause self.old.state self.new.state result }
        ensures appends { OnOk result (Appends into.old.items into.new.items limit) }
        ensures refused { OnErr result (into.new.items ≡ into.old.items) }
        ensures found { true ≡ true → OnOk result (GainedFile self.old.state name.now into.old.items into.new.items) }
        ensures told { true ≡ true → ToldRead self.old.state self.new.state name.now limit result }
        ensures fails { FailsIf (FailsNext self.old ⊎ IsMissing self.old name.now) result }
        ensures failing { self.new.failing ≡ self.old.failing }
    {
        let asked = name.copy(self.alloc)?;
        let fails = fails_next(&self.failing, &self.calls);
        self.calls.reserve(1)?;
        if fails {
            self.faults = self.faults.saturating_add(1);
            note(
                &mut self.calls,
                CallKind::Read,
                asked,
                Err(FileFault::Failed),
            );
            return Err(FileFault::Failed);
        }
        let Some(bytes) = look_up(&self.files, name) else {
            self.faults = self.faults.saturating_add(1);
            note(
                &mut self.calls,
                CallKind::Read,
                asked,
                Err(FileFault::Failed),
            );
            return Err(FileFault::Failed);
        };
        if bytes.len() as u64 > limit {
            note(
                &mut self.calls,
                CallKind::Read,
                asked,
                Err(FileFault::TooLong),
            );
            return Err(FileFault::TooLong);
        }
        into.extend_from_slice(bytes)?;
        note(&mut self.calls, CallKind::Read, asked, Ok(()));
        Ok(())
    }

    /// As for all files; it fails exactly where the call's number is one of those that fail, and
    /// the file is then as it was.
    fn write(&mut self, name: &FileName, bytes: &[u8]) -> Result<(), FileFault>
        ensures cause { HasCause self.old.state self.new.state result }
        ensures never_long { result ≡ Err TooLong → ⊥ }
        ensures told { true ≡ true → ToldWrite self.old.state self.new.state name.now bytes.now result }
        ensures fails { FailsIf (FailsNext self.old) result }
        ensures kept { OnErr result (self.new.state.contents ≡ self.old.state.contents) }
        ensures failing { self.new.failing ≡ self.old.failing }
    {
        let asked = name.copy(self.alloc)?;
        let held = name.copy(self.alloc)?;
        let content = Vec::from_slice(self.alloc, bytes)?;
        let fails = fails_next(&self.failing, &self.calls);
        self.calls.reserve(1)?;
        self.files.reserve(1)?;
        if fails {
            self.faults = self.faults.saturating_add(1);
            note(
                &mut self.calls,
                CallKind::Write,
                asked,
                Err(FileFault::Failed),
            );
            return Err(FileFault::Failed);
        }
        keep(&mut self.files, held, content);
        note(&mut self.calls, CallKind::Write, asked, Ok(()));
        Ok(())
    }
}
