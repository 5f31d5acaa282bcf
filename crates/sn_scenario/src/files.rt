//! What the files of a scenario are used for.
ghost use Rattle.sn_names.specs.LinkOrder.{name_cmp};
ghost use Rattle.sn_scenario.specs.FileUses.{captures_full, file_fault, file_named, files_full, has_writer, is_capture, is_named, is_writer, output_of, outputs_full, reader_fault, with_file, writer_fault, is_others};
ghost use Rattle.sn_scenario.specs.FileView.{files_form};
ghost use Rattle.std.specs.BTreeMap.{insert_entry};
ghost use Rattle.std.specs.BTreeSet.{insert_key};
ghost use Rattle.std.specs.Option.{option_copied};
ghost use Rattle.std.specs.Prelude.{OnOk, is_some, ◌≡◌};

use sn_config::{AppSpec, Config};
use sn_names::{Arg, Class, FileName};
use std::alloc::{AllocError, Global};
use std::collections::{BTreeMap, BTreeSet};

/// The most captures: a bound that the format sets.
const MOST_CAPTURES: usize = 16;
/// The most outputs: a bound that the format sets.
const MOST_OUTPUTS: usize = 16;

/// The captures, and the outputs with the worker of each.
#[derive(Drop)]
pub(crate) struct Files {
    pub(crate) captures: BTreeSet<FileName>,
    pub(crate) outputs: BTreeMap<FileName, u32>,
}

/// Whether what is named is this.
fn is_named(named: &Option<FileName>, name: &FileName) -> bool
    ensures { result ≡ is_named named.now name.now }
{
    match named {
        Some(other) => *other == *name,
        None => false,
    }
}

/// Whether an argument names this file.
fn is_file(arg: &Arg, name: &FileName) -> bool
    ensures { result ≡ is_named (file_named arg.now) name.now }
{
    match arg {
        Arg::File(other) => *other == *name,
        _ => false,
    }
}

/// Whether a class writes files.
fn is_writer(class: Class) -> bool
    ensures { result ≡ is_writer class }
{
    match class {
        Class::PcapWriter => true,
        _ => false,
    }
}

/// Whether an app of the configuration writes this file.
fn has_writer(apps: &BTreeMap<sn_names::Name, AppSpec>, name: &FileName) -> bool
    ensures { result ≡ has_writer apps.now.entries name.now }
{
    apps.iter()
        .any(|app| is_writer(app.1.class) && is_file(&app.1.arg, name))
}

/// Whether a file is a capture.
fn is_capture(files: &Files, name: &FileName) -> bool
    ensures { result ≡ is_capture (files_form files.now) name.now }
{
    files.captures.contains(name)
}

/// Whether a file is an output.
fn is_output(files: &Files, name: &FileName) -> bool
    ensures { result ≡ is_some (output_of (files_form files.now) name.now) }
{
    files.outputs.contains_key(name)
}

/// Whether a file is an output of another worker.
fn is_others(files: &Files, worker: u32, name: &FileName) -> bool
    ensures { result ≡ is_others (output_of (files_form files.now) name.now) worker }
{
    match files.outputs.get(name) {
        Some(other) => *other != worker,
        None => false,
    }
}

/// Whether a reader can't read this file.
fn reader_fault(journal: &Option<FileName>, files: &Files, arg: &Arg) -> bool
    ensures { result ≡ reader_fault journal.now (files_form files.now) (file_named arg.now) }
{
    match arg {
        Arg::File(name) => is_named(journal, name) || is_output(files, name),
        _ => false,
    }
}

/// Whether a writer can't write this file.
fn writer_fault(
    journal: &Option<FileName>,
    files: &Files,
    worker: u32,
    config: &Config,
    arg: &Arg,
) -> bool
    ensures { result ≡ writer_fault journal.now worker config.now.apps (files_form files.now) (file_named arg.now) }
{
    match arg {
        Arg::File(name) => {
            is_named(journal, name)
                || is_capture(files, name)
                || is_others(files, worker, name)
                || has_writer(config.apps(), name)
        }
        _ => false,
    }
}

/// Whether the file of an app has another use.
pub(crate) fn file_fault(
    journal: &Option<FileName>,
    files: &Files,
    worker: u32,
    config: &Config,
    class: Class,
    arg: &Arg,
) -> bool
    ensures { result ≡ file_fault journal.now worker config.now.apps (files_form files.now) class arg.now }
{
    match class {
        Class::PcapReader => reader_fault(journal, files, arg),
        Class::PcapWriter => writer_fault(journal, files, worker, config, arg),
        _ => false,
    }
}

/// Whether a capture is one too many.
fn captures_full(files: &Files, arg: &Arg) -> bool
    ensures { result ≡ captures_full (files_form files.now) (file_named arg.now) }
{
    match arg {
        Arg::File(name) => !is_capture(files, name) && files.captures.len() >= MOST_CAPTURES,
        _ => false,
    }
}

/// Whether an output is one too many.
fn outputs_full(files: &Files, arg: &Arg) -> bool
    ensures { result ≡ outputs_full (files_form files.now) (file_named arg.now) }
{
    match arg {
        Arg::File(name) => !is_output(files, name) && files.outputs.len() >= MOST_OUTPUTS,
        _ => false,
    }
}

/// Whether the file of an app is one too many.
pub(crate) fn files_full(files: &Files, class: Class, arg: &Arg) -> bool
    ensures { result ≡ files_full (files_form files.now) class arg.now }
{
    match class {
        Class::PcapReader => captures_full(files, arg),
        Class::PcapWriter => outputs_full(files, arg),
        _ => false,
    }
}

/// Puts a file among the captures.
fn put_capture(captures: &mut BTreeSet<FileName>, name: FileName) -> Result<(), AllocError>
    ensures { OnOk result (captures.new.keys ≡ insert_key name_cmp captures.old.keys name) }
{
    captures.insert(name)?;
    Ok(())
}

/// Puts a file among the outputs.
fn put_output(
    outputs: &mut BTreeMap<FileName, u32>,
    name: FileName,
    worker: u32,
) -> Result<(), AllocError>
    ensures { OnOk result (outputs.new.entries ≡ insert_entry name_cmp outputs.old.entries name worker) }
{
    outputs.insert(name, worker)?;
    Ok(())
}

/// Adds the file of an app.
pub(crate) fn add_file(
    alloc: Global,
    files: &mut Files,
    worker: u32,
    class: Class,
    arg: &Arg,
) -> Result<(), AllocError>
    ensures { OnOk result (files_form files.new ≡ with_file (files_form files.old) worker class arg.now) }
{
    let Arg::File(name) = arg else {
        return Ok(());
    };
    match class {
        Class::PcapReader => put_capture(&mut files.captures, name.copy(alloc)?),
        Class::PcapWriter => put_output(&mut files.outputs, name.copy(alloc)?, worker),
        _ => Ok(()),
    }
}
