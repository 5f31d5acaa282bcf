//! The apps of a configuration.
ghost use Rattle.sn_config.specs.Configs.{has_app};
ghost use Rattle.sn_scenario.specs.AppLines.{app_added, app_line, app_taken, end_and_file};
ghost use Rattle.sn_scenario.specs.Cutting.{tokens};
ghost use Rattle.sn_scenario.specs.FileView.{files_form};
ghost use Rattle.sn_scenario.specs.Leaves.{arg_of};
ghost use Rattle.sn_scenario.specs.Results.{Gives, Leaves};
ghost use Rattle.std.specs.Option.{option_copied};
ghost use Rattle.std.specs.Prelude.{Some, false, ◌≡◌};

use crate::ends::end_fault;
use crate::fault::LineFault;
use crate::files::{Files, add_file, file_fault, files_full};
use crate::placed::Placed;
use crate::reading::{arg_of, class_of, name_of};
use crate::shape::app_tokens;
use crate::{Lane, Why};
use sn_config::{Config, ConfigFault};
use sn_names::{Arg, Class, FileName, Name};
use std::alloc::Global;

/// Whether an app of this name is there.
fn has_app(config: &Config, name: &Name) -> bool
    ensures { result ≡ has_app config.now name.now }
{
    config.apps().contains_key(name)
}

/// The checks of an app's end and of its file.
#[tactic(auto, unfolding(crate::specs::AppLines::end_and_file))]
fn end_and_file(
    journal: &Option<FileName>,
    lanes: &[Lane],
    files: &Files,
    placed: &Placed,
    class: Class,
    arg: &Arg,
) -> Result<(), LineFault>
    ensures { Gives (λ u. u) result (end_and_file journal.now lanes.now (files_form files.now) placed.now class arg.now) }
{
    if end_fault(lanes, placed.worker, &placed.config, class, arg) {
        return Err(LineFault::Bad(Why::End));
    }
    if file_fault(journal, files, placed.worker, &placed.config, class, arg) {
        return Err(LineFault::Bad(Why::FileUse));
    }
    if files_full(files, class, arg) {
        return Err(LineFault::Bad(Why::TooMany));
    }
    Ok(())
}

/// Adds an app that isn't there, with an argument that was read from this text.
#[tactic(auto, using(crate::proofs::AppAddition::added))]
fn add_app(
    config: &mut Config,
    name: Name,
    class: Class,
    text: Option<&[u8]>,
    arg: &Arg,
) -> Result<(), LineFault>
    requires absent { has_app config.old name ≡ false }
    requires taken { arg_of class (option_copied text) ≡ Some arg.now }
    ensures { Leaves config.new result (app_added config.old name class arg.now) }
{
    match config.add_app(name, class, text) {
        Ok(()) => Ok(()),
        Err(ConfigFault::OutOfMemory) => Err(LineFault::OutOfMemory),
        Err(ConfigFault::TooMany) => Err(LineFault::Bad(Why::TooMany)),
        Err(ConfigFault::Twice) => Err(LineFault::Bad(Why::Twice)),
        Err(ConfigFault::BadArg) => Err(LineFault::Bad(Why::Arg)),
        Err(ConfigFault::NoSuchApp) => Err(LineFault::Bad(Why::NoApp)),
        Err(ConfigFault::PortTaken) => Err(LineFault::Bad(Why::PortTaken)),
    }
}

/// Takes an app that isn't there, with an argument that was read from this text.
#[tactic(auto, unfolding(crate::specs::AppLines::app_taken))]
fn take_app(
    alloc: Global,
    journal: &Option<FileName>,
    lanes: &[Lane],
    files: &mut Files,
    placed: &mut Placed,
    name: Name,
    class: Class,
    text: Option<&[u8]>,
    arg: &Arg,
) -> Result<(), LineFault>
    requires absent { has_app placed.old.config name ≡ false }
    requires taken { arg_of class (option_copied text) ≡ Some arg.now }
    ensures { Leaves (placed.new, files_form files.new) result
        (app_taken journal.now lanes.now (files_form files.old) placed.old name class arg.now) }
{
    end_and_file(journal, lanes, files, placed, class, arg)?;
    add_app(&mut placed.config, name, class, text, arg)?;
    add_file(alloc, files, placed.worker, class, arg)?;
    Ok(())
}

/// Reads an app's line after its first token.
#[tactic(auto, using(crate::proofs::AppAddition::needs), unfolding(crate::specs::AppLines::app_line))]
pub(crate) fn app_line(
    alloc: Global,
    journal: &Option<FileName>,
    lanes: &[Lane],
    files: &mut Files,
    placed: &mut Placed,
    text: &[u8],
) -> Result<(), LineFault>
    ensures { Leaves (placed.new, files_form files.new) result
        (app_line journal.now lanes.now (files_form files.old) placed.old (tokens text.now)) }
{
    let words = app_tokens(text)?;
    let name = name_of(alloc, words.name)?;
    if has_app(&placed.config, &name) {
        return Err(LineFault::Bad(Why::Twice));
    }
    let class = class_of(words.class)?;
    let arg = arg_of(alloc, class, words.arg)?;
    take_app(
        alloc, journal, lanes, files, placed, name, class, words.arg, &arg,
    )
}
