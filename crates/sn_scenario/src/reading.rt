//! Tokens, read as numbers, names, files, classes and links.
ghost use Rattle.sn_scenario.specs.Leaves.{arg_of, class_of, filed, is_file, link_of, named, number_in, numbered, worker_in};
ghost use Rattle.sn_scenario.specs.Results.{Gives, needed};
ghost use Rattle.sn_scenario.specs.declared.why.Why.TheVariants as fault;
ghost use Rattle.sn_config.specs.ArgText.{is_file_byte};
ghost use Rattle.std.specs.List.{list_all};
ghost use Rattle.std.specs.Option.{option_copied};
ghost use Rattle.std.specs.Prelude.{IfSome, ◌≡◌, ◌≤◌};

use crate::Why;
use crate::fault::LineFault;
use sn_config::{ConfigFault, read_arg};
use sn_names::{Arg, Class, FileName, LinkSpec, MAX_FILE_NAME, Name, NameFault, decimal};
use std::alloc::Global;

/// The number that a token writes within these bounds.
#[tactic(auto, using(crate::proofs::TokenReadings::numbers))]
pub(crate) fn number_in(token: &[u8], low: u64, high: u64) -> Option<u64>
    ensures exact { result ≡ number_in low high token.now }
    ensures within { IfSome result (λ n. n ≤ high) }
{
    let Some(number) = decimal(token, high) else {
        return None;
    };
    if number < low {
        return None;
    }
    Some(number)
}

/// The number that a token writes within these bounds.
pub(crate) fn number_of(token: &[u8], low: u32, high: u32) -> Result<u32, LineFault>
    ensures { Gives (λ n. n) result (numbered low high token.now) }
{
    match number_in(token, u64::from(low), u64::from(high)) {
        Some(number) => Ok(number as u32),
        None => Err(LineFault::Bad(Why::Number)),
    }
}

/// The worker below the number of workers that a token writes.
pub(crate) fn worker_of(token: &[u8], workers: u32) -> Result<u32, LineFault>
    ensures { Gives (λ n. n) result (worker_in workers token.now) }
{
    match number_in(token, 0, u64::from(workers.saturating_sub(1))) {
        Some(worker) => Ok(worker as u32),
        None => Err(LineFault::Bad(Why::Worker)),
    }
}

/// The name that a token is.
#[tactic(auto, using(crate::proofs::TokenReadings::names))]
pub(crate) fn name_of(alloc: Global, token: &[u8]) -> Result<Name, LineFault>
    ensures { Gives (λ n. n) result (named token.now) }
{
    match Name::parse(alloc, token) {
        Ok(name) => Ok(name),
        Err(NameFault::At(_)) => Err(LineFault::Bad(Why::Name)),
        Err(NameFault::OutOfMemory) => Err(LineFault::OutOfMemory),
    }
}

/// The file's name that a token is.
#[tactic(auto, using(crate::proofs::TokenReadings::files))]
pub(crate) fn file_of(alloc: Global, token: &[u8]) -> Result<FileName, LineFault>
    ensures { Gives (λ n. n) result (filed token.now) }
{
    if !is_file(token) {
        return Err(LineFault::Bad(Why::FileBad));
    }
    match FileName::of(alloc, token) {
        Ok(name) => Ok(name),
        Err(_) => Err(LineFault::OutOfMemory),
    }
}

/// Whether a token is a file's name.
#[tactic(auto, unfolding(crate::specs::Leaves::is_file))]
fn is_file(token: &[u8]) -> bool
    ensures { result ≡ is_file token.now }
{
    1 <= token.len() && token.len() <= MAX_FILE_NAME && are_file_bytes(token)
}

/// Whether each byte is visible ASCII.
fn are_file_bytes(token: &[u8]) -> bool
    ensures { result ≡ list_all is_file_byte token.now }
{
    token.iter().all(|byte| may_name_file(*byte))
}

/// A visible ASCII byte.
fn may_name_file(byte: u8) -> bool
    ensures { result ≡ is_file_byte byte }
{
    33 <= byte && byte <= 126
}

/// The class of this word.
#[tactic(auto, using(crate::proofs::TokenReadings::classes))]
pub(crate) fn class_of(token: &[u8]) -> Result<Class, LineFault>
    ensures { Gives (λ c. c) result (needed fault.Class (class_of token.now)) }
{
    match Class::of(token) {
        Some(class) => Ok(class),
        None => Err(LineFault::Bad(Why::Class)),
    }
}

/// The argument that a class takes of what is written behind it, if anything is.
#[tactic(auto, using(crate::proofs::TokenReadings::arguments))]
pub(crate) fn arg_of(alloc: Global, class: Class, text: Option<&[u8]>) -> Result<Arg, LineFault>
    ensures { Gives (λ a. a) result (needed fault.Arg (arg_of class (option_copied text.entry))) }
{
    match read_arg(alloc, class, text) {
        Ok(arg) => Ok(arg),
        Err(ConfigFault::OutOfMemory) => Err(LineFault::OutOfMemory),
        Err(_) => Err(LineFault::Bad(Why::Arg)),
    }
}

/// The link that a text spells.
#[tactic(auto, using(crate::proofs::TokenRuns::link_found))]
pub(crate) fn link_of(alloc: Global, text: &[u8]) -> Result<LinkSpec, LineFault>
    ensures { Gives (λ l. l) result (needed fault.Link (link_of text.now)) }
{
    match LinkSpec::parse(alloc, text) {
        Ok(link) => Ok(link),
        Err(NameFault::At(_)) => Err(LineFault::Bad(Why::Link)),
        Err(NameFault::OutOfMemory) => Err(LineFault::OutOfMemory),
    }
}
