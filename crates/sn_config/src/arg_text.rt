//! Arguments as they are written behind a class.
ghost use Rattle.sn_config.specs.ArgText.{IsArgFault, IsArgOf, IsByte, IsFile, IsFileText, IsLane, IsNumber, TakesArg, TakesWord, goes_without, is_file_byte};
ghost use Rattle.sn_config.specs.Signs.{is_sign};
ghost use Rattle.sn_names.specs.NameText.{IsName, is_name_byte};
ghost use Rattle.std.specs.List.{list_all, list_any};
ghost use Rattle.std.specs.Option.{option_copied};
ghost use Rattle.std.specs.Prelude.{IfErr, IfNone, IfOk, IfSome, IsTrue, false, true, ◌++◌, ◌↔◌, ◌∷◌, ◌≡◌};

use crate::ConfigFault;
use sn_names::{Arg, Class, FileName, MAX_FILE_NAME, MAX_PAYLOAD, Name, decimal};
use std::alloc::Global;

/// The last place of a byte in a packet, counted from 0.
const LAST_PLACE: u64 = 10_239;
/// The most packets of which a `Sample` passes one: a bound that the format sets.
const MOST_SAMPLED: u64 = 1_000_000;
/// The greatest value of a byte.
const LAST_BYTE: u64 = 255;
/// The most bytes of a name.
const MOST_NAME_BYTES: usize = 64;

/// The argument that a class takes of what is written behind it, if anything is.
///
/// # Errors
/// BadArg exactly where the class takes none of this; else want of memory.
pub fn read_arg(alloc: Global, class: Class, text: Option<&[u8]>) -> Result<Arg, ConfigFault>
    ensures taken { IfOk result (TakesArg class (option_copied text.entry)) }
    ensures form { IfOk result (IsArgOf class) }
    ensures refused { IfErr result (IsArgFault (TakesArg class (option_copied text.entry))) }
{
    match text {
        Some(word) => read_word(alloc, class, word),
        None => no_arg(class),
    }
}

/// The argument of a class behind which nothing is written.
fn no_arg(class: Class) -> Result<Arg, ConfigFault>
    ensures taken { IfOk result (λ arg. (goes_without class ≡ true) × (arg ≡ Arg.Nothing)) }
    ensures refused { IfErr result (IsArgFault (λ arg. (goes_without class ≡ true) × (arg ≡ Arg.Nothing))) }
{
    match class {
        Class::Source | Class::Sink | Class::Tee | Class::Join | Class::Split | Class::Repeater => {
            Ok(Arg::Nothing)
        }
        _ => Err(ConfigFault::BadArg),
    }
}

/// The argument that a class takes of a word.
fn read_word(alloc: Global, class: Class, word: &[u8]) -> Result<Arg, ConfigFault>
    ensures taken { IfOk result (TakesWord class word.now) }
    ensures refused { IfErr result (IsArgFault (TakesWord class word.now)) }
{
    match class {
        Class::Source | Class::Truncate => number_arg(word, 0, u64::from(MAX_PAYLOAD)),
        Class::Sample => number_arg(word, 1, MOST_SAMPLED),
        Class::ByteFilter => byte_arg(word),
        Class::PcapReader | Class::PcapWriter => file_arg(alloc, word),
        Class::Receiver | Class::Transmitter => lane_arg(alloc, word),
        Class::Sink | Class::Tee | Class::Join | Class::Split | Class::Repeater => {
            Err(ConfigFault::BadArg)
        }
    }
}

/// A number within these bounds.
fn number_arg(word: &[u8], low: u64, high: u64) -> Result<Arg, ConfigFault>
    ensures taken { IfOk result (IsNumber low high word.now) }
    ensures refused { IfErr result (IsArgFault (IsNumber low high word.now)) }
{
    let Some(number) = decimal(word, high) else {
        return Err(ConfigFault::BadArg);
    };
    if number < low {
        return Err(ConfigFault::BadArg);
    }
    Ok(Arg::Number(number))
}

/// A place and a byte, with `=` between them.
fn byte_arg(word: &[u8]) -> Result<Arg, ConfigFault>
    ensures taken { IfOk result (IsByte word.now) }
    ensures refused { IfErr result (IsArgFault (IsByte word.now)) }
{
    let Some((place, byte)) = split_at_sign(word) else {
        return Err(ConfigFault::BadArg);
    };
    let Some(offset) = decimal(place, LAST_PLACE) else {
        return Err(ConfigFault::BadArg);
    };
    let Some(value) = decimal(byte, LAST_BYTE) else {
        return Err(ConfigFault::BadArg);
    };
    Ok(Arg::Byte {
        offset: offset as u32,
        value: value as u8,
    })
}

/// What stands before the first `=`, and what stands behind it.
fn split_at_sign(text: &[u8]) -> Option<(&[u8], &[u8])>
    ensures cut { IfSome result (λ p. text.now ≡ p.0.now ++ 61 ∷ p.1.now) }
    ensures first { IfSome result (λ p. list_any is_sign p.0.now ≡ false) }
    ensures none { IfNone result (list_any is_sign text.now ≡ false) }
{
    for (at, byte) in text.iter().enumerate() {
        if *byte == b'=' {
            return Some((&text[..at], &text[at + 1..]));
        }
    }
    None
}

/// A file's name.
fn file_arg(alloc: Global, word: &[u8]) -> Result<Arg, ConfigFault>
    ensures taken { IfOk result (IsFile word.now) }
    ensures refused { IfErr result (IsArgFault (IsFile word.now)) }
{
    if !is_file_text(word) {
        return Err(ConfigFault::BadArg);
    }
    match FileName::of(alloc, word) {
        Ok(name) => Ok(Arg::File(name)),
        Err(_) => Err(ConfigFault::OutOfMemory),
    }
}

/// Whether the bytes are a file's name in a scenario.
fn is_file_text(word: &[u8]) -> bool
    ensures { IsTrue result ↔ IsFileText word.now }
{
    if word.is_empty() || word.len() > MAX_FILE_NAME {
        return false;
    }
    are_file_bytes(word)
}

/// Whether each byte is visible ASCII.
fn are_file_bytes(word: &[u8]) -> bool
    ensures { result ≡ list_all is_file_byte word.now }
{
    word.iter().all(|byte| may_name_file(*byte))
}

/// A visible ASCII byte.
fn may_name_file(byte: u8) -> bool
    ensures { result ≡ is_file_byte byte }
{
    33 <= byte && byte <= 126
}

/// An interlink's name.
fn lane_arg(alloc: Global, word: &[u8]) -> Result<Arg, ConfigFault>
    ensures taken { IfOk result (IsLane word.now) }
    ensures refused { IfErr result (IsArgFault (IsLane word.now)) }
{
    if !is_lane_name(word) {
        return Err(ConfigFault::BadArg);
    }
    match Name::parse(alloc, word) {
        Ok(name) => Ok(Arg::Lane(name)),
        Err(_) => Err(ConfigFault::OutOfMemory),
    }
}

/// Whether the bytes are an interlink's name.
fn is_lane_name(word: &[u8]) -> bool
    ensures { IsTrue result ↔ IsName word.now }
{
    if word.is_empty() || word.len() > MOST_NAME_BYTES {
        return false;
    }
    are_name_bytes(word)
}

/// Whether each byte is a letter, a digit or `_`.
fn are_name_bytes(word: &[u8]) -> bool
    ensures { result ≡ list_all is_name_byte word.now }
{
    word.iter().all(|byte| may_name_lane(*byte))
}

/// A letter, a digit or `_`.
fn may_name_lane(byte: u8) -> bool
    ensures { result ≡ is_name_byte byte }
{
    byte.is_ascii_alphanumeric() || byte == b'_'
}
