//! The plain spelling of a scenario's text.
ghost use Rattle.sn_scenario.specs.Cutting.{tokens};
ghost use Rattle.sn_scenario.specs.Leaves.{link_of};
ghost use Rattle.sn_scenario.specs.PlainText.{plain_by, plain_line, plain_rest, plain_text, spaced};
ghost use Rattle.std.specs.Prelude.{IfOk, List, OnOk, ℕ, ◌++◌, ◌≡◌};

use crate::cutting::{is_remark, split_line, split_token, without_return};
use crate::kind::is_same;
use crate::shape::next_token;
use sn_names::{LinkSpec, NameFault};
use std::alloc::{AllocError, Global};

/// Appends the tokens of a text, each behind a space.
fn push_tokens(into: &mut Vec<u8>, text: &[u8]) -> Result<(), AllocError>
    ensures { OnOk result (into.new.items ≡ into.old.items ++ spaced (tokens text.now)) }
{
    let mut rest = text;
    while let Ok((token, behind)) = next_token(rest) {
        into.push(b' ')?;
        into.extend_from_slice(token)?;
        rest = behind;
    }
    Ok(())
}

/// The link that a text spells, if it spells one.
#[tactic(auto, using(crate::proofs::TokenRuns::link_found))]
fn some_link(alloc: Global, text: &[u8]) -> Result<Option<LinkSpec>, AllocError>
    ensures { IfOk result (λ link. link ≡ link_of text.now) }
{
    match LinkSpec::parse(alloc, text) {
        Ok(link) => Ok(Some(link)),
        Err(NameFault::At(_)) => Ok(None),
        Err(NameFault::OutOfMemory) => Err(AllocError),
    }
}

/// Appends what stands behind a line's first token.
fn push_rest(alloc: Global, into: &mut Vec<u8>, word: &[u8], rest: &[u8]) -> Result<(), AllocError>
    ensures { OnOk result (into.new.items ≡ into.old.items ++ plain_rest word.now rest.now) }
{
    if !is_same(word, b"link") {
        return push_tokens(into, rest);
    }
    match some_link(alloc, rest)? {
        Some(link) => {
            into.push(b' ')?;
            link.canonical(into)
        }
        None => Ok(()),
    }
}

/// Appends a line, unless it is skipped.
#[tactic(auto, unfolding(crate::specs::PlainText::plain_by))]
fn push_line(alloc: Global, into: &mut Vec<u8>, line: &[u8]) -> Result<(), AllocError>
    ensures { OnOk result (into.new.items ≡ into.old.items ++ plain_line line.now) }
{
    let (word, rest) = split_token(without_return(line));
    if is_remark(word) {
        return Ok(());
    }
    into.extend_from_slice(word)?;
    push_rest(alloc, into, word, rest)?;
    into.push(b'\n')?;
    Ok(())
}

/// A scenario's text in its plain spelling: its significant lines alone, the tokens of each parted
/// by one space, and links in their canonical text.
///
/// # Errors
/// Want of memory.
#[tactic(auto, using(crate::proofs::LineSequence::lining))]
pub fn plain_text(alloc: Global, text: &[u8]) -> Result<Vec<u8>, AllocError>
    ensures { IfOk result (λ plain. plain.items ≡ plain_text text.now) }
{
    let mut plain = Vec::new(alloc);
    let mut rest = text;
    while !rest.is_empty() {
        let (line, behind) = split_line(rest);
        push_line(alloc, &mut plain, line)?;
        rest = behind;
    }
    Ok(plain)
}
