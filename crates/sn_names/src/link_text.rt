//! Texts of links cut into their names.

ghost use Rattle.sn_names.specs.Parts.{Part, arrow_parts, left, link_parts, port_parts};
ghost use Rattle.sn_names.specs.Spelled.{IsArrow, IsLinkOf, IsPort};
ghost use Rattle.std.specs.Prelude.{IfErr, IfOk, List, Some, ℕ, ◌++◌, ◌∷◌, ◌≡◌};

use crate::parts::{after_spaces, split_byte, split_name};

/// An app's port at the front of a text, and what follows it.
#[derive(Clone, Copy)]
pub struct Port<'a> {
    /// The app's name.
    pub app: &'a [u8],
    /// The port's name.
    pub port: &'a [u8],
    /// What follows.
    pub rest: &'a [u8],
}

/// The port at the front of a text. An error is how many bytes are left where no port goes on.
fn split_port(text: &[u8]) -> Result<Port<'_>, usize>
    ensures port { IfOk result (λ p. IsPort text.now p.app.now p.port.now p.rest.now) }
    ensures goes_on { IfOk result (λ p. (parts : List Part) → left (port_parts parts) text.now ≡ left parts p.rest.now) }
    ensures fault { IfErr result (λ rest. (parts : List Part) → left (port_parts parts) text.now ≡ Some rest) }
{
    let (app, rest) = split_name(text);
    if app.is_empty() {
        return Err(text.len());
    }
    let Some(behind_dot) = split_byte(rest, b'.') else {
        return Err(rest.len());
    };
    let (port, rest) = split_name(behind_dot);
    if port.is_empty() {
        return Err(behind_dot.len());
    }
    Ok(Port { app, port, rest })
}

/// What follows an arrow and the spaces round it. An error is how many bytes are left where no
/// arrow goes on.
fn after_arrow(text: &[u8]) -> Result<&[u8], usize>
    ensures arrow { IfOk result (λ rest. IsArrow text.now rest.now) }
    ensures goes_on { IfOk result (λ rest. (parts : List Part) → left (arrow_parts parts) text.now ≡ left parts rest.now) }
    ensures fault { IfErr result (λ rest. (parts : List Part) → left (arrow_parts parts) text.now ≡ Some rest) }
{
    let arrow = after_spaces(text);
    let Some(head) = split_byte(arrow, b'-') else {
        return Err(arrow.len());
    };
    let Some(rest) = split_byte(head, b'>') else {
        return Err(head.len());
    };
    Ok(after_spaces(rest))
}

/// The two ports of a link's text. An error is how many bytes are left where no link goes on.
pub fn split_link(text: &[u8]) -> Result<(Port<'_>, Port<'_>), usize>
    ensures link { IfOk result (λ p. IsLinkOf text.now p.0.app.now p.0.port.now p.1.app.now p.1.port.now) }
    ensures fault { IfErr result (λ rest. left link_parts text.now ≡ Some rest) }
{
    let from = split_port(after_spaces(text))?;
    let to = split_port(after_arrow(from.rest)?)?;
    let rest = after_spaces(to.rest);
    if !rest.is_empty() {
        return Err(rest.len());
    }
    Ok((from, to))
}
