//! The text of a worker's numbered actions.
ghost use Rattle.sn_run.specs.ActionTexts.{action_text, actions_text, app_text, arg_text};
ghost use Rattle.sn_names.specs.LinkText.{canonical_text};
ghost use Rattle.std.specs.Fmt.{decimal};
ghost use Rattle.std.specs.Prelude.{List, [], ◌∷◌, ◌++◌, OnOk, ◌≡◌};

use sn_actions::Action;
use sn_config::AppSpec;
use sn_names::{Arg, LinkSpec, Name, push_decimal};
use std::alloc::AllocError;

/// Appends an argument behind a space, or nothing where there is none.
fn push_arg(into: &mut Vec<u8>, arg: &Arg) -> Result<(), AllocError>
    ensures { OnOk result (into.new.items ≡ into.old.items ++ arg_text arg.now) }
{
    match arg {
        Arg::Nothing => Ok(()),
        Arg::Number(n) => {
            into.push(b' ')?;
            push_decimal(into, *n)
        }
        Arg::Byte { offset, value } => {
            into.push(b' ')?;
            push_decimal(into, u64::from(*offset))?;
            into.push(b'=')?;
            push_decimal(into, u64::from(*value))
        }
        Arg::File(name) => {
            into.push(b' ')?;
            into.extend_from_slice(name.as_str().as_bytes())
        }
        Arg::Lane(name) => {
            into.push(b' ')?;
            into.extend_from_slice(name.as_str().as_bytes())
        }
    }
}

/// Appends a kind of action and a link.
fn push_link(into: &mut Vec<u8>, kind: &[u8], link: &LinkSpec) -> Result<(), AllocError>
    ensures { OnOk result (into.new.items ≡ into.old.items ++ (kind.now ++ canonical_text link.now)) }
{
    into.extend_from_slice(kind)?;
    link.canonical(into)
}

/// Appends a kind of action, an app's name, its class and its argument.
fn push_app(into: &mut Vec<u8>, kind: &[u8], name: &Name, spec: &AppSpec) -> Result<(), AllocError>
    ensures { OnOk result (into.new.items ≡ into.old.items ++ (kind.now ++ app_text name.now spec.now)) }
{
    into.extend_from_slice(kind)?;
    into.extend_from_slice(name.as_str().as_bytes())?;
    into.push(b' ')?;
    into.extend_from_slice(spec.class.word().as_bytes())?;
    push_arg(into, &spec.arg)
}

/// Appends an action's kind and what it names.
fn push_action(into: &mut Vec<u8>, action: &Action) -> Result<(), AllocError>
    ensures { OnOk result (into.new.items ≡ into.old.items ++ action_text action.now) }
{
    match action {
        Action::UnlinkOutput(link) => push_link(into, b"unlink_output ", link),
        Action::UnlinkInput(link) => push_link(into, b"unlink_input ", link),
        Action::FreeLink(link) => push_link(into, b"free_link ", link),
        Action::StopApp(name) => {
            into.extend_from_slice(b"stop_app ")?;
            into.extend_from_slice(name.as_str().as_bytes())
        }
        Action::StartApp(name, spec) => push_app(into, b"start_app ", name, spec),
        Action::ReconfigApp(name, spec) => push_app(into, b"reconfig_app ", name, spec),
        Action::NewLink(link) => push_link(into, b"new_link ", link),
        Action::LinkOutput(link) => push_link(into, b"link_output ", link),
        Action::LinkInput(link) => push_link(into, b"link_input ", link),
        Action::Commit => into.extend_from_slice(b"commit"),
    }
}

/// Appends one line: the action's number, and the action.
fn push_line(into: &mut Vec<u8>, number: u64, action: &Action) -> Result<(), AllocError>
    ensures { OnOk result (into.new.items ≡ into.old.items ++ (decimal number ++ (32 ∷ (action_text action.now ++ 10 ∷ [])))) }
{
    push_decimal(into, number)?;
    into.push(b' ')?;
    push_action(into, action)?;
    into.push(b'\n')?;
    Ok(())
}

/// Appends a line for each action, numbered from 1.
///
/// # Errors
/// Want of memory.
pub(crate) fn push_actions(into: &mut Vec<u8>, actions: &[Action]) -> Result<(), AllocError>
    ensures { OnOk result (into.new.items ≡ into.old.items ++ actions_text 1 actions.now) }
{
    let mut number = 1;
    for action in actions {
        push_line(into, number, action)?;
        number += 1;
    }
    Ok(())
}
