//! The worked lists of actions by their kinds, and a plain form that takes one.
use crate::configurations::linked;
use crate::names::name;
use sn_actions::*;
use sn_config::Config;
use sn_names::Class;
use std::alloc::{AllocError, Global};
use std::process::Abort;
use std::test::Fail;

/// A letter for each kind of action.
fn kind(action: &Action) -> u8 {
    match action {
        Action::UnlinkOutput(_) => b'o',
        Action::UnlinkInput(_) => b'i',
        Action::FreeLink(_) => b'f',
        Action::StopApp(_) => b's',
        Action::StartApp(_, _) => b'S',
        Action::ReconfigApp(_, _) => b'r',
        Action::NewLink(_) => b'n',
        Action::LinkOutput(_) => b'O',
        Action::LinkInput(_) => b'I',
        Action::Commit => b'c',
    }
}

/// The kinds of the actions between two configurations.
fn kinds(alloc: Global, old: &Config, new: &Config) -> Result<Vec<u8>, AllocError> {
    let actions = diff(alloc, old, new)?;
    let mut kinds = Vec::new(alloc);
    for action in actions.as_slice() {
        kinds.push(kind(action))?;
    }
    Ok(kinds)
}

/// Expects these kinds of actions from a sink `b` to another app.
fn expect_kinds<R: Abort + AllocGlobal>(
    rt: &R,
    to: &str,
    class: Class,
    text: &str,
    want: &[u8],
) -> Result<(), Fail> {
    let old = linked(rt.alloc(), "b", Class::Sink, "a.out -> b.in")?;
    let new = linked(rt.alloc(), to, class, text)?;
    let found = kinds(rt.alloc(), &old, &new)?;
    assert_eq!(rt; found.as_slice(), want);
    Ok(())
}

#[test]
fn an_app_is_replaced(rt: HostRuntime) -> Result<(), Fail> {
    expect_kinds(&rt, "c", Class::Sink, "a.out -> c.in", b"oifsSnOI")
}

#[test]
fn an_app_of_another_class_is_stopped_and_started(rt: HostRuntime) -> Result<(), Fail> {
    expect_kinds(&rt, "b", Class::Tee, "a.out -> b.in", b"sSI")
}

/// The plain form that takes these actions.
fn taken(alloc: Global, actions: &[Action]) -> Result<Plain, ActionFault> {
    let mut plain = Plain::new(alloc);
    for action in actions {
        let action = action.copy(alloc)?;
        plain.apply(&action)?;
    }
    Ok(plain)
}

#[test]
fn a_plain_form_takes_the_actions_of_a_configuration(rt: HostRuntime) -> Result<(), Fail> {
    let empty = Config::new(rt.alloc());
    let new = linked(rt.alloc(), "b", Class::Sink, "a.out -> b.in")?;
    let actions = diff(rt.alloc(), &empty, &new)?;
    let Ok(plain) = taken(rt.alloc(), &actions) else {
        return Err("a plain form")?;
    };
    assert_eq!(rt; plain.apps.len(), 2);
    assert_eq!(rt; plain.outs.len(), 1);
    assert_eq!(rt; plain.ins.len(), 1);
    Ok(())
}

#[test]
fn refused_port_app_event_tells_a_missing_app(rt: HostRuntime) -> Result<(), Fail> {
    let stop = [Action::StopApp(name(rt.alloc(), "z")?)];
    let refused = taken(rt.alloc(), &stop);
    assert!(rt; matches!(refused, Err(ActionFault::NoApp)));
    Ok(())
}
