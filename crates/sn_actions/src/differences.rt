//! The actions that lead from one configuration to another.
ghost use Rattle.sn_actions.specs.Diffs.{IsChange, change, diff_of, is_started, link_change, linking, relinking, removed_links, unlinking};
ghost use Rattle.sn_actions.specs.declared.action.Action.TheVariants.{StopApp};
ghost use Rattle.sn_actions.specs.Plains.{apply_all, full};
ghost use Rattle.sn_config.specs.Configs.{IsConfig, app_at, has_link};
ghost use Rattle.sn_names.specs.LinkOrder.{link_cmp, name_cmp};
ghost use Rattle.std.specs.List.Sorted.{IsStrictlySortedBy};
ghost use Rattle.std.specs.Map.{keys_of};
ghost use Rattle.std.specs.Prelude.{All, IfOk, OnOk, None, Option, filter, flat_map, is_some, map, not, vec_len, ◌++◌, ◌≡◌, ◌≤◌};

use crate::Action;
use crate::same::{is_same_arg, is_same_class};
use sn_config::{AppSpec, Config};
use sn_names::{LinkSpec, Name};
use std::alloc::{AllocError, Global};
use std::collections::{BTreeMap, BTreeSet};

/// The actions that lead from the old configuration to the new one, without a commit. First those
/// of the links that go, then those of the apps that go, then those of each app and of each link
/// of the new one, each group in its order.
///
/// # Errors
/// Want of memory.
pub fn diff(alloc: Global, old: &Config, new: &Config) -> Result<Vec<Action>, AllocError>
    ensures list { IfOk result (λ actions. actions.items ≡ diff_of old.now new.now) }

    // All are taken in order from the full form of the old configuration, and give that of the new one.
    ensures law { IfOk result (λ actions. apply_all actions.items (full old.now) ≡ Ok (full new.now)) }

    // Each names what the old configuration has or the new one, and none is a commit.
    ensures changes { IfOk result (λ actions. All (IsChange old.now new.now) actions.items) }
    ensures few { IfOk result (λ actions. vec_len actions ≤ 4096) }
{
    recall_order(old);
    recall_order(new);
    let actions = list_actions(alloc, old, new)?;
    Ok(actions)
}

/// Recalls what holds of every configuration, and that sorted maps ascend.
fn recall_order(config: &Config)
    ensures valid { IsConfig config.now }
    ensures links { IsStrictlySortedBy link_cmp config.now.links }
    ensures apps { IsStrictlySortedBy name_cmp (keys_of config.now.apps) }
{
    let _apps = config.apps().len();
    let _links = config.links().len();
}

/// The actions, group by group.
fn list_actions(alloc: Global, old: &Config, new: &Config) -> Result<Vec<Action>, AllocError>
    ensures list { IfOk result (λ actions. actions.items ≡ diff_of old.now new.now) }
{
    let mut actions = Vec::new(alloc);
    unlink_removed(alloc, &mut actions, old.links(), new.links())?;
    stop_removed(alloc, &mut actions, old.apps(), new.apps())?;
    change_apps(alloc, &mut actions, old.apps(), new.apps())?;
    change_links(alloc, &mut actions, old, new)?;
    Ok(actions)
}

/// Adds the actions of the new configuration's links.
fn change_links(
    alloc: Global,
    actions: &mut Vec<Action>,
    old: &Config,
    new: &Config,
) -> Result<(), AllocError>
    ensures { OnOk result (actions.new.items ≡ actions.old.items ++ flat_map (link_change old.now new.now) new.now.links) }
{
    for link in new.links() {
        change_link(alloc, actions, old, new, link)?;
    }
    Ok(())
}

/// Adds the actions of the links that go.
fn unlink_removed(
    alloc: Global,
    actions: &mut Vec<Action>,
    old: &BTreeSet<LinkSpec>,
    new: &BTreeSet<LinkSpec>,
) -> Result<(), AllocError>
    ensures { OnOk result
        (actions.new.items ≡ actions.old.items ++ flat_map unlinking (removed_links old.now.keys new.now.keys)) }
{
    for link in old {
        if !new.contains(link) {
            push_unlinking(alloc, actions, link)?;
        }
    }
    Ok(())
}

/// Adds the actions of a link that goes.
fn push_unlinking(
    alloc: Global,
    actions: &mut Vec<Action>,
    link: &LinkSpec,
) -> Result<(), AllocError>
    ensures { OnOk result (actions.new.items ≡ actions.old.items ++ unlinking link.now) }
{
    actions.push(Action::UnlinkOutput(link.copy(alloc)?))?;
    actions.push(Action::UnlinkInput(link.copy(alloc)?))?;
    actions.push(Action::FreeLink(link.copy(alloc)?))?;
    Ok(())
}

/// Adds the actions of the apps that go.
fn stop_removed(
    alloc: Global,
    actions: &mut Vec<Action>,
    old: &BTreeMap<Name, AppSpec>,
    new: &BTreeMap<Name, AppSpec>,
) -> Result<(), AllocError>
    ensures { OnOk result (actions.new.items
        ≡ actions.old.items
        ++ map StopApp (filter (λ name. not (is_some (app_at new.now.entries name))) (keys_of old.now.entries))) }
{
    for name in old.keys() {
        if !new.contains_key(name) {
            actions.push(Action::StopApp(name.copy(alloc)?))?;
        }
    }
    Ok(())
}

/// Adds the actions of the new configuration's apps.
fn change_apps(
    alloc: Global,
    actions: &mut Vec<Action>,
    old: &BTreeMap<Name, AppSpec>,
    new: &BTreeMap<Name, AppSpec>,
) -> Result<(), AllocError>
    ensures { OnOk result (actions.new.items
        ≡ actions.old.items ++ flat_map (λ app. change app.0 app.1 (app_at old.now.entries app.0)) new.now.entries) }
{
    for (name, spec) in new {
        change_app(alloc, actions, old, name, spec)?;
    }
    Ok(())
}

/// Adds the actions of one app of the new configuration.
fn change_app(
    alloc: Global,
    actions: &mut Vec<Action>,
    old: &BTreeMap<Name, AppSpec>,
    name: &Name,
    spec: &AppSpec,
) -> Result<(), AllocError>
    ensures { OnOk result (actions.new.items ≡ actions.old.items ++ change name.now spec.now (app_at old.now.entries name.now)) }
{
    let Some(before) = old.get(name) else {
        actions.push(Action::StartApp(name.copy(alloc)?, spec.copy(alloc)?))?;
        return Ok(());
    };
    if !is_same_class(before.class, spec.class) {
        actions.push(Action::StopApp(name.copy(alloc)?))?;
        actions.push(Action::StartApp(name.copy(alloc)?, spec.copy(alloc)?))?;
        return Ok(());
    }
    if is_same_arg(&before.arg, &spec.arg) {
        return Ok(());
    }
    actions.push(Action::ReconfigApp(name.copy(alloc)?, spec.copy(alloc)?))?;
    Ok(())
}

/// Adds the actions of one link of the new configuration.
fn change_link(
    alloc: Global,
    actions: &mut Vec<Action>,
    old: &Config,
    new: &Config,
    link: &LinkSpec,
) -> Result<(), AllocError>
    ensures { OnOk result (actions.new.items ≡ actions.old.items ++ link_change old.now new.now link.now) }
{
    if !old.links().contains(link) {
        return push_linking(alloc, actions, link);
    }
    let from = is_app_started(old.apps(), new.apps(), &link.from);
    let to = is_app_started(old.apps(), new.apps(), &link.to);
    push_relinking(alloc, actions, link, from, to)
}

/// Adds the actions of a link that comes.
fn push_linking(alloc: Global, actions: &mut Vec<Action>, link: &LinkSpec) -> Result<(), AllocError>
    ensures { OnOk result (actions.new.items ≡ actions.old.items ++ linking link.now) }
{
    actions.push(Action::NewLink(link.copy(alloc)?))?;
    actions.push(Action::LinkOutput(link.copy(alloc)?))?;
    actions.push(Action::LinkInput(link.copy(alloc)?))?;
    Ok(())
}

/// Adds the actions of a link that stays, by whether each of its apps is started.
fn push_relinking(
    alloc: Global,
    actions: &mut Vec<Action>,
    link: &LinkSpec,
    from: bool,
    to: bool,
) -> Result<(), AllocError>
    ensures { OnOk result (actions.new.items ≡ actions.old.items ++ relinking from to link.now) }
{
    match (from, to) {
        (false, false) => Ok(()),
        (true, false) => {
            actions.push(Action::LinkOutput(link.copy(alloc)?))?;
            Ok(())
        }
        (false, true) => {
            actions.push(Action::LinkInput(link.copy(alloc)?))?;
            Ok(())
        }
        (true, true) => {
            actions.push(Action::LinkOutput(link.copy(alloc)?))?;
            actions.push(Action::LinkInput(link.copy(alloc)?))?;
            Ok(())
        }
    }
}

/// Whether an app of the new configuration is started.
fn is_app_started(old: &BTreeMap<Name, AppSpec>, new: &BTreeMap<Name, AppSpec>, name: &Name) -> bool
    ensures { result ≡ is_started old.now.entries new.now.entries name.now }
{
    let Some(spec) = new.get(name) else {
        return false;
    };
    let Some(before) = old.get(name) else {
        return true;
    };
    !is_same_class(before.class, spec.class)
}
