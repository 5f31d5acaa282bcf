//! The apps and links of a plain form, seen as a finite map and a set.
ghost use Rattle.sn_actions.specs.Same.{same_class};
ghost use Rattle.sn_config.specs.declared.app_spec.AppSpec.{AppSpec};
ghost use Rattle.sn_names.specs.LinkOrder.{link_cmp, name_cmp};
ghost use Rattle.std.specs.FinMap as finmap;
ghost use Rattle.std.specs.FinSet as finset;
ghost use Rattle.std.specs.Option.{option_map};
ghost use Rattle.std.specs.Prelude.{OnErr, OnOk, ◌≡◌};

use crate::same::is_same_class;
use sn_config::AppSpec;
use sn_names::{LinkSpec, Name};
use std::alloc::AllocError;
use std::collections::{BTreeMap, BTreeSet};

/// Puts an app in, or in the place of the one of its name.
pub fn put_app(
    apps: &mut BTreeMap<Name, AppSpec>,
    name: Name,
    spec: AppSpec,
) -> Result<(), AllocError>
    ensures ok { OnOk result (finmap.from_entries {R = name_cmp} apps.new.entries
        ≡ finmap.insert (finmap.from_entries apps.old.entries) name spec) }
    ensures err { OnErr result (apps.new.entries ≡ apps.old.entries) }
{
    apps.insert(name, spec)?;
    Ok(())
}

/// Takes an app out.
pub fn take_app(apps: &mut BTreeMap<Name, AppSpec>, name: &Name)
    ensures { finmap.from_entries {R = name_cmp} apps.new.entries
        ≡ finmap.remove (finmap.from_entries apps.old.entries) name.now }
{
    apps.remove(name);
}

/// Whether an app is there.
pub fn has_app(apps: &BTreeMap<Name, AppSpec>, name: &Name) -> bool
    ensures { result ≡ finmap.contains_key (finmap.from_entries {R = name_cmp} apps.now.entries) name.now }
{
    apps.contains_key(name)
}

/// Whether the app that is there is of the class. None where none is there.
pub fn same_class_there(apps: &BTreeMap<Name, AppSpec>, name: &Name, spec: &AppSpec) -> Option<bool>
    ensures { result
        ≡ option_map
        (λ before. same_class before.class spec.now.class)
        (finmap.get (finmap.from_entries {R = name_cmp} apps.now.entries) name.now) }
{
    let Some(before) = apps.get(name) else {
        return None;
    };
    Some(is_same_class(before.class, spec.class))
}

/// Puts a link in.
pub fn put_link(links: &mut BTreeSet<LinkSpec>, link: LinkSpec) -> Result<(), AllocError>
    ensures ok { OnOk result
        (finset.from_list {R = link_cmp} links.new.keys ≡ finset.insert (finset.from_list links.old.keys) link) }
    ensures err { OnErr result (links.new.keys ≡ links.old.keys) }
{
    links.insert(link)?;
    Ok(())
}

/// Takes a link out.
pub fn take_link(links: &mut BTreeSet<LinkSpec>, link: &LinkSpec)
    ensures { finset.from_list {R = link_cmp} links.new.keys ≡ finset.remove (finset.from_list links.old.keys) link.now }
{
    links.remove(link);
}

/// Whether a link is there.
pub fn has_link(links: &BTreeSet<LinkSpec>, link: &LinkSpec) -> bool
    ensures { result ≡ finset.contains (finset.from_list {R = link_cmp} links.now.keys) link.now }
{
    links.contains(link)
}
