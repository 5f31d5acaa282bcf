//! Which link is at which port, seen as a finite map.
ghost use Rattle.sn_actions.specs.Plains.{is_at_some, is_link, without_app};
ghost use Rattle.sn_config.specs.Configs.{same_name};
ghost use Rattle.sn_names.specs.LinkOrder.{link_cmp, port_cmp};
ghost use Rattle.std.specs.FinMap as finmap;
ghost use Rattle.std.specs.List.{list_any};
ghost use Rattle.std.specs.List.Sorted.{IsStrictlySortedBy};
ghost use Rattle.std.specs.Map.{keys_of};
ghost use Rattle.std.specs.Option.{option_copied};
ghost use Rattle.std.specs.Ordering.{eq_by_cmp};
ghost use Rattle.std.specs.Prelude.{IfOk, OnErr, OnOk, ◌&&◌, ◌≡◌};

use sn_names::{LinkSpec, Name};
use std::alloc::{AllocError, Global};
use std::cmp::Ordering;
use std::collections::BTreeMap;

/// The key of an app's port.
pub fn port_key(alloc: Global, app: &Name, port: &Name) -> Result<(Name, Name), AllocError>
    ensures { IfOk result (λ key. key ≡ (app.now, port.now)) }
{
    let app = app.copy(alloc)?;
    let port = port.copy(alloc)?;
    Ok((app, port))
}

/// Whether a key is the one of this app's port.
fn is_port(key: &(Name, Name), app: &Name, port: &Name) -> bool
    ensures { result ≡ (same_name key.now.0 app.now && same_name key.now.1 port.now) }
{
    key.0 == *app && key.1 == *port
}

/// The link at a port, if one is there.
#[tactic(auto, using(crate::proofs::PortKeys::finding))]
pub fn link_at<'a>(
    ports: &'a BTreeMap<(Name, Name), LinkSpec>,
    app: &Name,
    port: &Name,
) -> Option<&'a LinkSpec>
    ensures { option_copied result ≡ finmap.get (finmap.from_entries {R = port_cmp} ports.now.entries) (app.now, port.now) }
{
    for (key, link) in ports {
        if is_port(key, app, port) {
            return Some(link);
        }
    }
    None
}

/// Whether this link is at a port.
pub fn is_at_port(
    ports: &BTreeMap<(Name, Name), LinkSpec>,
    app: &Name,
    port: &Name,
    link: &LinkSpec,
) -> bool
    ensures { result ≡ is_link (finmap.get (finmap.from_entries {R = port_cmp} ports.now.entries) (app.now, port.now)) link.now }
{
    let Some(there) = link_at(ports, app, port) else {
        return false;
    };
    is_same_link(there, link)
}

/// Whether both links are the same.
fn is_same_link(a: &LinkSpec, b: &LinkSpec) -> bool
    ensures { result ≡ eq_by_cmp link_cmp a.now b.now }
{
    a.cmp(b) == Ordering::Equal
}

/// Whether this link is among the entries.
fn has_entry(ports: &BTreeMap<(Name, Name), LinkSpec>, link: &LinkSpec) -> bool
    ensures { result ≡ list_any (λ entry. eq_by_cmp link_cmp entry.1 link.now) ports.now.entries }
{
    ports.iter().any(|entry| is_same_link(entry.1, link))
}

/// Recalls that the keys ascend.
fn recall_keys(ports: &BTreeMap<(Name, Name), LinkSpec>)
    ensures { IsStrictlySortedBy port_cmp (keys_of ports.now.entries) }
{
    let _length = ports.len();
}

/// Whether this link is at some port.
#[tactic(auto, using(crate::proofs::PortKeys::some_port))]
pub fn is_at_some_port(ports: &BTreeMap<(Name, Name), LinkSpec>, link: &LinkSpec) -> bool
    ensures { result ≡ is_at_some (finmap.from_entries {R = port_cmp} ports.now.entries) link.now }
{
    recall_keys(ports);
    has_entry(ports, link)
}

/// Whether a link is at a port.
pub fn has_port(ports: &BTreeMap<(Name, Name), LinkSpec>, app: &Name, port: &Name) -> bool
    ensures { result ≡ finmap.contains_key (finmap.from_entries {R = port_cmp} ports.now.entries) (app.now, port.now) }
{
    link_at(ports, app, port).is_some()
}

/// Puts a link to a port.
pub fn put_port(
    ports: &mut BTreeMap<(Name, Name), LinkSpec>,
    key: (Name, Name),
    link: LinkSpec,
) -> Result<(), AllocError>
    ensures ok { OnOk result (finmap.from_entries {R = port_cmp} ports.new.entries
        ≡ finmap.insert (finmap.from_entries ports.old.entries) key link) }
    ensures err { OnErr result (ports.new.entries ≡ ports.old.entries) }
{
    ports.insert(key, link)?;
    Ok(())
}

/// Takes what is at a port.
pub fn take_port(ports: &mut BTreeMap<(Name, Name), LinkSpec>, app: &Name, port: &Name)
    ensures { finmap.from_entries {R = port_cmp} ports.new.entries
        ≡ finmap.remove (finmap.from_entries ports.old.entries) (app.now, port.now) }
{
    ports.retain(|key, _| !is_port(key, app, port));
}

/// Takes what is at the ports of an app.
pub fn drop_ports(ports: &mut BTreeMap<(Name, Name), LinkSpec>, name: &Name)
    ensures { finmap.from_entries {R = port_cmp} ports.new.entries
        ≡ without_app (finmap.from_entries ports.old.entries) name.now }
{
    ports.retain(|key, _| !is_of_app(key, name));
}

/// Whether a port is one of this app.
fn is_of_app(key: &(Name, Name), name: &Name) -> bool
    ensures { result ≡ same_name key.now.0 name.now }
{
    key.0 == *name
}
