//! A configuration, and what is added to it.
ghost use Rattle.sn_config.specs.Configs.{AddsApp, IsAppFault, IsConfig, app_at, has_link, link_fault, shares_port, with_link};
ghost use Rattle.sn_names.specs.LinkOrder.{link_cmp, name_cmp};
ghost use Rattle.std.specs.BTreeMap.{insert_entry, is_at};
ghost use Rattle.std.specs.BTreeSet.{insert_key};
ghost use Rattle.std.specs.List.{list_any};
ghost use Rattle.std.specs.Option.{option_copied};
ghost use Rattle.std.specs.Prelude.{IfErr, None, OnErr, OnOk, List, Some, [], cond, is_some, length, nat_le, true, ℕ, ◌&&◌, ◌+◌, ◌≡◌, ◌≢◌, ◌≤◌};

use crate::arg_text::read_arg;
use crate::{AppSpec, ConfigFault};
use sn_names::{Class, LinkSpec, Name};
use std::alloc::{AllocError, Global};
use std::collections::{BTreeMap, BTreeSet};
use std::marker::Model;

/// The most apps of a configuration: a bound that the scenario format sets.
const MOST_APPS: usize = 256;
/// The most links of a configuration: a bound that the scenario format sets.
const MOST_LINKS: usize = 512;

/// Which apps there are, with their classes and arguments, and the links between them. At most 256
/// apps and 512 links; the apps of each link are there, and no two links have a port in common.
#[derive(Debug, Drop)]
pub struct Config {
    alloc: Global,
    apps: BTreeMap<Name, AppSpec>,
    links: BTreeSet<LinkSpec>,
}

impl Model for Config {
    ghost use Rattle.sn_config.specs.Configs.{ConfigForm, IsConfig};

    ghost Value = { ConfigForm };

    ghost view = { λ c. record { apps = c.apps.entries; links = c.links.keys } };

    ghost invariant = { λ c. IsConfig (record { apps = c.apps.entries; links = c.links.keys }) };
}

impl Config {
    /// The empty configuration.
    pub fn new(alloc: Global) -> Config
        ensures { result ≡ record { apps = []; links = [] } }
    {
        Config {
            alloc,
            apps: BTreeMap::new(alloc),
            links: BTreeSet::new(alloc),
        }
    }

    /// The apps, in the bytewise order of their names.
    pub fn apps(&self) -> &BTreeMap<Name, AppSpec>
        ensures same { result.now.entries ≡ self.now.apps }
        ensures valid { IsConfig self.now }
    {
        &self.apps
    }

    /// The links, in their order.
    pub fn links(&self) -> &BTreeSet<LinkSpec>
        ensures same { result.now.keys ≡ self.now.links }
        ensures valid { IsConfig self.now }
    {
        &self.links
    }

    /// Adds an app, with the argument that stands behind its class, if one does.
    ///
    /// # Errors
    /// Twice: an app of this name is there. BadArg: the class doesn't take this argument. TooMany:
    /// 256 apps are there. In this order, else, where none of these comes, want of memory. The
    /// configuration is then as before.
    pub fn add_app(
        &mut self,
        name: Name,
        class: Class,
        arg: Option<&[u8]>,
    ) -> Result<(), ConfigFault>
        ensures ok { OnOk result (AddsApp self.old self.new name class (option_copied arg.entry)) }
        ensures refused { IfErr result (IsAppFault self.old name class (option_copied arg.entry)) }
        ensures err { OnErr result (self.new ≡ self.old) }
    {
        if self.apps.contains_key(&name) {
            return Err(ConfigFault::Twice);
        }
        let arg = match read_arg(self.alloc, class, arg) {
            Ok(arg) => arg,
            Err(ConfigFault::OutOfMemory) => return Err(memory_refusal(&self.apps)),
            Err(fault) => return Err(fault),
        };
        if self.apps.len() >= MOST_APPS {
            return Err(ConfigFault::TooMany);
        }
        let Ok(()) = put_app(&mut self.apps, name, AppSpec { class, arg }) else {
            return Err(ConfigFault::OutOfMemory);
        };
        Ok(())
    }

    /// Adds a link.
    ///
    /// # Errors
    /// Twice: the link is there. NoSuchApp: one of its apps isn't. PortTaken: another link has the
    /// same output port or the same input port. TooMany: 512 links are there. In this order, else,
    /// where none of these comes, want of memory. The configuration is then as before.
    pub fn add_link(&mut self, link: LinkSpec) -> Result<(), ConfigFault>
        ensures ok { OnOk result (self.new ≡ with_link self.old link) }
        ensures allowed { OnOk result (link_fault self.old link ≡ None) }
        ensures refused { IfErr result (λ fault. fault ≢ ConfigFault.OutOfMemory → link_fault self.old link ≡ Some fault) }
        ensures memory { IfErr result (λ fault. fault ≡ ConfigFault.OutOfMemory → link_fault self.old link ≡ None) }
        ensures err { OnErr result (self.new ≡ self.old) }
    {
        if let Some(fault) = link_refusal(&self.apps, &self.links, &link) {
            return Err(fault);
        }
        put_link(&mut self.links, link)?;
        Ok(())
    }
}

/// What want of memory for one more app is told as: there may be too many already.
fn memory_refusal(apps: &BTreeMap<Name, AppSpec>) -> ConfigFault
    ensures { result ≡ cond (nat_le 256 (length apps.now.entries)) ConfigFault.TooMany ConfigFault.OutOfMemory }
{
    if apps.len() >= MOST_APPS {
        return ConfigFault::TooMany;
    }
    ConfigFault::OutOfMemory
}

/// Puts an app among others.
fn put_app(apps: &mut BTreeMap<Name, AppSpec>, name: Name, spec: AppSpec) -> Result<(), AllocError>
    ensures ok { OnOk result (apps.new.entries ≡ insert_entry name_cmp apps.old.entries name spec) }
    ensures found { OnOk result ((q : List ℕ) → app_at apps.new.entries q
        ≡ cond (is_at (name_cmp name) q) (Some spec) (app_at apps.old.entries q)) }
    ensures len { OnOk result (length apps.new.entries ≤ length apps.old.entries + 1) }
    ensures err { OnErr result (apps.new.entries ≡ apps.old.entries) }
{
    apps.insert(name, spec)?;
    Ok(())
}

/// Puts a link among others.
fn put_link(links: &mut BTreeSet<LinkSpec>, link: LinkSpec) -> Result<(), AllocError>
    ensures ok { OnOk result (links.new.keys ≡ insert_key link_cmp links.old.keys link) }
    ensures found { OnOk result ((q : LinkSpec) → has_link links.new.keys q
        ≡ cond (is_at (link_cmp link) q) true (has_link links.old.keys q)) }
    ensures len { OnOk result (length links.new.keys ≤ length links.old.keys + 1) }
    ensures err { OnErr result (links.new.keys ≡ links.old.keys) }
{
    links.insert(link)?;
    Ok(())
}

/// The first failing check of a link, if one fails.
fn link_refusal(
    apps: &BTreeMap<Name, AppSpec>,
    links: &BTreeSet<LinkSpec>,
    link: &LinkSpec,
) -> Option<ConfigFault>
    ensures { result ≡ link_fault (record { apps = apps.now.entries; links = links.now.keys }) link.now }
{
    if links.contains(link) {
        return Some(ConfigFault::Twice);
    }
    if !has_both(apps, link) {
        return Some(ConfigFault::NoSuchApp);
    }
    if is_port_taken(links, link) {
        return Some(ConfigFault::PortTaken);
    }
    if links.len() >= MOST_LINKS {
        return Some(ConfigFault::TooMany);
    }
    None
}

/// Whether both apps of a link are there.
fn has_both(apps: &BTreeMap<Name, AppSpec>, link: &LinkSpec) -> bool
    ensures { result ≡ (is_some (app_at apps.now.entries link.now.from) && is_some (app_at apps.now.entries link.now.to)) }
{
    apps.contains_key(&link.from) && apps.contains_key(&link.to)
}

/// Whether another link has one of its ports.
fn is_port_taken(links: &BTreeSet<LinkSpec>, link: &LinkSpec) -> bool
    ensures { result ≡ list_any (shares_port link.now) links.now.keys }
{
    links.iter().any(|other| shares_port(link, other))
}

/// Whether both links have the same output port or the same input port.
fn shares_port(link: &LinkSpec, other: &LinkSpec) -> bool
    ensures { result ≡ shares_port link.now other.now }
{
    (other.from == link.from && other.out == link.out)
        || (other.to == link.to && other.input == link.input)
}
