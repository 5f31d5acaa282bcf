//! The names that a worker's rows are numbered by.
ghost use Rattle.sn_names.specs.LinkOrder.{link_cmp, name_cmp};
ghost use Rattle.sn_scenario.specs.ConfigLines.{of_worker};
ghost use Rattle.sn_scenario.specs.Plans.{all_links, app_names, ordered, roster_of};
ghost use Rattle.std.specs.BTreeSet.{insert_key};
ghost use Rattle.std.specs.Map.{keys_of};
ghost use Rattle.std.specs.Prelude.{IfOk, OnOk, filter, fold, map, ◌<◌, ◌≡◌};

use crate::placed::Placed;
use crate::{Lane, Scenario};
use sn_config::AppSpec;
use sn_names::{FileName, LinkSpec, Name, Roster};
use std::alloc::{AllocError, Global};
use std::collections::{BTreeMap, BTreeSet};

/// Adds a name to others.
fn put_name(names: &mut BTreeSet<Name>, name: Name) -> Result<(), AllocError>
    ensures { OnOk result (names.new.keys ≡ insert_key name_cmp names.old.keys name) }
{
    names.insert(name)?;
    Ok(())
}

/// Adds the names of a configuration's apps.
fn put_names(
    alloc: Global,
    names: &mut BTreeSet<Name>,
    apps: &BTreeMap<Name, AppSpec>,
) -> Result<(), AllocError>
    ensures { OnOk result (names.new.keys ≡ fold (insert_key name_cmp) names.old.keys (keys_of apps.now.entries)) }
{
    for name in apps.keys() {
        put_name(names, name.copy(alloc)?)?;
    }
    Ok(())
}

/// The names of the apps of a worker's configurations.
fn app_names(alloc: Global, placed: &[Placed], worker: u32) -> Result<BTreeSet<Name>, AllocError>
    ensures { IfOk result (λ names. names.keys ≡ ordered name_cmp (app_names (filter (of_worker worker) placed.now))) }
{
    let mut names = BTreeSet::new(alloc);
    for next in placed {
        if next.worker == worker {
            put_names(alloc, &mut names, next.config.apps())?;
        }
    }
    Ok(names)
}

/// Adds a link to others.
fn put_link(links: &mut BTreeSet<LinkSpec>, link: LinkSpec) -> Result<(), AllocError>
    ensures { OnOk result (links.new.keys ≡ insert_key link_cmp links.old.keys link) }
{
    links.insert(link)?;
    Ok(())
}

/// Adds the links of a configuration.
fn put_links(
    alloc: Global,
    links: &mut BTreeSet<LinkSpec>,
    more: &BTreeSet<LinkSpec>,
) -> Result<(), AllocError>
    ensures { OnOk result (links.new.keys ≡ fold (insert_key link_cmp) links.old.keys more.now.keys) }
{
    for link in more {
        put_link(links, link.copy(alloc)?)?;
    }
    Ok(())
}

/// The links of a worker's configurations.
fn links_of(alloc: Global, placed: &[Placed], worker: u32) -> Result<BTreeSet<LinkSpec>, AllocError>
    ensures { IfOk result (λ links. links.keys ≡ ordered link_cmp (all_links (filter (of_worker worker) placed.now))) }
{
    let mut links = BTreeSet::new(alloc);
    for next in placed {
        if next.worker == worker {
            put_links(alloc, &mut links, next.config.links())?;
        }
    }
    Ok(links)
}

/// Equal names of files.
fn files_of(alloc: Global, files: &[FileName]) -> Result<Vec<FileName>, AllocError>
    ensures { IfOk result (λ names. names.items ≡ files.now) }
{
    let mut names = Vec::new(alloc);
    for name in files {
        names.push(name.copy(alloc)?)?;
    }
    Ok(names)
}

/// The names of the interlinks.
fn lanes_of(alloc: Global, lanes: &[Lane]) -> Result<Vec<Name>, AllocError>
    ensures { IfOk result (λ names. names.items ≡ map (λ lane. lane.name) lanes.now) }
{
    let mut names = Vec::new(alloc);
    for lane in lanes {
        names.push(lane.name.copy(alloc)?)?;
    }
    Ok(names)
}

impl Scenario {
    /// The names that the rows of a worker below the number of workers are numbered by: the apps
    /// and the links of its configurations, the captures and the outputs, each in its order, and
    /// all interlinks in the scenario's order. Each stands once.
    ///
    /// # Errors
    /// Want of memory.
    pub fn roster(&self, alloc: Global, worker: u32) -> Result<Roster, AllocError>
        requires { worker < self.now.settings.workers }
        ensures { IfOk result (λ roster. roster ≡ roster_of worker self.now) }
    {
        let apps = app_names(alloc, &self.placed, worker)?;
        let links = links_of(alloc, &self.placed, worker)?;
        Ok(Roster {
            apps: apps.into_iter().collect(alloc)?,
            links: links.into_iter().collect(alloc)?,
            captures: files_of(alloc, &self.captures)?,
            files: files_of(alloc, &self.outputs)?,
            lanes: lanes_of(alloc, &self.lanes)?,
        })
    }
}
