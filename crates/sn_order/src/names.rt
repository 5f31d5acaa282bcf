//! Names in bytewise order, and links as pairs of ranks.
ghost use Rattle.std.specs.Prelude.{◌≡◌, ◌<◌, IfOk, IfSome, fold, length, map, slice_index_or, []};
ghost use Rattle.std.specs.BTreeSet.{insert_key};
ghost use Rattle.sn_names.specs.LinkOrder.{name_cmp};
ghost use Rattle.std.specs.List.{All, Contains};
ghost use Rattle.std.specs.List.Sorted.{IsStrictlySortedBy};
ghost use Rattle.sn_order.specs.Order.{in_order};
ghost use Rattle.sn_order.specs.Ranks.{AreWithin, IsWithin, edge_of, edges_of, name_at, rank_in};

use sn_names::{LinkSpec, Name};
use std::alloc::{AllocError, Global};
use std::collections::BTreeSet;

/// The names of a slice in bytewise order, each once.
pub(crate) fn sorted(alloc: Global, apps: &[Name]) -> Result<Vec<Name>, AllocError>
    ensures names { IfOk result (λ names. names.items ≡ in_order apps.now) }
    ensures among { IfOk result (λ names. All (Contains apps.now) names.items) }
    ensures rising { IfOk result (λ names. IsStrictlySortedBy name_cmp names.items) }
{
    let mut set = BTreeSet::new(alloc);
    for app in apps {
        let name = app.copy(alloc)?;
        set.insert(name)?;
    }
    let mut names = Vec::with_capacity(alloc, set.len())?;
    while let Some(name) = set.pop_first() {
        names.push(name)?;
    }
    Ok(names)
}

/// The rank of a name among names in order.
fn rank_of(names: &[Name], name: &Name) -> Option<usize>
    requires rising { IsStrictlySortedBy name_cmp names.now }
    ensures rank { result ≡ rank_in names.now name.now }
    ensures within { IfSome result (λ rank. rank < length names.now) }
{
    match names.binary_search(name) {
        Ok(rank) => Some(rank),
        Err(_) => None,
    }
}

/// A link from one app to another, by their ranks. None for a link from an app to itself, or where an app isn't there.
fn edge_of(names: &[Name], link: &LinkSpec) -> Option<(usize, usize)>
    requires rising { IsStrictlySortedBy name_cmp names.now }
    ensures edge { result ≡ edge_of names.now link.now }
    ensures within { IfSome result (IsWithin (length names.now)) }
{
    let from = rank_of(names, &link.from)?;
    let to = rank_of(names, &link.to)?;
    if from == to { None } else { Some((from, to)) }
}

/// The links between different apps, by the ranks of these.
pub(crate) fn edges_of(
    alloc: Global,
    names: &[Name],
    links: &[LinkSpec],
) -> Result<Vec<(usize, usize)>, AllocError>
    requires rising { IsStrictlySortedBy name_cmp names.now }
    ensures edges { IfOk result (λ edges. edges.items ≡ edges_of names.now links.now) }
    ensures within { IfOk result (λ edges. AreWithin (length names.now) edges.items) }
{
    let mut edges = Vec::with_capacity(alloc, links.len())?;
    for link in links {
        if let Some(edge) = edge_of(names, link) {
            edges.push(edge)?;
        }
    }
    Ok(edges)
}

/// The names of these ranks.
pub(crate) fn named(alloc: Global, names: &[Name], ranks: &[usize]) -> Result<Vec<Name>, AllocError>
    requires { All (λ rank. rank < length names.now) ranks.now }
    ensures { IfOk result (λ order. order.items ≡ map (name_at names.now) ranks.now) }
{
    let mut order = Vec::with_capacity(alloc, ranks.len())?;
    for &rank in ranks {
        order.push(names[rank].copy(alloc)?)?;
    }
    Ok(order)
}
