//! Apps placed one after another, by their ranks.
ghost use Rattle.std.specs.Prelude.{◌≡◌, ◌+◌, ◌++◌, ◌<◌, ◌≤◌, ℕ, IfOk, OnOk, length, nat_eq, slice_get, slice_index, slice_index_or, count_by, []};
ghost use Rattle.std.specs.List.{All, filter, range_with_len};
ghost use Rattle.std.specs.List.Sorted.{IsStrictlySortedBy};
ghost use Rattle.std.specs.Ordering.{nat_cmp};
ghost use Rattle.sn_order.specs.Ranks.{AreWithin, is_free, leads_to, rank_order, targets_of};

use crate::targets::Targets;
use std::alloc::{AllocError, Global};
use std::collections::BTreeSet;

/// For each app, how many links lead to it.
fn counts_of(
    alloc: Global,
    count: usize,
    edges: &[(usize, usize)],
) -> Result<Vec<usize>, AllocError>
    requires { AreWithin count edges.now }
    ensures len { IfOk result (λ counts. length counts.items ≡ count) }
    ensures counts { IfOk result (λ counts. (app : ℕ)
        → slice_index counts.items app ≡ count_by (leads_to app) edges.now) }
{
    let mut counts = Vec::with_capacity(alloc, count)?;
    counts.resize(count, 0)?;
    for place in 0..edges.len() {
        let (_, to) = edges[place];
        counts[to] += 1;
    }
    Ok(counts)
}

/// For each app, the apps that its links lead to.
fn targets_of(
    alloc: Global,
    count: usize,
    edges: &[(usize, usize)],
) -> Result<Vec<Targets>, AllocError>
    requires { AreWithin count edges.now }
    ensures len { IfOk result (λ targets. length targets.items ≡ count) }
    ensures targets { IfOk result (λ targets. (app : ℕ) → app < count
        → slice_index_or targets.items app [] ≡ targets_of edges.now app) }
{
    let mut targets = Vec::with_capacity(alloc, count)?;
    for _ in 0..count {
        targets.push(Targets::new(alloc))?;
    }
    for edge in edges {
        targets[edge.0].add(edge.1)?;
    }
    Ok(targets)
}

/// The apps that wait for none.
fn free_of(alloc: Global, counts: &Vec<usize>) -> Result<BTreeSet<usize>, AllocError>
    ensures { IfOk result (λ free. free.keys ≡ filter (is_free counts.now.items) (range_with_len 0 (length counts.now.items))) }
{
    let mut free = BTreeSet::new(alloc);
    for app in 0..counts.len() {
        if counts[app] == 0 {
            free.insert(app)?;
        }
    }
    Ok(free)
}

/// All apps.
fn all_of(alloc: Global, count: usize) -> Result<BTreeSet<usize>, AllocError>
    ensures all { IfOk result (λ left. left.keys ≡ range_with_len 0 count) }
    ensures rising { IfOk result (λ left. IsStrictlySortedBy nat_cmp left.keys) }
{
    let mut left = BTreeSet::new(alloc);
    for app in 0..count {
        left.insert(app)?;
    }
    Ok(left)
}

/// The next app: the least that waits for none, or else the least of all.
fn next_of(free: &BTreeSet<usize>, left: &BTreeSet<usize>) -> Option<usize>
    ensures { result ≡ slice_get (free.now.keys ++ left.now.keys) 0 }
{
    match free.first() {
        Some(app) => Some(*app),
        None => match left.first() {
            Some(app) => Some(*app),
            None => None,
        },
    }
}

/// An app that was placed blocks its targets no more.
fn release(
    counts: &mut Vec<usize>,
    free: &mut BTreeSet<usize>,
    left: &BTreeSet<usize>,
    targets: &[usize],
) -> Result<(), AllocError>
    requires rising { IsStrictlySortedBy nat_cmp left.now.keys }
    requires within { All (λ app. app < length counts.old.items) left.now.keys }
    requires targets { All (λ app. app < length counts.old.items) targets.now }
    requires enough { (app : ℕ) → count_by (nat_eq app) targets.now ≤ slice_index counts.old.items app }
    requires free { free.old.keys ≡ filter (is_free counts.old.items) left.now.keys }
    ensures len { OnOk result (length counts.new.items ≡ length counts.old.items) }
    ensures counts { OnOk result ((app : ℕ)
        → slice_index counts.new.items app + count_by (nat_eq app) targets.now ≡ slice_index counts.old.items app) }
    ensures free { OnOk result (free.new.keys ≡ filter (is_free counts.new.items) left.now.keys) }
{
    for &app in targets {
        counts[app] -= 1;
        if counts[app] == 0 && left.contains(&app) {
            free.insert(app)?;
        }
    }
    Ok(())
}

/// Places all apps.
pub(crate) fn place_all(
    alloc: Global,
    count: usize,
    edges: &[(usize, usize)],
) -> Result<Vec<usize>, AllocError>
    requires { AreWithin count edges.now }
    ensures order { IfOk result (λ order. order.items ≡ rank_order count edges.now) }
    ensures within { IfOk result (λ order. All (λ app. app < count) order.items) }
    ensures len { IfOk result (λ order. length order.items ≡ count) }
{
    let mut counts = counts_of(alloc, count, edges)?;
    let targets = targets_of(alloc, count, edges)?;
    let mut free = free_of(alloc, &counts)?;
    let mut left = all_of(alloc, count)?;
    let mut order = Vec::with_capacity(alloc, count)?;
    for _ in 0..count {
        let Some(app) = next_of(&free, &left) else {
            unreachable!()
        };
        left.remove(&app);
        free.remove(&app);
        release(&mut counts, &mut free, &left, targets[app].all())?;
        order.push(app)?;
    }
    Ok(order)
}
