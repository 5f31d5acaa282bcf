//! The order of pulls, and that of pushes.
ghost use Rattle.std.specs.Prelude.{◌≡◌, IfOk, length};
ghost use Rattle.std.specs.List.{All, Contains};
ghost use Rattle.sn_order.specs.Order.{in_order, push_names};

use crate::names::{edges_of, named, sorted};
use crate::ranks::place_all;
use sn_names::{LinkSpec, Name};
use std::alloc::{AllocError, Global};

/// The order of pulls: the names in bytewise order, each once.
///
/// # Errors
/// Want of memory.
pub fn pull_order(alloc: Global, apps: &[Name]) -> Result<Vec<Name>, AllocError>
    ensures order { IfOk result (λ order. order.items ≡ in_order apps.now) }
    ensures among { IfOk result (λ order. All (Contains apps.now) order.items) }
{
    sorted(alloc, apps)
}

/// The order of pushes. Next is the least name not yet placed, all of whose upstream apps (other apps with a link to it) are
/// placed; where there is none, the least name not yet placed. It takes (apps + links) log apps steps.
///
/// # Errors
/// Want of memory.
pub fn push_order(alloc: Global, apps: &[Name], links: &[LinkSpec]) -> Result<Vec<Name>, AllocError>
    ensures order { IfOk result (λ order. order.items ≡ push_names links.now (in_order apps.now)) }
    ensures among { IfOk result (λ order. All (Contains apps.now) order.items) }
    ensures many { IfOk result (λ order. length order.items ≡ length (in_order apps.now)) }
{
    let names = sorted(alloc, apps)?;
    let edges = edges_of(alloc, &names, links)?;
    let ranks = place_all(alloc, names.len(), &edges)?;
    let order = named(alloc, &names, &ranks)?;
    Ok(order)
}
