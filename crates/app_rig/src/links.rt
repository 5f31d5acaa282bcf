//! Links in a slab, each with its row.
ghost use Rattle.std.specs.Prelude.{◌≡◌, ◌≢◌, ℕ, IfOk, IsSome, None, OnOk, slice_index_or};
ghost use Rattle.sn_app.specs.Desk.{Tray};
ghost use Rattle.sn_app.specs.World.{IsSound, Used, nowhere, rows_in, world};
ghost use Rattle.app_rig.specs.Links.{AreLinked, IsLinked, KeepsLinks, KeepsSound};

use slab::Slab;
use sn_link::Link;
use std::alloc::{AllocError, Global};

/// Adds an empty link of a row that no link has, and answers its key.
fn add_link(alloc: Global, links: &mut Slab<Link>, row: u32) -> Result<usize, AllocError>
    requires { rows_in row links.old.slots ≡ 0 }
    ensures here { IfOk result (IsLinked links.new.slots) }
    ensures kept { OnOk result (KeepsLinks links.old.slots links.new.slots) }
    ensures rows { OnOk result ((other : ℕ) → other ≢ row → rows_in other links.new.slots ≡ rows_in other links.old.slots) }
    ensures sound { OnOk result (KeepsSound links.old.slots links.new.slots) }
{
    let link = Link::of_row(alloc, row)?;
    let key = links.insert(link)?;
    Ok(key)
}

/// Four empty links of the rows 0 to 3, with their keys.
///
/// # Errors
/// Want of memory.
pub fn four_links(alloc: Global) -> Result<(Slab<Link>, (usize, usize), (usize, usize)), AllocError>
    ensures linked { IfOk result (λ made. AreLinked made.0.slots made.1 made.2) }
    ensures sound { IfOk result (λ made. (t : Tray) (u : Used) → IsSound (world t u made.0.slots) nowhere) }
{
    let mut links = Slab::new(alloc);
    let first = add_link(alloc, &mut links, 0)?;
    let second = add_link(alloc, &mut links, 1)?;
    let third = add_link(alloc, &mut links, 2)?;
    let fourth = add_link(alloc, &mut links, 3)?;
    Ok((links, (first, second), (third, fourth)))
}
