//! The ports of an app, made from what is at its keys.
ghost use Rattle.std.specs.FinMap as finmap;
ghost use Rattle.std.specs.Prelude.{◌≡◌, ◌≤◌, IfOk, IsSome, bytes_eq};
ghost use Rattle.sn_app.specs.Calls.{HasLink, row_of_link};
ghost use Rattle.sn_app.specs.Desk.{roster_of};
ghost use Rattle.sn_app.specs.Ports.{line_at};
ghost use Rattle.sn_app.specs.World.{rows_in};
ghost use Rattle.sn_names.specs.LinkOrder.{port_cmp};
ghost use Rattle.sn_wiring.specs.Links.{slot_at};
ghost use Rattle.sn_wiring.specs.Wired.{AreThere, Wired};
ghost use Rattle.std.specs.List.Sorted.{IsStrictlySortedBy};
ghost use Rattle.std.specs.Map.{keys_of};

use crate::keys::key_of_row;
use slab::Slab;
use sn_app::Ctx;
use sn_link::Link;
use sn_names::{LinkSpec, Name};
use std::alloc::{AllocError, Global};
use std::collections::BTreeMap;

/// Whether a key is one of this app.
fn is_of_app(key: &(Name, Name), name: &Name) -> bool
    ensures { result ≡ bytes_eq key.now.0 name.now }
{
    key.0.as_str().as_bytes() == name.as_str().as_bytes()
}

/// A port with the key of the link that it leads to.
fn port_to<C: Ctx>(
    alloc: Global,
    ctx: &C,
    links: &Slab<Link>,
    port: &Name,
    link: &LinkSpec,
) -> Result<(Name, usize), AllocError>
    requires link { HasLink (roster_of (C.tray ctx.now)).links link.now }
    requires here { 1 ≤ rows_in (row_of_link (roster_of (C.tray ctx.now)).links link.now) links.now.slots }
    ensures name { IfOk result (λ made. made.0 ≡ port.now) }
    ensures there { IfOk result (λ made. IsSome (slot_at links.now.slots made.1)) }
    ensures row { IfOk result (λ made. (line_at links.now.slots made.1).row
        ≡ row_of_link (roster_of (C.tray ctx.now)).links link.now) }
{
    let key = key_of_row(links, ctx.link_row(link));
    Ok((port.copy(alloc)?, key))
}

/// Recalls that the keys ascend.
fn recall_keys(ports: &BTreeMap<(Name, Name), LinkSpec>)
    ensures { IsStrictlySortedBy port_cmp (keys_of ports.now.entries) }
{
    let _length = ports.len();
}

/// The ports of an app by their names in bytewise order, each with the key of the link that is there.
///
/// # Errors
/// Want of memory.
pub fn wired_ports<C: Ctx>(
    alloc: Global,
    ctx: &C,
    links: &Slab<Link>,
    at: &BTreeMap<(Name, Name), LinkSpec>,
    name: &Name,
) -> Result<Vec<(Name, usize)>, AllocError>
    requires { AreThere links.now.slots (roster_of (C.tray ctx.now)).links (finmap.from_entries at.now.entries) }
    ensures { IfOk result (λ ports. Wired links.now.slots (roster_of (C.tray ctx.now)).links
        (finmap.from_entries at.now.entries) name.now ports.items) }
{
    recall_keys(at);
    let mut ports = Vec::new(alloc);
    for (key, link) in at {
        if is_of_app(key, name) {
            ports.push(port_to(alloc, ctx, links, &key.1, link)?)?;
        }
    }
    Ok(ports)
}
