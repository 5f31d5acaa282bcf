//! The orders in which the apps of a network are called, by their places.
ghost use Rattle.std.specs.Prelude.{◌≡◌, ℕ, IfOk, IsSome, List, filter};
ghost use Rattle.std.specs.List.Sorted.{IsStrictlySortedBy};
ghost use Rattle.std.specs.Map.{keys_of, values_of};
ghost use Rattle.sn_names.specs.LinkOrder.{name_cmp, port_cmp};
ghost use Rattle.std.specs.List.{All};
ghost use Rattle.sn_actions.specs.PlainOf.{plain_of};
ghost use Rattle.sn_network.specs.Orders.{bringing, brings_in as is_bringing, is_linked as stands_linked};
ghost use Rattle.sn_network.specs.Orders.{pull_order as pulls_of, push_order as pushes_of};
ghost use Rattle.sn_network.specs.Places.{class_in};
ghost use Rattle.sn_network.specs.Standing.{IsOrder, class_of};

use crate::finding::find_app;
use crate::place::Place;
use sn_actions::{Plain, is_at_port};
use sn_config::AppSpec;
use sn_names::{Class, LinkSpec, Name};
use sn_order::{pull_order, push_order};
use std::alloc::{AllocError, Global};
use std::collections::BTreeMap;

/// Whether apps of a class bring packets in.
fn brings_in(class: Class) -> bool
    ensures { result ≡ is_bringing class }
{
    matches!(class, Class::Source | Class::PcapReader | Class::Receiver)
}

/// The names of the apps that bring packets in.
fn bringing_names(alloc: Global, apps: &BTreeMap<Name, AppSpec>) -> Result<Vec<Name>, AllocError>
    ensures { IfOk result (λ names. names.items ≡ bringing apps.now.entries) }
{
    let mut names = Vec::new(alloc);
    for (name, spec) in apps {
        if brings_in(spec.class) {
            names.push(name.copy(alloc)?)?;
        }
    }
    Ok(names)
}

/// Whether a link stands at its input port.
fn is_linked(plain: &Plain, link: &LinkSpec) -> bool
    ensures { result ≡ stands_linked (plain_of plain.now) link.now }
{
    is_at_port(&plain.ins, &link.to, &link.input, link)
}

/// The links that stand at an output port and at their input port.
fn linked_specs(alloc: Global, plain: &Plain) -> Result<Vec<LinkSpec>, AllocError>
    ensures { IfOk result (λ links.
        links.items ≡ filter (stands_linked (plain_of plain.now)) (values_of plain.now.outs.entries)) }
{
    let mut links = Vec::new(alloc);
    for link in plain.outs.values() {
        if is_linked(plain, link) {
            links.push(link.copy(alloc)?)?;
        }
    }
    Ok(links)
}

/// The names of the apps.
fn app_names(alloc: Global, apps: &BTreeMap<Name, AppSpec>) -> Result<Vec<Name>, AllocError>
    ensures { IfOk result (λ names. names.items ≡ keys_of apps.now.entries) }
{
    let mut names = Vec::new(alloc);
    for name in apps.keys() {
        names.push(name.copy(alloc)?)?;
    }
    Ok(names)
}

/// Recalls that the names of apps and the output ports ascend.
pub(crate) fn recall_orders(plain: &Plain)
    ensures apps { IsStrictlySortedBy name_cmp (keys_of plain.now.apps.entries) }
    ensures outs { IsStrictlySortedBy port_cmp (keys_of plain.now.outs.entries) }
{
    let _apps = plain.apps.len();
    let _outs = plain.outs.len();
}

/// The places of these apps, in their order.
fn places_of(alloc: Global, places: &[Place], names: &[Name]) -> Result<Vec<usize>, AllocError>
    requires { All (λ name. IsSome (class_in places.now name)) names.now }
    ensures { IfOk result (λ order. IsOrder places.now order.items names.now) }
{
    let mut order = Vec::with_capacity(alloc, names.len())?;
    for name in names {
        order.push(find_app(places, name))?;
    }
    Ok(order)
}

/// The order of pulls.
pub(crate) fn pulls_in(
    alloc: Global,
    places: &[Place],
    plain: &Plain,
) -> Result<Vec<usize>, AllocError>
    requires { (name : List ℕ) → class_in places.now name ≡ class_of (plain_of plain.now) name }
    ensures { IfOk result (λ order. IsOrder places.now order.items (pulls_of (plain_of plain.now))) }
{
    recall_orders(plain);
    let bringing = bringing_names(alloc, &plain.apps)?;
    let names = pull_order(alloc, &bringing)?;
    let order = places_of(alloc, places, &names)?;
    Ok(order)
}

/// The order of pushes.
pub(crate) fn pushes_in(
    alloc: Global,
    places: &[Place],
    plain: &Plain,
) -> Result<Vec<usize>, AllocError>
    requires { (name : List ℕ) → class_in places.now name ≡ class_of (plain_of plain.now) name }
    ensures { IfOk result (λ order. IsOrder places.now order.items (pushes_of (plain_of plain.now))) }
{
    recall_orders(plain);
    let apps = app_names(alloc, &plain.apps)?;
    let links = linked_specs(alloc, plain)?;
    let names = push_order(alloc, &apps, &links)?;
    let order = places_of(alloc, places, &names)?;
    Ok(order)
}
