//! The ends of interlinks that apps take.
ghost use Rattle.sn_scenario.specs.FileUses.{is_named};
ghost use Rattle.sn_scenario.specs.LaneEnds.{end_fault, has_receiver, has_transmitter, is_receiver, is_transmitter, lane_named, leads_from, leads_to, receiver_fault, transmitter_fault};
ghost use Rattle.std.specs.Prelude.{◌≡◌};

use crate::Lane;
use sn_config::{AppSpec, Config};
use sn_names::{Arg, Class, Name};
use std::collections::BTreeMap;

/// Whether an argument names this interlink.
fn is_lane(arg: &Arg, name: &Name) -> bool
    ensures { result ≡ is_named (lane_named arg.now) name.now }
{
    match arg {
        Arg::Lane(other) => *other == *name,
        _ => false,
    }
}

/// Whether a class receives.
fn is_receiver(class: Class) -> bool
    ensures { result ≡ is_receiver class }
{
    match class {
        Class::Receiver => true,
        _ => false,
    }
}

/// Whether a class transmits.
fn is_transmitter(class: Class) -> bool
    ensures { result ≡ is_transmitter class }
{
    match class {
        Class::Transmitter => true,
        _ => false,
    }
}

/// Whether an interlink of this name leads to the worker.
fn leads_to(lanes: &[Lane], worker: u32, name: &Name) -> bool
    ensures { result ≡ leads_to lanes.now worker name.now }
{
    lanes
        .iter()
        .any(|lane| lane.name == *name && lane.rx == worker)
}

/// Whether an interlink of this name leads from the worker.
fn leads_from(lanes: &[Lane], worker: u32, name: &Name) -> bool
    ensures { result ≡ leads_from lanes.now worker name.now }
{
    lanes
        .iter()
        .any(|lane| lane.name == *name && lane.tx == worker)
}

/// Whether an app receives from this interlink.
fn has_receiver(apps: &BTreeMap<Name, AppSpec>, name: &Name) -> bool
    ensures { result ≡ has_receiver apps.now.entries name.now }
{
    apps.iter().any(|app| is_receiver(app.1.class) && is_lane(&app.1.arg, name))
}

/// Whether an app transmits into this interlink.
fn has_transmitter(apps: &BTreeMap<Name, AppSpec>, name: &Name) -> bool
    ensures { result ≡ has_transmitter apps.now.entries name.now }
{
    apps.iter().any(|app| is_transmitter(app.1.class) && is_lane(&app.1.arg, name))
}

/// Whether a receiver can't have this end.
fn receiver_fault(lanes: &[Lane], worker: u32, config: &Config, arg: &Arg) -> bool
    ensures { result ≡ receiver_fault lanes.now worker config.now.apps (lane_named arg.now) }
{
    match arg {
        Arg::Lane(name) => !leads_to(lanes, worker, name) || has_receiver(config.apps(), name),
        _ => false,
    }
}

/// Whether a transmitter can't have this end.
fn transmitter_fault(lanes: &[Lane], worker: u32, config: &Config, arg: &Arg) -> bool
    ensures { result ≡ transmitter_fault lanes.now worker config.now.apps (lane_named arg.now) }
{
    match arg {
        Arg::Lane(name) => !leads_from(lanes, worker, name) || has_transmitter(config.apps(), name),
        _ => false,
    }
}

/// Whether an app can't have the end that its argument names.
pub(crate) fn end_fault(
    lanes: &[Lane],
    worker: u32,
    config: &Config,
    class: Class,
    arg: &Arg,
) -> bool
    ensures { result ≡ end_fault lanes.now worker config.now.apps class arg.now }
{
    match class {
        Class::Receiver => receiver_fault(lanes, worker, config, arg),
        Class::Transmitter => transmitter_fault(lanes, worker, config, arg),
        _ => false,
    }
}
