//! The app of a name.
ghost use Rattle.std.specs.Prelude.{◌≡◌, ◌<◌, IsSome, Some, bytes_eq, length, position};
ghost use Rattle.sn_network.specs.Places.{class_in};
ghost use Rattle.sn_network.specs.Standing.{name_in};

use crate::place::Place;
use sn_names::Name;

/// The first place of an app of this name.
fn place_of(places: &[Place], name: &Name) -> Option<usize>
    ensures { result ≡ position (λ place. bytes_eq name.now place.name) places.now }
{
    let wanted = name.as_str().as_bytes();
    places
        .iter()
        .position(|place| wanted == place.name.as_str().as_bytes())
}

/// The place of the app of a name, which is there.
pub(crate) fn find_app(places: &[Place], name: &Name) -> usize
    requires { IsSome (class_in places.now name.now) }
    ensures name { name_in places.now result ≡ Some name.now }
    ensures within { result < length places.now }
{
    match place_of(places, name) {
        Some(at) => at,
        None => unreachable!(),
    }
}
