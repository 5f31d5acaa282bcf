//! What a network has left: records that its readers haven't passed, and packets in its links.
ghost use Rattle.std.specs.FinMap as finmap;
ghost use Rattle.std.specs.Prelude.{◌≡◌, ◌≤◌, ◌-◌, ◌^◌, ℕ, IsSome, List, min, sum_by};
ghost use Rattle.sn_actions.specs.PlainOf.{plain_of};
ghost use Rattle.sn_app.specs.Desk.{Tray, roster_of};
ghost use Rattle.sn_app.specs.World.{Used, desk_of};
ghost use Rattle.sn_network.specs.Left.{CanCountAll, CanCountLeft, counted_in, left_in, queued_in};
ghost use Rattle.sn_network.specs.Networks.{IsStanding, plain_in, shown, world_of};
ghost use Rattle.sn_network.specs.Places.{class_in, named_in};
ghost use Rattle.sn_network.specs.Standing.{class_of};
ghost use Rattle.sn_wiring.specs.Links.{FitsRoster, slot_at};

use crate::Network;
use crate::finding::find_app;
use crate::orders::recall_orders;
use crate::place::Place;
use slab::Slab;
use sn_actions::Plain;
use sn_app::Ctx;
use sn_link::Link;
use sn_names::Name;
use sn_pcap::Capture;

/// How many records of its capture the app of a name, which is there, hasn't passed.
fn unread_by(places: &[Place], captures: &[Capture], name: &Name) -> u64
    requires there { IsSome (class_in places.now name.now) }
    requires once { named_in name.now places.now ≤ 1 }
    requires captures { CanCountAll places.now captures.now }
    ensures { result ≡ counted_in places.now captures.now name.now }
{
    let at = find_app(places, name);
    places[at].kind.unread(captures)
}

/// How many records of their captures the apps haven't passed.
fn unread_records(places: &[Place], plain: &Plain, captures: &[Capture]) -> u64
    requires once { (name : List ℕ) → named_in name places.now ≤ 1 }
    requires classes { (name : List ℕ) → class_in places.now name ≡ class_of (plain_of plain.now) name }
    requires captures { CanCountAll places.now captures.now }
    ensures { result ≡ min (sum_by (counted_in places.now captures.now) (finmap.keys (plain_of plain.now).apps)) (2 ^ 64 - 1) }
{
    recall_orders(plain);
    let mut total = 0_u64;
    for name in plain.apps.keys() {
        total = total.saturating_add(unread_by(places, captures, name));
    }
    total
}

/// How many packets the link at a key has, 0 where there is none.
fn queued_at(links: &Slab<Link>, key: usize) -> u32
    ensures { result ≡ queued_in (slot_at links.now.slots key) }
{
    match links.get(key) {
        Some(link) => link.nreadable(),
        None => 0,
    }
}

/// How many packets are in the links.
fn queued_packets(links: &Slab<Link>) -> u64
    ensures { result ≡ min (sum_by queued_in links.now.slots) (2 ^ 64 - 1) }
{
    let mut total = 0_u64;
    for key in 0..links.capacity() {
        total = total.saturating_add(u64::from(queued_at(links, key)));
    }
    total
}

impl Network {
    /// How many records its readers haven't passed, and how many packets are in its links, together; 2^64 - 1 where that is more.
    /// The captures are those of the context that it runs over, in their order.
    pub fn left_among(&self, captures: &[Capture]) -> u64
        requires { CanCountLeft self.now.places.items (plain_in self.now) captures.now }
        ensures { (used : Used) (t : Tray) → FitsRoster (roster_of t).links self.now.links.slots
            → captures.now ≡ t.log.constants.captures
            → result ≡ left_in (shown self.now used t) (desk_of (world_of self.now used t)) }
    {
        let unread = unread_records(&self.places, &self.plain, captures);
        unread.saturating_add(queued_packets(&self.links))
    }

    /// The same, where the context is at hand. Nothing is asked of it.
    pub fn left<C: Ctx>(&self, _ctx: &C, captures: &[Capture]) -> u64
        requires stands { IsStanding self.now (C.used _ctx.now) (C.tray _ctx.now) }
        requires captures { captures.now ≡ (C.tray _ctx.now).log.constants.captures }
        ensures { result ≡ left_in (shown self.now (C.used _ctx.now) (C.tray _ctx.now))
            (desk_of (world_of self.now (C.used _ctx.now) (C.tray _ctx.now))) }
    {
        self.left_among(captures)
    }
}
