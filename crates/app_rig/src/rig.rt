//! A bench with four links, over which apps are called one after another.
ghost use Rattle.std.specs.Prelude.{◌≡◌, ◌≤◌, ℕ, IfOk, None, OnOk, length};
ghost use Rattle.sn_packet.specs.Hold.{used_of};
ghost use Rattle.sn_app.specs.Bench.{tray_of};
ghost use Rattle.sn_app.specs.Ports.{HasLinks};
ghost use Rattle.sn_app.specs.Answers.{Stays};
ghost use Rattle.sn_app.specs.World.{IsSound, nowhere, ◌⊕◌};
ghost use Rattle.app_rig.specs.Links.{AreLinked, IsLinked};
ghost use Rattle.app_rig.specs.Rigs.{IsWhole, key_of, world_of};

use crate::links::four_links;
use crate::turns::{pull_once, push_once};
use slab::Slab;
use sn_app::{App, Bench};
use sn_link::{Link, LinkCounts};
use sn_names::Name;
use std::alloc::{AllocError, Global};
use std::test::Fail;

/// One of the four links.
#[derive(Clone, Copy, Debug, PartialEq, Eq)]
pub enum At {
    First,
    Second,
    Third,
    Fourth,
}

/// A bench, and four links with their keys.
#[derive(Drop)]
pub struct Rig {
    pub bench: Bench,
    pub links: Slab<Link>,
    pub some: (usize, usize),
    pub more: (usize, usize),
}

impl Rig {
    /// A bench with four empty links.
    ///
    /// # Errors
    /// Want of memory.
    pub fn new(alloc: Global, bench: Bench) -> Result<Rig, AllocError>
        ensures rig { IfOk result (λ rig. IsWhole rig.bench rig.links.slots rig.some rig.more nowhere) }
        ensures bench { IfOk result (λ rig. rig.bench ≡ bench) }
        ensures apps { IfOk result (λ rig. length rig.bench.roster.apps ≡ length bench.roster.apps) }
    {
        let (links, some, more) = four_links(alloc)?;
        Ok(Rig {
            bench,
            links,
            some,
            more,
        })
    }

    /// The key of a link.
    fn key(&self, at: At) -> usize
        ensures { result ≡ key_of at self.now.some self.now.more }
    {
        match at {
            At::First => self.some.0,
            At::Second => self.some.1,
            At::Third => self.more.0,
            At::Fourth => self.more.1,
        }
    }

    /// Ports of these names, at these links.
    fn wired(&self, alloc: Global, ports: &[(&str, At)]) -> Result<Vec<(Name, usize)>, Fail>
        requires { AreLinked self.now.links.slots self.now.some self.now.more }
        ensures { IfOk result (λ wired. HasLinks self.now.links.slots wired.items) }
    {
        let mut wired = Vec::with_capacity(alloc, ports.len())?;
        for (name, at) in ports {
            let name = Name::parse(alloc, name.as_bytes())?;
            wired.push((name, self.key(*at)))?;
        }
        Ok(wired)
    }

    /// An app's pull, with these outputs.
    ///
    /// # Errors
    /// Those of the app's pull, and want of memory.
    pub fn pull<A: App<Bench>>(
        &mut self,
        alloc: Global,
        app: &mut A,
        outs: &[(&str, At)],
    ) -> Result<(), Fail>
        requires rig { IsWhole self.old.bench self.old.links.slots self.old.some self.old.more (A.places app.old) }
        requires ready { A.can_run app.old (tray_of self.old.bench) }
        ensures rig { OnOk result (IsWhole self.new.bench self.new.links.slots self.new.some self.new.more (A.places app.new)) }
        ensures ready { OnOk result (A.can_run app.new (tray_of self.new.bench)) }
        ensures beside { OnOk result ((others : ℕ → ℕ)
            → IsSound (world_of self.old.bench self.old.links.slots) (A.places app.old ⊕ others)
            → IsSound (world_of self.new.bench self.new.links.slots) (A.places app.new ⊕ others)) }
        ensures stays { Stays (tray_of self.old.bench) (tray_of self.new.bench) }
        ensures apps { length self.new.bench.roster.apps ≡ length self.old.bench.roster.apps }
    {
        let outs = self.wired(alloc, outs)?;
        pull_once(app, &mut self.bench, &mut self.links, &[], &outs)?;
        Ok(())
    }

    /// An app's push, with these inputs and outputs.
    ///
    /// # Errors
    /// Those of the app's push, and want of memory.
    pub fn push<A: App<Bench>>(
        &mut self,
        alloc: Global,
        app: &mut A,
        ins: &[(&str, At)],
        outs: &[(&str, At)],
    ) -> Result<(), Fail>
        requires rig { IsWhole self.old.bench self.old.links.slots self.old.some self.old.more (A.places app.old) }
        requires ready { A.can_run app.old (tray_of self.old.bench) }
        ensures rig { OnOk result (IsWhole self.new.bench self.new.links.slots self.new.some self.new.more (A.places app.new)) }
        ensures ready { OnOk result (A.can_run app.new (tray_of self.new.bench)) }
        ensures beside { OnOk result ((others : ℕ → ℕ)
            → IsSound (world_of self.old.bench self.old.links.slots) (A.places app.old ⊕ others)
            → IsSound (world_of self.new.bench self.new.links.slots) (A.places app.new ⊕ others)) }
        ensures stays { Stays (tray_of self.old.bench) (tray_of self.new.bench) }
        ensures apps { length self.new.bench.roster.apps ≡ length self.old.bench.roster.apps }
    {
        let ins = self.wired(alloc, ins)?;
        let outs = self.wired(alloc, outs)?;
        push_once(app, &mut self.bench, &mut self.links, &ins, &outs)?;
        Ok(())
    }

    /// How many packets a link has, and its counts.
    pub fn seen(&self, at: At) -> (u32, LinkCounts) {
        match self.links.get(self.key(at)) {
            Some(link) => (link.nreadable(), link.counts()),
            None => (0, LinkCounts::new()),
        }
    }

    /// The place at the front of a link, if it has a packet.
    pub fn front(&self, at: At) -> Option<u32> {
        match self.links.get(self.key(at)) {
            Some(link) => link.front(),
            None => None,
        }
    }
}
