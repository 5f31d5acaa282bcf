//! A worker's network.
ghost use Rattle.std.specs.Prelude.{◌≡◌, ◌<◌, ℕ, IsOk, List, Ok, OnOk, length, slice_index_or, []};
ghost use Rattle.sn_actions.specs.PlainForms.{empty_form};
ghost use Rattle.sn_actions.specs.PlainOf.{plain_of};
ghost use Rattle.sn_actions.specs.Plains.{apply};
ghost use Rattle.sn_actions.specs.declared.action.Action.TheVariants.{Commit};
ghost use Rattle.sn_app.specs.Desk.{Tray};
ghost use Rattle.sn_app.specs.Runs.{Runs, stands_at};
ghost use Rattle.sn_app.specs.World.{IsSound, Used, desk_of, nowhere, world};
ghost use Rattle.sn_network.specs.Acting.{acts};
ghost use Rattle.sn_network.specs.Calling.{pull_app, push_app};
ghost use Rattle.sn_network.specs.Nets.{no_net};
ghost use Rattle.sn_network.specs.Networks.{CanBeLost, CanBreathe, IsStanding, kept_by, plain_in, shown, world_of};
ghost use Rattle.sn_network.specs.Orders.{pull_order, push_order};
ghost use Rattle.sn_network.specs.Standing.{Finds};
ghost use Rattle.sn_wiring.specs.Lost.{lost};

use crate::acting::{take_free, take_new, take_reconfig, take_start, take_stop, take_wiring};
use crate::calls::call_at;
use crate::committing::commit;
use crate::place::Place;
use crate::verb::Verb;
use slab::Slab;
use sn_actions::{Action, Plain};
use sn_app::{Ctx, Halt};
use sn_link::Link;
use sn_wiring::lose_links;
use std::alloc::Global;

/// A worker's network: its apps, the links between them, and the orders in which the apps are called.
///
/// Contracts see it with the tray and the used packets of the context that it runs over: as its plain form with each app's
/// state by its name (`shown`), as the world of the context and its links (`world_of`), and by the places that its apps keep
/// (`kept_by`). Every call is with a context of the same roster. After an error the network is only given to `lose`.
#[derive(Drop)]
pub struct Network {
    pub(crate) places: Vec<Place>,
    pub(crate) links: Slab<Link>,
    /// The places of the apps, in the orders of pulls and of pushes.
    pub(crate) pulls: Vec<usize>,
    pub(crate) pushes: Vec<usize>,
    pub(crate) plain: Plain,
    pub(crate) alloc: Global,
}

impl Network {
    /// The empty network.
    pub fn new(alloc: Global) -> Network
        ensures plain { plain_in result ≡ empty_form }
        ensures shown { (used : Used) (t : Tray) → shown result used t ≡ no_net }
        ensures ready { (used : Used) (t : Tray) → CanBreathe result used t }
        ensures kept { (place : ℕ) → kept_by result place ≡ 0 }
        ensures queues { (used : Used) (t : Tray) → world_of result used t ≡ world t used [] }
    {
        Network {
            places: Vec::new(alloc),
            links: Slab::new(alloc),
            pulls: Vec::new(alloc),
            pushes: Vec::new(alloc),
            plain: Plain::new(alloc),
            alloc,
        }
    }

    /// Its plain form.
    pub fn plain(&self) -> &Plain
        ensures { plain_of result.now ≡ plain_in self.now }
    {
        &self.plain
    }

    /// How many apps the order of pulls has.
    pub fn pulls(&self) -> usize
        requires { (t : Tray) × (used : Used) × CanBreathe self.now used t }
        ensures { result ≡ length (pull_order (plain_in self.now)) }
    {
        self.pulls.len()
    }

    /// How many apps the order of pushes has: all of them.
    pub fn pushes(&self) -> usize
        requires { (t : Tray) × (used : Used) × CanBreathe self.now used t }
        ensures { result ≡ length (push_order (plain_in self.now)) }
    {
        self.pushes.len()
    }

    /// Takes an action. It may be one that the plain form takes, of which all that it names is there.
    ///
    /// # Errors
    /// A stop, or want of memory.
    pub fn apply<C: Ctx>(&mut self, ctx: &mut C, action: &Action) -> Result<(), Halt>
        requires stands { IsStanding self.old (C.used ctx.old) (C.tray ctx.old) }
        requires taken { IsOk (apply action.now (plain_in self.old)) }
        requires found { Finds action.now (C.tray ctx.old) }
        ensures runs { Runs (acts action.now (shown self.old (C.used ctx.old) (C.tray ctx.old)))
            (world_of self.old (C.used ctx.old) (C.tray ctx.old)) (world_of self.new (C.used ctx.new) (C.tray ctx.new))
            (kept_by self.old) (kept_by self.new) (stands_at (shown self.new (C.used ctx.new) (C.tray ctx.new)) result) }
        ensures plain { OnOk result (apply action.now (plain_in self.old) ≡ Ok (plain_in self.new)) }
        ensures stands { OnOk result (IsStanding self.new (C.used ctx.new) (C.tray ctx.new)) }
        ensures ready { OnOk result (action.now ≡ Commit → CanBreathe self.new (C.used ctx.new) (C.tray ctx.new)) }
        ensures lost { CanBeLost self.new (C.tray ctx.new) }
        ensures lent { C.lender ctx.new ≡ C.lender ctx.old }
    {
        match action {
            Action::FreeLink(link) => take_free(
                &mut self.plain,
                &self.places,
                &mut self.links,
                ctx,
                action,
                link,
            ),
            Action::NewLink(link) => take_new(
                self.alloc,
                &mut self.plain,
                &self.places,
                &mut self.links,
                ctx,
                action,
                link,
            ),
            Action::StopApp(name) => take_stop(
                &mut self.plain,
                &mut self.places,
                &self.links,
                ctx,
                action,
                name,
            ),
            Action::StartApp(name, spec) => take_start(
                self.alloc,
                &mut self.plain,
                &mut self.places,
                &self.links,
                ctx,
                action,
                (name, spec),
            ),
            Action::ReconfigApp(name, spec) => take_reconfig(
                &mut self.plain,
                &mut self.places,
                &self.links,
                ctx,
                action,
                (name, spec),
            ),
            Action::Commit => commit(self, ctx),
            _ => take_wiring(&mut self.plain, &self.places, &self.links, ctx, action),
        }
    }

    /// Calls the app at a place of the order of pulls: it brings packets in.
    ///
    /// # Errors
    /// A stop, or want of memory.
    pub fn pull<C: Ctx>(&mut self, ctx: &mut C, i: usize) -> Result<(), Halt>
        requires ready { CanBreathe self.old (C.used ctx.old) (C.tray ctx.old) }
        requires within { i < length (pull_order (plain_in self.old)) }
        ensures runs { Runs (pull_app (slice_index_or (pull_order (plain_in self.old)) i [])
            (shown self.old (C.used ctx.old) (C.tray ctx.old)))
            (world_of self.old (C.used ctx.old) (C.tray ctx.old)) (world_of self.new (C.used ctx.new) (C.tray ctx.new))
            (kept_by self.old) (kept_by self.new) (stands_at (shown self.new (C.used ctx.new) (C.tray ctx.new)) result) }
        ensures plain { plain_in self.new ≡ plain_in self.old }
        ensures ready { OnOk result (CanBreathe self.new (C.used ctx.new) (C.tray ctx.new)) }
        ensures lost { CanBeLost self.new (C.tray ctx.new) }
        ensures lent { C.lender ctx.new ≡ C.lender ctx.old }
    {
        let at = self.pulls[i];
        call_at(
            &mut self.places,
            at,
            Verb::Pull,
            ctx,
            &mut self.links,
            &self.plain,
        )
    }

    /// Calls the app at a place of the order of pushes: it passes packets on.
    ///
    /// # Errors
    /// A stop, or want of memory.
    pub fn push<C: Ctx>(&mut self, ctx: &mut C, i: usize) -> Result<(), Halt>
        requires ready { CanBreathe self.old (C.used ctx.old) (C.tray ctx.old) }
        requires within { i < length (push_order (plain_in self.old)) }
        ensures runs { Runs (push_app (slice_index_or (push_order (plain_in self.old)) i [])
            (shown self.old (C.used ctx.old) (C.tray ctx.old)))
            (world_of self.old (C.used ctx.old) (C.tray ctx.old)) (world_of self.new (C.used ctx.new) (C.tray ctx.new))
            (kept_by self.old) (kept_by self.new) (stands_at (shown self.new (C.used ctx.new) (C.tray ctx.new)) result) }
        ensures plain { plain_in self.new ≡ plain_in self.old }
        ensures ready { OnOk result (CanBreathe self.new (C.used ctx.new) (C.tray ctx.new)) }
        ensures lost { CanBeLost self.new (C.tray ctx.new) }
        ensures lent { C.lender ctx.new ≡ C.lender ctx.old }
    {
        let at = self.pushes[i];
        call_at(
            &mut self.places,
            at,
            Verb::Push,
            ctx,
            &mut self.links,
            &self.plain,
        )
    }

    /// Loses the network: the counts of all its links are kept, and the rest is dropped.
    pub fn lose<C: Ctx>(self, ctx: &mut C)
        requires { CanBeLost self (C.tray ctx.old) }
        ensures lost { desk_of (world (C.tray ctx.new) (C.used ctx.new) [])
            ≡ lost (desk_of (world_of self (C.used ctx.old) (C.tray ctx.old))) }
        ensures used { C.used ctx.new ≡ C.used ctx.old }
        ensures lent { C.lender ctx.new ≡ C.lender ctx.old }
    {
        lose_links(ctx, self.links);
    }
}
