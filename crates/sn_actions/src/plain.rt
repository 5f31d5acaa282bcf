//! The plain form of a network, and what each action does to it.
ghost use Rattle.sn_actions.specs.Consistency.{IsConsistent};
ghost use Rattle.sn_actions.specs.PlainForms.{empty_form};
ghost use Rattle.sn_actions.specs.PlainOf.{plain_of};
ghost use Rattle.sn_actions.specs.Plains.{apply};
ghost use Rattle.sn_actions.specs.declared.action.Action.TheVariants.{FreeLink, LinkInput, LinkOutput, NewLink, ReconfigApp, StartApp, StopApp, UnlinkInput, UnlinkOutput};
ghost use Rattle.sn_actions.specs.declared.fault.ActionFault.TheVariants.{OutOfMemory};
ghost use Rattle.std.specs.Prelude.{Err, IfErr, IsOk, Ok, OnErr, OnOk, ◌≡◌, ◌≢◌};

use crate::kept::{has_app, has_link, put_app, put_link, same_class_there, take_app, take_link};
use crate::ports::{
    drop_ports, has_port, is_at_port, is_at_some_port, port_key, put_port, take_port,
};
use crate::{Action, ActionFault};
use sn_config::AppSpec;
use sn_names::{LinkSpec, Name};
use std::alloc::Global;
use std::collections::{BTreeMap, BTreeSet};

/// The apps and links of a network, and which link is at which port. A key of `outs` and `ins` is
/// an app and its port.
#[derive(Debug, Drop)]
pub struct Plain {
    /// The apps.
    pub apps: BTreeMap<Name, AppSpec>,
    /// The links.
    pub links: BTreeSet<LinkSpec>,
    /// The links at output ports.
    pub outs: BTreeMap<(Name, Name), LinkSpec>,
    /// The links at input ports.
    pub ins: BTreeMap<(Name, Name), LinkSpec>,
    alloc: Global,
}

impl Plain {
    /// The empty plain form.
    #[tactic(auto, using(crate::proofs::Consistent::empty_sound))]
    pub fn new(alloc: Global) -> Plain
        ensures form { plain_of result ≡ empty_form }
        ensures sound { IsConsistent (plain_of result) }
    {
        Plain {
            apps: BTreeMap::new(alloc),
            links: BTreeSet::new(alloc),
            outs: BTreeMap::new(alloc),
            ins: BTreeMap::new(alloc),
            alloc,
        }
    }

    /// Takes an action.
    ///
    /// # Errors
    /// The first check of the action that fails; where none fails, want of memory. The plain form is
    /// then as before.
    pub fn apply(&mut self, action: &Action) -> Result<(), ActionFault>
        ensures ok { OnOk result (apply action.now (plain_of self.old) ≡ Ok (plain_of self.new)) }
        ensures refused { IfErr result (λ fault. fault ≢ OutOfMemory → apply action.now (plain_of self.old) ≡ Err fault) }
        ensures memory { IfErr result (λ fault. fault ≡ OutOfMemory → IsOk (apply action.now (plain_of self.old))) }
        ensures err { OnErr result (plain_of self.new ≡ plain_of self.old) }
        ensures sound { OnOk result (IsConsistent (plain_of self.old) → IsConsistent (plain_of self.new)) }
    {
        match action {
            Action::UnlinkOutput(link) => self.unlink_output(link),
            Action::UnlinkInput(link) => self.unlink_input(link),
            Action::FreeLink(link) => self.free_link(link),
            Action::StopApp(name) => self.stop_app(name),
            Action::StartApp(name, spec) => self.start_app(name, spec),
            Action::ReconfigApp(name, spec) => self.reconfig_app(name, spec),
            Action::NewLink(link) => self.new_link(link),
            Action::LinkOutput(link) => self.link_output(link),
            Action::LinkInput(link) => self.link_input(link),
            Action::Commit => Ok(()),
        }
    }

    /// Takes a link from its output port.
    fn unlink_output(&mut self, link: &LinkSpec) -> Result<(), ActionFault>
        ensures ok { OnOk result (apply (UnlinkOutput link.now) (plain_of self.old) ≡ Ok (plain_of self.new)) }
        ensures refused { IfErr result
            (λ fault. fault ≢ OutOfMemory → apply (UnlinkOutput link.now) (plain_of self.old) ≡ Err fault) }
        ensures memory { IfErr result (λ fault. fault ≡ OutOfMemory → IsOk (apply (UnlinkOutput link.now) (plain_of self.old))) }
        ensures err { OnErr result (plain_of self.new ≡ plain_of self.old) }
    {
        if !is_at_port(&self.outs, &link.from, &link.out, link) {
            return Err(ActionFault::NotLinked);
        }
        take_port(&mut self.outs, &link.from, &link.out);
        Ok(())
    }

    /// Takes a link from its input port.
    fn unlink_input(&mut self, link: &LinkSpec) -> Result<(), ActionFault>
        ensures ok { OnOk result (apply (UnlinkInput link.now) (plain_of self.old) ≡ Ok (plain_of self.new)) }
        ensures refused { IfErr result
            (λ fault. fault ≢ OutOfMemory → apply (UnlinkInput link.now) (plain_of self.old) ≡ Err fault) }
        ensures memory { IfErr result (λ fault. fault ≡ OutOfMemory → IsOk (apply (UnlinkInput link.now) (plain_of self.old))) }
        ensures err { OnErr result (plain_of self.new ≡ plain_of self.old) }
    {
        if !is_at_port(&self.ins, &link.to, &link.input, link) {
            return Err(ActionFault::NotLinked);
        }
        take_port(&mut self.ins, &link.to, &link.input);
        Ok(())
    }

    /// Frees a link that is at no port, neither at its own nor at another.
    fn free_link(&mut self, link: &LinkSpec) -> Result<(), ActionFault>
        ensures ok { OnOk result (apply (FreeLink link.now) (plain_of self.old) ≡ Ok (plain_of self.new)) }
        ensures refused { IfErr result
            (λ fault. fault ≢ OutOfMemory → apply (FreeLink link.now) (plain_of self.old) ≡ Err fault) }
        ensures memory { IfErr result (λ fault. fault ≡ OutOfMemory → IsOk (apply (FreeLink link.now) (plain_of self.old))) }
        ensures err { OnErr result (plain_of self.new ≡ plain_of self.old) }
    {
        if !has_link(&self.links, link) {
            return Err(ActionFault::NoLink);
        }
        if is_at_some_port(&self.outs, link) || is_at_some_port(&self.ins, link) {
            return Err(ActionFault::StillLinked);
        }
        take_link(&mut self.links, link);
        Ok(())
    }

    /// Stops an app, with what is at its ports.
    fn stop_app(&mut self, name: &Name) -> Result<(), ActionFault>
        ensures ok { OnOk result (apply (StopApp name.now) (plain_of self.old) ≡ Ok (plain_of self.new)) }
        ensures refused { IfErr result (λ fault. fault ≢ OutOfMemory → apply (StopApp name.now) (plain_of self.old) ≡ Err fault) }
        ensures memory { IfErr result (λ fault. fault ≡ OutOfMemory → IsOk (apply (StopApp name.now) (plain_of self.old))) }
        ensures err { OnErr result (plain_of self.new ≡ plain_of self.old) }
    {
        if !has_app(&self.apps, name) {
            return Err(ActionFault::NoApp);
        }
        take_app(&mut self.apps, name);
        drop_ports(&mut self.outs, name);
        drop_ports(&mut self.ins, name);
        Ok(())
    }

    /// Starts an app.
    fn start_app(&mut self, name: &Name, spec: &AppSpec) -> Result<(), ActionFault>
        ensures ok { OnOk result (apply (StartApp name.now spec.now) (plain_of self.old) ≡ Ok (plain_of self.new)) }
        ensures refused { IfErr result
            (λ fault. fault ≢ OutOfMemory → apply (StartApp name.now spec.now) (plain_of self.old) ≡ Err fault) }
        ensures memory { IfErr result
            (λ fault. fault ≡ OutOfMemory → IsOk (apply (StartApp name.now spec.now) (plain_of self.old))) }
        ensures err { OnErr result (plain_of self.new ≡ plain_of self.old) }
    {
        if has_app(&self.apps, name) {
            return Err(ActionFault::AppThere);
        }
        put_app(
            &mut self.apps,
            name.copy(self.alloc)?,
            spec.copy(self.alloc)?,
        )?;
        Ok(())
    }

    /// Gives an app another argument.
    fn reconfig_app(&mut self, name: &Name, spec: &AppSpec) -> Result<(), ActionFault>
        ensures ok { OnOk result (apply (ReconfigApp name.now spec.now) (plain_of self.old) ≡ Ok (plain_of self.new)) }
        ensures refused { IfErr result (λ fault. fault ≢ OutOfMemory → apply (ReconfigApp name.now spec.now) (plain_of self.old)
            ≡ Err fault) }
        ensures memory { IfErr result
            (λ fault. fault ≡ OutOfMemory → IsOk (apply (ReconfigApp name.now spec.now) (plain_of self.old))) }
        ensures err { OnErr result (plain_of self.new ≡ plain_of self.old) }
    {
        let Some(same) = same_class_there(&self.apps, name, spec) else {
            return Err(ActionFault::NoApp);
        };
        if !same {
            return Err(ActionFault::OtherClass);
        }
        put_app(
            &mut self.apps,
            name.copy(self.alloc)?,
            spec.copy(self.alloc)?,
        )?;
        Ok(())
    }

    /// Makes a link.
    fn new_link(&mut self, link: &LinkSpec) -> Result<(), ActionFault>
        ensures ok { OnOk result (apply (NewLink link.now) (plain_of self.old) ≡ Ok (plain_of self.new)) }
        ensures refused { IfErr result (λ fault. fault ≢ OutOfMemory → apply (NewLink link.now) (plain_of self.old) ≡ Err fault) }
        ensures memory { IfErr result (λ fault. fault ≡ OutOfMemory → IsOk (apply (NewLink link.now) (plain_of self.old))) }
        ensures err { OnErr result (plain_of self.new ≡ plain_of self.old) }
    {
        if has_link(&self.links, link) {
            return Err(ActionFault::LinkThere);
        }
        put_link(&mut self.links, link.copy(self.alloc)?)?;
        Ok(())
    }

    /// Puts a link to its output port.
    fn link_output(&mut self, link: &LinkSpec) -> Result<(), ActionFault>
        ensures ok { OnOk result (apply (LinkOutput link.now) (plain_of self.old) ≡ Ok (plain_of self.new)) }
        ensures refused { IfErr result
            (λ fault. fault ≢ OutOfMemory → apply (LinkOutput link.now) (plain_of self.old) ≡ Err fault) }
        ensures memory { IfErr result (λ fault. fault ≡ OutOfMemory → IsOk (apply (LinkOutput link.now) (plain_of self.old))) }
        ensures err { OnErr result (plain_of self.new ≡ plain_of self.old) }
    {
        if !has_link(&self.links, link) {
            return Err(ActionFault::NoLink);
        }
        if !has_app(&self.apps, &link.from) {
            return Err(ActionFault::NoApp);
        }
        if has_port(&self.outs, &link.from, &link.out) {
            return Err(ActionFault::PortTaken);
        }
        let key = port_key(self.alloc, &link.from, &link.out)?;
        put_port(&mut self.outs, key, link.copy(self.alloc)?)?;
        Ok(())
    }

    /// Puts a link to its input port.
    fn link_input(&mut self, link: &LinkSpec) -> Result<(), ActionFault>
        ensures ok { OnOk result (apply (LinkInput link.now) (plain_of self.old) ≡ Ok (plain_of self.new)) }
        ensures refused { IfErr result
            (λ fault. fault ≢ OutOfMemory → apply (LinkInput link.now) (plain_of self.old) ≡ Err fault) }
        ensures memory { IfErr result (λ fault. fault ≡ OutOfMemory → IsOk (apply (LinkInput link.now) (plain_of self.old))) }
        ensures err { OnErr result (plain_of self.new ≡ plain_of self.old) }
    {
        if !has_link(&self.links, link) {
            return Err(ActionFault::NoLink);
        }
        if !has_app(&self.apps, &link.to) {
            return Err(ActionFault::NoApp);
        }
        if has_port(&self.ins, &link.to, &link.input) {
            return Err(ActionFault::PortTaken);
        }
        let key = port_key(self.alloc, &link.to, &link.input)?;
        put_port(&mut self.ins, key, link.copy(self.alloc)?)?;
        Ok(())
    }
}
