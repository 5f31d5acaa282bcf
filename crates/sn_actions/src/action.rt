//! What changes a network.
ghost use Rattle.std.specs.Prelude.{IfOk, ◌≡◌};

use sn_config::AppSpec;
use sn_names::{LinkSpec, Name};
use std::alloc::{AllocError, Global};

/// A change of a network.
#[derive(Debug, Drop)]
pub enum Action {
    /// Takes a link from its output port.
    UnlinkOutput(LinkSpec),
    /// Takes a link from its input port.
    UnlinkInput(LinkSpec),
    /// Frees a link that is at no port.
    FreeLink(LinkSpec),
    /// Stops an app, with what is at its ports.
    StopApp(Name),
    /// Starts an app.
    StartApp(Name, AppSpec),
    /// Gives an app another argument.
    ReconfigApp(Name, AppSpec),
    /// Makes a link.
    NewLink(LinkSpec),
    /// Puts a link to its output port.
    LinkOutput(LinkSpec),
    /// Puts a link to its input port.
    LinkInput(LinkSpec),
    /// Ends the changes of one configuration.
    Commit,
}

impl Action {
    /// An equal action.
    ///
    /// # Errors
    /// Want of memory.
    pub fn copy(&self, alloc: Global) -> Result<Action, AllocError>
        ensures { IfOk result (λ action. action ≡ self.now) }
    {
        match self {
            Action::UnlinkOutput(link) => Ok(Action::UnlinkOutput(link.copy(alloc)?)),
            Action::UnlinkInput(link) => Ok(Action::UnlinkInput(link.copy(alloc)?)),
            Action::FreeLink(link) => Ok(Action::FreeLink(link.copy(alloc)?)),
            Action::StopApp(name) => Ok(Action::StopApp(name.copy(alloc)?)),
            Action::StartApp(name, spec) => {
                Ok(Action::StartApp(name.copy(alloc)?, spec.copy(alloc)?))
            }
            Action::ReconfigApp(name, spec) => {
                Ok(Action::ReconfigApp(name.copy(alloc)?, spec.copy(alloc)?))
            }
            Action::NewLink(link) => Ok(Action::NewLink(link.copy(alloc)?)),
            Action::LinkOutput(link) => Ok(Action::LinkOutput(link.copy(alloc)?)),
            Action::LinkInput(link) => Ok(Action::LinkInput(link.copy(alloc)?)),
            Action::Commit => Ok(Action::Commit),
        }
    }
}
