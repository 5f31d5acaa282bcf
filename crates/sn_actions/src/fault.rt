//! Why an action isn't taken.
ghost use Rattle.sn_actions.specs.declared.fault.ActionFault.TheVariants.{OutOfMemory};
ghost use Rattle.std.specs.Prelude.{◌≡◌};

use std::alloc::AllocError;
use thiserror::Error;

/// Why an action isn't taken.
#[derive(Debug, Drop, Error)]
pub enum ActionFault {
    /// The link isn't at this port.
    #[error("the link isn't at this port")]
    NotLinked,
    /// The link isn't there.
    #[error("the link isn't there")]
    NoLink,
    /// The link is at a port.
    #[error("the link is at a port")]
    StillLinked,
    /// The app isn't there.
    #[error("the app isn't there")]
    NoApp,
    /// The app is there.
    #[error("the app is there already")]
    AppThere,
    /// The app is of another class.
    #[error("the app is of another class")]
    OtherClass,
    /// The link is there.
    #[error("the link is there already")]
    LinkThere,
    /// A link is at this port.
    #[error("a link is at this port")]
    PortTaken,
    /// There was no memory.
    #[error("out of memory")]
    OutOfMemory,
}

impl From<AllocError> for ActionFault {
    ghost from_gives = { λ _ e. e ≡ OutOfMemory };

    fn from(_fault: AllocError) -> ActionFault {
        ActionFault::OutOfMemory
    }
}
