//! Why something isn't added to a configuration.
ghost use Rattle.sn_config.specs.declared.fault.ConfigFault.TheVariants.{OutOfMemory};
ghost use Rattle.std.specs.Prelude.{◌≡◌};

use std::alloc::AllocError;
use thiserror::Error;

/// Why an app or a link isn't added.
#[derive(Debug, Drop, Error)]
pub enum ConfigFault {
    /// It is there.
    #[error("it is there already")]
    Twice,
    /// An app of the link isn't there.
    #[error("an app of the link isn't there")]
    NoSuchApp,
    /// The class doesn't take this argument.
    #[error("the class doesn't take this argument")]
    BadArg,
    /// Another link has the same output port or the same input port.
    #[error("another link has this port")]
    PortTaken,
    /// There are as many apps or links as there may be.
    #[error("there are too many")]
    TooMany,
    /// There was no memory.
    #[error("out of memory")]
    OutOfMemory,
}

impl From<AllocError> for ConfigFault {
    ghost from_gives = { λ _ e. e ≡ OutOfMemory };

    fn from(_fault: AllocError) -> ConfigFault {
        ConfigFault::OutOfMemory
    }
}
