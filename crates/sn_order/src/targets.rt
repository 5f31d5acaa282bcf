//! The apps that the links of one lead to.
ghost use Rattle.std.specs.Prelude.{◌≡◌, ◌++◌, ◌∷◌, [], OnOk};

use std::alloc::{AllocError, Global};
use std::marker::Model;

/// The apps that the links of one lead to, one for each link. Contracts see their ranks.
#[derive(Drop)]
pub(crate) struct Targets {
    apps: Vec<usize>,
}

impl Model for Targets {
    ghost use Rattle.std.specs.Prelude.{ℕ, List};

    ghost Value = { List ℕ };

    ghost view = { λ t. t.apps.items };
}

impl Targets {
    pub(crate) fn new(alloc: Global) -> Targets
        ensures { result ≡ [] }
    {
        Targets {
            apps: Vec::new(alloc),
        }
    }

    pub(crate) fn add(&mut self, app: usize) -> Result<(), AllocError>
        ensures { OnOk result (self.new ≡ self.old ++ app ∷ []) }
    {
        self.apps.push(app)?;
        Ok(())
    }

    pub(crate) fn all(&self) -> &[usize]
        ensures { result.now ≡ self.now }
    {
        &self.apps
    }
}
