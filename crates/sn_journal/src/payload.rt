//! The bytes that an entry carries.
ghost use Rattle.std.proofs.Common.{rules};
ghost use Rattle.std.specs.Cmp.Lexicographic.{pointwise};
ghost use Rattle.std.specs.Cmp.Rules.{comparing};
ghost use Rattle.std.specs.Prelude.{IfOk, length, nat_eq, ◌≡◌, ◌≤◌};

use std::alloc::{AllocError, Global};
use std::marker::Model;

/// The bytes of a packet, at most 10,240. Contracts see the list of the bytes.
#[derive(Debug, Drop)]
pub struct Payload {
    bytes: Vec<u8>,
}

impl Model for Payload {
    ghost use Rattle.std.specs.Prelude.{List, length, ℕ, ◌≤◌};

    ghost Value = { List ℕ };

    ghost view = { λ p. p.bytes.items };

    ghost invariant = { λ p. length p.bytes.items ≤ 10240 };
}

impl Payload {
    /// A payload of these bytes. It takes no memory.
    pub fn of(bytes: Vec<u8>) -> Payload
        requires { length bytes.items ≤ 10240 }
        ensures { result ≡ bytes.items }
    {
        Payload { bytes }
    }

    /// The bytes.
    pub fn bytes(&self) -> &[u8]
        ensures same { result.now ≡ self.now }
        ensures short { length result.now ≤ 10240 }
    {
        &self.bytes
    }

    /// The bytes in the memory that they were made with.
    pub fn into_bytes(self) -> Vec<u8>
        ensures same { result.items ≡ self }
        ensures short { length result.items ≤ 10240 }
    {
        self.bytes
    }

    /// An equal payload.
    ///
    /// # Errors
    /// Want of memory.
    pub fn copy(&self, alloc: Global) -> Result<Payload, AllocError>
        ensures { IfOk result (λ payload. payload ≡ self.now) }
    {
        let bytes = self.bytes.to_vec(alloc)?;
        Ok(Payload { bytes })
    }
}

impl PartialEq for Payload {
    ghost eq = { pointwise nat_eq };

    ghost laws = { Prim.search (comparing, rules) };

    fn eq(&self, other: &Payload) -> bool {
        self.bytes == other.bytes
    }
}

impl Eq for Payload {
    ghost laws = { Prim.search (comparing, rules) };
}
