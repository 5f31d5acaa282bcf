//! Names of files.
ghost use Rattle.sn_names.specs.FileText.{IsFileName};
ghost use Rattle.std.proofs.Common.{rules};
ghost use Rattle.std.specs.Cmp.Lexicographic.{pointwise, slice_cmp};
ghost use Rattle.std.specs.Cmp.Rules.{comparing};
ghost use Rattle.std.specs.Cmp.{partial_order_from_own_ties};
ghost use Rattle.std.specs.Ordering.{as_partial_cmp, nat_cmp};
ghost use Rattle.std.specs.Prelude.{IfErr, IfOk, IsErrOf, nat_eq, refl, ℕ, ◌≡◌, ◌↔◌};

use crate::NameFault;
use std::alloc::{AllocError, Global};
use std::cmp::Ordering;
use std::marker::Model;
use std::str;

/// The most bytes that a file's name has: a path of Linux has no more.
const MOST_BYTES: usize = 4096;

/// The name of a file, as it is handed to the system: 1 to 4096 bytes of UTF-8. Names are ordered
/// by their bytes.
#[derive(Debug, Drop)]
pub struct FileName {
    text: String,
}

impl Model for FileName {
    ghost use Rattle.std.specs.Prelude.{List, string_bytes, string_len, ℕ, ◌≤◌};

    ghost Value = { List ℕ };

    ghost view = { λ n. string_bytes n.text };

    ghost invariant = { λ n. (1 ≤ string_len n.text) × (string_len n.text ≤ 4096) };
}

impl FileName {
    /// The file's name that these bytes spell.
    ///
    /// # Errors
    /// `At(0)` exactly where they aren't 1 to 4096 bytes of UTF-8, else want of memory.
    pub fn of(alloc: Global, text: &[u8]) -> Result<FileName, NameFault>
        ensures named { IfOk result (λ name. name ≡ text.now) }
        ensures valid { IfOk result (λ name. IsFileName name) }
        ensures refused { IsErrOf result (NameFault.At 0) ↔ ¬ (IsFileName text.now) }
        ensures place { IfErr result (λ fault. (n : ℕ) → fault ≡ NameFault.At n → n ≡ 0) }
        // Want of memory comes only where the text is a file's name.
        ensures memory { IsErrOf result NameFault.OutOfMemory → IsFileName text.now }
    {
        if text.is_empty() || text.len() > MOST_BYTES {
            return Err(NameFault::At(0));
        }
        let Ok(spelled) = str::from_utf8(text) else {
            return Err(NameFault::At(0));
        };
        let text = String::from_str(alloc, spelled)?;
        Ok(FileName { text })
    }

    /// The name as text.
    pub fn as_str(&self) -> &str
        ensures same { result.now ≡ self.now }
        ensures valid { IsFileName self.now }
    {
        self.text.as_str()
    }

    /// An equal name.
    ///
    /// # Errors
    /// Want of memory.
    pub fn copy(&self, alloc: Global) -> Result<FileName, AllocError>
        ensures { IfOk result (λ name. name ≡ self.now) }
    {
        let text = String::from_str(alloc, self.text.as_str())?;
        Ok(FileName { text })
    }
}

impl PartialEq for FileName {
    ghost eq = { pointwise nat_eq };

    ghost laws = { Prim.search (comparing, rules) };

    fn eq(&self, other: &FileName) -> bool {
        self.text == other.text
    }
}

impl Eq for FileName {
    ghost laws = { Prim.search (comparing, rules) };
}

impl PartialOrd for FileName {
    ghost partial_cmp = { as_partial_cmp (slice_cmp nat_cmp) };

    ghost laws = { partial_order_from_own_ties (Prim.search (comparing, rules)) (Prim.search (comparing, rules)) };

    fn partial_cmp(&self, other: &FileName) -> Option<Ordering> {
        Some(self.cmp(other))
    }
}

impl Ord for FileName {
    ghost cmp = { slice_cmp nat_cmp };

    ghost total = { Prim.search (comparing, rules) };

    ghost matches_partial_cmp = { λ x y. refl };

    ghost matches_eq = { Prim.search (comparing, rules) };

    fn cmp(&self, other: &FileName) -> Ordering {
        self.text.cmp(&other.text)
    }
}
