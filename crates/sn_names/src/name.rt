//! Names of apps, ports and interlinks.
ghost use Rattle.sn_names.specs.FirstFault.{IsFirstFault};
ghost use Rattle.sn_names.specs.NameText.{IsName};
ghost use Rattle.std.proofs.Common.{rules};
ghost use Rattle.std.specs.Cmp.Lexicographic.{pointwise, slice_cmp};
ghost use Rattle.std.specs.Cmp.Rules.{comparing};
ghost use Rattle.std.specs.Cmp.{partial_order_from_own_ties};
ghost use Rattle.std.specs.Ordering.{as_partial_cmp, nat_cmp};
ghost use Rattle.std.specs.Prelude.{IfErr, IfOk, IsErrOf, nat_eq, refl, ℕ, ◌≡◌};

use crate::NameFault;
use crate::parts::{name_fault, split_name};
use std::alloc::{AllocError, Global};
use std::cmp::Ordering;
use std::marker::Model;
use std::str;

/// A name: 1 to 64 ASCII letters, digits and `_`. Names are ordered by their bytes.
#[derive(Debug, Drop)]
pub struct Name {
    text: String,
}

impl Model for Name {
    ghost use Rattle.std.specs.Prelude.{List, string_bytes, ℕ};
    ghost use Rattle.sn_names.specs.NameText.{IsName};

    ghost Value = { List ℕ };

    ghost view = { λ n. string_bytes n.text };

    ghost invariant = { λ n. IsName (string_bytes n.text) };
}

impl Name {
    /// The name that these bytes spell.
    ///
    /// # Errors
    /// `At(n)` exactly where they spell none; n is the length of the longest prefix that some name
    /// begins with. Else want of memory.
    pub fn parse(alloc: Global, text: &[u8]) -> Result<Name, NameFault>
        ensures named { IfOk result (λ name. name ≡ text.now) }
        ensures valid { IfOk result (λ name. IsName name) }
        ensures fault { IfErr result (λ fault. (n : ℕ) → fault ≡ NameFault.At n → IsFirstFault IsName text.now n) }
        // Want of memory comes only where the text is a name.
        ensures memory { IsErrOf result NameFault.OutOfMemory → IsName text.now }
    {
        if let Some(at) = name_fault(text) {
            return Err(NameFault::At(at));
        }
        Ok(Name::copied(alloc, text)?)
    }

    /// A name of bytes that are known to spell one.
    pub(crate) fn copied(alloc: Global, text: &[u8]) -> Result<Name, AllocError>
        requires { IsName text.now }
        ensures { IfOk result (λ name. name ≡ text.now) }
    {
        let Ok(spelled) = str::from_utf8(text) else {
            unreachable!()
        };
        let text = String::from_str(alloc, spelled)?;
        Ok(Name { text })
    }

    /// The name as text.
    pub fn as_str(&self) -> &str
        ensures same { result.now ≡ self.now }
        ensures valid { IsName self.now }
    {
        self.text.as_str()
    }

    /// An equal name.
    ///
    /// # Errors
    /// Want of memory.
    pub fn copy(&self, alloc: Global) -> Result<Name, AllocError>
        ensures { IfOk result (λ name. name ≡ self.now) }
    {
        let text = String::from_str(alloc, self.text.as_str())?;
        Ok(Name { text })
    }
}

impl PartialEq for Name {
    ghost eq = { pointwise nat_eq };

    ghost laws = { Prim.search (comparing, rules) };

    fn eq(&self, other: &Name) -> bool {
        self.text == other.text
    }
}

impl Eq for Name {
    ghost laws = { Prim.search (comparing, rules) };
}

impl PartialOrd for Name {
    ghost partial_cmp = { as_partial_cmp (slice_cmp nat_cmp) };

    ghost laws = { partial_order_from_own_ties (Prim.search (comparing, rules)) (Prim.search (comparing, rules)) };

    fn partial_cmp(&self, other: &Name) -> Option<Ordering> {
        Some(self.cmp(other))
    }
}

impl Ord for Name {
    ghost cmp = { slice_cmp nat_cmp };

    ghost total = { Prim.search (comparing, rules) };

    ghost matches_partial_cmp = { λ x y. refl };

    ghost matches_eq = { Prim.search (comparing, rules) };

    fn cmp(&self, other: &Name) -> Ordering {
        self.text.cmp(&other.text)
    }
}
