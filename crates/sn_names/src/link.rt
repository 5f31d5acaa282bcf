//! Links from an app's output port to an app's input port.
ghost use Rattle.sn_names.specs.FirstFault.{IsFirstFault};
ghost use Rattle.sn_names.specs.LinkOrder.{link_cmp, text_cmp};
ghost use Rattle.sn_names.specs.LinkText.{AreNames, IsBetween, IsLinkText, IsSomeLinkText, canonical_text};
ghost use Rattle.sn_names.specs.NameText.{IsName};
ghost use Rattle.sn_names.specs.Parts.{LeavesFrom, left, link_parts};
ghost use Rattle.std.specs.Cmp.Lexicographic.{slice_cmp};
ghost use Rattle.std.specs.Ordering.{nat_cmp};
ghost use Rattle.std.specs.Prelude.{IfErr, IfOk, IsErrOf, None, OnErr, OnOk, length, vec_capacity, vec_len, ℕ, ◌+◌, ◌++◌, ◌-◌, ◌≡◌, ◌≤◌};

use crate::link_text::{Port, split_link};
use crate::{Name, NameFault};
use std::alloc::{AllocError, Global};

/// How many bytes of a canonical text are no name's.
const SIGNS: usize = 6;

/// A link from the port `out` of the app `from` to the port `input` of the app `to`. Links are
/// ordered by these four names, one after another.
#[derive(Debug, Drop, PartialEq, Eq, PartialOrd, Ord)]
pub struct LinkSpec {
    /// The app that sends.
    pub from: Name,
    /// Its output port.
    pub out: Name,
    /// The app that receives.
    pub to: Name,
    /// Its input port.
    pub input: Name,
}

impl LinkSpec {
    /// The link that a text spells: optional spaces, an app and its port with a dot between them,
    /// optional spaces, `->`, optional spaces, an app and its port, optional spaces.
    ///
    /// # Errors
    /// `At(n)` exactly where it spells none; n is the length of the longest prefix that the text
    /// of some link begins with. Else want of memory.
    pub fn parse(alloc: Global, text: &[u8]) -> Result<LinkSpec, NameFault>
        ensures read { IfOk result (λ link. IsLinkText text.now link) }
        ensures only { IfOk result (λ link. (other : LinkSpec) → IsLinkText text.now other → other ≡ link) }
        ensures fault { IfErr result (λ fault. (n : ℕ) → fault ≡ NameFault.At n → IsFirstFault IsSomeLinkText text.now n) }
        // Want of memory comes only where the text is one of a link.
        ensures memory { IsErrOf result NameFault.OutOfMemory → IsSomeLinkText text.now }
        // The text goes on to its end as the parts of a link, also where there was no memory.
        ensures whole { OnOk result (left link_parts text.now ≡ None) }
        ensures starved { IsErrOf result NameFault.OutOfMemory → left link_parts text.now ≡ None }
        // It goes on so up to the fault, and the bytes from there on are left.
        ensures rest { IfErr result (λ fault. (n : ℕ) → fault ≡ NameFault.At n → LeavesFrom link_parts text.now n) }
    {
        let (from, to) = match split_link(text) {
            Ok(ports) => ports,
            Err(rest) => return Err(NameFault::At(text.len() - rest)),
        };
        Ok(LinkSpec::between(alloc, from, to)?)
    }

    /// The link between two ports, whose names are known to be names.
    fn between(alloc: Global, from: Port<'_>, to: Port<'_>) -> Result<LinkSpec, AllocError>
        requires from { IsName from.app.now × IsName from.port.now }
        requires to { IsName to.app.now × IsName to.port.now }
        ensures { IfOk result (IsBetween from.entry.app.now from.entry.port.now to.entry.app.now to.entry.port.now) }
    {
        Ok(LinkSpec {
            from: Name::copied(alloc, from.app)?,
            out: Name::copied(alloc, from.port)?,
            to: Name::copied(alloc, to.app)?,
            input: Name::copied(alloc, to.port)?,
        })
    }

    /// Appends the link's text with one space on each side of the arrow, which `parse` reads back.
    ///
    /// # Errors
    /// Want of memory. The bytes are then as before.
    pub fn canonical(&self, into: &mut Vec<u8>) -> Result<(), AllocError>
        ensures ok { OnOk result (into.new.items ≡ into.old.items ++ canonical_text self.now) }
        ensures err { OnErr result (into.new.items ≡ into.old.items) }
        ensures names { AreNames self.now }
        ensures reads_back { IsLinkText (canonical_text self.now) self.now }
        // The order of links is the order of their texts by their bytes.
        ensures ordered { (other : LinkSpec) → AreNames other → link_cmp self.now other ≡ text_cmp self.now other }
    {
        let (from, out) = (self.from.as_str(), self.out.as_str());
        let (to, input) = (self.to.as_str(), self.input.as_str());
        into.reserve(from.len() + out.len() + to.len() + input.len() + SIGNS)?;
        push_reserved(into, from.as_bytes());
        push_reserved(into, b".");
        push_reserved(into, out.as_bytes());
        push_reserved(into, b" -> ");
        push_reserved(into, to.as_bytes());
        push_reserved(into, b".");
        push_reserved(into, input.as_bytes());
        Ok(())
    }

    /// An equal link.
    ///
    /// # Errors
    /// Want of memory.
    pub fn copy(&self, alloc: Global) -> Result<LinkSpec, AllocError>
        ensures { IfOk result (λ link. link ≡ self.now) }
    {
        Ok(LinkSpec {
            from: self.from.copy(alloc)?,
            out: self.out.copy(alloc)?,
            to: self.to.copy(alloc)?,
            input: self.input.copy(alloc)?,
        })
    }
}

/// Appends bytes for which there is room.
fn push_reserved(into: &mut Vec<u8>, bytes: &[u8])
    requires { vec_len into.old + length bytes.now ≤ vec_capacity into.old }
    ensures items { into.new.items ≡ into.old.items ++ bytes.now }
    ensures len { vec_len into.new ≡ vec_len into.old + length bytes.now }
    ensures room { vec_capacity into.old ≤ vec_capacity into.new }
{
    if into.extend_from_slice(bytes).is_err() {
        unreachable!()
    }
}
