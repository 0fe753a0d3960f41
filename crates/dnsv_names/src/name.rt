//! The type of a domain name.
ghost use Rattle.std.specs.Prelude.{◌≡◌, ◌+◌, ◌<◌, ◌≤◌, ◌++◌, ⊤, List, ℕ, Some, length, take, ◌↔◌, IfSome, IsTrue, slice_get};
ghost use Rattle.std.specs.Cmp.{on_equiv, partial_equiv_from_equiv};
ghost use Rattle.std.specs.Cmp.Lexicographic.{lists_equiv};
ghost use Rattle.std.proofs.lemmas.Cmp.{nat_eq_equiv};
ghost use Rattle.dnsv_names.specs.Name.{Labels, IsName, IsAtOrBelow, wire, lower_case, SameName, same_name, rightmost};
ghost use Rattle.dnsv_names.specs.Name.Spelling.{labels_of, SpellsName};

use crate::wire::{copied, label_count, label_place, lowered, wire_length};
use arrayvec::ArrayVec;
use std::alloc::AllocError;
use std::marker::Model;

/// How many octets a label has at most (RFC 1035 2.3.4).
pub const LABEL_LIMIT: usize = 63;

/// How many octets the wire form of a name has at most, the root's included (RFC 1035 2.3.4).
pub const WIRE_LIMIT: usize = 255;

/// A domain name: at most 127 labels of 1 to 63 octets, as they are spelled, whose wire form has at
/// most 255 octets. It lies in the value itself and takes no memory.
#[derive(Debug, Drop)]
pub struct Name {
    pub(crate) octets: ArrayVec<u8, WIRE_LIMIT>,
}

impl Model for Name {
    ghost Value = { Labels };

    ghost view = { λ name. labels_of name.octets.items };

    ghost invariant = { λ name. SpellsName name.octets.items };
}

impl Name {
    /// Reads an uncompressed name at the front of `octets`, and says how many of them it takes.
    ///
    /// `None` where no name's wire form begins the octets: a length octet is above 63, as that of a
    /// compression pointer is, the root is missing, or the wire form passes 255 octets.
    pub fn read(octets: &[u8]) -> Option<(Name, usize)>
        // What is read is a name, and the first octets spell it so.
        ensures name { IfSome result (λ found. IsName found.0) }
        ensures length { IfSome result (λ found. found.1 ≡ length (wire found.0)) }
        ensures spelling { IfSome result (λ found. take found.1 octets.now ≡ wire found.0) }
        // Whatever name's wire form begins the octets is read.
        ensures every { (labels : Labels) (rest : List ℕ) → IsName labels → octets.now ≡ wire labels ++ rest
            → result ≡ Some (labels, length (wire labels)) }
    {
        let length = wire_length(octets)?;
        let name = Name {
            octets: copied(&octets[..length]),
        };
        Some((name, length))
    }

    /// How many labels the name has, the root not counted.
    pub fn labels(&self) -> usize
        ensures count { result ≡ length self.now }
        ensures at_most_127 { result ≤ 127 }
    {
        label_count(self.octets.as_slice())
    }

    /// The octets of the label that has `i` others to its left.
    pub fn label(&self, i: usize) -> &[u8]
        requires { i < length self.now }
        ensures { slice_get self.now i ≡ Some result.now }
    {
        let octets = self.octets.as_slice();
        let place = label_place(octets, i);
        let start = place + 1;
        &octets[start..start + octets[place] as usize]
    }

    /// The wire form: each label behind its length, and the length 0 of the root (RFC 1035 3.1).
    pub fn wire(&self) -> &[u8]
        ensures octets { result.now ≡ wire self.now }
        ensures name { IsName self.now }
    {
        &self.octets
    }

    /// The name with A to Z in lower case, and every other octet as it is (RFC 4343 3).
    pub fn to_lower(&self) -> Name
        ensures { result ≡ lower_case self.now }
    {
        Name {
            octets: lowered(self.octets.as_slice()),
        }
    }

    /// The `n` rightmost labels, as they are spelled: the root for 0, the whole name for all of them.
    pub fn suffix(&self, n: usize) -> Name
        requires { n ≤ length self.now }
        ensures labels { result ≡ rightmost self.now n }
        ensures above { IsAtOrBelow self.now result }
    {
        let octets = self.octets.as_slice();
        let place = label_place(octets, label_count(octets) - n);
        Name {
            octets: copied(&octets[place..]),
        }
    }
}

/// Names are equal where they differ in the case of ASCII letters alone (RFC 4343).
impl PartialEq for Name {
    ghost eq = { same_name };

    ghost laws = { partial_equiv_from_equiv (on_equiv lower_case (lists_equiv (lists_equiv nat_eq_equiv))) };

    fn eq(&self, other: &Name) -> bool
        ensures value { result ≡ same_name self.now other.now }
        ensures same { IsTrue result ↔ SameName self.now other.now }
    {
        self.octets
            .as_slice()
            .eq_ignore_ascii_case(other.octets.as_slice())
    }
}

impl Eq for Name {
    ghost laws = { on_equiv lower_case (lists_equiv (lists_equiv nat_eq_equiv)) };
}

impl Clone for Name {
    ghost is_clone = { λ name clone. clone ≡ name };

    ghost is_infallible = { λ _. ⊤ };

    fn clone(&self) -> Result<Name, AllocError> {
        Ok(self.suffix(self.labels()))
    }
}
