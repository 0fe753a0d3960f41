//! Names where their wire form stands.
ghost use Rattle.std.specs.Prelude.{◌≡◌, ◌↔◌, ◌++◌, ◌≤◌, List, ℕ, Some, IfSome, IsTrue, length, take};
ghost use Rattle.dnsv_names.specs.Name.{IsAtOrBelow, IsName, Labels, same_name, wire};
ghost use Rattle.dnsv_names.specs.Order.{canonical_cmp};
ghost use Rattle.dnsv_names.specs.Order.ByWire.{search_cmp};

use crate::name::Name;
use crate::order::by_wire::octets_order;
use crate::order::compared;
use crate::wire::{copied, label_count, wire_length};
use std::cmp::Ordering;
use std::marker::Model;

/// A domain name whose wire form stands, uncompressed, in octets that it borrows. It takes no memory.
#[derive(Debug, Drop)]
pub struct WireName<'b> {
    octets: &'b [u8],
}

impl<'b> Model for WireName<'b> {
    ghost use Rattle.dnsv_names.specs.Name.{Labels};
    ghost use Rattle.dnsv_names.specs.Name.Spelling.{labels_of, SpellsName};

    ghost Value = { Labels };

    ghost view = { λ name. labels_of name.octets.now };

    ghost invariant = { λ name. SpellsName name.octets.now };
}

impl<'b> WireName<'b> {
    /// Reads an uncompressed name at the front of `octets`, and says how many of them it takes, as `Name::read` does.
    pub fn read(octets: &'b [u8]) -> Option<(WireName<'b>, usize)>
        ensures name { IfSome result (λ found. IsName found.0) }
        ensures length { IfSome result (λ found. found.1 ≡ length (wire found.0)) }
        ensures spelling { IfSome result (λ found. take found.1 octets.now ≡ wire found.0) }
        ensures every { (labels : Labels) (rest : List ℕ) → IsName labels → octets.now ≡ wire labels ++ rest
            → result ≡ Some (labels, length (wire labels)) }
    {
        let length = wire_length(octets)?;
        let name = WireName {
            octets: &octets[..length],
        };
        Some((name, length))
    }

    /// The name, in the wire form that it keeps.
    pub fn of(name: &'b Name) -> WireName<'b>
        ensures { result ≡ name.now }
    {
        WireName {
            octets: name.wire(),
        }
    }

    /// The name again, which stands where it stood.
    pub fn copied(&self) -> WireName<'b>
        ensures { result ≡ self.now }
    {
        WireName {
            octets: self.octets,
        }
    }

    /// The wire form.
    pub fn wire(&self) -> &'b [u8]
        ensures octets { result.now ≡ wire self.now }
        ensures name { IsName self.now }
    {
        self.octets
    }

    /// How many labels the name has, the root not counted.
    pub fn labels(&self) -> usize
        ensures count { result ≡ length self.now }
        ensures at_most_127 { result ≤ 127 }
    {
        label_count(self.octets)
    }

    /// The name by value, as it is spelled.
    pub fn to_name(&self) -> Name
        ensures { result ≡ self.now }
    {
        Name {
            octets: copied(self.octets),
        }
    }

    /// Whether it is equal to the name.
    pub fn is_same(&self, name: &Name) -> bool
        ensures { result ≡ same_name self.now name.now }
    {
        self.octets.eq_ignore_ascii_case(name.wire())
    }

    /// Compares two names in canonical order, as `Name::canonical_cmp` does.
    pub fn canonical_cmp(&self, other: &WireName<'_>) -> Ordering
        ensures { result ≡ canonical_cmp self.now other.now }
    {
        compared(self.octets, other.octets)
    }
    /// Compares two names in the order of `ByWire`: by the length of the wire form, and then by its octets in lower case.
    pub fn search_cmp(&self, other: &WireName<'_>) -> Ordering
        ensures { result ≡ search_cmp self.now other.now }
    {
        octets_order(self.wire(), other.wire())
    }
}
