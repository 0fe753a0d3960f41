//! Octets that a record holds.
ghost use Rattle.std.specs.Prelude.{◌≡◌, List, ℕ, nat_eq, refl, IsTrue, ◌↔◌};
ghost use Rattle.std.specs.Cmp.{partial_equiv_from_equiv, partial_order_from_agreeing_total};
ghost use Rattle.std.specs.Cmp.Lexicographic.{lists_equiv, pointwise, texts_ties};
ghost use Rattle.std.specs.Ordering.{as_partial_cmp};
ghost use Rattle.std.proofs.lemmas.Cmp.{nat_eq_equiv, nat_list_cmp_total};
ghost use Rattle.dnsv_names.specs.Octets.{octets_cmp};

use dnsv_names::compare_octets;
use std::cmp::Ordering;
use std::marker::Model;

/// Octets, as a key, a digest or a signature, where they stand. They are ordered as unsigned octets from the left, a
/// missing octet before any other (RFC 4034 6.3).
#[derive(Debug, Drop)]
pub struct Octets<'b> {
    octets: &'b [u8],
}

impl<'b> Model for Octets<'b> {
    ghost use Rattle.std.specs.Prelude.{List, ℕ};

    ghost Value = { List ℕ };

    ghost view = { λ octets. octets.octets.now };
}

impl<'b> Octets<'b> {
    /// These octets, where they stand.
    pub fn of(octets: &'b [u8]) -> Octets<'b>
        ensures { result ≡ octets.now }
    {
        Octets { octets }
    }

    /// The octets again, which stand where they stood.
    pub fn copied(&self) -> Octets<'b>
        ensures { result ≡ self.now }
    {
        Octets {
            octets: self.octets,
        }
    }

    /// The octets.
    pub fn as_slice(&self) -> &'b [u8]
        ensures { result.now ≡ self.now }
    {
        self.octets
    }
}

impl PartialEq for Octets<'_> {
    ghost eq = { pointwise nat_eq };

    ghost laws = { partial_equiv_from_equiv (lists_equiv nat_eq_equiv) };

    fn eq(&self, other: &Octets<'_>) -> bool
        ensures value { result ≡ pointwise nat_eq self.now other.now }
        ensures same { IsTrue result ↔ (self.now ≡ other.now) }
    {
        self.as_slice() == other.as_slice()
    }
}

impl Eq for Octets<'_> {
    ghost laws = { lists_equiv nat_eq_equiv };
}

impl Ord for Octets<'_> {
    ghost cmp = { octets_cmp };

    ghost total = { nat_list_cmp_total };

    ghost matches_partial_cmp = { λ a b. refl };

    ghost matches_eq = { texts_ties };

    fn cmp(&self, other: &Octets<'_>) -> Ordering
        ensures { result ≡ octets_cmp self.now other.now }
    {
        compare_octets(self.as_slice(), other.as_slice())
    }
}

impl PartialOrd for Octets<'_> {
    ghost partial_cmp = { as_partial_cmp octets_cmp };

    ghost laws = { partial_order_from_agreeing_total octets_cmp nat_list_cmp_total (λ a b. refl) texts_ties };

    fn partial_cmp(&self, other: &Octets<'_>) -> Option<Ordering> {
        Some(self.cmp(other))
    }
}
