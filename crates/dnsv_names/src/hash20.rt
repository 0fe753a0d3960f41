//! Hashes of 20 octets, as SHA-1 gives them.
ghost use Rattle.std.specs.Prelude.{◌≡◌, List, ℕ, length, refl};
ghost use Rattle.std.specs.Cmp.{partial_order_from_agreeing_total};
ghost use Rattle.std.specs.Cmp.Lexicographic.{texts_ties};
ghost use Rattle.std.specs.Ordering.{as_partial_cmp};
ghost use Rattle.std.proofs.lemmas.Cmp.{nat_list_cmp_total};
ghost use Rattle.dnsv_names.specs.Octets.{octets_cmp};

use crate::octets::compare::compare_octets;
use std::cmp::Ordering;
use std::marker::Model;

/// A hash of 20 octets, as those that name the owners of NSEC3 records (RFC 5155 5). It is ordered
/// as unsigned octets, the first one first.
#[derive(Clone, Copy, Debug, PartialEq, Eq, Hash)]
pub struct Hash20 {
    octets: [u8; 20],
}

impl Model for Hash20 {
    ghost Value = { List ℕ };

    ghost view = { λ hash. hash.octets };

    ghost inverse = { λ octets. record { octets = octets } };
}

impl Hash20 {
    /// The hash with these octets.
    pub fn new(octets: [u8; 20]) -> Hash20
        ensures { result ≡ octets }
    {
        Hash20 { octets }
    }

    /// The 20 octets.
    pub fn octets(&self) -> &[u8; 20]
        ensures octets { result.now ≡ self.now }
        ensures length { length self.now ≡ 20 }
    {
        &self.octets
    }
}

/// Unsigned octets, of which the first that differ decide (RFC 5155 1.3).
impl Ord for Hash20 {
    ghost cmp = { octets_cmp };

    ghost total = { nat_list_cmp_total };

    ghost matches_partial_cmp = { λ a b. refl };

    ghost matches_eq = { texts_ties };

    fn cmp(&self, other: &Hash20) -> Ordering
        ensures { result ≡ octets_cmp self.now other.now }
    {
        compare_octets(&self.octets, &other.octets)
    }
}

impl PartialOrd for Hash20 {
    ghost partial_cmp = { as_partial_cmp octets_cmp };

    ghost laws = { partial_order_from_agreeing_total octets_cmp nat_list_cmp_total (λ a b. refl) texts_ties };

    fn partial_cmp(&self, other: &Hash20) -> Option<Ordering> {
        Some(self.cmp(other))
    }
}
