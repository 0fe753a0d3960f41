//! Names as keys to search by.
ghost use Rattle.std.specs.Prelude.{◌≡◌, ◌∷◌, refl, length, map};
ghost use Rattle.std.specs.Char.{to_ascii_lowercase};
ghost use Rattle.std.specs.Cmp.{on_equiv, on_total, partial_equiv_from_equiv, partial_order_from_agreeing_total};
ghost use Rattle.std.specs.Ordering.{as_partial_cmp};
ghost use Rattle.dnsv_names.specs.Order.ByWire.{search_cmp};
ghost use Rattle.dnsv_names.specs.Order.ByWireLaws.{same_name_equiv, search_cmp_total, search_ties};
ghost use Rattle.dnsv_names.specs.Name.{same_name};
ghost use Rattle.dnsv_names.specs.Octets.{octets_cmp};

use crate::name::Name;
use crate::wire::lower::lower_order;
use crate::wire_name::WireName;
use std::cmp::Ordering;

/// A name in an order to search by, which costs less than the canonical one: by the length of its wire form,
/// and then by the octets in lower case. Two are equal where the names are.
#[derive(Clone, Copy, Debug)]
pub struct ByWire<'a>(pub &'a Name);

impl PartialEq for ByWire<'_> {
    ghost eq = { λ a b. same_name a.0.now b.0.now };

    ghost laws = { partial_equiv_from_equiv (on_equiv (λ key. key.0.now) same_name_equiv) };

    fn eq(&self, other: &Self) -> bool {
        self.0 == other.0
    }
}

impl Eq for ByWire<'_> {
    ghost laws = { on_equiv (λ key. key.0.now) same_name_equiv };
}

impl Ord for ByWire<'_> {
    ghost cmp = { λ a b. search_cmp a.0.now b.0.now };

    ghost total = { on_total (λ key. key.0.now) search_cmp_total };

    ghost matches_partial_cmp = { λ a b. refl };

    ghost matches_eq = { λ a b. search_ties a.0.now b.0.now };

    fn cmp(&self, other: &Self) -> Ordering {
        WireName::of(self.0).search_cmp(&WireName::of(other.0))
    }
}

impl PartialOrd for ByWire<'_> {
    ghost partial_cmp = { λ a b. as_partial_cmp search_cmp a.0.now b.0.now };

    ghost laws = { partial_order_from_agreeing_total (λ a b. search_cmp a.0.now b.0.now)
        (on_total (λ key. key.0.now) search_cmp_total) (λ a b. refl) (λ a b. search_ties a.0.now b.0.now) };

    fn partial_cmp(&self, other: &Self) -> Option<Ordering> {
        Some(self.cmp(other))
    }
}

/// The order of octets by their number, and then as they are in lower case.
pub(crate) fn octets_order(a: &[u8], b: &[u8]) -> Ordering
    ensures { result ≡ octets_cmp (length a.now ∷ map to_ascii_lowercase a.now)
        (length b.now ∷ map to_ascii_lowercase b.now) }
{
    if a.len() != b.len() {
        return a.len().cmp(&b.len());
    }
    lower_order(a, b)
}
