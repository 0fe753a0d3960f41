//! Names as keys of what is kept by owner.
ghost use Rattle.std.specs.Prelude.{refl};
ghost use Rattle.std.specs.Cmp.{on_equiv, on_total, partial_equiv_from_equiv, partial_order_from_agreeing_total};
ghost use Rattle.std.specs.Ordering.{as_partial_cmp};
ghost use Rattle.dnsv_names.specs.Name.{same_name};
ghost use Rattle.dnsv_names.specs.Order.ByWire.{search_cmp};
ghost use Rattle.dnsv_names.specs.Order.ByWireLaws.{same_name_equiv, search_cmp_total, search_ties};

use dnsv_names::WireName;
use std::cmp::Ordering;

/// An owner, or the name of one that is looked for, where its wire form stands: by the length of that, and then by its
/// octets in lower case. Two are equal where the names are.
#[derive(Debug, Drop)]
pub struct OwnerKey<'a>(pub WireName<'a>);

impl PartialEq for OwnerKey<'_> {
    ghost eq = { λ a b. same_name a.0 b.0 };

    ghost laws = { partial_equiv_from_equiv (on_equiv (λ key. key.0) same_name_equiv) };

    fn eq(&self, other: &Self) -> bool {
        self.cmp(other).is_eq()
    }
}

impl Eq for OwnerKey<'_> {
    ghost laws = { on_equiv (λ key. key.0) same_name_equiv };
}

impl Ord for OwnerKey<'_> {
    ghost cmp = { λ a b. search_cmp a.0 b.0 };

    ghost total = { on_total (λ key. key.0) search_cmp_total };

    ghost matches_partial_cmp = { λ a b. refl };

    ghost matches_eq = { λ a b. search_ties a.0 b.0 };

    fn cmp(&self, other: &Self) -> Ordering {
        self.0.search_cmp(&other.0)
    }
}

impl PartialOrd for OwnerKey<'_> {
    ghost partial_cmp = { λ a b. as_partial_cmp search_cmp a.0 b.0 };

    ghost laws = { partial_order_from_agreeing_total (λ a b. search_cmp a.0 b.0)
        (on_total (λ key. key.0) search_cmp_total) (λ a b. refl) (λ a b. search_ties a.0 b.0) };

    fn partial_cmp(&self, other: &Self) -> Option<Ordering> {
        Some(self.cmp(other))
    }
}
