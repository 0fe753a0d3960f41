//! Names of messages as keys to search by.
ghost use Rattle.std.specs.Prelude.{refl};
ghost use Rattle.std.specs.Cmp.{on_equiv, on_total, partial_equiv_from_equiv, partial_order_from_agreeing_total};
ghost use Rattle.std.specs.Ordering.{as_partial_cmp};
ghost use Rattle.dnsv_names.specs.Name.{same_name};
ghost use Rattle.dnsv_names.specs.Order.ByWire.{search_cmp};
ghost use Rattle.dnsv_names.specs.Order.ByWireLaws.{same_name_equiv, search_cmp_total, search_ties};

use crate::name_ref::NameRef;
use std::cmp::Ordering;

/// A name of a message in the order of [`NameRef::search_cmp`]. Two are equal where the names are.
#[derive(Clone, Copy, Debug)]
pub struct NameRefByWire<'a>(pub &'a NameRef<'a>);

impl PartialEq for NameRefByWire<'_> {
    ghost eq = { λ a b. same_name a.0.now b.0.now };

    ghost laws = { partial_equiv_from_equiv (on_equiv (λ key. key.0.now) same_name_equiv) };

    fn eq(&self, other: &Self) -> bool {
        self.0 == other.0
    }
}

impl Eq for NameRefByWire<'_> {
    ghost laws = { on_equiv (λ key. key.0.now) same_name_equiv };
}

impl Ord for NameRefByWire<'_> {
    ghost cmp = { λ a b. search_cmp a.0.now b.0.now };

    ghost total = { on_total (λ key. key.0.now) search_cmp_total };

    ghost matches_partial_cmp = { λ a b. refl };

    ghost matches_eq = { λ a b. search_ties a.0.now b.0.now };

    fn cmp(&self, other: &Self) -> Ordering {
        self.0.search_cmp(other.0)
    }
}

impl PartialOrd for NameRefByWire<'_> {
    ghost partial_cmp = { λ a b. as_partial_cmp search_cmp a.0.now b.0.now };

    ghost laws = { partial_order_from_agreeing_total (λ a b. search_cmp a.0.now b.0.now)
        (on_total (λ key. key.0.now) search_cmp_total) (λ a b. refl) (λ a b. search_ties a.0.now b.0.now) };

    fn partial_cmp(&self, other: &Self) -> Option<Ordering> {
        Some(self.cmp(other))
    }
}
