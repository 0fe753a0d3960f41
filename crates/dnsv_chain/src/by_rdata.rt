//! Keys by their RDATA.
ghost use Rattle.std.specs.Prelude.{◌≡◌, List, ℕ, nat_eq, refl};
ghost use Rattle.std.specs.Cmp.{on_equiv, on_total, partial_equiv_from_equiv, partial_order_from_agreeing_total};
ghost use Rattle.std.specs.Cmp.Lexicographic.{lists_equiv, pointwise, texts_ties};
ghost use Rattle.std.specs.Ordering.{as_partial_cmp};
ghost use Rattle.std.proofs.lemmas.Cmp.{nat_eq_equiv, nat_list_cmp_total};
ghost use Rattle.dnsv_canonical.specs.Canonical.{rdata_cmp};
ghost use Rattle.dnsv_records.specs.declared.dnskey.Dnskey.{Dnskey};

use dnsv_names::compare_octets;
use dnsv_records::{Dnskey, Octets};
use dnsv_verifier::KeyRecord;
use std::cmp::Ordering;
use std::marker::Model;

/// RDATA and the key that it says, in the order of RDATA as unsigned octets (RFC 4034 6.3). Two are equal where the
/// RDATA is.
#[derive(Drop)]
pub struct ByRdata<'a> {
    rdata: &'a [u8],
    dnskey: &'a Dnskey<'a>,
}

impl<'a> Model for ByRdata<'a> {
    ghost use Rattle.std.specs.Prelude.{List, ℕ};
    ghost use Rattle.dnsv_records.specs.declared.dnskey.Dnskey.{Dnskey};

    ghost Value = { List ℕ × Dnskey };

    ghost view = { λ key. (key.rdata.now, key.dnskey.now) };
}

impl<'a> ByRdata<'a> {
    /// RDATA and the key that it says.
    pub fn new(rdata: &'a [u8], dnskey: &'a Dnskey<'a>) -> ByRdata<'a>
        ensures { result ≡ (rdata.now, dnskey.now) }
    {
        ByRdata { rdata, dnskey }
    }

    /// The key of the record.
    pub fn of(key: &KeyRecord<'a>) -> ByRdata<'a>
        ensures { result ≡ (key.now.rdata, key.now.dnskey) }
    {
        ByRdata::new(key.rdata(), key.dnskey())
    }

    /// The key again, which stands where it stood.
    pub fn to_dnskey(&self) -> Dnskey<'a>
        ensures { result ≡ self.now.1 }
    {
        Dnskey {
            flags: self.dnskey.flags,
            protocol: self.dnskey.protocol,
            algorithm: self.dnskey.algorithm,
            key: Octets::of(self.dnskey.key.as_slice()),
        }
    }
}

impl PartialEq for ByRdata<'_> {
    ghost eq = { λ a b. pointwise nat_eq a.0 b.0 };

    ghost laws = { partial_equiv_from_equiv (on_equiv (λ key. key.0) (lists_equiv nat_eq_equiv)) };

    fn eq(&self, other: &Self) -> bool {
        self.rdata == other.rdata
    }
}

impl Eq for ByRdata<'_> {
    ghost laws = { on_equiv (λ key. key.0) (lists_equiv nat_eq_equiv) };
}

impl Ord for ByRdata<'_> {
    ghost cmp = { λ a b. rdata_cmp a.0 b.0 };

    ghost total = { on_total (λ key. key.0) nat_list_cmp_total };

    ghost matches_partial_cmp = { λ a b. refl };

    ghost matches_eq = { λ a b. texts_ties a.0 b.0 };

    fn cmp(&self, other: &Self) -> Ordering {
        compare_octets(self.rdata, other.rdata)
    }
}

impl PartialOrd for ByRdata<'_> {
    ghost partial_cmp = { λ a b. as_partial_cmp rdata_cmp a.0 b.0 };

    ghost laws = { partial_order_from_agreeing_total (λ a b. rdata_cmp a.0 b.0)
        (on_total (λ key. key.0) nat_list_cmp_total) (λ a b. refl) (λ a b. texts_ties a.0 b.0) };

    fn partial_cmp(&self, other: &Self) -> Option<Ordering> {
        Some(self.cmp(other))
    }
}
