//! The records of an RRset in canonical order.
ghost use Rattle.std.specs.Prelude.{◌≡◌, ℕ, Contains, IfOk, List, map, nat_eq, refl};
ghost use Rattle.std.specs.Cmp.{on_equiv, on_total, partial_equiv_from_equiv, partial_order_from_agreeing_total};
ghost use Rattle.std.specs.Cmp.Lexicographic.{lists_equiv, pointwise, texts_ties};
ghost use Rattle.std.specs.List.{AllByRecursion, AllZip};
ghost use Rattle.std.specs.Ordering.{as_partial_cmp};
ghost use Rattle.std.proofs.lemmas.Cmp.{nat_eq_equiv, nat_list_cmp_total};
ghost use Rattle.dnsv_records.specs.Dnskey.{IsDnskey};
ghost use Rattle.dnsv_records.specs.Ds.{IsDs};
ghost use Rattle.dnsv_records.specs.Nsec.{IsNsec};
ghost use Rattle.dnsv_records.specs.Nsec3.{IsNsec3};
ghost use Rattle.dnsv_canonical.specs.Canonical.{IsCanonical, rdata_cmp};

use dnsv_canonical::Rrset;
use dnsv_records::{Dnskey, Ds, Nsec, Nsec3};
use std::alloc::{AllocError, Global};
use std::cmp::Ordering;

/// A record with its RDATA, by which alone it is ordered: as unsigned octets, a missing one first (RFC 4034 6.3).
#[derive(Debug, Drop)]
pub struct ReadRecord<'a, T> {
    /// The RDATA as received.
    pub rdata: &'a [u8],
    /// What it says.
    pub record: &'a T,
}

impl<T> PartialEq for ReadRecord<'_, T> {
    ghost eq = { λ a b. pointwise nat_eq a.rdata.now b.rdata.now };

    ghost laws = { partial_equiv_from_equiv (on_equiv (λ each. each.rdata.now) (lists_equiv nat_eq_equiv)) };

    fn eq(&self, other: &Self) -> bool {
        self.rdata == other.rdata
    }
}

impl<T> Eq for ReadRecord<'_, T> {
    ghost laws = { on_equiv (λ each. each.rdata.now) (lists_equiv nat_eq_equiv) };
}

impl<T> Ord for ReadRecord<'_, T> {
    ghost cmp = { λ a b. rdata_cmp a.rdata.now b.rdata.now };

    ghost total = { on_total (λ each. each.rdata.now) nat_list_cmp_total };

    ghost matches_partial_cmp = { λ a b. refl };

    ghost matches_eq = { λ a b. texts_ties a.rdata.now b.rdata.now };

    fn cmp(&self, other: &Self) -> Ordering {
        self.rdata.cmp(other.rdata)
    }
}

impl<T> PartialOrd for ReadRecord<'_, T> {
    ghost partial_cmp = { λ a b. as_partial_cmp rdata_cmp a.rdata.now b.rdata.now };

    ghost laws = { partial_order_from_agreeing_total (λ a b. rdata_cmp a.rdata.now b.rdata.now)
        (on_total (λ each. each.rdata.now) nat_list_cmp_total) (λ a b. refl)
        (λ a b. texts_ties a.rdata.now b.rdata.now) };

    fn partial_cmp(&self, other: &Self) -> Option<Ordering> {
        Some(self.cmp(other))
    }
}

/// A kind of record that is read from RDATA.
pub trait ReadFrom {
    /// The RDATA is that of the record.
    ghost reads: { List ℕ → Self → Type 0 };
}

impl ReadFrom for Dnskey<'_> {
    ghost reads = { IsDnskey };
}

impl ReadFrom for Ds<'_> {
    ghost reads = { IsDs };
}

impl ReadFrom for Nsec<'_> {
    ghost reads = { IsNsec };
}

impl ReadFrom for Nsec3<'_> {
    ghost reads = { IsNsec3 };
}

/// The records of an RRset, as read from its RDATA in their order, in canonical order.
pub fn in_canonical_order<'a, T: ReadFrom>(
    alloc: Global,
    rrset: &'a Rrset<'_>,
    values: &'a [T],
) -> Result<Vec<ReadRecord<'a, T>>, AllocError>
    requires { AllZip T.reads rrset.now.rdata values.now }
    ensures order { IfOk result (λ records. IsCanonical rrset.now.rdata
        (map (λ each. each.rdata.now) records.items)) }
    ensures read { IfOk result (λ records. AllByRecursion (λ each. T.reads each.rdata.now each.record.now)
        records.items) }
{
    let mut records = Vec::new(alloc);
    for (place, record) in values.iter().enumerate() {
        records.push(ReadRecord {
            rdata: rrset.rdata(place),
            record,
        })?;
    }
    put_in_order(&mut records);
    Ok(records)
}

/// Puts the records of an RRset in canonical order, of equal ones one (RFC 4034 6.3).
fn put_in_order<T>(records: &mut Vec<ReadRecord<'_, T>>)
    ensures order { IsCanonical (map (λ each. each.rdata.now) records.old.items)
        (map (λ each. each.rdata.now) records.new.items) }
    ensures kept { AllByRecursion (λ each. Contains records.old.items each) records.new.items }
{
    records.sort_unstable();
    records.dedup();
}
