//! What is so of the DS RRsets of a zone.
ghost use Rattle.std.specs.Prelude.{◌≡◌, ◌↔◌, IfOk, IsTrue, List, OnOk};
ghost use Rattle.dnsv_anchors.specs.Ds.{IsIgnored};
ghost use Rattle.dnsv_records.specs.declared.ds.Ds.{Ds};
ghost use Rattle.dnsv_chain.specs.Basis.{basis_by};
ghost use Rattle.dnsv_zone_faults.specs.Groups.{AreAllDsFacts};
ghost use Rattle.dnsv_zone_faults.specs.Groups.GroupSearch.{AddsDs, AreIgnoredTypes, AreRecordsKnown, HasStronger, IsDsNumber};
ghost use Rattle.dnsv_zone_keys.specs.Vouchers.VoucherSearch.{AreKeysOfZone};

use dnsv_canonical::{RecordNumber, Rrset};
use dnsv_chain::goes_before;
use dnsv_digest::DigestAlgorithm;
use dnsv_faults::{CaseFacts, facts_of};
use dnsv_lines::EntryNumber;
use dnsv_mending::{DsFacts, VoucherFacts};
use dnsv_names::{Name, RecordType};
use dnsv_records::{DigestType, Ds};
use dnsv_rrsets::in_canonical_order;
use dnsv_zone_keys::{Asked, ZoneKeys, voucher_facts};
use std::alloc::{AllocError, Global};

/// Which digest types are ignored in a DS RRset, since a record of it has a stronger one (RFC 4509 3).
#[derive(Clone, Copy)]
struct IgnoredTypes {
    sha1: bool,
    sha256: bool,
    sha384: bool,
}

/// What is so of the DS RRsets of the zone, which has these keys.
pub fn ds_facts(
    alloc: Global,
    facts: &CaseFacts<'_>,
    keys: &ZoneKeys<'_>,
    zone: &Name,
) -> Result<Vec<DsFacts>, AllocError>
    requires { AreKeysOfZone facts.now.rrsets zone.now keys.now }
    ensures { IfOk result (λ ds. AreAllDsFacts (basis_by facts.now) zone.now ds.items) }
{
    let mut ds = Vec::new(alloc);
    for number in facts.capture().at(zone, RecordType::DS) {
        add_ds(alloc, facts, keys, *number, &mut ds)?;
    }
    Ok(ds)
}

/// Adds what is so of the DS RRset with the number.
fn add_ds(
    alloc: Global,
    facts: &CaseFacts<'_>,
    keys: &ZoneKeys<'_>,
    number: usize,
    ds: &mut Vec<DsFacts>,
) -> Result<(), AllocError>
    requires { IsDsNumber facts.now.rrsets number }
    ensures { OnOk result (AddsDs (basis_by facts.now) keys.now number ds.old.items ds.new.items) }
{
    let Some(rrset) = facts.capture().rrset(number) else {
        return Ok(());
    };
    ds.push(DsFacts {
        rrset: facts_of(alloc, facts, number, rrset)?,
        records: record_facts(alloc, keys, number, rrset)?,
    })?;
    Ok(())
}

/// What is so of the records of the DS RRset, which has the number.
fn record_facts(
    alloc: Global,
    keys: &ZoneKeys<'_>,
    number: usize,
    rrset: &Rrset<'_>,
) -> Result<Vec<VoucherFacts>, AllocError>
    requires { rrset.now.rtype ≡ 43 }
    ensures { IfOk result (λ known. AreRecordsKnown keys.now number rrset.now known.items) }
{
    let values = rrset.ds_records();
    let ignored = ignored_types(values);
    let records = in_canonical_order(alloc, rrset, values)?;
    let mut known = Vec::with_capacity(alloc, records.len())?;
    for (place, each) in records.iter().enumerate() {
        let entry = EntryNumber::Ds(RecordNumber {
            rrset: number,
            place: place + 1,
        });
        let asked = Asked::Digest(values, each.record);
        let is_ignored = is_ignored(ignored, each.record);
        known.push(voucher_facts(alloc, keys, entry, asked, is_ignored)?)?;
    }
    Ok(known)
}

/// Whether the record is ignored in the DS RRset with these ignored types.
#[tactic(auto, using(crate::proofs::lemmas::GroupLemmas::ignored_sha1, crate::proofs::lemmas::GroupLemmas::ignored_sha256, crate::proofs::lemmas::GroupLemmas::ignored_sha384, crate::proofs::lemmas::GroupLemmas::no_type))]
fn is_ignored(ignored: IgnoredTypes, ds: &Ds<'_>) -> bool
    ensures { (records : List Ds) → AreIgnoredTypes records ignored → IsTrue result ↔ IsIgnored records ds.now }
{
    match DigestAlgorithm::from_number(ds.digest_type.0) {
        Some(DigestAlgorithm::Sha1) => ignored.sha1,
        Some(DigestAlgorithm::Sha256) => ignored.sha256,
        Some(DigestAlgorithm::Sha384) => ignored.sha384,
        None => false,
    }
}

/// The digest types that are ignored beside these records.
fn ignored_types(records: &[Ds<'_>]) -> IgnoredTypes
    ensures { AreIgnoredTypes records.now result }
{
    IgnoredTypes {
        sha1: has_stronger(records, 1),
        sha256: has_stronger(records, 2),
        sha384: has_stronger(records, 4),
    }
}

/// Whether the digest type of one of the records goes before the one with the number.
fn has_stronger(records: &[Ds<'_>], weaker: u8) -> bool
    ensures { IsTrue result ↔ HasStronger records.now weaker }
{
    records
        .iter()
        .any(|ds| goes_before(ds.digest_type, DigestType(weaker)))
}
