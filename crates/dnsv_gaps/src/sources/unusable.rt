//! NSEC3 records of denials that can't be used.
ghost use Rattle.std.specs.Prelude.{◌≡◌, ◌<◌, ◌↔◌, ◌++◌, ℕ, Contains, IfOk, IsTrue, List, MatchOption, OnOk};
ghost use Rattle.std.specs.List.Sorted.{IsStrictlySortedBy};
ghost use Rattle.std.specs.Ordering.{nat_cmp};
ghost use Rattle.dnsv_records.specs.Nsec3 as by_fields;
ghost use Rattle.dnsv_canonical.specs.Rrsets.{IsNumbered, ReceivedRrset};
ghost use Rattle.dnsv_gaps.specs.Unusable.{HasUnknownFields, IsHashLabel, IsOfItsParent, IsUnusable, IsWhy};
ghost use Rattle.dnsv_gaps.specs.UnusableSearch.{AreUnused, IsInFront, IsWhyUnused};
ghost use Rattle.dnsv_lines.specs.declared.line.fault.denial.WhyNsec3.{WhyNsec3};
ghost use Rattle.dnsv_remedies.specs.declared.facts.name.UnusableFacts.{UnusableFacts};

use crate::denials::has_signer;
use dnsv_canonical::{Capture, RecordNumber, Rrset};
use dnsv_denial::owner_hash;
use dnsv_lines::WhyNsec3;
use dnsv_names::{Name, RecordType};
use dnsv_records::{HashAlgorithm, Iterations, Nsec3, base32hex_read};
use dnsv_remedies::UnusableFacts;
use dnsv_rrsets::in_canonical_order;
use std::alloc::{AllocError, Global};

/// The NSEC3 records of the RRsets with these rising numbers that are of no source of the zone and can't be used, by their
/// numbers, with why.
pub fn unusable_of(
    alloc: Global,
    capture: &Capture<'_>,
    zone: &Name,
    numbers: &[usize],
) -> Result<Vec<UnusableFacts>, AllocError>
    requires { IsStrictlySortedBy nat_cmp numbers.now }
    ensures { IfOk result (λ unusable. AreUnused capture.now.rrsets zone.now (λ each. Contains numbers.now each.rrset)
        unusable.items) }
{
    let mut unusable = Vec::new(alloc);
    for number in numbers {
        add_unusable(alloc, &mut unusable, capture, zone, *number)?;
    }
    Ok(unusable)
}

/// Adds those of the RRset with the number, if it has NSEC3 records.
fn add_unusable(
    alloc: Global,
    unusable: &mut Vec<UnusableFacts>,
    capture: &Capture<'_>,
    zone: &Name,
    number: usize,
) -> Result<(), AllocError>
    ensures { OnOk result ((more : List UnusableFacts) × (unusable.new.items ≡ unusable.old.items ++ more)
        × AreUnused capture.now.rrsets zone.now (λ each. each.rrset ≡ number) more) }
{
    let Some(rrset) = capture.rrset(number) else {
        return Ok(());
    };
    if rrset.rtype() != RecordType::NSEC3 {
        return Ok(());
    }
    push_unusable(alloc, unusable, zone, number, rrset)?;
    Ok(())
}

/// Adds those of the NSEC3 RRset with the number, in canonical order.
fn push_unusable(
    alloc: Global,
    unusable: &mut Vec<UnusableFacts>,
    zone: &Name,
    number: usize,
    rrset: &Rrset<'_>,
) -> Result<(), AllocError>
    requires { rrset.now.rtype ≡ 50 }
    ensures { (rrsets : List ReceivedRrset) → IsNumbered rrsets number rrset.now
        → OnOk result ((more : List UnusableFacts) × (unusable.new.items ≡ unusable.old.items ++ more)
        × AreUnused rrsets zone.now (λ each. each.rrset ≡ number) more) }
{
    let is_hashed = is_in_front(rrset.owner(), zone);
    let records = in_canonical_order(alloc, rrset, rrset.nsec3s())?;
    for (place, each) in records.iter().enumerate() {
        let number = RecordNumber {
            rrset: number,
            place: place + 1,
        };
        if let Some(why) = why_unused(rrset, is_hashed, each.record) {
            unusable.push(UnusableFacts { why, number })?;
        }
    }
    Ok(())
}

/// Whether the owner is a hash in front of the zone (RFC 5155 3).
fn is_in_front(owner: &Name, zone: &Name) -> bool
    ensures { IsTrue result ↔ IsInFront zone.now owner.now }
{
    owner_hash(owner, zone).is_some()
}

/// Why the record can't be used, if it is of no source; `is_hashed` is whether its owner is a hash in front of the zone.
fn why_unused(rrset: &Rrset<'_>, is_hashed: bool, nsec3: &Nsec3<'_>) -> Option<WhyNsec3>
    ensures { MatchOption result ((why : WhyNsec3) → ¬ IsWhyUnused is_hashed rrset.now nsec3.now why)
        (IsWhyUnused is_hashed rrset.now nsec3.now) }
{
    if is_source(is_hashed, nsec3) {
        return None;
    }
    why_unusable(rrset, nsec3)
}

/// Whether it is of a source of the zone.
fn is_source(is_hashed: bool, nsec3: &Nsec3<'_>) -> bool
    ensures { IsTrue result ↔ (IsTrue is_hashed × by_fields.IsUsable nsec3.now) }
{
    if !is_hashed {
        return false;
    }
    nsec3.is_usable()
}

/// Why the record can't be used: it asks for too many iterations, or else it is no record that is known, or not of the zone
/// above its owner.
fn why_unusable(rrset: &Rrset<'_>, nsec3: &Nsec3<'_>) -> Option<WhyNsec3>
    ensures { MatchOption result ((why : WhyNsec3) → ¬ IsWhy rrset.now nsec3.now why) (IsWhy rrset.now nsec3.now) }
{
    if has_many_iterations(nsec3) {
        return Some(WhyNsec3::Iterations(nsec3.parameters.iterations));
    }
    if is_unusable(rrset, nsec3) {
        return Some(WhyNsec3::Unusable);
    }
    None
}

/// Whether the record asks for more iterations than this profile takes (RFC 5155 10.3).
fn has_many_iterations(nsec3: &Nsec3<'_>) -> bool
    ensures { IsTrue result ↔ (500 < nsec3.now.parameters.iterations.0) }
{
    nsec3.parameters.iterations > Iterations::LIMIT
}

/// Whether the record can't be used for another reason than its iterations.
fn is_unusable(rrset: &Rrset<'_>, nsec3: &Nsec3<'_>) -> bool
    ensures { IsTrue result ↔ IsUnusable rrset.now nsec3.now }
{
    if has_unknown_fields(nsec3) {
        return true;
    }
    if !is_hash_label(rrset.owner()) {
        return true;
    }
    !is_of_its_parent(rrset)
}

/// Whether its algorithm isn't SHA-1, a flag isn't known, or its next hash has another length (RFC 5155 3.1, 8.1, 8.2).
fn has_unknown_fields(nsec3: &Nsec3<'_>) -> bool
    ensures { IsTrue result ↔ HasUnknownFields nsec3.now }
{
    nsec3.algorithm != HashAlgorithm::SHA1
        || nsec3.flags.0 > 1
        || nsec3.next_hash.as_slice().len() != 20
}

/// Whether the owner's first label spells a hash.
fn is_hash_label(owner: &Name) -> bool
    ensures { IsTrue result ↔ IsHashLabel owner.now }
{
    if owner.labels() == 0 {
        return false;
    }
    base32hex_read(owner.label(0)).is_some()
}

/// Whether a signature of the RRset is by the zone right above its owner, or it has none.
fn is_of_its_parent(rrset: &Rrset<'_>) -> bool
    ensures { IsTrue result ↔ IsOfItsParent rrset.now rrset.now.owner }
{
    let Some(parent) = rrset.owner().parent() else {
        return false;
    };
    if rrset.signatures().is_empty() {
        return true;
    }
    has_signer(rrset, &parent)
}
