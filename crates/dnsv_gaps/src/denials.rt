//! Which NSEC and NSEC3 RRsets may deny a question, and for which zone, whether they are trusted or not.

mod signers;

ghost use Rattle.std.specs.Prelude.{◌≡◌, ◌↔◌, ◌≤◌, ℕ, Contains, IfOk, IsTrue, length};
ghost use Rattle.std.specs.List.Sorted.{IsStrictlySortedBy};
ghost use Rattle.std.specs.Ordering.{nat_cmp};
ghost use Rattle.dnsv_names.specs.Name.{rightmost};
ghost use Rattle.dnsv_chain.specs.Basis.{basis_by};
ghost use Rattle.dnsv_faults.specs.KnownZones.{IsKnownZone};
ghost use Rattle.dnsv_gaps.specs.Asking.{IsAsked, asking};
ghost use Rattle.dnsv_gaps.specs.DenialSearch.{HasKnownBetween, IsDenialType, IsKnownAbove};
ghost use Rattle.dnsv_gaps.specs.Denials.{IsDenial, IsDenialNumber, IsDenialOf, IsStrayOf};

use crate::asked::AskedQuestion;
pub use crate::denials::signers::{has_signer, has_signer_above};
use crate::denials::signers::{has_speaker, is_stray};
use dnsv_canonical::Rrset;
use dnsv_faults::is_above;
use dnsv_names::{Name, RecordType};
use std::alloc::{AllocError, Global};

/// The numbers of the denials of the zone with so many of the name's labels, rising.
pub fn denials_of(
    alloc: Global,
    question: &AskedQuestion<'_, '_>,
    labels: usize,
) -> Result<Vec<usize>, AllocError>
    requires asked { IsAsked question.now }
    requires within { labels ≤ length question.now.name.now }
    ensures order { IfOk result (λ numbers. IsStrictlySortedBy nat_cmp numbers.items) }
    ensures members { IfOk result (λ numbers. (k : ℕ) → Contains numbers.items k
        ↔ IsDenialNumber (asking question.now) (rightmost question.now.name.now labels) k) }
{
    let zone = question.name.suffix(labels);
    let mut numbers = Vec::new(alloc);
    for (place, rrset) in question.facts.capture().rrsets().iter().enumerate() {
        if is_denial_of(question, labels, &zone, rrset) {
            numbers.push(place + 1)?;
        }
    }
    Ok(numbers)
}

/// Whether the RRset, whose owner is at or below the zone, is a denial of it: the zone signed it, or it is stray. The zone has so
/// many of the name's labels.
fn is_denial_of(
    question: &AskedQuestion<'_, '_>,
    labels: usize,
    zone: &Name,
    rrset: &Rrset<'_>,
) -> bool
    requires asked { IsAsked question.now }
    requires within { labels ≤ length question.now.name.now }
    requires zone { zone.now ≡ rightmost question.now.name.now labels }
    ensures { IsTrue result ↔ IsDenialOf (asking question.now) zone.now rrset.now }
{
    if !is_denial(question, rrset) {
        return false;
    }
    if !rrset.owner().is_at_or_below(zone) {
        return false;
    }
    if has_signer(rrset, zone) {
        return true;
    }
    is_stray_of(question, labels, zone, rrset)
}

/// Whether the RRset may deny the question: a zone speaks by it, or it is stray.
fn is_denial(question: &AskedQuestion<'_, '_>, rrset: &Rrset<'_>) -> bool
    ensures { IsTrue result ↔ IsDenial (asking question.now) rrset.now }
{
    if !is_denial_type(rrset.rtype()) {
        return false;
    }
    if has_speaker(question.name, question.rtype, rrset) {
        return true;
    }
    is_stray(rrset)
}

/// Whether records of the type may deny.
fn is_denial_type(rtype: RecordType) -> bool
    ensures { IsTrue result ↔ IsDenialType rtype.0 }
{
    rtype == RecordType::NSEC || rtype == RecordType::NSEC3
}

/// Whether the RRset is stray, at or below the zone, with no known zone between.
fn is_stray_of(
    question: &AskedQuestion<'_, '_>,
    labels: usize,
    zone: &Name,
    rrset: &Rrset<'_>,
) -> bool
    requires asked { IsAsked question.now }
    requires within { labels ≤ length question.now.name.now }
    requires zone { zone.now ≡ rightmost question.now.name.now labels }
    ensures { IsTrue result ↔ IsStrayOf (asking question.now) zone.now rrset.now }
{
    if !is_stray(rrset) {
        return false;
    }
    if !rrset.owner().is_at_or_below(zone) {
        return false;
    }
    !has_known_between(question, labels, rrset.owner())
}

/// Whether a known zone with more labels is above the owner.
fn has_known_between(question: &AskedQuestion<'_, '_>, labels: usize, owner: &Name) -> bool
    requires asked { IsAsked question.now }
    requires within { labels ≤ length question.now.name.now }
    ensures { IsTrue result ↔ HasKnownBetween (asking question.now) labels owner.now }
{
    for count in labels + 1..question.name.labels() + 1 {
        if is_known_above(question, count, owner) {
            return true;
        }
    }
    false
}

/// Whether so many of the name's labels are those of a known zone above the owner.
fn is_known_above(question: &AskedQuestion<'_, '_>, labels: usize, owner: &Name) -> bool
    requires asked { IsAsked question.now }
    requires within { labels ≤ length question.now.name.now }
    ensures { IsTrue result ↔ IsKnownAbove (asking question.now) labels owner.now }
{
    if !is_known(question, labels) {
        return false;
    }
    is_above(owner, &question.name.suffix(labels), true)
}

/// Whether so many of the name's labels are those of a known zone.
pub fn is_known(question: &AskedQuestion<'_, '_>, labels: usize) -> bool
    requires asked { IsAsked question.now }
    requires within { labels ≤ length question.now.name.now }
    ensures { IsTrue result ↔ IsKnownZone (basis_by question.now.facts.now) question.now.name.now question.now.rtype.0
        (rightmost question.now.name.now labels) }
{
    question.known[labels]
}
