//! The signers of what may answer a question or deny it.
ghost use Rattle.std.specs.Prelude.{◌≡◌, ◌↔◌, IfOk, IsTrue, OnOk};
ghost use Rattle.dnsv_verifier.specs.Asking.{AddsJust};
ghost use Rattle.dnsv_faults.specs.KnownZones.KnownSearch.{AreSpoken, IsAbove, IsSignedFromAbove, IsSignerAbove, IsSpokenBy};
ghost use Rattle.dnsv_faults.specs.KnownZones.{IsFromAbove, IsGoal, MaySpeak};

use crate::signature::is_among;
use dnsv_canonical::Rrset;
use dnsv_names::{Name, RecordType};
use std::alloc::{AllocError, Global};

/// How many labels those signers have of RRsets that may answer or deny which are at or above the name.
pub fn speakers(
    alloc: Global,
    rrsets: &[Rrset<'_>],
    name: &Name,
    rtype: RecordType,
) -> Result<Vec<usize>, AllocError>
    ensures { IfOk result (λ numbers. AreSpoken rrsets.now name.now rtype.0 numbers.items) }
{
    let mut numbers = Vec::new(alloc);
    for rrset in rrsets {
        add_speakers(rrset, name, rtype, &mut numbers)?;
    }
    Ok(numbers)
}

/// Adds those of the RRset, if it may answer or deny.
fn add_speakers(
    rrset: &Rrset<'_>,
    name: &Name,
    rtype: RecordType,
    numbers: &mut Vec<usize>,
) -> Result<(), AllocError>
    ensures { OnOk result (AddsJust (IsSpokenBy name.now rtype.0 rrset.now) numbers.old.items numbers.new.items) }
{
    if !may_speak(rrset, name, rtype) {
        return Ok(());
    }
    let from_above = is_from_above(rrset, rtype);
    add_signers(rrset, name, from_above, numbers)?;
    Ok(())
}

/// Whether the RRset may answer, or is one of NSEC or NSEC3 records, which may deny.
fn may_speak(rrset: &Rrset<'_>, name: &Name, rtype: RecordType) -> bool
    ensures { IsTrue result ↔ MaySpeak name.now rtype.0 rrset.now }
{
    is_goal(rrset, name, rtype)
        || rrset.rtype() == RecordType::NSEC
        || rrset.rtype() == RecordType::NSEC3
}

/// Whether the RRset may answer: it has the name, and the type or CNAME.
pub fn is_goal(rrset: &Rrset<'_>, name: &Name, rtype: RecordType) -> bool
    ensures { IsTrue result ↔ IsGoal name.now rtype.0 rrset.now }
{
    (rrset.rtype() == rtype || rrset.rtype() == RecordType::CNAME) && *rrset.owner() == *name
}

/// Whether DS is asked, which the zone above keeps (RFC 4035 2.4), and the RRset is no alias.
pub fn is_from_above(rrset: &Rrset<'_>, rtype: RecordType) -> bool
    ensures { IsTrue result ↔ IsFromAbove rtype.0 rrset.now }
{
    rtype == RecordType::DS && rrset.rtype() != RecordType::CNAME
}

/// Adds how many labels those signers of the RRset have that are at or above the name, or above it.
fn add_signers(
    rrset: &Rrset<'_>,
    name: &Name,
    from_above: bool,
    numbers: &mut Vec<usize>,
) -> Result<(), AllocError>
    ensures { OnOk result (AddsJust (IsSignedFromAbove name.now from_above rrset.now) numbers.old.items numbers.new.items) }
{
    for rrsig in rrset.signatures() {
        add_signer(name, &rrsig.signer.to_name(), from_above, numbers)?;
    }
    Ok(())
}

/// Adds how many labels the signer has, if it is one of them.
fn add_signer(
    name: &Name,
    signer: &Name,
    from_above: bool,
    numbers: &mut Vec<usize>,
) -> Result<(), AllocError>
    ensures { OnOk result (AddsJust (IsSignerAbove name.now from_above signer.now) numbers.old.items numbers.new.items) }
{
    if !is_above(name, signer, from_above) {
        return Ok(());
    }
    add_number(numbers, signer.labels())?;
    Ok(())
}

/// Whether the signer is at or above the name; above it, where it has to be.
#[tactic(auto, using(crate::proofs::lemmas::KnownLemmas::never_above, crate::proofs::lemmas::KnownLemmas::above_by_labels))]
pub fn is_above(name: &Name, signer: &Name, from_above: bool) -> bool
    ensures { IsTrue result ↔ IsAbove name.now from_above signer.now }
{
    if !name.is_at_or_below(signer) {
        return false;
    }
    !from_above || signer.labels() < name.labels()
}

/// Adds the number, if it isn't there.
fn add_number(numbers: &mut Vec<usize>, number: usize) -> Result<(), AllocError>
    ensures { OnOk result (AddsJust (λ n. n ≡ number) numbers.old.items numbers.new.items) }
{
    if is_among(numbers, number) {
        return Ok(());
    }
    numbers.push(number)?;
    Ok(())
}
