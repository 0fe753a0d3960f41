//! The first name below a zone that something in the evidence shows to be an unsigned delegation.
ghost use Rattle.std.specs.Prelude.{◌≡◌, ◌⊎◌, ◌↔◌, ◌≤◌, ◌<◌, IfOk, IsTrue, length};
ghost use Rattle.dnsv_canonical.specs.declared.number.RecordNumber.{RecordNumber};
ghost use Rattle.dnsv_names.specs.Name.{SameName, rightmost};
ghost use Rattle.dnsv_zones.specs.zones.TypeNumbers.{ds};
ghost use Rattle.dnsv_gaps.specs.Asking.{asking};
ghost use Rattle.dnsv_gaps.specs.SourceSearch.{zone_in};
ghost use Rattle.dnsv_proof_forms.specs.words.Asked.{IsWithin};
ghost use Rattle.dnsv_gaps.specs.questions.Cuts.{HasDsFromAbove, HasGoal, IsDsFromAbove, IsSeen, IsSeenHere, IsSeenUnsigned, IsThere, lowest_cut};
ghost use Rattle.dnsv_gaps.specs.questions.CutSearch.{IsFirstSeen, IsParentZone, IsSaidByOne};

use crate::asked::AskedQuestion;
use crate::denials::has_signer_above;
use crate::question::cuts::ParentZone;
use crate::sources::saying::has_saying;
use dnsv_canonical::Rrset;
use dnsv_faults::{has_own_anchor, has_rrset};
use dnsv_names::{Name, RecordType};
use dnsv_proof_forms::{AskedName, AskedTypes, AskedWord};
use std::alloc::{AllocError, Global};

/// How many labels the first name below the zone has that is seen so, if one is. None has more labels than `lowest`.
pub fn first_seen(
    alloc: Global,
    parent: &ParentZone<'_, '_, '_>,
    lowest: usize,
) -> Result<Option<usize>, AllocError>
    requires parent { IsParentZone parent.now }
    requires lowest { lowest ≡ lowest_cut (asking parent.now.question.now) }
    requires within { lowest ≤ length parent.now.question.now.name.now }
    ensures { IfOk result (IsFirstSeen (asking parent.now.question.now) parent.now.labels parent.now.next) }
{
    // What is true of every name: it has few labels.
    let _labels = parent.question.name.labels();
    for name in parent.labels + 1..lowest + 1 {
        if is_seen(alloc, parent, name)? {
            return Ok(Some(name));
        }
    }
    Ok(None)
}

/// Whether the name with so many labels is.
fn is_seen(alloc: Global, parent: &ParentZone<'_, '_, '_>, name: usize) -> Result<bool, AllocError>
    requires parent { IsParentZone parent.now }
    requires within { name ≤ length parent.now.question.now.name.now }
    ensures { IfOk result (λ is. IsTrue is ↔ IsSeen (asking parent.now.question.now) (zone_in parent.now.question.now parent.now.labels)
        parent.now.next name) }
{
    let Some(next) = parent.next else {
        return Ok(is_seen_here(alloc, parent, name)?);
    };
    if name < next {
        return Ok(is_seen_here(alloc, parent, name)?);
    }
    if name > next {
        return Ok(false);
    }
    Ok(is_seen_unsigned(alloc, parent, name)?)
}

/// Whether the name with so many labels is, which is no known zone.
fn is_seen_here(
    alloc: Global,
    parent: &ParentZone<'_, '_, '_>,
    name: usize,
) -> Result<bool, AllocError>
    requires parent { IsParentZone parent.now }
    requires within { name ≤ length parent.now.question.now.name.now }
    ensures { IfOk result (λ is. IsTrue is ↔ IsSeenHere (asking parent.now.question.now) (zone_in parent.now.question.now parent.now.labels)
        parent.now.next (rightmost parent.now.question.now.name.now name)) }
{
    let cut = parent.question.name.suffix(name);
    if has_rrset(parent.question.facts, &cut, RecordType::NS) {
        return Ok(true);
    }
    if has_rrset(parent.question.facts, &cut, RecordType::SOA) {
        return Ok(true);
    }
    let delegation = AskedWord::Types(AskedTypes::Delegation);
    if is_said(alloc, parent, AskedName::Above(name), delegation)? {
        return Ok(true);
    }
    if !may_be_left_out(parent) {
        return Ok(false);
    }
    Ok(is_said(alloc, parent, AskedName::Above(name), AskedWord::OptedOut)?)
}

/// Whether something may answer the question, or a known zone is below.
fn may_be_left_out(parent: &ParentZone<'_, '_, '_>) -> bool
    ensures { IsTrue result ↔ (HasGoal (asking parent.now.question.now) ⊎ IsThere parent.now.next) }
{
    match parent.next {
        Some(_) => true,
        None => has_goal(parent.question),
    }
}

/// Whether something may answer the question.
fn has_goal(question: &AskedQuestion<'_, '_>) -> bool
    ensures { IsTrue result ↔ HasGoal (asking question.now) }
{
    if has_rrset(question.facts, question.name, question.rtype) {
        return true;
    }
    has_rrset(question.facts, question.name, RecordType::CNAME)
}

/// Whether the known zone next below, which has so many labels, is.
fn is_seen_unsigned(
    alloc: Global,
    parent: &ParentZone<'_, '_, '_>,
    name: usize,
) -> Result<bool, AllocError>
    requires parent { IsParentZone parent.now }
    requires within { name ≤ length parent.now.question.now.name.now }
    ensures { IfOk result (λ is. IsTrue is ↔ IsSeenUnsigned (asking parent.now.question.now)
        (zone_in parent.now.question.now parent.now.labels) (rightmost parent.now.question.now.name.now name)) }
{
    let cut = parent.question.name.suffix(name);
    if has_own_anchor(parent.question.facts, &cut) {
        return Ok(false);
    }
    if has_ds_from_above(parent.question.facts.capture().rrsets(), &cut) {
        return Ok(false);
    }
    let unsigned = AskedWord::Types(AskedTypes::UnsignedDelegation);
    if is_said(alloc, parent, AskedName::Above(name), unsigned)? {
        return Ok(true);
    }
    Ok(is_said(alloc, parent, AskedName::Above(name), AskedWord::OptedOut)?)
}

/// Whether one of the RRsets is of DS records of the zone, with a signature by one above it.
fn has_ds_from_above(rrsets: &[Rrset<'_>], zone: &Name) -> bool
    ensures { IsTrue result ↔ HasDsFromAbove rrsets.now zone.now }
{
    rrsets.iter().any(|rrset| is_ds_from_above(rrset, zone))
}

/// Whether the RRset is one of DS records of the zone, with a signature by one above it.
fn is_ds_from_above(rrset: &Rrset<'_>, zone: &Name) -> bool
    ensures { IsTrue result ↔ IsDsFromAbove zone.now rrset.now }
{
    if !is_ds_of(rrset, zone) {
        return false;
    }
    has_signer_above(rrset.signatures(), zone, true)
}

/// Whether the RRset is one of DS records of the zone.
fn is_ds_of(rrset: &Rrset<'_>, zone: &Name) -> bool
    ensures { IsTrue result ↔ ((rrset.now.rtype ≡ ds) × SameName rrset.now.owner zone.now) }
{
    rrset.rtype() == RecordType::DS && *rrset.owner() == *zone
}

/// Whether a record of one of the sources says so of the name.
fn is_said(
    alloc: Global,
    parent: &ParentZone<'_, '_, '_>,
    asked: AskedName,
    word: AskedWord,
) -> Result<bool, AllocError>
    requires parent { IsParentZone parent.now }
    requires within { IsWithin parent.now.question.now.name.now asked }
    ensures { IfOk result (λ is. IsTrue is ↔ ((number : RecordNumber)
        × IsSaidByOne parent.now.question.now parent.now.labels asked word parent.now.sources.now number)) }
{
    for held in parent.sources {
        let source = held.source(parent.labels);
        if has_saying(alloc, parent.question, &source, asked, word)? {
            return Ok(true);
        }
    }
    Ok(false)
}
