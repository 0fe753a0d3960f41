//! The lines of what keeps a zone from being trusted, or an RRset from being signed.
ghost use Rattle.std.specs.Prelude.{◌≡◌, IfOk, MatchOption};
ghost use Rattle.dnsv_lines.specs.declared.line.Line.{Line};
ghost use Rattle.dnsv_mending.specs.declared.told.Told.{Told};
ghost use Rattle.dnsv_mending.specs.declared.told.Told.TheVariants as told;
ghost use Rattle.dnsv_chain.specs.Basis.{Basis, basis_by};
ghost use Rattle.dnsv_names.specs.Name.{Labels};
ghost use Rattle.dnsv_trust_reasons.specs.TrustLines.{IsTrustLine};

use crate::entry::entry;
use crate::key::key_at;
use crate::labels::above;
use crate::signature::shown;
use dnsv_canonical::{RecordNumber, SignatureNumber};
use dnsv_faults::CaseFacts;
use dnsv_lines::{
    EntryFault, EntryNumber, KeyWithoutSignature, KeysNotVouched, Line, Reason, SignatureFault,
    UnsignedRrset, UntrustedSigner, WhyEntry, WhySignature, WhyZone, ZoneFault,
};
use dnsv_mending::Told;
use dnsv_names::Name;
use std::alloc::{AllocError, Global};

/// The line that says what is reported, if the evidence has what it speaks of.
pub fn trust_line(
    alloc: Global,
    facts: &CaseFacts<'_>,
    name: &Name,
    told: Told,
) -> Result<Option<Line>, AllocError>
    ensures { IfOk result (λ found. MatchOption found ((each : Line) → ¬ IsTrustLine (basis_by facts.now) name.now told each)
        (IsTrustLine (basis_by facts.now) name.now told)) }
{
    match told {
        Told::Zone(why, labels) => Ok(zone_line(name, why, labels)),
        Told::Entry(why, number) => entry_line(alloc, facts, why, number),
        Told::NotSelfSigned(number) => self_line(alloc, facts, number),
        Told::NotVouched(number) => Ok(vouched_line(facts, number)),
        Told::Unsigned(number) => Ok(unsigned_line(facts, number)),
        Told::Signature(why, number) => Ok(signature_line(facts, why, number)),
        Told::Follows(number) => Ok(follows_line(facts, number)),
    }
}

/// That the zone with so many labels lacks something.
fn zone_line(name: &Name, why: WhyZone, labels: usize) -> Option<Line>
    ensures { (basis : Basis) → MatchOption result ((each : Line) → ¬ IsTrustLine basis name.now (told.Zone why labels) each)
        (IsTrustLine basis name.now (told.Zone why labels)) }
{
    let Some(zone) = above(name, labels) else {
        return None;
    };
    Some(Line::Reason(Reason::Zone(ZoneFault { why, zone })))
}

/// That the trust anchor or the DS record matches no key.
fn entry_line(
    alloc: Global,
    facts: &CaseFacts<'_>,
    why: WhyEntry,
    number: EntryNumber,
) -> Result<Option<Line>, AllocError>
    ensures { (name : Labels) → IfOk result (λ found. MatchOption found ((each : Line) → ¬ IsTrustLine (basis_by facts.now) name (told.Entry why number) each)
        (IsTrustLine (basis_by facts.now) name (told.Entry why number))) }
{
    let Some(entry) = entry(alloc, facts, number)? else {
        return Ok(None);
    };
    Ok(Some(Line::Reason(Reason::Entry(EntryFault { why, entry }))))
}

/// That the key in the DNSKEY RRset doesn't sign it.
fn self_line(
    alloc: Global,
    facts: &CaseFacts<'_>,
    number: RecordNumber,
) -> Result<Option<Line>, AllocError>
    ensures { (name : Labels) → IfOk result (λ found. MatchOption found ((each : Line) → ¬ IsTrustLine (basis_by facts.now) name (told.NotSelfSigned number) each)
        (IsTrustLine (basis_by facts.now) name (told.NotSelfSigned number))) }
{
    let Some(rrset) = facts.capture().rrset(number.rrset) else {
        return Ok(None);
    };
    let Some(key) = key_at(alloc, rrset, number.place)? else {
        return Ok(None);
    };
    Ok(Some(Line::Reason(Reason::NotSelfSigned(KeyWithoutSignature {
        zone: rrset.owner().clone().unwrap(),
        rrset: number.rrset,
        key,
    }))))
}

/// That nothing fits a key of the DNSKEY RRset with the number.
fn vouched_line(facts: &CaseFacts<'_>, number: usize) -> Option<Line>
    ensures { (name : Labels) → MatchOption result ((each : Line) → ¬ IsTrustLine (basis_by facts.now) name (told.NotVouched number) each)
        (IsTrustLine (basis_by facts.now) name (told.NotVouched number)) }
{
    let Some(rrset) = facts.capture().rrset(number) else {
        return None;
    };
    Some(Line::Reason(Reason::NotVouched(KeysNotVouched {
        zone: rrset.owner().clone().unwrap(),
        rrset: number,
    })))
}

/// That the RRset with the number has no signatures.
fn unsigned_line(facts: &CaseFacts<'_>, number: usize) -> Option<Line>
    ensures { (name : Labels) → MatchOption result ((each : Line) → ¬ IsTrustLine (basis_by facts.now) name (told.Unsigned number) each)
        (IsTrustLine (basis_by facts.now) name (told.Unsigned number)) }
{
    let Some(rrset) = facts.capture().rrset(number) else {
        return None;
    };
    Some(Line::Reason(Reason::Unsigned(UnsignedRrset {
        owner: rrset.owner().clone().unwrap(),
        rtype: rrset.rtype(),
        rrset: number,
    })))
}

/// That the signature proves nothing.
fn signature_line(facts: &CaseFacts<'_>, why: WhySignature, number: SignatureNumber) -> Option<Line>
    ensures { (name : Labels) → MatchOption result ((each : Line) → ¬ IsTrustLine (basis_by facts.now) name (told.Signature why number) each)
        (IsTrustLine (basis_by facts.now) name (told.Signature why number)) }
{
    let Some(signature) = shown(facts.capture(), number) else {
        return None;
    };
    Some(Line::Reason(Reason::Signature(SignatureFault { why, signature })))
}

/// That the signature proves nothing because its signer isn't trusted.
fn follows_line(facts: &CaseFacts<'_>, number: SignatureNumber) -> Option<Line>
    ensures { (name : Labels) → MatchOption result ((each : Line) → ¬ IsTrustLine (basis_by facts.now) name (told.Follows number) each)
        (IsTrustLine (basis_by facts.now) name (told.Follows number)) }
{
    let Some(signature) = shown(facts.capture(), number) else {
        return None;
    };
    Some(Line::Follows(UntrustedSigner { signature }))
}
