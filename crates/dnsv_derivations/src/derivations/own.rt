//! Derivations of the signatures by which a zone's records count.
ghost use Rattle.std.specs.Prelude.{◌≡◌, ◌↔◌, ℕ, Contains, IsTrue, MatchOption, OnOk};
ghost use Rattle.dnsv_names.specs.Name.{SameName};
ghost use Rattle.dnsv_canonical.specs.declared.number.RecordNumber.{RecordNumber};
ghost use Rattle.dnsv_denial.specs.gathering.Evidence.{HasZoneSignature, IsSecuredBy};
ghost use Rattle.dnsv_derivations.specs.derivations.OwnDerivations.{AreRecordsDerived, IsLowestOwn, IsOwnDerivation, IsOwnSignature, IsSignatureTold, SecuredIn};
ghost use Rattle.dnsv_derivations.specs.Explained.{setting_in};
ghost use Rattle.dnsv_derivations.specs.Saying.{Adds};

use crate::derivations::derivation;
use crate::evidence::Evidence;
use dnsv_canonical::{RecordNumber, Rrset, SignatureNumber, is_expanded, numbered};
use dnsv_lines::Line;
use dnsv_names::Name;
use dnsv_records::Rrsig;
use std::alloc::{AllocError, Global};

/// Adds the derivation of each record's RRset, but for what was said before.
pub fn add_records(
    alloc: Global,
    evidence: &Evidence<'_>,
    lines: &mut Vec<Line>,
    zone: &Name,
    records: &[RecordNumber],
) -> Result<(), AllocError>
    requires { (number : RecordNumber) → Contains records.now number
        → IsSecuredBy (SecuredIn (setting_in evidence.now)) (setting_in evidence.now).rrsets zone.now number.rrset }
    ensures { OnOk result (Adds (AreRecordsDerived (setting_in evidence.now) zone.now records.now) lines.old.items
        lines.new.items) }
{
    for number in records {
        add_own(alloc, evidence, lines, zone, number.rrset)?;
    }
    Ok(())
}

/// Adds the derivation of the lowest signature of the RRset with the number that is the zone's own.
fn add_own(
    alloc: Global,
    evidence: &Evidence<'_>,
    lines: &mut Vec<Line>,
    zone: &Name,
    rrset: usize,
) -> Result<(), AllocError>
    requires { IsSecuredBy (SecuredIn (setting_in evidence.now)) (setting_in evidence.now).rrsets zone.now rrset }
    ensures { OnOk result (Adds (IsOwnDerivation (setting_in evidence.now) zone.now rrset) lines.old.items lines.new.items) }
{
    let Some(lowest) = lowest_own(evidence, zone, rrset) else {
        return Ok(());
    };
    add_derivation(alloc, evidence, lines, lowest)?;
    Ok(())
}

/// Adds the derivation of the signature with the number, but for what was said before.
pub fn add_derivation(
    alloc: Global,
    evidence: &Evidence<'_>,
    lines: &mut Vec<Line>,
    number: SignatureNumber,
) -> Result<(), AllocError>
    requires { SecuredIn (setting_in evidence.now) number.rrset number.signature }
    ensures { OnOk result (Adds (IsSignatureTold (setting_in evidence.now) number) lines.old.items lines.new.items) }
{
    let Some(mut more) = derivation(alloc, evidence, lines, number)? else {
        return Ok(());
    };
    lines.append(&mut more)?;
    Ok(())
}

/// The lowest signature of the RRset with the number that is good under a trusted key of the zone, which made it, and
/// behind which no wildcard is (RFC 4035 5.3.1, 5.3.4).
fn lowest_own(evidence: &Evidence<'_>, zone: &Name, rrset: usize) -> Option<SignatureNumber>
    ensures { MatchOption result
        ((s : ℕ) → ¬ IsOwnSignature (setting_in evidence.now) zone.now rrset s)
        (λ number. (number.rrset ≡ rrset) × IsLowestOwn (setting_in evidence.now) zone.now rrset number.signature) }
{
    let Some(found) = numbered(evidence.rrsets(), rrset) else {
        return None;
    };
    for signature in evidence.secured(rrset) {
        if is_own(found, *signature, zone) {
            return Some(SignatureNumber {
                rrset,
                signature: *signature,
            });
        }
    }
    None
}

/// Whether the signature of the RRset with the number is the zone's, and no wildcard is behind it.
fn is_own(rrset: &Rrset<'_>, number: usize, zone: &Name) -> bool
    ensures { IsTrue result ↔ HasZoneSignature (λ s. s ≡ number) rrset.now zone.now }
{
    let Some(rrsig) = numbered(rrset.signatures(), number) else {
        return false;
    };
    if is_signer(zone, rrsig) {
        return !is_expanded(rrset.owner(), rrsig);
    }
    false
}

/// Whether the name is the signer of the signature, without regard to case (RFC 4343).
fn is_signer(name: &Name, rrsig: &Rrsig<'_>) -> bool
    ensures { IsTrue result ↔ SameName rrsig.now.signer name.now }
{
    rrsig.signer.is_same(name)
}
