//! Derivations of signatures, from a trust anchor down.

pub mod own;
pub mod signers;
pub mod ways;

ghost use Rattle.std.specs.Prelude.{◌≡◌, ◌↔◌, ℕ, IfOk, IsTrue, MatchOption, OnOk};
ghost use Rattle.dnsv_chain.specs.Trusted.{IsSecured};
ghost use Rattle.dnsv_verifier.specs.Table.{table_answer};
ghost use Rattle.dnsv_derivations.specs.Explained.{setting_in};
ghost use Rattle.dnsv_derivations.specs.derivations.Climb.{Climbs};
ghost use Rattle.dnsv_derivations.specs.derivations.Derivations.{IsDerivation, IsLowestSecured, Subject};
ghost use Rattle.dnsv_derivations.specs.Following.{IsSaidTrusted, IsSignatureSaid};
ghost use Rattle.dnsv_derivations.specs.derivations.Ways.{IsTrustedSet};

use crate::derivations::signers::signed_line;
use crate::derivations::ways::trusted_line;
use crate::evidence::Evidence;
use dnsv_canonical::SignatureNumber;
use dnsv_lines::{Line, Voucher};
use std::alloc::{AllocError, Global};

/// The lines that derive that the signature with the number is good under a trusted key, from a trust anchor down, but
/// for what was said before. `None` where it isn't so.
pub fn derivation(
    alloc: Global,
    evidence: &Evidence<'_>,
    before: &[Line],
    number: SignatureNumber,
) -> Result<Option<Vec<Line>>, AllocError>
    ensures { IfOk result (λ lines. MatchOption lines
        (¬ IsSecured (table_answer evidence.now.table) evidence.now.table.moment evidence.now.rrsets evidence.now.anchors number.rrset
        number.signature)
        (λ lines. IsDerivation (setting_in evidence.now) before.now (Subject.signature number) lines.items)) }
{
    let Some(signed) = signed_line(alloc, evidence, number)? else {
        return Ok(None);
    };
    if is_signature_said(before, number) {
        return Ok(Some(Vec::new(alloc)));
    }
    let mut lines = derive_keys(alloc, evidence, before, signed.keys)?;
    lines.push(Line::Signed(signed))?;
    Ok(Some(lines))
}

/// Whether a line says that the signature is good under a trusted key.
fn is_signature_said(lines: &[Line], number: SignatureNumber) -> bool
    ensures { IsTrue result ↔ IsSignatureSaid lines.now number }
{
    lines.iter().any(|line| match line {
        Line::Signed(signed) => signed.signature == number,
        _ => false,
    })
}

/// Whether a line says that the DNSKEY RRset with the number is trusted.
fn is_trust_said(lines: &[Line], number: usize) -> bool
    ensures { IsTrue result ↔ IsSaidTrusted lines.now number }
{
    lines.iter().any(|line| match line {
        Line::Trusted(keys) => keys.signature.rrset == number,
        _ => false,
    })
}

/// The lines that derive that the DNSKEY RRset with the number is trusted, from a trust anchor down, but for what was said
/// before.
pub fn derive_keys(
    alloc: Global,
    evidence: &Evidence<'_>,
    before: &[Line],
    number: usize,
) -> Result<Vec<Line>, AllocError>
    requires { IsTrustedSet (setting_in evidence.now) number }
    ensures { IfOk result (λ lines. IsDerivation (setting_in evidence.now) before.now (Subject.keys number) lines.items) }
{
    // The last line first.
    let mut lines = Vec::new(alloc);
    let mut next = Some(number);
    while let Some(keys) = next {
        next = step(alloc, evidence, before, &mut lines, keys)?;
    }
    lines.reverse();
    Ok(lines)
}

/// Adds the line of the DNSKEY RRset with the number, and that of the DS RRset which leads to it. The number of the
/// DNSKEY RRset whose derivation stands before these, if it wasn't said.
fn step(
    alloc: Global,
    evidence: &Evidence<'_>,
    before: &[Line],
    lines: &mut Vec<Line>,
    number: usize,
) -> Result<Option<usize>, AllocError>
    requires { IsTrustedSet (setting_in evidence.now) number }
    ensures { IfOk result (Climbs (setting_in evidence.now) before.now number lines.old.items lines.new.items) }
{
    if is_trust_said(before, number) {
        return Ok(None);
    }
    let Some(trusted) = trusted_line(alloc, evidence, number)? else {
        return Ok(None);
    };
    let voucher = trusted.voucher;
    lines.push(Line::Trusted(trusted))?;
    let Voucher::Ds(record, _) = voucher else {
        return Ok(None);
    };
    let Some(lowest) = lowest_secured(evidence, record.rrset) else {
        return Ok(None);
    };
    if is_signature_said(before, lowest) {
        return Ok(None);
    }
    let Some(signed) = signed_line(alloc, evidence, lowest)? else {
        return Ok(None);
    };
    let keys = signed.keys;
    lines.push(Line::Signed(signed))?;
    Ok(Some(keys))
}

/// The lowest signature of the RRset with the number that is good under a trusted key.
pub fn lowest_secured(evidence: &Evidence<'_>, rrset: usize) -> Option<SignatureNumber>
    ensures { MatchOption result
        ((s : ℕ) → ¬ IsSecured (table_answer evidence.now.table) evidence.now.table.moment evidence.now.rrsets evidence.now.anchors rrset s)
        (λ number. (number.rrset ≡ rrset) × IsLowestSecured (setting_in evidence.now) rrset number.signature) }
{
    let numbers = evidence.secured(rrset);
    if numbers.is_empty() {
        return None;
    }
    Some(SignatureNumber {
        rrset,
        signature: numbers[0],
    })
}
