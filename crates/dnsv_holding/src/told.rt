//! What holds at one name of a way, for a verdict that needs no more answers.
ghost use Rattle.std.specs.Prelude.{ℕ, OnOk};
ghost use Rattle.dnsv_denial.specs.proving.FirstProof.{CanProveNoData, CanProveNoName};
ghost use Rattle.dnsv_verdict.specs.Secure.{IsSecureSet};
ghost use Rattle.dnsv_verdict.specs.Verdict.{IsSettledAsBy};
ghost use Rattle.dnsv_holding.specs.At.{IsAt};
ghost use Rattle.dnsv_holding.specs.Holding.{IsNoDataTold, IsNoNameTold, IsSetTold, IsSettledTold};
ghost use Rattle.dnsv_derivations.specs.Explained.{setting_in};
ghost use Rattle.dnsv_holding.specs.Explained.{basis_in};
ghost use Rattle.dnsv_derivations.specs.Saying.{Adds};
ghost use Rattle.dnsv_derivations.specs.derivations.OwnDerivations.{SecuredIn};

use crate::at::At;
use crate::wildcard_cut::add_wildcard_cut;
use dnsv_canonical::{SignatureNumber, is_expanded, numbered};
use dnsv_derivations::{Evidence, add_cut, add_denial, add_derivation};
use dnsv_lines::Line;
use dnsv_names::RecordType;
use dnsv_verdict::Verdict;
use std::alloc::{AllocError, Global};

/// Adds what holds for the verdict at the name, which is one that needs no more answers.
pub fn add_settled(
    alloc: Global,
    evidence: &Evidence<'_>,
    at: &At<'_, '_>,
    lines: &mut Vec<Line>,
    rtype: RecordType,
    verdict: &Verdict<'_>,
) -> Result<(), AllocError>
    requires at { IsAt evidence.now at.now }
    requires verdict { IsSettledAsBy (basis_in evidence.now) at.now.name.now rtype.0 verdict.now }
    ensures { OnOk result (Adds (IsSettledTold (setting_in evidence.now) at.now.name.now rtype.0 verdict.now) lines.old.items
        lines.new.items) }
{
    match verdict {
        Verdict::SecureAnswer { rrset, signature } => {
            let number = SignatureNumber {
                rrset: *rrset,
                signature: *signature,
            };
            Ok(add_set(alloc, evidence, at, lines, number)?)
        }
        Verdict::SecureAlias { rrset, signature } => {
            let number = SignatureNumber {
                rrset: *rrset,
                signature: *signature,
            };
            Ok(add_set(alloc, evidence, at, lines, number)?)
        }
        Verdict::SecureNoName(_) => Ok(add_no_name(alloc, evidence, at, lines)?),
        Verdict::SecureNoData(_) => { Ok(add_no_data(alloc, evidence, at, lines, rtype)?) }
        Verdict::Insecure(_) => {
            let view = at.view(alloc)?;
            let Some(shown) = view.shown_unsigned_cut() else {
                return Ok(add_wildcard_cut(alloc, evidence, at, &view, lines, rtype)?);
            };
            Ok(add_cut(alloc, evidence, lines, at.name, &shown)?)
        }
        // None of these needs no more answers.
        Verdict::Pending(_) => Ok(()),
        Verdict::Bogus => Ok(()),
        Verdict::Indeterminate => Ok(()),
    }
}

/// Adds the derivation of the signature with the number, by which its RRset holds for the name; and where a wildcard is
/// behind it, that no closer name than the wildcard is there.
pub fn add_set(
    alloc: Global,
    evidence: &Evidence<'_>,
    at: &At<'_, '_>,
    lines: &mut Vec<Line>,
    number: SignatureNumber,
) -> Result<(), AllocError>
    requires at { IsAt evidence.now at.now }
    requires secure { (t : ℕ) × IsSecureSet (SecuredIn (setting_in evidence.now)) evidence.now.rrsets at.now.name.now t
        number.rrset number.signature }
    ensures { OnOk result (Adds (IsSetTold (setting_in evidence.now) at.now.name.now number) lines.old.items lines.new.items) }
{
    let Some(rrset) = numbered(evidence.rrsets(), number.rrset) else {
        return Ok(());
    };
    let Some(rrsig) = numbered(rrset.signatures(), number.signature) else {
        return Ok(());
    };
    add_derivation(alloc, evidence, lines, number)?;
    if !is_expanded(rrset.owner(), rrsig) {
        return Ok(());
    }
    let view = at.view(alloc)?;
    let Some(shown) = view.shown_no_closer(&rrsig.signer.to_name(), rrsig.labels as usize) else {
        return Ok(());
    };
    add_denial(alloc, evidence, lines, at.name, &shown)?;
    Ok(())
}

/// Adds how the first proof shows that there is no such name.
fn add_no_name(
    alloc: Global,
    evidence: &Evidence<'_>,
    at: &At<'_, '_>,
    lines: &mut Vec<Line>,
) -> Result<(), AllocError>
    requires at { IsAt evidence.now at.now }
    requires proved { CanProveNoName (SecuredIn (setting_in evidence.now)) evidence.now.rrsets at.now.name.now }
    ensures { OnOk result (Adds (IsNoNameTold (setting_in evidence.now) at.now.name.now) lines.old.items lines.new.items) }
{
    let view = at.view(alloc)?;
    let Some(shown) = view.shown_no_name() else {
        return Ok(());
    };
    add_denial(alloc, evidence, lines, at.name, &shown)?;
    Ok(())
}

/// Adds how the first proof shows that the type isn't there.
fn add_no_data(
    alloc: Global,
    evidence: &Evidence<'_>,
    at: &At<'_, '_>,
    lines: &mut Vec<Line>,
    rtype: RecordType,
) -> Result<(), AllocError>
    requires at { IsAt evidence.now at.now }
    requires proved { CanProveNoData (SecuredIn (setting_in evidence.now)) evidence.now.rrsets at.now.name.now rtype.0 }
    ensures { OnOk result (Adds (IsNoDataTold (setting_in evidence.now) at.now.name.now rtype.0) lines.old.items
        lines.new.items) }
{
    let view = at.view(alloc)?;
    let Some(shown) = view.shown_no_data(rtype) else {
        return Ok(());
    };
    add_denial(alloc, evidence, lines, at.name, &shown)?;
    Ok(())
}
