//! The lines of an answer from a wildcard against which Opt-Out may stand.
ghost use Rattle.std.specs.Prelude.{◌≡◌, OnOk};
ghost use Rattle.dnsv_chain.specs.Trust.{SecuredIn as KeptIn};
ghost use Rattle.dnsv_denial.specs.unsigned_cuts.Cuts.{HasUnsignedCut};
ghost use Rattle.dnsv_verdict.specs.Insecure.{IsUnsigned};
ghost use Rattle.dnsv_holding.specs.At.{IsAt, viewed_at};
ghost use Rattle.dnsv_holding.specs.Holding.{IsUnsignedFromTold};
ghost use Rattle.dnsv_derivations.specs.Explained.{setting_in};
ghost use Rattle.dnsv_derivations.specs.Saying.{Adds};
ghost use Rattle.dnsv_derivations.specs.derivations.OwnDerivations.{SecuredIn};

use crate::at::At;
use dnsv_canonical::SignatureNumber;
use dnsv_denial::View;
use dnsv_derivations::{Evidence, add_denial, add_derivation};
use dnsv_lines::Line;
use dnsv_names::RecordType;
use dnsv_verdict::opt_out_wildcard;
use std::alloc::{AllocError, Global};

/// Adds the lines of the first RRset of the name and type, or of CNAME, that comes from a wildcard against which Opt-Out
/// may stand: the derivation of its signature, and how the next closer name is covered. No zone above the name shows
/// that it may be unsigned.
pub fn add_wildcard_cut(
    alloc: Global,
    evidence: &Evidence<'_>,
    at: &At<'_, '_>,
    view: &View<'_, '_>,
    lines: &mut Vec<Line>,
    rtype: RecordType,
) -> Result<(), AllocError>
    requires at { IsAt evidence.now at.now }
    requires view { view.now ≡ viewed_at at.now }
    requires none { ¬ HasUnsignedCut (KeptIn view.now.trust) view.now.rrsets view.now.name }
    requires unsigned { IsUnsigned (SecuredIn (setting_in evidence.now)) evidence.now.rrsets at.now.name.now rtype.0 }
    ensures { OnOk result (Adds (IsUnsignedFromTold (setting_in evidence.now) at.now.name.now rtype.0) lines.old.items
        lines.new.items) }
{
    let Some(found) = opt_out_wildcard(view, rtype) else {
        return Ok(());
    };
    let labels = found.rrsig.labels as usize;
    let Some(shown) = view.shown_loose_closer(&found.rrsig.signer.to_name(), labels) else {
        return Ok(());
    };
    let number = SignatureNumber {
        rrset: found.rrset,
        signature: found.signature,
    };
    add_derivation(alloc, evidence, lines, number)?;
    add_denial(alloc, evidence, lines, at.name, &shown)?;
    Ok(())
}
