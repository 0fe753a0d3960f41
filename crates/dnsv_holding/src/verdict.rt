//! What holds for a verdict.
ghost use Rattle.std.specs.Prelude.{◌≡◌, ◌↔◌, [], IsTrue, OnOk};
ghost use Rattle.dnsv_chain.specs.Basis.{HasTrust, basis_by};
ghost use Rattle.dnsv_verdict.specs.Hope.{HasHope, IsHope};
ghost use Rattle.dnsv_verdict.specs.Report.{hashed_in};
ghost use Rattle.dnsv_verdict.specs.Verdict.{AreUnknown, IsSettledVerdict, IsVerdictAt};
ghost use Rattle.dnsv_holding.specs.Explained.{explained_by};
ghost use Rattle.dnsv_holding.specs.Holding.{IsHopeTold, IsUnproved, IsVerdictTold, told_kind};
ghost use Rattle.dnsv_derivations.specs.Saying.{Adds};
ghost use Rattle.dnsv_holding.specs.SharedWays.{AreHopedWays};

use crate::at::{At, evidence_of};
use crate::told::add_settled;
use dnsv_derivations::{Evidence, KeptWay, add_held};
use dnsv_lines::{Kind, Line};
use dnsv_names::{Name, RecordType};
use dnsv_proof_forms::Hashes;
use dnsv_verdict::{Case, Hope, Judged, Verdict};
use dnsv_verifier::Entries;
use std::alloc::{AllocError, Global};

/// Adds what holds for the verdict at the last name; for one that needs more answers, what may be hoped; and where
/// nothing is proved, how far trust holds.
pub fn add_verdict<'a>(
    alloc: Global,
    evidence: &Evidence<'_>,
    case: &Case<'a>,
    judged: &Judged<'a>,
    hashes: &Hashes<'a>,
    hoped: &[KeptWay],
    lines: &mut Vec<Line>,
    rtype: RecordType,
) -> Result<(), AllocError>
    requires trust { HasTrust case.now }
    requires evidence { evidence.now ≡ explained_by case.now [] }
    requires hashes { hashes.now ≡ hashed_in case.now.rrsets judged.now.report.last }
    requires verdict { IsVerdictAt (basis_by case.now) judged.now.report.last rtype.0
        judged.now.report.verdict }
    requires hoped { AreHopedWays case.now hoped.now }
    requires hope { HasHope case.now judged.now.report.last rtype.0 judged.now.report.verdict judged.now.hope }
    ensures { OnOk result (Adds (IsVerdictTold evidence.now judged.now.report.last rtype.0 judged.now.report.verdict)
        lines.old.items lines.new.items) }
{
    let name = &judged.report.last;
    let verdict = &judged.report.verdict;
    if is_settled(verdict) {
        let at = At { case, hashes, name };
        return Ok(add_settled(alloc, evidence, &at, lines, rtype, verdict)?);
    }
    let Verdict::Pending(unknown) = verdict else {
        return Ok(add_held(alloc, evidence, lines, name)?);
    };
    let Some(hope) = &judged.hope else {
        return Ok(());
    };
    Ok(add_hope(
        alloc, evidence, case, hope, unknown, hoped, hashes, lines, name, rtype,
    )?)
}

/// Adds what the verdict would be if the entries, which the verifier doesn't know, turned out valid, and what holds for
/// that one then.
fn add_hope<'a>(
    alloc: Global,
    evidence: &Evidence<'_>,
    case: &Case<'a>,
    hope: &Hope<'a>,
    unknown: &Entries<'_>,
    ways: &[KeptWay],
    hashes: &Hashes<'a>,
    lines: &mut Vec<Line>,
    name: &Name,
    rtype: RecordType,
) -> Result<(), AllocError>
    requires evidence { evidence.now ≡ explained_by case.now [] }
    requires hashes { hashes.now ≡ hashed_in case.now.rrsets name.now }
    requires unknown { AreUnknown (basis_by case.now) unknown.now }
    requires ways { AreHopedWays case.now ways.now }
    requires hope { IsHope case.now name.now rtype.0 hope.now }
    ensures { OnOk result (Adds (IsHopeTold evidence.now name.now rtype.0 unknown.now) lines.old.items lines.new.items) }
{
    let Some(kind) = kind_of(&hope.verdict) else {
        return Ok(());
    };
    let hoped_case = hope.case.as_ref();
    let bare = evidence_of(hoped_case, Some(unknown));
    let hoped = bare.with_ways(ways);
    lines.push(Line::Hope(kind))?;
    let at = At {
        case: hoped_case,
        hashes,
        name,
    };
    add_settled(alloc, &hoped, &at, lines, rtype, &hope.verdict)?;
    Ok(())
}

/// Whether the verdict needs no more answers, and is one of those that something proves.
pub fn is_settled(verdict: &Verdict<'_>) -> bool
    ensures { IsTrue result ↔ IsSettledVerdict verdict.now }
{
    kind_of(verdict).is_some()
}

/// The word of a verdict that needs no more answers.
fn kind_of(verdict: &Verdict<'_>) -> Option<Kind>
    ensures { result ≡ told_kind verdict.now }
{
    match verdict {
        Verdict::SecureAnswer { .. } => Some(Kind::SecureAnswer),
        Verdict::SecureAlias { .. } => Some(Kind::SecureAlias),
        Verdict::SecureNoName(_) => Some(Kind::SecureNoName),
        Verdict::SecureNoData(_) => Some(Kind::SecureNoData),
        Verdict::Insecure(_) => Some(Kind::Insecure),
        Verdict::Pending(_) => None,
        Verdict::Bogus => None,
        Verdict::Indeterminate => None,
    }
}

/// Whether nothing is proved.
pub fn is_unproved(verdict: &Verdict<'_>) -> bool
    ensures { IsTrue result ↔ IsUnproved verdict.now }
{
    match verdict {
        Verdict::SecureAnswer { .. } => false,
        Verdict::SecureAlias { .. } => false,
        Verdict::SecureNoName(_) => false,
        Verdict::SecureNoData(_) => false,
        Verdict::Insecure(_) => false,
        Verdict::Pending(_) => false,
        Verdict::Bogus => true,
        Verdict::Indeterminate => true,
    }
}
