//! What fails, where nothing is proved.
ghost use Rattle.std.specs.Prelude.{◌≡◌, IfOk, OnOk};
ghost use Rattle.dnsv_reasons.specs.Failures.{AreFailures, asking_of};
ghost use Rattle.dnsv_verdict.specs.Report.{hashed_in};
ghost use Rattle.dnsv_holding.specs.At.{IsAt};
ghost use Rattle.dnsv_derivations.specs.Explained.{setting_in};
ghost use Rattle.dnsv_explain.specs.Explanation.{IsFailureTold};
ghost use Rattle.dnsv_derivations.specs.Saying.{Adds};

use dnsv_derivations::Evidence;
use dnsv_holding::At;
use dnsv_keys_in_question::add_keys_in_question;
use dnsv_lines::Line;
use dnsv_names::{Name, RecordType};
use dnsv_proof_forms::Hashes;
use dnsv_reasons::{CaseFacts, failures};
use dnsv_verdict::Case;
use std::alloc::{AllocError, Global};

/// Adds what fails of the question, and the keys that this is a matter of.
pub fn add_failure(
    alloc: Global,
    evidence: &Evidence<'_>,
    at: &At<'_, '_>,
    lines: &mut Vec<Line>,
    rtype: RecordType,
) -> Result<(), AllocError>
    requires { IsAt evidence.now at.now }
    ensures { OnOk result (Adds (IsFailureTold (setting_in evidence.now) at.now.name.now rtype.0) lines.old.items
        lines.new.items) }
{
    let mut faults = failing(alloc, at, rtype)?;
    let mut keys = Vec::new(alloc);
    add_keys_in_question(alloc, evidence, &faults, &mut keys)?;
    lines.append(&mut faults)?;
    lines.append(&mut keys)?;
    Ok(())
}

/// What fails of the question.
fn failing(alloc: Global, at: &At<'_, '_>, rtype: RecordType) -> Result<Vec<Line>, AllocError>
    requires { at.now.hashes.now ≡ hashed_in at.now.case.now.rrsets at.now.name.now }
    ensures { IfOk result (λ lines. AreFailures (asking_of at.now.case.now at.now.name.now rtype.0) lines.items) }
{
    let case = at.case;
    let facts = CaseFacts::of(
        alloc,
        case.capture(),
        case.anchors(),
        case.table(),
        case.trust(),
    )?;
    failing_by(alloc, case, &facts, at.hashes, at.name, rtype)
}

/// The same by the facts of the case.
fn failing_by<'s, 'a>(
    alloc: Global,
    case: &'s Case<'a>,
    facts: &'s CaseFacts<'s>,
    hashes: &'s Hashes<'a>,
    name: &'s Name,
    rtype: RecordType,
) -> Result<Vec<Line>, AllocError>
    requires facts { facts.now ≡ case.now }
    requires hashes { hashes.now ≡ hashed_in case.now.rrsets name.now }
    ensures { IfOk result (λ lines. AreFailures (asking_of case.now name.now rtype.0) lines.items) }
{
    failures(
        alloc,
        case.capture(),
        case.denials(),
        facts,
        hashes,
        name,
        rtype,
    )
}
