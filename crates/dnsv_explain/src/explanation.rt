//! Why a verdict stands.

mod end;
pub mod explainer;
mod failure;

ghost use Rattle.std.specs.Prelude.{◌≡◌, [], IfOk};
ghost use Rattle.dnsv_chain.specs.Basis.{basis_of};
ghost use Rattle.dnsv_verdict.specs.Report.{IsReport, Refuses};
ghost use Rattle.dnsv_holding.specs.Explained.{explained_by};
ghost use Rattle.dnsv_explain.specs.Explanation.{IsExplanation, IsExplanationOf};
ghost use Rattle.dnsv_holding.specs.Holding.{IsUnproved};
ghost use Rattle.dnsv_holding.specs.Judged.{IsJudgedBy};

use crate::explanation::end::{add_end, add_places_named};
use crate::explanation::explainer::Explainer;
use crate::explanation::failure::add_failure;
use bumpalo::Bump;
use dnsv_canonical::Capture;
use dnsv_chain::Anchors;
use dnsv_derivations::{Evidence, KeptWay};
use dnsv_holding::{At, add_links, add_verdict, is_settled, is_unproved};
use dnsv_lines::Line;
use dnsv_names::{Name, RecordType};
use dnsv_questions::is_question;
use dnsv_verdict::{Case, Judged, Report, VerdictError};
use dnsv_verifier::Verifier;
use std::alloc::{AllocError, Global};
use std::marker::Model;

/// Why a verdict stands, line by line.
#[derive(Debug, Drop)]
pub struct Explanation {
    lines: Vec<Line>,
}

impl Model for Explanation {
    ghost use Rattle.std.specs.Prelude.{List};
    ghost use Rattle.dnsv_lines.specs.declared.line.Line.{Line};

    ghost Value = { List Line };

    ghost view = { λ explanation. explanation.lines.items };
}

impl Explanation {
    /// The lines, in order.
    pub fn lines(&self) -> &[Line]
        ensures { result.now ≡ self.now }
    {
        &self.lines
    }
}

/// The verdict on a question, as `validate` gives it, and why it stands: what holds for each link of the way and for the
/// verdict at the last name, and where the RRsets stand. Of a verdict that needs no more answers it is reported how long the
/// signatures hold that show it, of one that depends on answers what may be hoped, and of Bogus and Indeterminate first what
/// fails, with the keys that this is a matter of, and then how far trust holds.
pub fn explain<'a, V: Verifier>(
    alloc: Global,
    bump: &'a Bump,
    capture: &'a Capture<'a>,
    anchors: &'a Anchors<'a>,
    moment: u64,
    verifier: &V,
    name: &Name,
    rtype: RecordType,
) -> Result<(Report<'a>, Explanation), VerdictError>
    ensures report { IfOk result (λ told. IsReport (basis_of capture.now.rrsets anchors.now moment (V.meaning
        verifier.now)) name.now rtype.0 told.0) }
    ensures explanation { IfOk result (λ told. IsExplanationOf (basis_of capture.now.rrsets anchors.now moment (V.meaning
        verifier.now)) rtype.0 told.0 told.1) }
    ensures refused { Refuses (basis_of capture.now.rrsets anchors.now moment (V.meaning verifier.now)) name.now rtype.0
        result }
{
    if !is_question(name, rtype) {
        return Err(VerdictError::BadQuestion);
    }
    let mut explainer = Explainer::new(alloc, bump, capture, anchors, moment, verifier)?;
    explainer.explain(alloc, name, rtype)
}

/// Why the verdict stands.
fn explanation_of<'a>(
    alloc: Global,
    evidence: &Evidence<'_>,
    case: &Case<'a>,
    judged: &Judged<'a>,
    hoped: &[KeptWay],
    rtype: RecordType,
) -> Result<Explanation, AllocError>
    requires { IsJudgedBy case.now evidence.now hoped.now rtype.0 judged.now }
    ensures { IfOk result (IsExplanation (explained_by case.now []) rtype.0 judged.now.report.links
        judged.now.report.last judged.now.report.verdict) }
{
    if is_unproved(&judged.report.verdict) {
        return Ok(failed(alloc, evidence, case, judged, hoped, rtype)?);
    }
    let mut lines = Vec::new(alloc);
    let links = judged.report.links.as_slice();
    add_links(alloc, evidence, case, links, &judged.hashes, &mut lines)?;
    let hashes = judged.hashes_at(judged.report.links.as_slice().len());
    add_verdict(
        alloc, evidence, case, judged, hashes, hoped, &mut lines, rtype,
    )?;
    if !is_settled(&judged.report.verdict) {
        add_places_named(alloc, evidence, &mut lines)?;
        return Ok(Explanation { lines });
    }
    add_end(alloc, evidence, &mut lines)?;
    Ok(Explanation { lines })
}

/// Why nothing is proved: what fails, and then what holds.
fn failed<'a>(
    alloc: Global,
    evidence: &Evidence<'_>,
    case: &Case<'a>,
    judged: &Judged<'a>,
    hoped: &[KeptWay],
    rtype: RecordType,
) -> Result<Explanation, AllocError>
    requires judged { IsJudgedBy case.now evidence.now hoped.now rtype.0 judged.now }
    requires unproved { IsUnproved judged.now.report.verdict }
    ensures { IfOk result (IsExplanation (explained_by case.now []) rtype.0 judged.now.report.links
        judged.now.report.last judged.now.report.verdict) }
{
    let mut lines = Vec::new(alloc);
    let last = judged.hashes_at(judged.report.links.as_slice().len());
    let at = At {
        case,
        hashes: last,
        name: &judged.report.last,
    };
    add_failure(alloc, evidence, &at, &mut lines, rtype)?;
    let links = judged.report.links.as_slice();
    add_links(alloc, evidence, case, links, &judged.hashes, &mut lines)?;
    add_verdict(
        alloc, evidence, case, judged, last, hoped, &mut lines, rtype,
    )?;
    add_places_named(alloc, evidence, &mut lines)?;
    Ok(Explanation { lines })
}
