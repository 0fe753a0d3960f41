//! What of an explanation derives a question.
ghost use Rattle.std.specs.Prelude.{◌≡◌, ◌++◌, ◌∷◌, [], ℕ, IfOk, map};
ghost use Rattle.dnsv_names.specs.Name.{Labels};
ghost use Rattle.dnsv_chain.specs.Basis.{HasTrust, basis_by};
ghost use Rattle.dnsv_verdict.specs.Report.{hashed_in};
ghost use Rattle.dnsv_verdict.specs.Traced.{hashes_on_way};
ghost use Rattle.dnsv_verdict.specs.Way.{IsStoppedAt, names_on};
ghost use Rattle.dnsv_holding.specs.Derived.{AreLinksTold, IsDerivationTold};
ghost use Rattle.dnsv_holding.specs.Explained.{explained_by};
ghost use Rattle.dnsv_holding.specs.Judged.{IsJudgedBy};

use crate::links::{add_link, add_links};
use crate::verdict::{add_verdict, is_unproved};
use dnsv_derivations::{Evidence, KeptWay};
use dnsv_lines::Line;
use dnsv_names::RecordType;
use dnsv_verdict::{Case, Judged, Report, StoppedWay, VerdictError};
use std::alloc::{AllocError, Global};

/// What the way of a question leads to.
#[derive(Debug, Drop)]
pub enum Outcome<'a> {
    /// The verdict at its end, with the way.
    Verdict(Report<'a>),
    /// An alias that can't be followed, and why.
    Refused(VerdictError),
}

/// What is told of a question, and what derives it.
#[derive(Debug, Drop)]
pub struct Derivation<'a> {
    pub outcome: Outcome<'a>,
    /// The lines of an explanation that derive the links of the way and the verdict, or the alias that can't be followed.
    pub lines: Vec<Line>,
}

/// The lines that derive the links and the verdict, or what may be hoped of it; where nothing is proved, those of the
/// links alone.
pub fn derivation_of<'a>(
    alloc: Global,
    evidence: &Evidence<'_>,
    case: &Case<'a>,
    judged: &Judged<'a>,
    hoped: &[KeptWay],
    rtype: RecordType,
) -> Result<Vec<Line>, AllocError>
    requires { IsJudgedBy case.now evidence.now hoped.now rtype.0 judged.now }
    ensures { IfOk result (λ lines. IsDerivationTold (explained_by case.now []) rtype.0 judged.now.report.links
        judged.now.report.last judged.now.report.verdict lines.items) }
{
    let mut lines = Vec::new(alloc);
    let links = judged.report.links.as_slice();
    add_links(alloc, evidence, case, links, &judged.hashes, &mut lines)?;
    if is_unproved(&judged.report.verdict) {
        return Ok(lines);
    }
    let hashes = judged.hashes_at(links.len());
    add_verdict(
        alloc, evidence, case, judged, hashes, hoped, &mut lines, rtype,
    )?;
    Ok(lines)
}

/// The lines that derive the links of a way that stops, and then the alias which can't be followed.
pub fn stop_derivation_of<'a>(
    alloc: Global,
    evidence: &Evidence<'_>,
    case: &Case<'a>,
    stopped: &StoppedWay<'a>,
) -> Result<Vec<Line>, AllocError>
    requires trust { HasTrust case.now }
    requires evidence { evidence.now ≡ explained_by case.now [] }
    requires kept { hashes_on_way stopped.now ≡ map (hashed_in case.now.rrsets)
        (names_on stopped.now.links stopped.now.alias.name) }
    requires stopped { (name : Labels) × (t : ℕ) × IsStoppedAt (basis_by case.now) name t stopped.now.links
        stopped.now.alias stopped.now.error }
    ensures { IfOk result (λ lines. AreLinksTold (explained_by case.now []) (stopped.now.links ++ stopped.now.alias ∷ [])
        lines.items) }
{
    let mut lines = Vec::new(alloc);
    let links = stopped.links.as_slice();
    add_links(alloc, evidence, case, links, &stopped.hashes, &mut lines)?;
    let hashes = stopped.hashes_at(links.len());
    add_link(alloc, evidence, case, &stopped.alias, hashes, &mut lines)?;
    Ok(lines)
}
