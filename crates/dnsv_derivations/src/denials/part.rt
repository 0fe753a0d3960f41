//! The lines of the parts of a proof.
ghost use Rattle.std.specs.Prelude.{◌≡◌, ◌↔◌, Contains, IfOk, IsTrue, OnOk};
ghost use Rattle.dnsv_proof_forms.specs.declared.forms.proof_part.ProofPart.{ProofPart};
ghost use Rattle.dnsv_derivations.specs.Denials.{HasRrset, IsPartFit, IsPartLine, IsPartSaid, IsPartTold, IsSamePart, IsTellingOf, number_told, told_relation, told_role};
ghost use Rattle.dnsv_derivations.specs.Saying.{Adds, AreEach};

use crate::evidence::Evidence;
use dnsv_canonical::{RecordNumber, numbered};
use dnsv_lines::{Line, Part, RecordPlace, Relation, Role};
use dnsv_names::Name;
use dnsv_proof_forms::{PartName, PartRelation, ProofPart};
use std::alloc::AllocError;

/// Adds the lines of the parts of a proof for the question's name, in their order, but for where a line before says the
/// same.
pub fn add_parts(
    evidence: &Evidence<'_>,
    lines: &mut Vec<Line>,
    question: &Name,
    parts: &[ProofPart],
) -> Result<(), AllocError>
    requires { (part : ProofPart) → Contains parts.now part → IsPartFit evidence.now.rrsets question.now part }
    ensures { OnOk result (Adds (AreEach (IsPartTold evidence.now.rrsets question.now) parts.now) lines.old.items
        lines.new.items) }
{
    for part in parts {
        add_part(evidence, lines, question, *part)?;
    }
    Ok(())
}

/// Adds the line of the part.
fn add_part(
    evidence: &Evidence<'_>,
    lines: &mut Vec<Line>,
    question: &Name,
    part: ProofPart,
) -> Result<(), AllocError>
    requires { IsPartFit evidence.now.rrsets question.now part }
    ensures { OnOk result (Adds (IsPartTold evidence.now.rrsets question.now part) lines.old.items lines.new.items) }
{
    let told = part_line(evidence, question, part)?;
    if is_part_said(lines, &told) {
        return Ok(());
    }
    lines.push(Line::Part(told))?;
    Ok(())
}

/// How the part is reported.
fn part_line(evidence: &Evidence<'_>, question: &Name, part: ProofPart) -> Result<Part, AllocError>
    requires { IsPartFit evidence.now.rrsets question.now part }
    ensures { IfOk result (IsPartLine evidence.now.rrsets question.now part) }
{
    Ok(Part {
        role: told_role(part.name),
        relation: told_relation(part.relation),
        name: part.name.of(question),
        by: record_told(evidence, part.by)?,
    })
}

fn told_role(name: PartName) -> Role
    ensures { result ≡ told_role name }
{
    match name {
        PartName::ClosestEncloser(_) => Role::ClosestEncloser,
        PartName::NextCloser(_) => Role::NextCloser,
        PartName::Wildcard(_) => Role::Wildcard,
        PartName::Name => Role::Name,
        PartName::Cut(_) => Role::Cut,
    }
}

fn told_relation(relation: PartRelation) -> Relation
    ensures { result ≡ told_relation relation }
{
    match relation {
        PartRelation::Matched => Relation::Matched,
        PartRelation::Exists => Relation::Exists,
        PartRelation::Covered => Relation::Covered,
        PartRelation::NonTerminal => Relation::NonTerminal,
        PartRelation::OptOut => Relation::OptOut,
        PartRelation::Apex => Relation::Apex,
    }
}

/// The record with the number, with the owner and the type of its RRset.
fn record_told(
    evidence: &Evidence<'_>,
    number: Option<RecordNumber>,
) -> Result<Option<RecordPlace>, AllocError>
    requires { HasRrset evidence.now.rrsets number }
    ensures { IfOk result (IsTellingOf evidence.now.rrsets number) }
{
    let Some(number) = number else {
        return Ok(None);
    };
    let Some(rrset) = numbered(evidence.rrsets(), number.rrset) else {
        return Ok(None);
    };
    Ok(Some(RecordPlace {
        owner: rrset.owner().clone()?,
        rtype: rrset.rtype(),
        number,
    }))
}

/// Whether a line says the same as that of the part.
fn is_part_said(lines: &[Line], part: &Part) -> bool
    ensures { IsTrue result ↔ IsPartSaid part.now lines.now }
{
    lines.iter().any(|line| match line {
        Line::Part(said) => is_same_part(said, part),
        _ => false,
    })
}

/// Whether the two have the same text.
fn is_same_part(a: &Part, b: &Part) -> bool
    ensures { IsTrue result ↔ IsSamePart a.now b.now }
{
    a.role == b.role
        && a.relation == b.relation
        && a.name == b.name
        && number_told(&a.by) == number_told(&b.by)
}

/// The number of the record, where there is one.
fn number_told(by: &Option<RecordPlace>) -> Option<RecordNumber>
    ensures { result ≡ number_told by.now }
{
    let Some(by) = by else {
        return None;
    };
    Some(by.number)
}
