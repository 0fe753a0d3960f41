//! What is reported of a question that nothing answers.
ghost use Rattle.std.specs.Prelude.{◌≡◌, ◌++◌, [], ◌∷◌, IfOk, OnOk, map};
ghost use Rattle.std.specs.Option.{option_map};
ghost use Rattle.dnsv_remedies.specs.Question.{all_lines, dname_line, is_said, lines_told, no_anchor, once_from, reasons_from, with_line, with_reason};
ghost use Rattle.dnsv_remedies.specs.Remedy.{seen};

use crate::facts::question::{DnameFacts, QuestionFacts};
use crate::remedy::Remedy;
use crate::said::Said;
use crate::same::is_same;
use dnsv_lines::WhyZone;
use dnsv_mending::Told;
use std::alloc::{AllocError, Global};

/// What is reported of the question, by the least that has to be mended: the chain, the DNAME RRsets above the name, and
/// what is reported of the thing itself, each line once. Where no trust anchor is at or above the name, that is reported
/// first, and what follows from it isn't.
pub fn lines_told(
    alloc: Global,
    question: &QuestionFacts,
    remedy: Option<&Remedy>,
) -> Result<Vec<Said>, AllocError>
    ensures { IfOk result (λ lines. lines.items ≡ lines_told question.now (option_map (λ m. seen m.now) remedy.entry)) }
{
    let all = all_lines(alloc, question, remedy)?;
    let mut lines = Vec::new(alloc);
    if question.is_anchored {
        push_once(&mut lines, &all)?;
    } else {
        lines.push(no_anchor(question))?;
        push_reasons(&mut lines, &all)?;
    }
    Ok(lines)
}

/// That no trust anchor is at or above the name.
fn no_anchor(question: &QuestionFacts) -> Said
    ensures { result ≡ no_anchor question.now }
{
    Said::Trust(Told::Zone(WhyZone::NoAnchor, question.labels))
}

/// All lines in their order.
fn all_lines(
    alloc: Global,
    question: &QuestionFacts,
    remedy: Option<&Remedy>,
) -> Result<Vec<Said>, AllocError>
    ensures { IfOk result (λ lines. lines.items ≡ all_lines question.now (option_map (λ m. seen m.now) remedy.entry)) }
{
    let dnames = dname_lines(alloc, &question.dnames)?;
    let Some(remedy) = remedy else {
        return Ok(dnames);
    };
    let mut lines = Vec::from_slice(alloc, &remedy.chain)?;
    lines.extend_from_slice(&dnames)?;
    lines.extend_from_slice(&remedy.own)?;
    Ok(lines)
}

/// What is reported of DNAME RRsets above the name.
#[tactic(auto, using(crate::proofs::Lists::made_next), unfolding(crate::specs::Question::dname_line))]
fn dname_lines(alloc: Global, dnames: &[DnameFacts]) -> Result<Vec<Said>, AllocError>
    ensures { IfOk result (λ lines. lines.items ≡ map dname_line dnames.now) }
{
    let mut lines = Vec::with_capacity(alloc, dnames.len())?;
    for dname in dnames {
        lines.push(Said::Dname(*dname))?;
    }
    Ok(lines)
}

/// Whether one of the lines says the same.
fn is_said(lines: &[Said], line: Said) -> bool
    ensures { result ≡ is_said lines.now line }
{
    lines.iter().any(|other| is_same(line, *other))
}

/// Adds the line, where none says the same.
fn push_line(lines: &mut Vec<Said>, line: Said) -> Result<(), AllocError>
    ensures { OnOk result (lines.new.items ≡ with_line lines.old.items line) }
{
    if !is_said(lines, line) {
        lines.push(line)?;
    }
    Ok(())
}

/// Adds each of the others, where none before says the same.
#[tactic(auto, using(crate::proofs::Lists::once_next))]
fn push_once(lines: &mut Vec<Said>, others: &[Said]) -> Result<(), AllocError>
    ensures { OnOk result (lines.new.items ≡ once_from lines.old.items others.now) }
{
    for other in others {
        push_line(lines, *other)?;
    }
    Ok(())
}

/// Adds the line, where it says what fails and none says the same.
fn push_reason(lines: &mut Vec<Said>, line: Said) -> Result<(), AllocError>
    ensures { OnOk result (lines.new.items ≡ with_reason lines.old.items line) }
{
    if line.is_reason() {
        push_line(lines, line)?;
    }
    Ok(())
}

/// Adds each of the others that says what fails, where none before says the same.
#[tactic(auto, using(crate::proofs::Lists::reasons_next))]
fn push_reasons(lines: &mut Vec<Said>, others: &[Said]) -> Result<(), AllocError>
    ensures { OnOk result (lines.new.items ≡ reasons_from lines.old.items others.now) }
{
    for other in others {
        push_reason(lines, *other)?;
    }
    Ok(())
}
