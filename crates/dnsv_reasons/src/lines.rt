//! The lines of what is reported of a question.
ghost use Rattle.std.specs.Prelude.{◌≡◌, IfOk, MatchOption, OnOk};
ghost use Rattle.dnsv_lines.specs.declared.line.Line.{Line};
ghost use Rattle.dnsv_remedies.specs.declared.said.Said.TheVariants as said;
ghost use Rattle.dnsv_gaps.specs.Asking.{asking};
ghost use Rattle.dnsv_reasons.specs.Lines.{AddsLine, AreSaidLines, IsSaidLine};
ghost use Rattle.dnsv_reasons.specs.SourceSearch.{AreAllNamed};

use crate::question::{
    closer_line, cut_line, dname_line, missing_line, unproved_line, unusable_line,
};
use crate::sources::{NamedSources, asked_name, source};
use dnsv_gaps::AskedQuestion;
use dnsv_lines::{Line, Reason, SourceFault, WhySource};
use dnsv_remedies::{AskedName, Said, SourceNumber};
use dnsv_trust_reasons::trust_line;
use std::alloc::{AllocError, Global};

/// The lines that say what is reported, in that order. `named` are the sources of each known zone.
pub fn said_lines(
    alloc: Global,
    question: &AskedQuestion<'_, '_>,
    named: &[NamedSources<'_>],
    told: &[Said],
) -> Result<Vec<Line>, AllocError>
    requires { AreAllNamed (asking question.now) named.now }
    ensures { IfOk result (λ lines. AreSaidLines (asking question.now) told.now lines.items) }
{
    let mut lines = Vec::with_capacity(alloc, told.len())?;
    for said in told {
        add_line(alloc, question, named, said, &mut lines)?;
    }
    Ok(lines)
}

/// Adds the line that says what is reported, if the evidence has what it speaks of.
fn add_line(
    alloc: Global,
    question: &AskedQuestion<'_, '_>,
    named: &[NamedSources<'_>],
    told: &Said,
    lines: &mut Vec<Line>,
) -> Result<(), AllocError>
    requires { AreAllNamed (asking question.now) named.now }
    ensures { OnOk result (AddsLine (asking question.now) told.now lines.old.items lines.new.items) }
{
    if let Some(line) = said_line(alloc, question, named, *told)? {
        lines.push(line)?;
    }
    Ok(())
}

/// The line that says what is reported, if the evidence has what it speaks of.
fn said_line(
    alloc: Global,
    question: &AskedQuestion<'_, '_>,
    named: &[NamedSources<'_>],
    told: Said,
) -> Result<Option<Line>, AllocError>
    requires { AreAllNamed (asking question.now) named.now }
    ensures { IfOk result (λ found. MatchOption found ((each : Line) → ¬ IsSaidLine (asking question.now) told each)
        (IsSaidLine (asking question.now) told)) }
{
    match told {
        Said::Trust(told) => trust_line(alloc, question.facts, question.name, told),
        Said::NoCloser(number, labels) => Ok(closer_line(question, number, labels)),
        Said::Dname(dname) => Ok(dname_line(question, dname.labels, dname.rrset, None)),
        Said::DnameHeld(labels, number) => Ok(dname_line(
            question,
            labels,
            number.rrset,
            Some(number.place),
        )),
        Said::Nsec3(why, number) => Ok(unusable_line(question, why, number)),
        Said::Source(why, number, asked) => {
            source_line(alloc, question, named, why, number, asked)
        }
        Said::AnswerMissing(zone) => Ok(missing_line(question, zone)),
        Said::DenialUnproved(zone) => Ok(unproved_line(question, zone)),
        Said::DsUnproved(cut) => Ok(cut_line(question, cut)),
    }
}

/// That the records of the source don't prove something of the name.
fn source_line(
    alloc: Global,
    question: &AskedQuestion<'_, '_>,
    named: &[NamedSources<'_>],
    why: WhySource,
    number: SourceNumber,
    asked: AskedName,
) -> Result<Option<Line>, AllocError>
    requires { AreAllNamed (asking question.now) named.now }
    ensures { IfOk result (λ found. MatchOption found
        ((each : Line) → ¬ IsSaidLine (asking question.now) (said.Source why number asked) each)
        (IsSaidLine (asking question.now) (said.Source why number asked))) }
{
    let Some(name) = asked_name(question.name, asked) else {
        return Ok(None);
    };
    let Some(source) = source(alloc, question, named, number)? else {
        return Ok(None);
    };
    Ok(Some(Line::Reason(Reason::Source(SourceFault { why, source, name }))))
}
