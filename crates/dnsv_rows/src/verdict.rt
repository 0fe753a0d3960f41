//! Calls of `dnsv_verdict`.

use crate::chain::trust_anchors;
use crate::evidence::verifying::ByFirstOctet;
use crate::verifier::statements_of;
use bumpalo::Bump;
use dnsv_canonical::Capture;
use dnsv_chain::Anchors;
use dnsv_denial::Proof;
use dnsv_names::{Name, RecordType};
use dnsv_record_rows::capture;
use dnsv_row_text::{Row, RowError, octets_text};
use dnsv_verdict::{Case, Link, OpenCase, Report, Verdict, VerdictError, validate};
use dnsv_verifier::{Entries, Panel, Verifier};
use std::alloc::Global;

/// What the library answers, where it has the call.
pub fn answer(row: &Row) -> Result<Option<String>, RowError> {
    if row.calls("validate") {
        return Ok(Some(validated(row, &ByFirstOctet)?));
    }
    if row.calls("validate-by") {
        return Ok(Some(validated_together(row)?));
    }
    if row.calls("validate-in-turn") {
        return Ok(Some(validated_in_turn(row)?));
    }
    Ok(None)
}

/// `validate CAPTURE ANCHORS MOMENT NAME TYPE`: the verdict and what it rests on, the aliases that lead there, how many
/// entries were asked for and how many digests were worked out; or the refusal. An RRset stands before its signature or
/// a record of it, `2.1`, and what is pending by the signatures. `ByFirstOctet` verifies.
fn validated<V: Verifier>(row: &Row, verifier: &V) -> Result<String, RowError> {
    let alloc = row.alloc();
    let bump = Bump::new(row.alloc());
    let capture = capture(row, 0, &bump)?;
    let anchors = trust_anchors(row, 1, &bump)?;
    let (moment, name) = (row.number(2)?, row.name(3)?);
    let rtype = record_type(row, 4)?;
    told_of(
        alloc, &bump, &capture, &anchors, moment, verifier, &name, rtype,
    )
}

/// The same of the capture under the anchors.
fn told_of<V: Verifier>(
    alloc: Global,
    bump: &Bump,
    capture: &Capture<'_>,
    anchors: &Anchors<'_>,
    moment: u64,
    verifier: &V,
    name: &Name,
    rtype: RecordType,
) -> Result<String, RowError> {
    match validate(alloc, bump, capture, anchors, moment, verifier, name, rtype) {
        Ok(report) => told(alloc, &report),
        Err(error) => refused(alloc, error),
    }
}

/// The number of the refusal.
fn refused(alloc: Global, error: VerdictError) -> Result<String, RowError> {
    match error {
        VerdictError::OutOfMemory => Err(RowError::OutOfMemory),
        _ => {
            let code = error.code();
            Ok(format!(in alloc; "refused {code}")?)
        }
    }
}

/// `validate-by CAPTURE ANCHORS MOMENT NAME TYPE STATEMENTS..`: the same, where the files of statements verify together.
fn validated_together(row: &Row) -> Result<String, RowError> {
    let mut members: Vec<Box<dyn Verifier>> = Vec::new(row.alloc());
    for place in 5..row.count() {
        members.push(Box::new(row.alloc(), statements_of(row, place)?)?)?;
    }
    validated(row, &Panel::new(members))
}

/// `validate-in-turn CAPTURE ANCHORS MOMENT TIMES NAME TYPE ..`: what `validate` tells of each question, where one case
/// tells the same of them one after another, all of them so many times; else what the case told.
fn validated_in_turn(row: &Row) -> Result<String, RowError> {
    let bump = Bump::new(row.alloc());
    let capture = capture(row, 0, &bump)?;
    let anchors = trust_anchors(row, 1, &bump)?;
    told_in_turn(row, &bump, &capture, &anchors)
}

/// The same of the capture under the anchors.
fn told_in_turn(
    row: &Row,
    bump: &Bump,
    capture: &Capture<'_>,
    anchors: &Anchors<'_>,
) -> Result<String, RowError> {
    let alone = told_alone(row, bump, capture, anchors)?;
    let case = Case::new(
        row.alloc(),
        bump,
        capture,
        anchors,
        row.number(2)?,
        &ByFirstOctet,
    )?;
    let mut open_case = OpenCase::of(row.alloc(), case);
    for _ in 0..row.number(3)? {
        let told = told_by_case(row, &mut open_case)?;
        if told.as_bytes() != alone.as_bytes() {
            return Ok(format!(in row.alloc(); "not alone: {told}")?);
        }
    }
    Ok(alone)
}

/// What `validate` tells of each question.
fn told_alone(
    row: &Row,
    bump: &Bump,
    capture: &Capture<'_>,
    anchors: &Anchors<'_>,
) -> Result<String, RowError> {
    let alloc = row.alloc();
    let mut text = String::new(alloc);
    for question in 0..questions(row) {
        let (name, rtype) = question_at(row, question)?;
        let told = told_of(
            alloc,
            bump,
            capture,
            anchors,
            row.number(2)?,
            &ByFirstOctet,
            &name,
            rtype,
        )?;
        text = format!(in alloc; "{text}{told};")?;
    }
    Ok(text)
}

/// What the case tells of each question.
fn told_by_case(row: &Row, open_case: &mut OpenCase<'_>) -> Result<String, RowError> {
    let alloc = row.alloc();
    let mut text = String::new(alloc);
    for question in 0..questions(row) {
        let (name, rtype) = question_at(row, question)?;
        let told = told_by(alloc, open_case, &name, rtype)?;
        text = format!(in alloc; "{text}{told};")?;
    }
    Ok(text)
}

/// What the case tells of the question.
fn told_by(
    alloc: Global,
    open_case: &mut OpenCase<'_>,
    name: &Name,
    rtype: RecordType,
) -> Result<String, RowError> {
    match open_case.judge(alloc, name, rtype, false) {
        Ok(judged) => told(alloc, &judged.report),
        Err(error) => refused(alloc, error),
    }
}

/// How many questions the row has.
fn questions(row: &Row) -> usize {
    row.count().saturating_sub(4) / 2
}

/// The question with so many before it.
fn question_at(row: &Row, question: usize) -> Result<(Name, RecordType), RowError> {
    let place = question.saturating_mul(2).saturating_add(4);
    Ok((row.name(place)?, record_type(row, place.saturating_add(1))?))
}

fn told(alloc: Global, report: &Report<'_>) -> Result<String, RowError> {
    let verdict = verdict_text(alloc, &report.verdict)?;
    let links = links_text(alloc, report.links.as_slice())?;
    let (asked, hashed) = (report.asked, report.hashed);
    Ok(format!(in alloc; "{verdict}{links} asked {asked} hashed {hashed}")?)
}

/// The aliases that were followed, each by its name, RRset and signature.
fn links_text(alloc: Global, links: &[Link]) -> Result<String, RowError> {
    let mut text = String::new(alloc);
    for link in links {
        let (name, rrset, signature) = (&link.name, link.rrset, link.signature);
        text = format!(in alloc; "{text} alias {name} {rrset}.{signature}")?;
    }
    Ok(text)
}

fn verdict_text(alloc: Global, verdict: &Verdict<'_>) -> Result<String, RowError> {
    Ok(match verdict {
        Verdict::SecureAnswer { rrset, signature } => {
            format!(in alloc; "SecureAnswer {rrset}.{signature}")?
        }
        Verdict::SecureAlias { rrset, signature } => {
            format!(in alloc; "SecureAlias {rrset}.{signature}")?
        }
        Verdict::SecureNoName(proof) => with_records(alloc, "SecureNoName", proof)?,
        Verdict::SecureNoData(proof) => with_records(alloc, "SecureNoData", proof)?,
        Verdict::Insecure(cut) => format!(in alloc; "Insecure {cut}")?,
        Verdict::Pending(entries) => with_signatures(alloc, entries)?,
        Verdict::Bogus => format!(in alloc; "Bogus")?,
        Verdict::Indeterminate => format!(in alloc; "Indeterminate")?,
    })
}

/// The word and the numbers of the proof's records.
fn with_records(alloc: Global, word: &str, proof: &Proof) -> Result<String, RowError> {
    let mut text = String::from_str(alloc, word)?;
    for number in proof.records() {
        let (rrset, place) = (number.rrset, number.place);
        text = format!(in alloc; "{text} {rrset}.{place}")?;
    }
    Ok(text)
}

/// What is pending by the signatures of the entries.
fn with_signatures(alloc: Global, entries: &Entries<'_>) -> Result<String, RowError> {
    let mut text = String::from_str(alloc, "Pending")?;
    for place in 0..entries.len() {
        let signature = octets_text(alloc, entries.at(place).signature.as_slice())?;
        text = format!(in alloc; "{text} {signature}")?;
    }
    Ok(text)
}

/// The type whose number the argument is.
fn record_type(row: &Row, place: usize) -> Result<RecordType, RowError> {
    match u16::try_from(row.number(place)?) {
        Ok(number) => Ok(RecordType(number)),
        Err(_) => Err(RowError::Malformed),
    }
}
