//! The text of `check` and of `explain`: a question's verdict, what carries it, and why it stands.
ghost use Rattle.std.specs.Prelude.{◌≡◌, ◌++◌, IfOk, OnOk, Some, flat_map, string_bytes};
ghost use Rattle.std.specs.Option.{option_map};
ghost use Rattle.dnsv_texts.specs.Checking as specs;
ghost use Rattle.dnsv_questions.specs.declared.format.Format.TheVariants.{Lines};

use crate::explaining::push_why;
use crate::json::checking::verdict_json;
use crate::reason::push_reason;
use dnsv_canonical::{RecordNumber, Rrset, numbered};
use dnsv_evidence_texts::Heading;
use dnsv_lines::Line;
use dnsv_names::{Name, RecordType};
use dnsv_questions::Format;
use dnsv_verdict::{Link, Report, Verdict};
use std::alloc::{AllocError, Global};

/// The text of a report, and of why its verdict stands, where the lines are given that say it: in lines, or in JSON. The
/// error is that memory ran out.
///
/// Where numbers are given, entries that are still to be checked aren't reported whole: the first has the first of these
/// numbers, and lines that speak of one tell that.
pub fn check_text(
    alloc: Global,
    format: Format,
    heading: &Heading<'_>,
    rrsets: &[Rrset<'_>],
    report: &Report<'_>,
    why: Option<&[Line]>,
    numbers: Option<&[usize]>,
) -> Result<String, AllocError>
    ensures { IfOk result (λ text. string_bytes text
        ≡ specs.check_text format heading.now.name.now heading.now.rtype.0 heading.now.moment heading.now.status
        rrsets.now report.now.links report.now.verdict (option_map (λ lines. lines.now) why.entry)
        (option_map (λ numbers. numbers.now) numbers.entry)) }
{
    match format {
        Format::Lines => verdict_lines(alloc, heading, rrsets, report, why, numbers),
        Format::Json => verdict_json(alloc, heading, rrsets, report, why, numbers),
    }
}

/// The lines of a report, and of why its verdict stands.
fn verdict_lines(
    alloc: Global,
    heading: &Heading<'_>,
    rrsets: &[Rrset<'_>],
    report: &Report<'_>,
    why: Option<&[Line]>,
    numbers: Option<&[usize]>,
) -> Result<String, AllocError>
    ensures { IfOk result (λ text. string_bytes text
        ≡ specs.check_text Lines heading.now.name.now heading.now.rtype.0 heading.now.moment heading.now.status
        rrsets.now report.now.links report.now.verdict (option_map (λ lines. lines.now) why.entry)
        (option_map (λ numbers. numbers.now) numbers.entry)) }
{
    let whole = numbers.is_none();
    let mut text = verdict_text(alloc, heading.name, heading.rtype, rrsets, report, whole)?;
    push_why(&mut text, why, numbers)?;
    Ok(text)
}

/// The verdict's line, those of the aliases, and those of what carries it.
fn verdict_text(
    alloc: Global,
    name: &Name,
    rtype: RecordType,
    rrsets: &[Rrset<'_>],
    report: &Report<'_>,
    whole: bool,
) -> Result<String, AllocError>
    ensures { IfOk result (λ text. string_bytes text
        ≡ specs.verdict_text name.now rtype.0 rrsets.now report.now.links report.now.verdict whole) }
{
    let mut text = String::new(alloc);
    push_verdict(&mut text, &report.verdict, name, rtype)?;
    push_aliases(&mut text, report.links.as_slice())?;
    push_reason(&mut text, Format::Lines, rrsets, &report.verdict, whole)?;
    Ok(text)
}

/// Adds a line for each alias.
fn push_aliases(text: &mut String, links: &[Link]) -> Result<(), AllocError>
    ensures { OnOk result (string_bytes text.new ≡ string_bytes text.old ++ flat_map specs.alias_line links.now) }
{
    for link in links {
        push_alias(text, link)?;
    }
    Ok(())
}

/// Adds the name of an alias, and the numbers of its RRset and its signature.
fn push_alias(text: &mut String, link: &Link) -> Result<(), AllocError>
    ensures { OnOk result (string_bytes text.new ≡ string_bytes text.old ++ specs.alias_line link.now) }
{
    let name = link.name.to_lower();
    write!(text, "alias {name} ")?;
    push_signature(text, link.rrset, link.signature)
}

/// Adds the verdict's word, and the name and type that are asked for.
fn push_verdict(
    text: &mut String,
    verdict: &Verdict<'_>,
    name: &Name,
    rtype: RecordType,
) -> Result<(), AllocError>
    ensures { OnOk result (string_bytes text.new
        ≡ string_bytes text.old ++ specs.verdict_line verdict.now name.now rtype.0) }
{
    let word = verdict_word(verdict);
    let name = name.to_lower();
    let rtype = rtype.0;
    writeln!(text, "{word} {name} {rtype}")?;
    Ok(())
}

/// The verdict's word.
pub fn verdict_word(verdict: &Verdict<'_>) -> &'static str
    ensures { result.now ≡ specs.verdict_word verdict.now }
{
    match verdict {
        Verdict::SecureAnswer { .. } => "SecureAnswer",
        Verdict::SecureAlias { .. } => "SecureAlias",
        Verdict::SecureNoName(_) => "SecureNoName",
        Verdict::SecureNoData(_) => "SecureNoData",
        Verdict::Insecure(_) => "Insecure",
        Verdict::Pending(_) => "Pending",
        Verdict::Bogus => "Bogus",
        Verdict::Indeterminate => "Indeterminate",
    }
}

/// Adds the numbers of an RRset and of its signature.
pub fn push_signature(text: &mut String, rrset: usize, signature: usize) -> Result<(), AllocError>
    ensures { OnOk result (string_bytes text.new ≡ string_bytes text.old ++ specs.signature_line rrset signature) }
{
    writeln!(text, "rrset {rrset} signature {signature}")?;
    Ok(())
}

/// Adds the name at which a zone that isn't signed may begin.
pub fn push_cut(text: &mut String, cut: &Name) -> Result<(), AllocError>
    ensures { OnOk result (string_bytes text.new ≡ string_bytes text.old ++ specs.cut_line cut.now) }
{
    let name = cut.to_lower();
    writeln!(text, "cut {name}")?;
    Ok(())
}

/// Adds a line for each record of a proof.
pub fn push_proof(
    text: &mut String,
    rrsets: &[Rrset<'_>],
    records: &[RecordNumber],
) -> Result<(), AllocError>
    ensures { OnOk result (string_bytes text.new
        ≡ string_bytes text.old ++ flat_map (specs.proof_line rrsets.now) records.now) }
{
    for number in records {
        push_number(text, rrsets, number)?;
    }
    Ok(())
}

/// Adds the line of the record with this number.
fn push_number(
    text: &mut String,
    rrsets: &[Rrset<'_>],
    number: &RecordNumber,
) -> Result<(), AllocError>
    ensures { OnOk result (string_bytes text.new ≡ string_bytes text.old ++ specs.proof_line rrsets.now number.now) }
{
    if let Some(rrset) = numbered(rrsets, number.rrset) {
        push_record(text, rrset)?;
    }
    Ok(())
}

/// Adds the owner and type of a record of the RRset.
fn push_record(text: &mut String, rrset: &Rrset<'_>) -> Result<(), AllocError>
    ensures { OnOk result (string_bytes text.new ≡ string_bytes text.old ++ specs.proof_record_line (Some rrset.now)) }
{
    let owner = rrset.owner().to_lower();
    let rtype = rrset.rtype().0;
    writeln!(text, "record {owner} {rtype}")?;
    Ok(())
}
