//! The JSON of `check` and of `explain`: a question's verdict, what carries it, and why it stands.
ghost use Rattle.std.specs.Prelude.{◌≡◌, ◌++◌, ◌∷◌, [], Some, false, true, codes, is_some, map, IfOk, OnOk, string_bytes};
ghost use Rattle.std.specs.Option.{option_map};
ghost use Rattle.dnsv_lines.specs.Json.{array, parted, still_first};
ghost use Rattle.dnsv_texts.specs.Checking as specs;

use crate::checking::verdict_word;
use crate::json::explaining::push_why;
use crate::reason::push_reason;
use dnsv_canonical::{RecordNumber, Rrset, numbered};
use dnsv_evidence_texts::{Heading, push_entry_array, push_question};
use dnsv_lines::{Line, push_comma, push_name};
use dnsv_names::Name;
use dnsv_questions::Format;
use dnsv_verdict::{Link, Report, Verdict};
use dnsv_verifier::Entries;
use std::alloc::{AllocError, Global};

/// The object of the question, its verdict, the aliases, what carries the verdict, and why it stands.
pub fn verdict_json(
    alloc: Global,
    heading: &Heading<'_>,
    rrsets: &[Rrset<'_>],
    report: &Report<'_>,
    why: Option<&[Line]>,
    numbers: Option<&[usize]>,
) -> Result<String, AllocError>
    ensures { IfOk result (λ text. string_bytes text
        ≡ specs.verdict_json heading.now.name.now heading.now.rtype.0 heading.now.moment heading.now.status
        rrsets.now report.now.links report.now.verdict (option_map (λ lines. lines.now) why.entry)
        (option_map (λ numbers. numbers.now) numbers.entry)) }
{
    let whole = numbers.is_none();
    let mut text = String::new(alloc);
    push_verdict(&mut text, why.is_some(), heading, &report.verdict)?;
    text.push_str(",\"aliases\":")?;
    push_aliases(&mut text, report.links.as_slice())?;
    push_reason(&mut text, Format::Json, rrsets, &report.verdict, whole)?;
    push_why(&mut text, why, numbers)?;
    text.push_str("}\n")?;
    Ok(text)
}

/// Begins the object with the members for the question and its verdict.
fn push_verdict(
    text: &mut String,
    why: bool,
    heading: &Heading<'_>,
    verdict: &Verdict<'_>,
) -> Result<(), AllocError>
    ensures { OnOk result (string_bytes text.new ≡ string_bytes text.old
        ++ (codes "{" ++ parted true (specs.verdict_members why heading.now.name.now heading.now.rtype.0
        heading.now.moment heading.now.status verdict.now))) }
{
    push_question(text, why, heading)?;
    let word = verdict_word(verdict);
    let status = heading.status;
    write!(text, ",\"verdict\":\"{word}\",\"status\":{status}")?;
    Ok(())
}

/// Adds an array of the aliases.
pub fn push_aliases(text: &mut String, links: &[Link]) -> Result<(), AllocError>
    ensures { OnOk result (string_bytes text.new
        ≡ string_bytes text.old ++ array (map specs.alias_json links.now)) }
{
    text.push_str("[")?;
    let mut first = true;
    for link in links {
        push_alias(text, &mut first, link)?;
    }
    text.push_str("]")?;
    Ok(())
}

/// Adds the object of an alias, behind others or as the first.
fn push_alias(text: &mut String, first: &mut bool, link: &Link) -> Result<(), AllocError>
    ensures text { OnOk result (string_bytes text.new
        ≡ string_bytes text.old ++ parted first.old (specs.alias_json link.now ∷ [])) }
    ensures first { OnOk result (first.new ≡ false) }
{
    push_comma(text, first)?;
    push_link(text, link)?;
    Ok(())
}

/// Adds the object of an alias.
fn push_link(text: &mut String, link: &Link) -> Result<(), AllocError>
    ensures { OnOk result (string_bytes text.new ≡ string_bytes text.old ++ specs.alias_json link.now) }
{
    text.push_str("{\"name\":")?;
    push_name(text, &link.name)?;
    push_signature(text, link.rrset, link.signature)?;
    text.push_str("}")?;
    Ok(())
}

/// Adds the numbers of an RRset and of its signature.
pub fn push_signature(text: &mut String, rrset: usize, signature: usize) -> Result<(), AllocError>
    ensures { OnOk result (string_bytes text.new
        ≡ string_bytes text.old ++ parted false (specs.signature_members rrset signature)) }
{
    write!(text, ",\"rrset\":{rrset},\"signature\":{signature}")?;
    Ok(())
}

/// Adds the name at which a zone that isn't signed may begin.
pub fn push_cut(text: &mut String, cut: &Name) -> Result<(), AllocError>
    ensures { OnOk result (string_bytes text.new
        ≡ string_bytes text.old ++ parted false (specs.cut_member cut.now ∷ [])) }
{
    text.push_str(",\"cut\":")?;
    push_name(text, cut)?;
    Ok(())
}

/// Adds the entries that are still to be checked.
pub fn push_todo(text: &mut String, entries: &Entries<'_>) -> Result<(), AllocError>
    ensures { OnOk result (string_bytes text.new
        ≡ string_bytes text.old ++ parted false (specs.todo_member entries.now ∷ [])) }
{
    text.push_str(",\"todo\":")?;
    push_entry_array(text, entries)?;
    Ok(())
}

/// Adds the records of a proof.
pub fn push_records(
    text: &mut String,
    rrsets: &[Rrset<'_>],
    records: &[RecordNumber],
) -> Result<(), AllocError>
    ensures { OnOk result (string_bytes text.new
        ≡ string_bytes text.old ++ parted false (specs.proof_member rrsets.now records.now ∷ [])) }
{
    text.push_str(",\"records\":[")?;
    let mut first = true;
    for number in records {
        push_number(text, &mut first, rrsets, number)?;
    }
    text.push_str("]")?;
    Ok(())
}

/// Adds the object of the record with this number, behind others or as the first.
fn push_number(
    text: &mut String,
    first: &mut bool,
    rrsets: &[Rrset<'_>],
    number: &RecordNumber,
) -> Result<(), AllocError>
    ensures text { OnOk result (string_bytes text.new
        ≡ string_bytes text.old ++ parted first.old (specs.proof_json rrsets.now number.now)) }
    ensures first { OnOk result (first.new ≡ still_first first.old (specs.proof_json rrsets.now number.now)) }
{
    if let Some(rrset) = numbered(rrsets, number.rrset) {
        push_record(text, first, rrset)?;
    }
    Ok(())
}

/// Adds the object of a record of the RRset, behind others or as the first.
fn push_record(text: &mut String, first: &mut bool, rrset: &Rrset<'_>) -> Result<(), AllocError>
    ensures text { OnOk result (string_bytes text.new
        ≡ string_bytes text.old ++ parted first.old (specs.proof_record_json (Some rrset.now))) }
    ensures first { OnOk result (first.new ≡ false) }
{
    push_comma(text, first)?;
    push_owner(text, rrset)?;
    Ok(())
}

/// Adds the object of a record of the RRset.
fn push_owner(text: &mut String, rrset: &Rrset<'_>) -> Result<(), AllocError>
    ensures { OnOk result (string_bytes text.new ≡ string_bytes text.old ++ specs.record_json rrset.now) }
{
    let rtype = rrset.rtype().0;
    text.push_str("{\"owner\":")?;
    push_name(text, rrset.owner())?;
    write!(text, ",\"type\":{rtype}}}")?;
    Ok(())
}
