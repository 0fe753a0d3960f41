//! What is told of a verdict apart from its question.
ghost use Rattle.std.specs.Prelude.{◌≡◌, IfOk, string_bytes};
ghost use Rattle.dnsv_texts.specs.Told as specs;
ghost use Rattle.dnsv_questions.specs.declared.format.Format.TheVariants.{Json, Lines};

use crate::json::checking as json;
use crate::reason::push_reason;
use crate::words;
use dnsv_canonical::Rrset;
use dnsv_questions::Format;
use dnsv_verdict::{Link, Verdict};
use std::alloc::{AllocError, Global};

/// The aliases that lead to a verdict, and what carries it: the lines of [`check_text`](crate::check_text) behind its
/// first, each behind a space and without its end, or in JSON its members behind the exit status, each behind a comma.
/// Entries that are still to be checked aren't told. The error is that memory ran out.
pub fn told_text(
    alloc: Global,
    format: Format,
    rrsets: &[Rrset<'_>],
    links: &[Link],
    verdict: &Verdict<'_>,
) -> Result<String, AllocError>
    ensures { IfOk result (λ text. string_bytes text ≡ specs.told_text format rrsets.now links.now verdict.now) }
{
    match format {
        Format::Lines => told_words(alloc, rrsets, links, verdict),
        Format::Json => told_members(alloc, rrsets, links, verdict),
    }
}

/// The lines, on one.
fn told_words(
    alloc: Global,
    rrsets: &[Rrset<'_>],
    links: &[Link],
    verdict: &Verdict<'_>,
) -> Result<String, AllocError>
    ensures { IfOk result (λ text. string_bytes text ≡ specs.told_text Lines rrsets.now links.now verdict.now) }
{
    let mut text = String::new(alloc);
    words::push_aliases(&mut text, links)?;
    words::push_reason(&mut text, rrsets, verdict)?;
    Ok(text)
}

/// The members.
fn told_members(
    alloc: Global,
    rrsets: &[Rrset<'_>],
    links: &[Link],
    verdict: &Verdict<'_>,
) -> Result<String, AllocError>
    ensures { IfOk result (λ text. string_bytes text ≡ specs.told_text Json rrsets.now links.now verdict.now) }
{
    let mut text = String::new(alloc);
    text.push_str(",\"aliases\":")?;
    json::push_aliases(&mut text, links)?;
    push_reason(&mut text, Format::Json, rrsets, verdict, false)?;
    Ok(text)
}
