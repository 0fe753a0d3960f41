//! What is reported of a question that has no verdict, where it is one of many.
ghost use Rattle.std.specs.Prelude.{◌≡◌, ◌++◌, IfOk, string_bytes};
ghost use Rattle.dnsv_evidence_texts.specs.Refused as specs;

use crate::heading::Heading;
use crate::json::refused::refused_json;
use dnsv_questions::Format;
use std::alloc::{AllocError, Global};

/// The text for a question that is refused by the number: in lines, or in JSON, with the subcommand that asks why a
/// verdict stands, or the one that doesn't. The error is that memory ran out.
pub fn refused_text(
    alloc: Global,
    format: Format,
    number: u16,
    why: bool,
    heading: &Heading<'_>,
) -> Result<String, AllocError>
    ensures { IfOk result (λ text. string_bytes text
        ≡ specs.refused_text format number why heading.now.name.now heading.now.rtype.0 heading.now.moment
        heading.now.status) }
{
    match format {
        Format::Lines => refused_line(alloc, number, heading),
        Format::Json => refused_json(alloc, number, why, heading),
    }
}

/// The line with the number of the refusal, and the name and type that are asked for.
fn refused_line(alloc: Global, number: u16, heading: &Heading<'_>) -> Result<String, AllocError>
    ensures { IfOk result (λ text. string_bytes text
        ≡ specs.refused_line number heading.now.name.now heading.now.rtype.0) }
{
    let mut text = String::new(alloc);
    let name = heading.name.to_lower();
    let rtype = heading.rtype.0;
    writeln!(text, "refused {number} {name} {rtype}")?;
    Ok(text)
}
