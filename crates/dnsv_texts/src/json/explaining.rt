//! The JSON of why a verdict stands: an object for each line.
ghost use Rattle.std.specs.Prelude.{◌≡◌, ◌++◌, ◌∷◌, [], Some, false, map, OnOk, string_bytes};
ghost use Rattle.dnsv_lines.specs.Json.{AddsMembers, array, parted};
ghost use Rattle.std.specs.Option.{option_map};
ghost use Rattle.dnsv_texts.specs.Why.{why_json, why_members};

use crate::numbering::renumbered;
use dnsv_lines::{Line, push_comma, push_line};
use std::alloc::AllocError;

/// Adds a member with the lines that say why, where there are such.
#[tactic(auto, using(dnsv_evidence_texts::proofs::ObjectLemmas::nothing_written))]
pub fn push_why(
    text: &mut String,
    why: Option<&[Line]>,
    numbers: Option<&[usize]>,
) -> Result<(), AllocError>
    ensures { OnOk result (AddsMembers (why_members (option_map (λ lines. lines.now) why.entry)
        (option_map (λ numbers. numbers.now) numbers.entry))
        (string_bytes text.old) (string_bytes text.new)) }
{
    match why {
        Some(lines) => push_explanation(text, lines, numbers),
        None => Ok(()),
    }
}

/// Adds a member with an array of the lines.
fn push_explanation(
    text: &mut String,
    lines: &[Line],
    numbers: Option<&[usize]>,
) -> Result<(), AllocError>
    ensures { OnOk result (AddsMembers (why_members (Some lines.now) (option_map (λ numbers. numbers.now) numbers.entry))
        (string_bytes text.old) (string_bytes text.new)) }
{
    text.push_str(",\"why\":")?;
    push_lines(text, lines, numbers)?;
    Ok(())
}

/// Adds an array with an object for each line.
fn push_lines(
    text: &mut String,
    lines: &[Line],
    numbers: Option<&[usize]>,
) -> Result<(), AllocError>
    ensures { OnOk result (string_bytes text.new ≡ string_bytes text.old
        ++ array (map (why_json (option_map (λ numbers. numbers.now) numbers.entry)) lines.now)) }
{
    text.push_str("[")?;
    let mut first = true;
    for line in lines {
        push_object(text, &mut first, line, numbers)?;
    }
    text.push_str("]")?;
    Ok(())
}

/// Adds the object of a line, behind others or as the first.
fn push_object(
    text: &mut String,
    first: &mut bool,
    line: &Line,
    numbers: Option<&[usize]>,
) -> Result<(), AllocError>
    ensures text { OnOk result (string_bytes text.new ≡ string_bytes text.old
        ++ parted first.old (why_json (option_map (λ numbers. numbers.now) numbers.entry) line.now ∷ [])) }
    ensures first { OnOk result (first.new ≡ false) }
{
    push_comma(text, first)?;
    push_members(text, line, numbers)?;
    Ok(())
}

/// Adds the object of a line.
fn push_members(text: &mut String, line: &Line, numbers: Option<&[usize]>) -> Result<(), AllocError>
    ensures { OnOk result (string_bytes text.new
        ≡ string_bytes text.old ++ why_json (option_map (λ numbers. numbers.now) numbers.entry) line.now) }
{
    match renumbered(line, numbers) {
        Some(line) => push_line(text, &line),
        None => push_line(text, line),
    }
}
