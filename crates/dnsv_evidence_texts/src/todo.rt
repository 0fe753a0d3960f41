//! The text of `list` without `--all`: what a verifier still has to check.
ghost use Rattle.std.specs.Prelude.{◌≡◌, ◌++◌, IfOk, OnOk, flat_map, string_bytes};
ghost use Rattle.dnsv_evidence_texts.specs.Todo as specs;

use crate::hex_text::{push_hex_text, push_signed_text};
use crate::json::todo::todo_json;
use dnsv_answers::Moments;
use dnsv_questions::Format;
use dnsv_verifier::{Entries, Entry};
use std::alloc::{AllocError, Global};

/// The text of the entries that are still to be checked: in lines, or in JSON with the moment or the range. The error is
/// that memory ran out.
pub fn todo_text(
    alloc: Global,
    format: Format,
    moments: Moments,
    entries: &Entries<'_>,
) -> Result<String, AllocError>
    ensures { IfOk result (λ text. string_bytes text ≡ specs.todo_text format moments entries.now) }
{
    match format {
        Format::Lines => todo_lines(alloc, entries),
        Format::Json => todo_json(alloc, moments, entries),
    }
}

/// A line for each entry.
fn todo_lines(alloc: Global, entries: &Entries<'_>) -> Result<String, AllocError>
    ensures { IfOk result (λ text. string_bytes text ≡ flat_map specs.todo_line entries.now) }
{
    let mut text = String::new(alloc);
    push_entries(&mut text, entries)?;
    Ok(text)
}

/// Adds a line for each entry.
pub fn push_entries(text: &mut String, entries: &Entries<'_>) -> Result<(), AllocError>
    ensures { OnOk result (string_bytes text.new ≡ string_bytes text.old ++ flat_map specs.todo_line entries.now) }
{
    for place in 0..entries.len() {
        push_entry(text, &entries.at(place))?;
    }
    Ok(())
}

/// Adds the line of an entry.
fn push_entry(text: &mut String, entry: &Entry<'_>) -> Result<(), AllocError>
    ensures { OnOk result (string_bytes text.new ≡ string_bytes text.old ++ specs.todo_line entry.now) }
{
    let algorithm = entry.algorithm.0;
    write!(text, "todo {algorithm} ")?;
    push_hex_text(text, entry.key.as_slice())?;
    text.push_str(" ")?;
    push_signed_text(text, &entry.signed_data)?;
    text.push_str(" ")?;
    push_hex_text(text, entry.signature.as_slice())?;
    text.push_str("\n")
}
