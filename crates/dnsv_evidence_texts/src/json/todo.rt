//! The JSON of `list` without `--all`: what a verifier still has to check.
ghost use Rattle.std.specs.Prelude.{◌≡◌, ◌++◌, ◌∷◌, [], false, true, map, IfOk, OnOk, string_bytes};
ghost use Rattle.dnsv_lines.specs.Json.{array, parted};
ghost use Rattle.dnsv_evidence_texts.specs.Todo as specs;
ghost use Rattle.dnsv_questions.specs.declared.format.Format.TheVariants.{Json};

use crate::json::moments::push_list_of;
use crate::json::{push_octets, push_signed};
use dnsv_answers::Moments;
use dnsv_lines::push_comma;
use dnsv_verifier::{Entries, Entry};
use std::alloc::{AllocError, Global};

/// The object with the moment or the range, and the entries.
pub fn todo_json(
    alloc: Global,
    moments: Moments,
    entries: &Entries<'_>,
) -> Result<String, AllocError>
    ensures { IfOk result (λ text. string_bytes text ≡ specs.todo_text Json moments entries.now) }
{
    let mut text = String::new(alloc);
    push_list_of(&mut text, moments)?;
    text.push_str(",\"todo\":[")?;
    push_objects(&mut text, entries)?;
    text.push_str("]}\n")?;
    Ok(text)
}

/// Adds an array of the objects of entries.
pub fn push_entry_array(text: &mut String, entries: &Entries<'_>) -> Result<(), AllocError>
    ensures { OnOk result (string_bytes text.new
        ≡ string_bytes text.old ++ array (map specs.todo_json entries.now)) }
{
    text.push_str("[")?;
    push_objects(text, entries)?;
    text.push_str("]")?;
    Ok(())
}

/// Adds the objects of entries, with commas between them.
fn push_objects(text: &mut String, entries: &Entries<'_>) -> Result<(), AllocError>
    ensures { OnOk result (string_bytes text.new
        ≡ string_bytes text.old ++ parted true (map specs.todo_json entries.now)) }
{
    let mut first = true;
    for place in 0..entries.len() {
        push_entry(text, &mut first, &entries.at(place))?;
    }
    Ok(())
}

/// Adds the object of an entry, behind others or as the first.
fn push_entry(text: &mut String, first: &mut bool, entry: &Entry<'_>) -> Result<(), AllocError>
    ensures text { OnOk result (string_bytes text.new
        ≡ string_bytes text.old ++ parted first.old (specs.todo_json entry.now ∷ [])) }
    ensures first { OnOk result (first.new ≡ false) }
{
    push_comma(text, first)?;
    push_members(text, entry)?;
    Ok(())
}

/// Adds the object of an entry.
fn push_members(text: &mut String, entry: &Entry<'_>) -> Result<(), AllocError>
    ensures { OnOk result (string_bytes text.new ≡ string_bytes text.old ++ specs.todo_json entry.now) }
{
    let algorithm = entry.algorithm.0;
    write!(text, "{{\"algorithm\":{algorithm},\"key\":")?;
    push_octets(text, entry.key.as_slice())?;
    text.push_str(",\"data\":")?;
    push_signed(text, &entry.signed_data)?;
    text.push_str(",\"signature\":")?;
    push_octets(text, entry.signature.as_slice())?;
    text.push_str("}")?;
    Ok(())
}
