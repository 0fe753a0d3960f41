//! The text of `list --compact`: what a verifier has to check, each octet once.
ghost use Rattle.std.specs.Prelude.{◌≡◌, ◌++◌, ◌∷◌, [], ℕ, IfOk, List, OnOk, false, flat_map, map, string_bytes, true};
ghost use Rattle.dnsv_canonical.specs.Canonical.{IsCanonical};
ghost use Rattle.dnsv_canonical.specs.CanonicalRdata.{canonical_form};
ghost use Rattle.dnsv_compact.specs.CompactList.{IsListedRrset, ListedRrset, ListedSignature, ListsRrsets, ListsSignatures, listed_signature};
ghost use Rattle.dnsv_evidence_texts.specs.Compact as specs;
ghost use Rattle.dnsv_evidence_texts.specs.Showing.{texts_from};

use crate::hex_text::push_hex_text;
use crate::json::compact as json;
use dnsv_answers::Moments;
use dnsv_canonical::{Rrset, canonical_rrset};
use dnsv_compact::{CompactList, ListedKey, Place, front_of};
use dnsv_questions::Format;
use dnsv_records::Rrsig;
use std::alloc::{AllocError, Global};

/// The compact list of entries that are asked of the RRsets: in lines, or in JSON with the moment or the range. The error
/// is that memory ran out.
pub fn compact_text(
    alloc: Global,
    format: Format,
    moments: Moments,
    rrsets: &[Rrset<'_>],
    list: &CompactList<'_>,
) -> Result<String, AllocError>
    ensures { IfOk result (λ text. (listed : List ListedRrset) × ListsRrsets list.now.todo 1 rrsets.now listed
        × (string_bytes text ≡ specs.compact_text format moments (record {
          keys = list.now.keys;
          rrsets = listed;
          todo = list.now.todo;
        }))) }
{
    match format {
        Format::Lines => compact_lines(alloc, rrsets, list),
        Format::Json => json::compact_json(alloc, moments, rrsets, list),
    }
}

/// The lines of keys, of RRsets with their signatures, and of entries.
fn compact_lines(
    alloc: Global,
    rrsets: &[Rrset<'_>],
    list: &CompactList<'_>,
) -> Result<String, AllocError>
    ensures { IfOk result (λ text. (listed : List ListedRrset) × ListsRrsets list.now.todo 1 rrsets.now listed
        × (string_bytes text ≡ specs.compact_lines (record {
          keys = list.now.keys;
          rrsets = listed;
          todo = list.now.todo;
        }))) }
{
    let mut text = String::new(alloc);
    push_keys(&mut text, list.keys())?;
    push_rrsets(alloc, &mut text, Format::Lines, rrsets, list)?;
    push_places(&mut text, list.places())?;
    Ok(text)
}

/// Adds a line for each key.
fn push_keys(text: &mut String, keys: &[ListedKey<'_>]) -> Result<(), AllocError>
    ensures { OnOk result (string_bytes text.new ≡ string_bytes text.old ++ texts_from specs.key_line 1 keys.now) }
{
    for (index, key) in keys.iter().enumerate() {
        push_key(text, index + 1, key)?;
    }
    Ok(())
}

/// Adds the line of a key.
fn push_key(text: &mut String, number: usize, key: &ListedKey<'_>) -> Result<(), AllocError>
    ensures { OnOk result (string_bytes text.new ≡ string_bytes text.old ++ specs.key_line number key.now) }
{
    let algorithm = key.algorithm.0;
    write!(text, "key {number} {algorithm} ")?;
    push_hex_text(text, key.key.as_slice())?;
    text.push_str("\n")
}

/// Adds a line for each entry.
fn push_places(text: &mut String, places: &[Place]) -> Result<(), AllocError>
    ensures { OnOk result (string_bytes text.new ≡ string_bytes text.old ++ texts_from specs.place_line 1 places.now) }
{
    for (index, place) in places.iter().enumerate() {
        push_place(text, index + 1, place)?;
    }
    Ok(())
}

/// Adds the line of an entry.
fn push_place(text: &mut String, number: usize, place: &Place) -> Result<(), AllocError>
    ensures { OnOk result (string_bytes text.new ≡ string_bytes text.old ++ specs.place_line number place.now) }
{
    let (key, rrset, signature) = (place.key, place.rrset, place.signature);
    writeln!(text, "todo {number} {key} {rrset} {signature}")
}

/// Adds the RRsets that the list names, with their signatures.
pub fn push_rrsets(
    alloc: Global,
    text: &mut String,
    format: Format,
    rrsets: &[Rrset<'_>],
    list: &CompactList<'_>,
) -> Result<(), AllocError>
    ensures { OnOk result ((listed : List ListedRrset) × ListsRrsets list.now.todo 1 rrsets.now listed
        × (string_bytes text.new ≡ string_bytes text.old ++ specs.rrsets_part format true listed)) }
{
    let mut first = true;
    for (index, rrset) in rrsets.iter().enumerate() {
        if !list.names_rrset(index + 1) {
            continue;
        }
        push_rrset(alloc, text, format, &mut first, index + 1, rrset, list)?;
    }
    Ok(())
}

/// Adds an RRset with its signatures that the list names, behind others or as the first.
fn push_rrset(
    alloc: Global,
    text: &mut String,
    format: Format,
    first: &mut bool,
    number: usize,
    rrset: &Rrset<'_>,
    list: &CompactList<'_>,
) -> Result<(), AllocError>
    ensures text { OnOk result ((listed : ListedRrset) × IsListedRrset list.now.todo number rrset.now listed
        × (string_bytes text.new ≡ string_bytes text.old ++ specs.rrsets_part format first.old (listed ∷ []))) }
    ensures first { OnOk result (first.new ≡ false) }
{
    match format {
        Format::Lines => {
            push_lines(alloc, text, number, rrset, list)?;
            *first = false;
            Ok(())
        }
        Format::Json => {
            json::push_rrset(alloc, text, first, number, rrset, list)?;
            Ok(())
        }
    }
}

/// Adds the line of an RRset, and those of its signatures that the list names.
fn push_lines(
    alloc: Global,
    text: &mut String,
    number: usize,
    rrset: &Rrset<'_>,
    list: &CompactList<'_>,
) -> Result<(), AllocError>
    ensures { OnOk result ((listed : ListedRrset) × IsListedRrset list.now.todo number rrset.now listed
        × (string_bytes text.new ≡ string_bytes text.old ++ specs.rrset_lines listed)) }
{
    let rtype = rrset.rtype().0;
    write!(text, "rrset {number} ")?;
    push_hex_text(text, rrset.owner().to_lower().wire())?;
    write!(text, " {rtype}")?;
    push_rdata(alloc, text, rrset)?;
    text.push_str("\n")?;
    push_signatures(alloc, text, Format::Lines, number, rrset, list)?;
    Ok(())
}

/// Adds the RDATA of an RRset in canonical form and order.
fn push_rdata(alloc: Global, text: &mut String, rrset: &Rrset<'_>) -> Result<(), AllocError>
    ensures { OnOk result ((canonical : List (List ℕ))
        × IsCanonical (map (canonical_form rrset.now.rtype) rrset.now.rdata) canonical
        × (string_bytes text.new ≡ string_bytes text.old ++ flat_map specs.rdata_text canonical)) }
{
    let canonical = canonical_rrset(alloc, rrset)?;
    push_strings(text, &canonical)?;
    Ok(())
}

/// Adds octets behind others.
fn push_strings(text: &mut String, strings: &[Vec<u8>]) -> Result<(), AllocError>
    ensures { OnOk result (string_bytes text.new
        ≡ string_bytes text.old ++ flat_map (λ each. specs.rdata_text each.items) strings.now) }
{
    for octets in strings {
        text.push_str(" ")?;
        push_hex_text(text, octets)?;
    }
    Ok(())
}

/// Adds the signatures of the RRset with the number that the list names.
pub fn push_signatures(
    alloc: Global,
    text: &mut String,
    format: Format,
    number: usize,
    rrset: &Rrset<'_>,
    list: &CompactList<'_>,
) -> Result<(), AllocError>
    ensures { OnOk result ((listed : List ListedSignature)
        × ListsSignatures list.now.todo number 1 rrset.now.signatures listed
        × (string_bytes text.new ≡ string_bytes text.old ++ specs.signatures_part number format true listed)) }
{
    let signatures = rrset.signatures();
    let mut first = true;
    for (index, rrsig) in signatures.iter().enumerate() {
        if !list.names_signature(number, index + 1) {
            continue;
        }
        push_signature(alloc, text, format, &mut first, number, index + 1, rrsig)?;
    }
    Ok(())
}

/// Adds a signature, behind others or as the first.
fn push_signature(
    alloc: Global,
    text: &mut String,
    format: Format,
    first: &mut bool,
    rrset: usize,
    signature: usize,
    rrsig: &Rrsig<'_>,
) -> Result<(), AllocError>
    ensures text { OnOk result (string_bytes text.new ≡ string_bytes text.old
        ++ specs.signatures_part rrset format first.old (listed_signature signature rrsig.now ∷ [])) }
    ensures first { OnOk result (first.new ≡ false) }
{
    match format {
        Format::Lines => {
            push_line(alloc, text, rrset, signature, rrsig)?;
            *first = false;
            Ok(())
        }
        Format::Json => {
            json::push_signature(alloc, text, first, signature, rrsig)?;
            Ok(())
        }
    }
}

/// Adds the line of a signature.
fn push_line(
    alloc: Global,
    text: &mut String,
    rrset: usize,
    signature: usize,
    rrsig: &Rrsig<'_>,
) -> Result<(), AllocError>
    ensures { OnOk result (string_bytes text.new
        ≡ string_bytes text.old ++ specs.signature_line rrset (listed_signature signature rrsig.now)) }
{
    let front = front_of(alloc, rrsig)?;
    write!(text, "signature {rrset} {signature} ")?;
    push_hex_text(text, &front)?;
    text.push_str(" ")?;
    push_hex_text(text, rrsig.signature.as_slice())?;
    text.push_str("\n")
}
