//! The text of `list --all`: what each signature of the captured messages signs.
ghost use Rattle.std.specs.Prelude.{◌≡◌, ◌++◌, ◌∷◌, [], List, IfOk, OnOk, false, string_bytes, true};
ghost use Rattle.std.specs.Option.{option_map};
ghost use Rattle.dnsv_lines.specs.Json.{parted, still_first};
ghost use Rattle.dnsv_questions.specs.declared.format.Format.TheVariants.{Json, Lines};
ghost use Rattle.dnsv_evidence_texts.specs.Listing.{ListsRrsets, ListsSignatures, SignedOctets};
ghost use Rattle.dnsv_evidence_texts.specs.Listing.{data_json, data_line, listed_part, listing_text, octets_or_null};

use crate::hex_text::push_hex;
use crate::json::push_octets;
use dnsv_canonical::{Capture, Rrset, signed_data};
use dnsv_lines::push_comma;
use dnsv_questions::Format;
use std::alloc::{AllocError, Global};

/// What each signature of each RRset of the evidence signs (RFC 4034 3.1.8.1): in lines, or in JSON with the moment, in
/// seconds since 1970-01-01 00:00:00 UTC. The error is that memory ran out.
pub fn listing_text(
    alloc: Global,
    format: Format,
    moment: u64,
    held: &Capture<'_>,
) -> Result<String, AllocError>
    ensures { IfOk result (λ text. (listed : List SignedOctets) × ListsRrsets 1 held.now.rrsets listed
        × (string_bytes text ≡ listing_text format moment listed)) }
{
    match format {
        Format::Lines => listing_lines(alloc, held.rrsets()),
        Format::Json => listing_json(alloc, moment, held.rrsets()),
    }
}

/// A line for each signature.
fn listing_lines(alloc: Global, rrsets: &[Rrset<'_>]) -> Result<String, AllocError>
    ensures { IfOk result (λ text. (listed : List SignedOctets) × ListsRrsets 1 rrsets.now listed
        × (string_bytes text ≡ listing_text Lines 0 listed)) }
{
    let mut text = String::new(alloc);
    push_rrsets(alloc, &mut text, Format::Lines, rrsets)?;
    Ok(text)
}

/// An object with an array, which has an object for each signature.
fn listing_json(alloc: Global, moment: u64, rrsets: &[Rrset<'_>]) -> Result<String, AllocError>
    ensures { IfOk result (λ text. (listed : List SignedOctets) × ListsRrsets 1 rrsets.now listed
        × (string_bytes text ≡ listing_text Json moment listed)) }
{
    let mut text = String::new(alloc);
    write!(
        text,
        "{{\"command\":\"list\",\"moment\":{moment},\"data\":["
    )?;
    push_rrsets(alloc, &mut text, Format::Json, rrsets)?;
    text.push_str("]}\n")?;
    Ok(text)
}

/// Adds what each signature of the RRsets signs.
fn push_rrsets(
    alloc: Global,
    text: &mut String,
    format: Format,
    rrsets: &[Rrset<'_>],
) -> Result<(), AllocError>
    ensures { OnOk result ((listed : List SignedOctets) × ListsRrsets 1 rrsets.now listed
        × (string_bytes text.new ≡ string_bytes text.old ++ listed_part format true listed)) }
{
    let mut first = true;
    for (index, rrset) in rrsets.iter().enumerate() {
        push_rrset(alloc, text, format, &mut first, index + 1, rrset)?;
    }
    Ok(())
}

/// Adds what each signature of the RRset with this number signs, behind others or as the first.
fn push_rrset(
    alloc: Global,
    text: &mut String,
    format: Format,
    first: &mut bool,
    number: usize,
    rrset: &Rrset<'_>,
) -> Result<(), AllocError>
    ensures { OnOk result ((listed : List SignedOctets) × ListsSignatures number rrset.now 1 rrset.now.signatures listed
        × (string_bytes text.new ≡ string_bytes text.old ++ listed_part format first.old listed)
        × (first.new ≡ still_first first.old listed)) }
{
    let signatures = rrset.signatures();
    for (index, rrsig) in signatures.iter().enumerate() {
        let octets = signed_data(alloc, rrset, rrsig)?;
        push_signed(text, format, first, number, index + 1, octets)?;
    }
    Ok(())
}

/// Adds what a signature signs, behind others or as the first.
fn push_signed(
    text: &mut String,
    format: Format,
    first: &mut bool,
    rrset: usize,
    signature: usize,
    octets: Option<Vec<u8>>,
) -> Result<(), AllocError>
    ensures text { OnOk result (string_bytes text.new ≡ string_bytes text.old ++ listed_part format first.old (record {
      rrset = rrset;
      signature = signature;
      octets = option_map (λ octets. octets.items) octets;
    } ∷ [])) }
    ensures first { OnOk result (first.new ≡ false) }
{
    match format {
        Format::Lines => {
            *first = false;
            push_line(text, rrset, signature, octets)
        }
        Format::Json => push_object(text, first, rrset, signature, octets),
    }
}

/// Adds the line of a signature.
fn push_line(
    text: &mut String,
    rrset: usize,
    signature: usize,
    octets: Option<Vec<u8>>,
) -> Result<(), AllocError>
    ensures { OnOk result (string_bytes text.new ≡ string_bytes text.old ++ data_line (record {
      rrset = rrset;
      signature = signature;
      octets = option_map (λ octets. octets.items) octets;
    })) }
{
    match octets {
        Some(octets) => {
            write!(text, "data {rrset} {signature} ")?;
            push_hex(text, &octets)?;
            text.push_str("\n")
        }
        None => writeln!(text, "data {rrset} {signature} -"),
    }
}

/// Adds the object of a signature, behind others or as the first.
fn push_object(
    text: &mut String,
    first: &mut bool,
    rrset: usize,
    signature: usize,
    octets: Option<Vec<u8>>,
) -> Result<(), AllocError>
    ensures text { OnOk result (string_bytes text.new ≡ string_bytes text.old ++ parted first.old (data_json (record {
      rrset = rrset;
      signature = signature;
      octets = option_map (λ octets. octets.items) octets;
    }) ∷ [])) }
    ensures first { OnOk result (first.new ≡ false) }
{
    push_comma(text, first)?;
    push_members(text, rrset, signature, octets)?;
    Ok(())
}

/// Adds the object of a signature.
fn push_members(
    text: &mut String,
    rrset: usize,
    signature: usize,
    octets: Option<Vec<u8>>,
) -> Result<(), AllocError>
    ensures { OnOk result (string_bytes text.new ≡ string_bytes text.old ++ data_json (record {
      rrset = rrset;
      signature = signature;
      octets = option_map (λ octets. octets.items) octets;
    })) }
{
    write!(
        text,
        "{{\"rrset\":{rrset},\"signature\":{signature},\"data\":"
    )?;
    push_data(text, octets)?;
    text.push_str("}")?;
    Ok(())
}

/// Adds octets, or null where there are none.
fn push_data(text: &mut String, octets: Option<Vec<u8>>) -> Result<(), AllocError>
    ensures { OnOk result (string_bytes text.new
        ≡ string_bytes text.old ++ octets_or_null (option_map (λ octets. octets.items) octets)) }
{
    match octets {
        Some(octets) => push_octets(text, &octets),
        None => text.push_str("null"),
    }
}
