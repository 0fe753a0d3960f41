//! The JSON of `list --compact`: what a verifier has to check, each octet once.
ghost use Rattle.std.specs.Prelude.{◌≡◌, ◌++◌, ◌∷◌, [], ℕ, IfOk, List, OnOk, false, map, string_bytes};
ghost use Rattle.dnsv_canonical.specs.Canonical.{IsCanonical};
ghost use Rattle.dnsv_canonical.specs.CanonicalRdata.{canonical_form};
ghost use Rattle.dnsv_compact.specs.CompactList.{IsListedRrset, ListedRrset, ListsRrsets, listed_signature};
ghost use Rattle.dnsv_lines.specs.Json.{array, parted};
ghost use Rattle.dnsv_evidence_texts.specs.Compact as specs;
ghost use Rattle.dnsv_evidence_texts.specs.Json.{octets_json};
ghost use Rattle.dnsv_questions.specs.declared.format.Format.TheVariants.{Json};

use crate::compact::{push_rrsets, push_signatures};
use crate::json::moments::push_list_of;
use crate::json::push_octets;
use dnsv_answers::Moments;
use dnsv_canonical::{Rrset, canonical_rrset};
use dnsv_compact::{CompactList, ListedKey, Place, front_of};
use dnsv_lines::push_comma;
use dnsv_questions::Format;
use dnsv_records::Rrsig;
use std::alloc::{AllocError, Global};

/// The object with the moment or the range, the keys, the RRsets with their signatures, and the entries.
pub fn compact_json(
    alloc: Global,
    moments: Moments,
    rrsets: &[Rrset<'_>],
    list: &CompactList<'_>,
) -> Result<String, AllocError>
    ensures { IfOk result (λ text. (listed : List ListedRrset) × ListsRrsets list.now.todo 1 rrsets.now listed
        × (string_bytes text ≡ specs.compact_text Json moments (record {
          keys = list.now.keys;
          rrsets = listed;
          todo = list.now.todo;
        }))) }
{
    let mut text = String::new(alloc);
    push_list_of(&mut text, moments)?;
    text.push_str(",\"keys\":")?;
    push_keys(&mut text, list.keys())?;
    text.push_str(",\"rrsets\":[")?;
    push_rrsets(alloc, &mut text, Format::Json, rrsets, list)?;
    text.push_str("],\"todo\":")?;
    push_places(&mut text, list.places())?;
    text.push_str("}\n")?;
    Ok(text)
}

/// Adds an array with the object of each key.
fn push_keys(text: &mut String, keys: &[ListedKey<'_>]) -> Result<(), AllocError>
    ensures { OnOk result (string_bytes text.new ≡ string_bytes text.old ++ array (map specs.key_json keys.now)) }
{
    text.push_str("[")?;
    let mut first = true;
    for key in keys {
        push_key(text, &mut first, key)?;
    }
    text.push_str("]")?;
    Ok(())
}

/// Adds the object of a key, behind others or as the first.
fn push_key(text: &mut String, first: &mut bool, key: &ListedKey<'_>) -> Result<(), AllocError>
    ensures text { OnOk result (string_bytes text.new
        ≡ string_bytes text.old ++ parted first.old (specs.key_json key.now ∷ [])) }
    ensures first { OnOk result (first.new ≡ false) }
{
    push_comma(text, first)?;
    push_key_members(text, key)?;
    Ok(())
}

/// Adds the object of a key.
fn push_key_members(text: &mut String, key: &ListedKey<'_>) -> Result<(), AllocError>
    ensures { OnOk result (string_bytes text.new ≡ string_bytes text.old ++ specs.key_json key.now) }
{
    let algorithm = key.algorithm.0;
    write!(text, "{{\"algorithm\":{algorithm},\"key\":")?;
    push_octets(text, key.key.as_slice())?;
    text.push_str("}")?;
    Ok(())
}

/// Adds an array with the object of each entry.
fn push_places(text: &mut String, places: &[Place]) -> Result<(), AllocError>
    ensures { OnOk result (string_bytes text.new ≡ string_bytes text.old ++ array (map specs.place_json places.now)) }
{
    text.push_str("[")?;
    let mut first = true;
    for place in places {
        push_place(text, &mut first, place)?;
    }
    text.push_str("]")?;
    Ok(())
}

/// Adds the object of an entry, behind others or as the first.
fn push_place(text: &mut String, first: &mut bool, place: &Place) -> Result<(), AllocError>
    ensures text { OnOk result (string_bytes text.new
        ≡ string_bytes text.old ++ parted first.old (specs.place_json place.now ∷ [])) }
    ensures first { OnOk result (first.new ≡ false) }
{
    push_comma(text, first)?;
    push_place_members(text, place)?;
    Ok(())
}

/// Adds the object of an entry.
fn push_place_members(text: &mut String, place: &Place) -> Result<(), AllocError>
    ensures { OnOk result (string_bytes text.new ≡ string_bytes text.old ++ specs.place_json place.now) }
{
    let (key, rrset, signature) = (place.key, place.rrset, place.signature);
    write!(
        text,
        "{{\"key\":{key},\"rrset\":{rrset},\"signature\":{signature}}}"
    )?;
    Ok(())
}

/// Adds the object of an RRset with its signatures that the list names, behind others or as the first.
pub fn push_rrset(
    alloc: Global,
    text: &mut String,
    first: &mut bool,
    number: usize,
    rrset: &Rrset<'_>,
    list: &CompactList<'_>,
) -> Result<(), AllocError>
    ensures text { OnOk result ((listed : ListedRrset) × IsListedRrset list.now.todo number rrset.now listed
        × (string_bytes text.new ≡ string_bytes text.old ++ parted first.old (specs.rrset_json listed ∷ []))) }
    ensures first { OnOk result (first.new ≡ false) }
{
    push_comma(text, first)?;
    push_rrset_members(alloc, text, number, rrset, list)?;
    Ok(())
}

/// Adds the object of an RRset with its signatures that the list names.
fn push_rrset_members(
    alloc: Global,
    text: &mut String,
    number: usize,
    rrset: &Rrset<'_>,
    list: &CompactList<'_>,
) -> Result<(), AllocError>
    ensures { OnOk result ((listed : ListedRrset) × IsListedRrset list.now.todo number rrset.now listed
        × (string_bytes text.new ≡ string_bytes text.old ++ specs.rrset_json listed)) }
{
    let rtype = rrset.rtype().0;
    write!(text, "{{\"rrset\":{number},\"owner\":")?;
    push_octets(text, rrset.owner().to_lower().wire())?;
    write!(text, ",\"type\":{rtype},\"rdata\":")?;
    push_rdata(alloc, text, rrset)?;
    text.push_str(",\"signatures\":[")?;
    push_signatures(alloc, text, Format::Json, number, rrset, list)?;
    text.push_str("]}")?;
    Ok(())
}

/// Adds an array with the RDATA of an RRset in canonical form and order.
fn push_rdata(alloc: Global, text: &mut String, rrset: &Rrset<'_>) -> Result<(), AllocError>
    ensures { OnOk result ((canonical : List (List ℕ))
        × IsCanonical (map (canonical_form rrset.now.rtype) rrset.now.rdata) canonical
        × (string_bytes text.new ≡ string_bytes text.old ++ array (map octets_json canonical))) }
{
    let canonical = canonical_rrset(alloc, rrset)?;
    push_strings(text, &canonical)?;
    Ok(())
}

/// Adds an array of octets, each as a string of hex.
fn push_strings(text: &mut String, strings: &[Vec<u8>]) -> Result<(), AllocError>
    ensures { OnOk result (string_bytes text.new
        ≡ string_bytes text.old ++ array (map (λ each. octets_json each.items) strings.now)) }
{
    text.push_str("[")?;
    let mut first = true;
    for octets in strings {
        push_string(text, &mut first, octets)?;
    }
    text.push_str("]")?;
    Ok(())
}

/// Adds octets as a string of hex, behind others or as the first.
fn push_string(text: &mut String, first: &mut bool, octets: &[u8]) -> Result<(), AllocError>
    ensures text { OnOk result (string_bytes text.new
        ≡ string_bytes text.old ++ parted first.old (octets_json octets.now ∷ [])) }
    ensures first { OnOk result (first.new ≡ false) }
{
    push_comma(text, first)?;
    push_octets(text, octets)?;
    Ok(())
}

/// Adds the object of a signature, behind others or as the first.
pub fn push_signature(
    alloc: Global,
    text: &mut String,
    first: &mut bool,
    number: usize,
    rrsig: &Rrsig<'_>,
) -> Result<(), AllocError>
    ensures text { OnOk result (string_bytes text.new
        ≡ string_bytes text.old ++ parted first.old (specs.signature_json (listed_signature number rrsig.now) ∷ [])) }
    ensures first { OnOk result (first.new ≡ false) }
{
    push_comma(text, first)?;
    push_signature_members(alloc, text, number, rrsig)?;
    Ok(())
}

/// Adds the object of a signature.
fn push_signature_members(
    alloc: Global,
    text: &mut String,
    number: usize,
    rrsig: &Rrsig<'_>,
) -> Result<(), AllocError>
    ensures { OnOk result (string_bytes text.new
        ≡ string_bytes text.old ++ specs.signature_json (listed_signature number rrsig.now)) }
{
    let front = front_of(alloc, rrsig)?;
    write!(text, "{{\"signature\":{number},\"front\":")?;
    push_octets(text, &front)?;
    text.push_str(",\"octets\":")?;
    push_octets(text, rrsig.signature.as_slice())?;
    text.push_str("}")?;
    Ok(())
}
