//! Trust anchors and DS records, which vouch for keys of a zone.

pub mod asked;
pub mod digested;
pub mod zone_keys;

ghost use Rattle.std.specs.Prelude.{◌↔◌, IfOk, IsTrue, List, None, OnOk};
ghost use Rattle.dnsv_names.specs.Name.{Labels};
ghost use Rattle.dnsv_canonical.specs.Rrsets.{ReceivedRrset};
ghost use Rattle.dnsv_verifier.specs.Asking.{GivesEach, GivesMore};
ghost use Rattle.dnsv_zone_keys.specs.Vouchers.{AreVoucherFacts, HasTag, IsIgnoredBeside, IsMatchOf, IsWantedBy};
ghost use Rattle.dnsv_zone_keys.specs.Vouchers.VoucherSearch.{AreKeysOfZone, ArePlacesOf, HasAmong, IsKeyWord, IsPlaceOf, IsUnusableWord, wanted_of};

use crate::vouchers::asked::Asked;
use crate::vouchers::digested::DigestedKey;
use crate::vouchers::zone_keys::ZoneKeys;
use dnsv_lines::{EntryNumber, WhyEntry};
use dnsv_mending::VoucherFacts;
use std::alloc::{AllocError, Global};

/// What is so of the trust anchor or the DS record with the number, by the keys of its zone. `is_ignored` tells whether its
/// DS RRset holds a stronger digest type.
pub fn voucher_facts(
    alloc: Global,
    keys: &ZoneKeys<'_>,
    number: EntryNumber,
    asked: Asked<'_>,
    is_ignored: bool,
) -> Result<VoucherFacts, AllocError>
    requires { IsTrue is_ignored ↔ IsIgnoredBeside (wanted_of asked) }
    ensures { IfOk result (λ facts. (rrsets : List ReceivedRrset) (zone : Labels) → AreKeysOfZone rrsets zone keys.now
        → AreVoucherFacts rrsets zone number (wanted_of asked.entry) facts) }
{
    match unusable_word(asked, is_ignored) {
        Some(why) => Ok(VoucherFacts {
            number,
            why: Some(why),
            name: asked.key_name(),
            matches: Vec::new(alloc),
        }),
        None => usable_facts(alloc, keys, number, asked),
    }
}

/// What is so of one that can be used.
fn usable_facts(
    alloc: Global,
    keys: &ZoneKeys<'_>,
    number: EntryNumber,
    asked: Asked<'_>,
) -> Result<VoucherFacts, AllocError>
    requires { IsUnusableWord (wanted_of asked) None }
    ensures { IfOk result (λ facts. (rrsets : List ReceivedRrset) (zone : Labels) → AreKeysOfZone rrsets zone keys.now
        → AreVoucherFacts rrsets zone number (wanted_of asked.entry) facts) }
{
    let name = asked.key_name();
    let tagged = keys.tagged(name.tag);
    let matches = matching_places(alloc, tagged, asked)?;
    let why = key_word(tagged, asked, &matches);
    Ok(VoucherFacts {
        number,
        why,
        name,
        matches,
    })
}

/// Why it can't be used, whatever keys the zone has.
fn unusable_word(asked: Asked<'_>, is_ignored: bool) -> Option<WhyEntry>
    requires { IsTrue is_ignored ↔ IsIgnoredBeside (wanted_of asked) }
    ensures { IsUnusableWord (wanted_of asked.entry) result }
{
    if !asked.key_name().algorithm.is_supported() {
        return Some(WhyEntry::Algorithm);
    }
    if asked.has_unknown_digest() {
        return Some(WhyEntry::DigestType);
    }
    if is_ignored {
        return Some(WhyEntry::DigestIgnored);
    }
    None
}

/// Why it matches none of the keys, of which it matches those with these places.
fn key_word(keys: &[DigestedKey<'_>], asked: Asked<'_>, matches: &[usize]) -> Option<WhyEntry>
    requires { ArePlacesOf keys.now (IsMatchOf (wanted_of asked)) matches.now }
    ensures { IsKeyWord keys.now (wanted_of asked.entry) result }
{
    if !matches.is_empty() {
        return None;
    }
    if has_wanted(keys, asked) {
        return Some(WhyEntry::DigestDiffers);
    }
    if has_tagged(keys, asked) {
        return Some(WhyEntry::KeyAlgorithm);
    }
    Some(WhyEntry::KeyMissing)
}

/// Whether one of the keys has its tag.
fn has_tagged(keys: &[DigestedKey<'_>], asked: Asked<'_>) -> bool
    ensures { IsTrue result ↔ HasAmong (HasTag (wanted_of asked.entry)) keys.now }
{
    keys.iter().any(|key| asked.has_tag(key.key()))
}

/// Whether one of the keys has its tag and its algorithm.
fn has_wanted(keys: &[DigestedKey<'_>], asked: Asked<'_>) -> bool
    ensures { IsTrue result ↔ HasAmong (IsWantedBy (wanted_of asked.entry)) keys.now }
{
    keys.iter().any(|key| asked.is_wanted(key.key()))
}

/// The places of those keys that it matches.
fn matching_places(
    alloc: Global,
    keys: &[DigestedKey<'_>],
    asked: Asked<'_>,
) -> Result<Vec<usize>, AllocError>
    ensures { IfOk result (λ places. ArePlacesOf keys.now (IsMatchOf (wanted_of asked.entry)) places.items) }
{
    let mut places = Vec::new(alloc);
    for key in keys {
        add_match(key, asked, &mut places)?;
    }
    places.sort_unstable();
    places.dedup();
    Ok(places)
}

/// Adds the place of the key, if it matches that.
fn add_match(
    key: &DigestedKey<'_>,
    asked: Asked<'_>,
    places: &mut Vec<usize>,
) -> Result<(), AllocError>
    ensures { OnOk result (GivesMore (IsPlaceOf (IsMatchOf (wanted_of asked.entry))) (λ placed. IsMatchOf (wanted_of asked.entry) placed.key)
        key.now places.old.items places.new.items) }
{
    if asked.is_match(key) {
        places.push(key.place())?;
    }
    Ok(())
}
