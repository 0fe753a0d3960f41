//! Numbers of what is asked of a verifier.
ghost use Rattle.std.specs.Prelude.{◌↔◌, ◌≡◌, [], IfOk, IsTrue};
ghost use Rattle.std.specs.Option.{option_map_or};
ghost use Rattle.dnsv_verifier.specs.Admissible.{IsEntryOf, entry_over};
ghost use Rattle.dnsv_verifier.specs.Entry.{entry_cmp};
ghost use Rattle.dnsv_verifier.specs.declared.entry.Entry.{Entry};
ghost use Rattle.dnsv_derivations.specs.Explained.{IsTodo};
ghost use Rattle.dnsv_derivations.specs.Rising.{AreRising};

use dnsv_canonical::{Rrset, signed_data};
use dnsv_records::Rrsig;
use dnsv_verifier::{Entries, Entry, KeyRecord, SignedData, entry_over};
use std::alloc::{AllocError, Global};
use std::cmp::Ordering;

/// Whether there are no entries, or they rise.
pub fn do_rise(entries: Option<&Entries<'_>>) -> bool
    ensures { IsTrue result ↔ AreRising (option_map_or (λ entries. entries.now) entries.entry []) }
{
    match entries {
        Some(entries) => are_rising(entries),
        None => true,
    }
}

/// Whether each entry is less than the one behind it.
fn are_rising(entries: &Entries<'_>) -> bool
    ensures { IsTrue result ↔ AreRising entries.now }
{
    for place in 1..entries.len() {
        if !is_less(&entries.at(place - 1), &entries.at(place)) {
            return false;
        }
    }
    true
}

/// Whether the first entry is less than the second.
fn is_less(first: &Entry<'_>, second: &Entry<'_>) -> bool
    ensures { IsTrue result ↔ (entry_cmp first.now second.now ≡ Ordering.Less) }
{
    match first.cmp(second) {
        Ordering::Less => true,
        Ordering::Equal => false,
        Ordering::Greater => false,
    }
}

/// The number among the entries of what is asked of the signature of the RRset under the key, which may be used for it.
/// It is looked up by halves where the entries are known to rise.
pub fn number_among(
    alloc: Global,
    entries: &Entries<'_>,
    rises: bool,
    rrset: &Rrset<'_>,
    rrsig: &Rrsig<'_>,
    key: &KeyRecord<'_>,
) -> Result<Option<usize>, AllocError>
    requires { (are : IsTrue rises) → AreRising entries.now }
    ensures { IfOk result (λ number. (entry : Entry) → IsEntryOf rrset.now rrsig.now key.now entry
        → IsTodo entries.now entry number) }
{
    let Some(octets) = signed_data(alloc, rrset, rrsig)? else {
        return Ok(None);
    };
    if rises {
        return Ok(number_by_halves(entries, &entry_over(rrsig, octets.as_slice(), key)));
    }
    Ok(number_of(entries, rrsig, octets.as_slice(), key))
}

/// The number of the entry among the entries, which rise.
fn number_by_halves(entries: &Entries<'_>, wanted: &Entry<'_>) -> Option<usize>
    requires { AreRising entries.now }
    ensures { IsTodo entries.now wanted.now result }
{
    let mut low = 0;
    let mut high = entries.len();
    while low < high {
        let middle = low + (high - low) / 2;
        match entries.at(middle).cmp(wanted) {
            Ordering::Less => low = middle + 1,
            Ordering::Greater => high = middle,
            Ordering::Equal => return Some(middle + 1),
        }
    }
    None
}

/// The number of the entry of the signature over the octets under the key.
fn number_of(
    entries: &Entries<'_>,
    rrsig: &Rrsig<'_>,
    octets: &[u8],
    key: &KeyRecord<'_>,
) -> Option<usize>
    ensures { IsTodo entries.now (entry_over rrsig.now octets.now key.now) result }
{
    for place in 0..entries.len() {
        if is_entry(&entries.at(place), rrsig, octets, key) {
            return Some(place + 1);
        }
    }
    None
}

/// Whether the entry is that of the signature over the octets under the key.
fn is_entry(entry: &Entry<'_>, rrsig: &Rrsig<'_>, octets: &[u8], key: &KeyRecord<'_>) -> bool
    ensures { IsTrue result ↔ ((entry.now.algorithm.0 ≡ rrsig.now.algorithm.0) × (entry.now.key ≡ key.now.dnskey.key)
        × (entry.now.signed_data ≡ octets.now) × (entry.now.signature ≡ rrsig.now.signature)) }
{
    entry.algorithm.0 == rrsig.algorithm.0
        && entry.key.as_slice() == key.dnskey().key.as_slice()
        && entry.signed_data == SignedData::of(octets)
        && entry.signature.as_slice() == rrsig.signature.as_slice()
}
