//! Which of the keys of a DNSKEY RRset a verifier calls a signature valid under.
ghost use Rattle.std.specs.Prelude.{◌≡◌, ◌↔◌, ◌+◌, ◌<◌, ◌≤◌, ℕ, List, IfOk, IsTrue, MatchOption, length, get_or, slice_index_or};
ghost use Rattle.dnsv_records.specs.declared.dnskey.Dnskey.{Dnskey};
ghost use Rattle.dnsv_records.specs.declared.rrsig.Rrsig.{Rrsig};
ghost use Rattle.dnsv_canonical.specs.Rrsets.{IsNumbered, ReceivedRrset};
ghost use Rattle.dnsv_verifier.specs.Admissible.{DnskeyRecord, IsGood, entry_over};
ghost use Rattle.dnsv_verifier.specs.Table.{table_answer};
ghost use Rattle.dnsv_verifier.specs.declared.answer.Answer.{Answer};
ghost use Rattle.dnsv_verifier.specs.declared.entry.Entry.{Entry};
ghost use Rattle.dnsv_chain.specs.Signing.{IsValidBy};
ghost use Rattle.dnsv_chain.specs.Trusted.{IsKeyOf};
ghost use Rattle.dnsv_derivations.specs.derivations.SignerSearch.{IsLowestValid, IsSignedOver, IsValidKey};

use crate::derivations::ways::kept::NewKey;
use crate::evidence::Evidence;
use dnsv_canonical::{Rrset, signed_data};
use dnsv_records::{Dnskey, Rrsig};
use dnsv_verifier::{Answer, KeyRecord, Table, Verifier, entry_over, is_verifiable, may_have_made};
use std::alloc::{AllocError, Global};
use std::cmp::Ordering;

/// What the signature of the RRset signs, if some key might verify it at the moment.
pub fn signed_octets(
    alloc: Global,
    evidence: &Evidence<'_>,
    rrset: &Rrset<'_>,
    rrsig: &Rrsig<'_>,
) -> Result<Option<Vec<u8>>, AllocError>
    ensures { IfOk result (λ octets. MatchOption octets
        ((key : DnskeyRecord) → ¬ IsGood (table_answer evidence.now.table) evidence.now.table.moment rrset.now rrsig.now key)
        (λ octets. IsSignedOver evidence.now.table.moment rrset.now rrsig.now octets.items)) }
{
    if !is_verifiable(evidence.moment(), rrset, rrsig) {
        return Ok(None);
    }
    Ok(signed_data(alloc, rrset, rrsig)?)
}

/// The lowest of the keys of the DNSKEY RRset that may have made the signature, and under which the table calls it valid
/// over the octets.
pub fn lowest_valid<'a>(
    table: &Table<'_>,
    rrsig: &Rrsig<'_>,
    octets: &[u8],
    set: &'a Rrset<'a>,
    keys: &[NewKey],
) -> Option<KeyRecord<'a>>
    requires { set.now.rtype ≡ 48 }
    ensures { IsLowestValid (table_answer table.now) rrsig.now octets.now set.now keys.now (length keys.now) result }
{
    let mut lowest = None;
    for key in keys {
        let found = valid_key(table, rrsig, octets, set, *key);
        lowest = lower(lowest, found);
    }
    lowest
}

/// The lower of two keys by RDATA, of equal ones the first.
fn lower<'a>(lowest: Option<KeyRecord<'a>>, found: Option<KeyRecord<'a>>) -> Option<KeyRecord<'a>>
    ensures { (meaning : Entry → Answer) (rrsig : Rrsig) (octets : List ℕ) (set : ReceivedRrset) (keys : List NewKey)
        (n : ℕ) (key : NewKey) → IsNumbered keys (n + 1) key → IsLowestValid meaning rrsig octets set keys n lowest.entry
        → IsValidKey meaning rrsig octets set key found.entry → IsLowestValid meaning rrsig octets set keys (n + 1) result }
{
    let Some(found) = found else {
        return lowest;
    };
    let Some(lowest) = lowest else {
        return Some(found);
    };
    match found.rdata().cmp(lowest.rdata()) {
        Ordering::Less => Some(found),
        Ordering::Equal => Some(lowest),
        Ordering::Greater => Some(lowest),
    }
}

/// The key of the DNSKEY RRset, if the signature names its tag, and the table calls it valid under the key.
fn valid_key<'a>(
    table: &Table<'_>,
    rrsig: &Rrsig<'_>,
    octets: &[u8],
    set: &'a Rrset<'a>,
    new: NewKey,
) -> Option<KeyRecord<'a>>
    requires { set.now.rtype ≡ 48 }
    ensures { IsValidKey (table_answer table.now) rrsig.now octets.now set.now new result }
{
    if new.tag.0 != rrsig.key_tag.0 {
        return None;
    }
    let Some(key) = key_at(set, new.place) else {
        return None;
    };
    if !is_valid(table, rrsig, octets, &key) {
        return None;
    }
    Some(key)
}

/// The key at the place of the DNSKEY RRset.
fn key_at<'a>(set: &'a Rrset<'a>, place: usize) -> Option<KeyRecord<'a>>
    requires { set.now.rtype ≡ 48 }
    ensures { MatchOption result (length set.now.rdata ≤ place)
        (λ key. IsKeyOf set.now key × (get_or set.now.rdata place key.rdata ≡ key.rdata)) }
{
    let keys = set.dnskeys();
    if place >= keys.len() {
        return None;
    }
    let dnskey = dnskey_at(keys, place);
    Some(KeyRecord::new(set.owner(), set.rdata(place), dnskey))
}

/// The key at the place.
fn dnskey_at<'a>(keys: &'a [Dnskey<'a>], place: usize) -> &'a Dnskey<'a>
    requires { place < length keys.now }
    ensures { (other : Dnskey) → slice_index_or keys.now place other ≡ result.now }
{
    &keys[place]
}

/// Whether the key may have made the signature, and the table says Valid of it over the octets.
fn is_valid(table: &Table<'_>, rrsig: &Rrsig<'_>, octets: &[u8], key: &KeyRecord<'_>) -> bool
    ensures { IsTrue result ↔ IsValidBy (table_answer table.now) rrsig.now octets.now key.now }
{
    may_have_made(key, rrsig) && says_valid(table, rrsig, octets, key)
}

/// Whether the table says Valid of the signature over the octets under the key.
fn says_valid(table: &Table<'_>, rrsig: &Rrsig<'_>, octets: &[u8], key: &KeyRecord<'_>) -> bool
    ensures { IsTrue result ↔ (table_answer table.now (entry_over rrsig.now octets.now key.now) ≡ Answer.Valid) }
{
    table.answer(&entry_over(rrsig, octets, key)) == Answer::Valid
}
