//! The keys of zones.

pub mod index;
pub mod placed;
pub mod standing;

ghost use Rattle.std.specs.Prelude.{◌≡◌, ◌↔◌, IfOk, IsTrue, map};
ghost use Rattle.std.specs.List.{AllByRecursion, enumerate_from};
ghost use Rattle.std.specs.Str.{bytes_eq};
ghost use Rattle.dnsv_canonical.specs.Rrsets.{first_appearances};
ghost use Rattle.dnsv_records.specs.Dnskey.{IsDnskey};
ghost use Rattle.dnsv_zone_keys.specs.Keys.{IsNamed, IsZoneKey};
ghost use Rattle.dnsv_zone_keys.specs.Keys.ZoneSearch.{AreKeysOf, IsOf};

use crate::keys::placed::PlacedKey;
use crate::keys::standing::standing_keys;
use dnsv_canonical::Capture;
use dnsv_names::Name;
use dnsv_records::{Dnskey, Rrsig};
use dnsv_rrsets::ReadRecord;
use dnsv_verifier::KeyRecord;
use std::alloc::{AllocError, Global};
use std::collections::BTreeSet;

/// The keys of the zone, each once, in the order in which they first stand in its DNSKEY RRsets.
pub fn zone_keys<'a>(
    alloc: Global,
    capture: &'a Capture<'a>,
    zone: &'a Name,
) -> Result<Vec<PlacedKey<'a>>, AllocError>
    ensures { IfOk result (λ keys. AreKeysOf capture.now.rrsets zone.now keys.items) }
{
    let standing = standing_keys(alloc, capture, zone)?;
    Ok(each_once(alloc, zone, &standing)?)
}

/// The records of the owner, of those with the same RDATA the first.
fn each_once<'a>(
    alloc: Global,
    owner: &'a Name,
    standing: &[ReadRecord<'a, Dnskey<'a>>],
) -> Result<Vec<PlacedKey<'a>>, AllocError>
    requires { AllByRecursion (λ each. IsDnskey each.rdata.now each.record.now) standing.now }
    ensures order { IfOk result (λ keys. map (λ placed. (placed.place, placed.key.rdata)) keys.items
        ≡ enumerate_from 0 (first_appearances bytes_eq (map (λ each. each.rdata.now) standing.now))) }
    ensures each { IfOk result (λ keys. AllByRecursion (IsOf owner.now) keys.items) }
{
    let mut keys = Vec::new(alloc);
    let mut seen = BTreeSet::new(alloc);
    for each in standing {
        if !seen.insert(each.rdata)? {
            continue;
        }
        let key = KeyRecord::new(owner, each.rdata, each.record);
        keys.push(PlacedKey::new(keys.len(), key))?;
    }
    Ok(keys)
}

/// Whether the signature names the key by its tag and its algorithm (RFC 4034 3.1).
pub fn is_named(key: &KeyRecord<'_>, rrsig: &Rrsig<'_>) -> bool
    ensures { IsTrue result ↔ IsNamed rrsig.now key.now }
{
    key.key_tag().0 == rrsig.key_tag.0 && key.dnskey().algorithm.0 == rrsig.algorithm.0
}

/// Whether a zone may sign with the key (RFC 4034 2.1.1, 2.1.2).
pub fn is_zone_key(key: &KeyRecord<'_>) -> bool
    ensures { IsTrue result ↔ IsZoneKey key.now }
{
    let dnskey = key.dnskey();
    dnskey.protocol == 3 && dnskey.flags.is_zone_key()
}
