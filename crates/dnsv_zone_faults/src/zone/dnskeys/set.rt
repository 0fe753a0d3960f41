//! A DNSKEY RRset with what its facts are found by.
ghost use Rattle.std.specs.Prelude.{◌≡◌, Contains, IfOk};
ghost use Rattle.dnsv_records.specs.Dnskey.{IsDnskey};
ghost use Rattle.dnsv_zone_faults.specs.Dnskeys.DnskeySearch.{AreKeyed, AreKeysIn, IsKeyIn, IsKeyedSetFor, IsSetOf, IsSomeSet};

use crate::zone::dnskeys::own::own_signatures;
use crate::zone::dnskeys::tagged::OwnSignatures;
use crate::zone::keyed::{KeyedZone, find};
use dnsv_canonical::Rrset;
use dnsv_records::Dnskey;
use dnsv_rrsets::in_canonical_order;
use dnsv_verifier::KeyRecord;
use dnsv_zone_keys::PlacedKey;
use std::alloc::{AllocError, Global};

/// A DNSKEY RRset of a zone with its keys and its signatures.
#[derive(Drop)]
pub struct KeyedSet<'a> {
    pub keyed: &'a KeyedZone<'a>,
    /// Its number in the evidence.
    pub number: usize,
    pub rrset: &'a Rrset<'a>,
    /// Its keys in canonical order, with their places among those of the zone.
    pub keys: Vec<PlacedKey<'a>>,
    pub own: OwnSignatures<'a>,
}

/// The DNSKEY RRset of the zone, which has the number.
pub fn keyed_set<'a>(
    alloc: Global,
    keyed: &'a KeyedZone<'a>,
    number: usize,
    rrset: &'a Rrset<'a>,
) -> Result<KeyedSet<'a>, AllocError>
    requires keyed { AreKeyed keyed.now }
    requires set { IsSetOf keyed.now.facts.now.rrsets keyed.now.zone.now number rrset.now }
    ensures { IfOk result (IsKeyedSetFor keyed.now number rrset.now) }
{
    let keys = keys_in(alloc, keyed, rrset)?;
    let own = own_signatures(alloc, keyed, rrset, &keys)?;
    Ok(KeyedSet {
        keyed,
        number,
        rrset,
        keys,
        own,
    })
}

/// The keys in the DNSKEY RRset in canonical order.
fn keys_in<'a>(
    alloc: Global,
    keyed: &KeyedZone<'_>,
    rrset: &'a Rrset<'a>,
) -> Result<Vec<PlacedKey<'a>>, AllocError>
    requires keyed { AreKeyed keyed.now }
    requires set { IsSomeSet keyed.now.facts.now.rrsets keyed.now.zone.now rrset.now }
    ensures { IfOk result (λ keys. AreKeysIn keyed.now.facts.now.rrsets keyed.now.zone.now rrset.now keys.items) }
{
    let records = in_canonical_order(alloc, rrset, rrset.dnskeys())?;
    let mut keys = Vec::with_capacity(alloc, records.len())?;
    for each in &records {
        keys.push(key_in(keyed, rrset, each.rdata, each.record))?;
    }
    Ok(keys)
}

/// The key with the RDATA in the RRset.
fn key_in<'a>(
    keyed: &KeyedZone<'_>,
    rrset: &'a Rrset<'a>,
    rdata: &'a [u8],
    dnskey: &'a Dnskey<'a>,
) -> PlacedKey<'a>
    requires keyed { AreKeyed keyed.now }
    requires set { IsSomeSet keyed.now.facts.now.rrsets keyed.now.zone.now rrset.now }
    requires read { IsDnskey rdata.now dnskey.now }
    requires among { Contains rrset.now.rdata rdata.now }
    ensures is { IsKeyIn keyed.now.facts.now.rrsets keyed.now.zone.now rrset.now result }
    ensures rdata { result.key.rdata ≡ rdata.now }
{
    let key = KeyRecord::new(rrset.owner(), rdata, dnskey);
    match find(&keyed.keys, rdata) {
        Some(placed) => PlacedKey::new(placed.place(), key),
        None => PlacedKey::new(0, key),
    }
}
