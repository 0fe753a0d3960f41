//! What is kept of trust.
ghost use Rattle.std.specs.Prelude.{◌≡◌, IfOk, map};
ghost use Rattle.dnsv_verifier.specs.Table.{table_answer};
ghost use Rattle.dnsv_anchors.specs.ByOwner.{values_at};
ghost use Rattle.dnsv_chain.specs.Trust.{keys_among, keys_of, signed_of};
ghost use Rattle.dnsv_chain.specs.Kept.{AreDistinct, AreKeysOf, AreSigned, AreZones, IsKept};

use crate::by_rdata::ByRdata;
use crate::signing::answered::AnsweredRrset;
use crate::signing::{TrustedKeys, good_numbers};
use dnsv_names::Name;
use dnsv_records::Dnskey;
use dnsv_verifier::{KeyRecord, Table};
use std::alloc::{AllocError, Global};
use std::marker::Model;

/// A zone with its trusted keys.
#[derive(Drop)]
pub struct ZoneKeys<'c> {
    /// The owner of the keys.
    pub zone: Name,
    /// The keys, each once, in the order of their RDATA.
    pub keys: Vec<Dnskey<'c>>,
}

/// The trust that a capture gives, under the anchors and the answers that it was worked out with (RFC 4035 5).
/// Its keys stand in the capture.
#[derive(Drop)]
pub struct Trust<'c> {
    zones: Vec<ZoneKeys<'c>>,
    signed: Vec<Vec<usize>>,
}

impl<'c> Model for Trust<'c> {
    ghost use Rattle.std.specs.Prelude.{map};
    ghost use Rattle.dnsv_chain.specs.Trust.{KeptTrust};

    ghost Value = { KeptTrust };

    ghost view = { λ trust. record {
      zones = map (λ each. (each.zone, each.keys.items)) trust.zones.items;
      signed = map (λ numbers. numbers.items) trust.signed.items;
    } };
}

impl<'c> Trust<'c> {
    /// What the keys of the trusted RRsets make good.
    pub(crate) fn of(
        alloc: Global,
        table: &Table<'c>,
        keys: &TrustedKeys<'c>,
    ) -> Result<Trust<'c>, AllocError>
        ensures { IfOk result (IsKept (table_answer table.now) table.now.moment table.now.rrsets (values_at keys.now)) }
    {
        Ok(Trust {
            zones: keys_of_zones(alloc, keys)?,
            signed: good_numbers_of_each(alloc, table, keys)?,
        })
    }

    /// The keys of the zone's trusted DNSKEY RRsets, each once, in the order of their RDATA as unsigned octets: none
    /// where no such RRset is trusted (RFC 4035 5). It takes no memory.
    pub fn keys(&self, zone: &Name) -> &[Dnskey<'c>]
        ensures { result.now ≡ keys_of self.now zone.now }
    {
        keys_among(&self.zones, zone)
    }

    /// The numbers, from 1 on and rising, of those signatures of the RRset that are good under a key of a trusted
    /// DNSKEY RRset of their signer. RRsets are numbered from 1 on; none where no RRset has the number. It takes no
    /// memory.
    pub fn signed(&self, rrset: usize) -> &[usize]
        ensures { result.now ≡ signed_of self.now rrset }
    {
        if rrset == 0 || rrset > self.signed.len() {
            return &[];
        }
        &self.signed[rrset - 1]
    }
}

/// The keys that are listed for the zone. Few zones are asked for, so a scan does.
fn keys_among<'t, 'c>(zones: &'t [ZoneKeys<'c>], zone: &Name) -> &'t [Dnskey<'c>]
    ensures { result.now ≡ keys_among (map (λ each. (each.zone, each.keys.items)) zones.now) zone.now }
{
    for each in zones {
        if *zone == each.zone {
            return &each.keys;
        }
    }
    &[]
}

/// The keys of each zone.
fn keys_of_zones<'c>(alloc: Global, keys: &TrustedKeys<'c>) -> Result<Vec<ZoneKeys<'c>>, AllocError>
    ensures { IfOk result (λ zones. AreZones keys.now (map (λ each. (each.zone, each.keys.items)) zones.items)) }
{
    let mut zones = Vec::new(alloc);
    for (zone, records) in keys {
        zones.push(ZoneKeys {
            zone: zone.0.to_name(),
            keys: distinct_keys(alloc, records.as_slice())?,
        })?;
    }
    Ok(zones)
}

/// The keys of the records, each once, in the order of their RDATA.
fn distinct_keys<'c>(
    alloc: Global,
    records: &[KeyRecord<'c>],
) -> Result<Vec<Dnskey<'c>>, AllocError>
    ensures { IfOk result (λ keys. AreKeysOf records.now keys.items) }
{
    let distinct = distinct_records(alloc, records)?;
    Ok(copies(alloc, distinct.as_slice())?)
}

/// The records, of each RDATA one, in the order of RDATA.
fn distinct_records<'c>(
    alloc: Global,
    records: &[KeyRecord<'c>],
) -> Result<Vec<ByRdata<'c>>, AllocError>
    ensures { IfOk result (λ distinct. AreDistinct records.now distinct.items) }
{
    let mut distinct = Vec::new(alloc);
    for record in records {
        distinct.push(ByRdata::of(record))?;
    }
    distinct.sort_unstable();
    distinct.dedup();
    Ok(distinct)
}

/// The keys, which stand where they stood.
fn copies<'c>(alloc: Global, keys: &[ByRdata<'c>]) -> Result<Vec<Dnskey<'c>>, AllocError>
    ensures { IfOk result (λ copies. copies.items ≡ map (λ key. key.1) keys.now) }
{
    let mut copies = Vec::new(alloc);
    for key in keys {
        copies.push(key.to_dnskey())?;
    }
    Ok(copies)
}

/// For each RRset the numbers of its good signatures.
fn good_numbers_of_each<'a>(
    alloc: Global,
    table: &Table<'a>,
    keys: &TrustedKeys<'a>,
) -> Result<Vec<Vec<usize>>, AllocError>
    ensures { IfOk result (λ signed. AreSigned (table_answer table.now) table.now.moment table.now.rrsets
        (values_at keys.now) (map (λ numbers. numbers.items) signed.items)) }
{
    let rrsets = table.capture().rrsets();
    let mut signed = Vec::with_capacity(alloc, rrsets.len())?;
    for (place, rrset) in rrsets.iter().enumerate() {
        let number = place + 1;
        let set = AnsweredRrset {
            rrset,
            number,
            table,
        };
        signed.push(good_numbers(alloc, &set, keys)?)?;
    }
    Ok(signed)
}
