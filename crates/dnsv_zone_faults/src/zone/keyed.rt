//! A zone with what its DNSKEY RRsets are found by.
ghost use Rattle.std.specs.Prelude.{◌≡◌, ◌≢◌, Contains, IfOk, IsPermutation, IsSortedByKey, MatchOption};
ghost use Rattle.dnsv_canonical.specs.Canonical.{rdata_cmp};
ghost use Rattle.dnsv_chain.specs.Basis.{basis_by};
ghost use Rattle.dnsv_zone_faults.specs.Dnskeys.DnskeySearch.{IsKeyedFor, rdata_of};
ghost use Rattle.dnsv_zone_faults.specs.Groups.{AreAllDsFacts, AreAnchorFacts};
ghost use Rattle.dnsv_zone_keys.specs.Keys.Index.{Placed};

use crate::zone::places::Places;
use crate::zone::vouched::vouched_places;
use dnsv_faults::CaseFacts;
use dnsv_mending::{DsFacts, VoucherFacts};
use dnsv_names::Name;
use dnsv_zone_keys::{PlacedKey, zone_keys};
use std::alloc::{AllocError, Global};

/// A zone with its keys, and with which of them anchors and DS records vouch for.
#[derive(Drop)]
pub struct KeyedZone<'a> {
    /// The case that it is looked for in.
    pub facts: &'a CaseFacts<'a>,
    pub zone: &'a Name,
    /// Its keys with their places, by their RDATA.
    pub keys: Vec<PlacedKey<'a>>,
    /// The places of the keys that a trust anchor matches, or a record of a signed DS RRset.
    pub vouched: Places,
}

/// The zone with its keys, and with what its anchors and DS records vouch for.
pub fn keyed_zone<'a>(
    alloc: Global,
    facts: &'a CaseFacts<'a>,
    zone: &'a Name,
    anchors: &[VoucherFacts],
    ds: &[DsFacts],
) -> Result<KeyedZone<'a>, AllocError>
    requires anchors { AreAnchorFacts (basis_by facts.now) zone.now anchors.now }
    requires ds { AreAllDsFacts (basis_by facts.now) zone.now ds.now }
    ensures { IfOk result (IsKeyedFor facts.now zone.now) }
{
    let mut keys = zone_keys(alloc, facts.capture(), zone)?;
    put_in_order(&mut keys);
    Ok(KeyedZone {
        facts,
        zone,
        keys,
        vouched: vouched_places(alloc, anchors, ds)?,
    })
}

/// Puts the keys in the order of their RDATA.
fn put_in_order(keys: &mut Vec<PlacedKey<'_>>)
    ensures sorted { IsSortedByKey rdata_of rdata_cmp keys.new.items }
    ensures moved { IsPermutation keys.old.items keys.new.items }
{
    keys.sort_unstable_by(|a, b| a.key().rdata().cmp(b.key().rdata()));
}

/// The key with the RDATA among keys that stand by their RDATA.
pub fn find<'k, 'a>(keys: &'k [PlacedKey<'a>], rdata: &[u8]) -> Option<&'k PlacedKey<'a>>
    requires { IsSortedByKey rdata_of rdata_cmp keys.now }
    ensures { MatchOption result ((placed : Placed) → Contains keys.now placed → placed.key.rdata ≢ rdata.now)
        (λ found. Contains keys.now found.now × (found.now.key.rdata ≡ rdata.now)) }
{
    match keys.binary_search_by(|each| each.key().rdata().cmp(rdata)) {
        Ok(place) => Some(&keys[place]),
        Err(_) => None,
    }
}
