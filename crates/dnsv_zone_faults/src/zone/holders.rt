//! What is so of the keys of a zone, by the DNSKEY RRsets that hold them.
ghost use Rattle.std.specs.Prelude.{◌↔◌, IfOk, IsSortedByKey, IsTrue, List, OnOk};
ghost use Rattle.std.specs.Ordering.{nat_cmp};
ghost use Rattle.dnsv_mending.specs.declared.facts.keys.DnskeyFacts.{DnskeyFacts};
ghost use Rattle.dnsv_verifier.specs.Asking.{AddsJust};
ghost use Rattle.dnsv_zone_faults.specs.Zones.HolderSearch.{AreHolders, AreHoldersOf, AreHoldersOfEach, AreHoldings, AreOfKey, HasTrusted, IsHoldingOf, key_of};

use dnsv_mending::{DnskeyFacts, ZoneKey};
use std::alloc::{AllocError, Global};

/// That a DNSKEY RRset holds a key: their places among those of the zone.
#[derive(Clone, Copy)]
pub struct Holding {
    pub key: usize,
    pub holder: usize,
    /// Whether the RRset is trusted.
    pub is_trusted: bool,
}

/// What is so of the keys of a zone, of which there are so many, by its DNSKEY RRsets.
pub fn zone_key_facts(
    alloc: Global,
    count: usize,
    dnskeys: &[DnskeyFacts],
) -> Result<Vec<ZoneKey>, AllocError>
    ensures { IfOk result (λ keys. AreHoldersOfEach dnskeys.now count keys.items) }
{
    let holdings = holdings(alloc, dnskeys)?;
    let mut keys = Vec::with_capacity(alloc, count)?;
    for place in 0..count {
        keys.push(zone_key(alloc, &holdings, place)?)?;
    }
    Ok(keys)
}

/// Which of the DNSKEY RRsets holds which key, by the places of the keys.
fn holdings(alloc: Global, dnskeys: &[DnskeyFacts]) -> Result<Vec<Holding>, AllocError>
    ensures { IfOk result (λ holdings. AreHoldings dnskeys.now holdings.items) }
{
    let mut holdings = Vec::new(alloc);
    for (holder, dnskey) in dnskeys.iter().enumerate() {
        add_holdings(holder, dnskey, &mut holdings)?;
    }
    holdings.sort_unstable_by(|a, b| a.key.cmp(&b.key));
    Ok(holdings)
}

/// Adds that the RRset with the place holds its keys.
fn add_holdings(
    holder: usize,
    dnskey: &DnskeyFacts,
    holdings: &mut Vec<Holding>,
) -> Result<(), AllocError>
    ensures { OnOk result (AddsJust (IsHoldingOf holder dnskey.now) holdings.old.items holdings.new.items) }
{
    for held in &dnskey.keys {
        holdings.push(Holding {
            key: held.key,
            holder,
            is_trusted: dnskey.is_trusted,
        })?;
    }
    Ok(())
}

/// What is so of the key with the place.
fn zone_key(alloc: Global, holdings: &[Holding], place: usize) -> Result<ZoneKey, AllocError>
    requires { IsSortedByKey key_of nat_cmp holdings.now }
    ensures { IfOk result (λ key. (dnskeys : List DnskeyFacts) → AreHoldings dnskeys holdings.now → AreHolders dnskeys place key) }
{
    let own = of_key(holdings, place);
    Ok(ZoneKey {
        is_trusted: has_trusted(own),
        holders: holders_of(alloc, own)?,
    })
}

/// Those of the key with the place.
fn of_key(holdings: &[Holding], place: usize) -> &[Holding]
    requires { IsSortedByKey key_of nat_cmp holdings.now }
    ensures { AreOfKey holdings.now place result.now }
{
    let start = holdings.partition_point(|each| each.key < place);
    let holdings = &holdings[start..];
    let count = holdings.partition_point(|each| each.key <= place);
    &holdings[..count]
}

/// Whether one of them is of a trusted RRset.
fn has_trusted(own: &[Holding]) -> bool
    ensures { IsTrue result ↔ HasTrusted own.now }
{
    own.iter().any(|each| each.is_trusted)
}

/// The places of their RRsets, rising.
fn holders_of(alloc: Global, own: &[Holding]) -> Result<Vec<usize>, AllocError>
    ensures { IfOk result (λ holders. AreHoldersOf own.now holders.items) }
{
    let mut holders = Vec::with_capacity(alloc, own.len())?;
    for each in own {
        holders.push(each.holder)?;
    }
    holders.sort_unstable();
    holders.dedup();
    Ok(holders)
}
