//! What has to be mended so that a zone is trusted.
ghost use Rattle.std.specs.Prelude.{◌≡◌, ◌||◌, Bool, IfOk, OnOk, map, flat_map, length};
ghost use Rattle.std.specs.List.{list_any};
ghost use Rattle.std.specs.Option.{option_map};
ghost use Rattle.dnsv_mending.specs.Keys.{group_ways, seen_signing};
ghost use Rattle.dnsv_mending.specs.Level.{seen_level};
ghost use Rattle.dnsv_mending.specs.Level.{zone_above};
ghost use Rattle.dnsv_mending.specs.Mend as mend;
ghost use Rattle.dnsv_mending.specs.Mend.{Offers, cheapest, seen};
ghost use Rattle.dnsv_mending.specs.Zone.{anchor_ways, anchored_ways, chain_of, dnskey_mend, ds_ways, has_none, is_fitted, is_vouched, kept_ways, lead_ways, mend_at, not_vouched, standing_of, unanchored, unvouched_ways};
ghost use Rattle.dnsv_mending.specs.Zone.{seen_standing};

use crate::facts::keys::{DnskeyFacts, VoucherFacts};
use crate::facts::zone::{DsFacts, ZoneFacts};
use crate::keys::{SigningKey, fits_one, offer_group, signing_keys};
use crate::level::{Level, zone_above};
use crate::mend::{Mend, is_none, offer, offer_after, offer_joined, offer_kept};
use crate::rrset::rrset_mend;
use crate::told::Told;
use dnsv_lines::WhyZone;
use std::alloc::{AllocError, Global};

/// What a zone stands on.
#[derive(Drop)]
pub struct ZoneStanding {
    /// How many labels it has.
    pub labels: usize,
    /// Whether a trust anchor is at or above the name that is asked for.
    pub is_anchored: bool,
    /// What leads into it: an anchor, or a signed DS RRset; where it has neither, the zone above.
    pub lead: Option<Mend>,
    /// For each DS RRset of it, the least that has to be mended so that it is signed.
    pub chains: Vec<Option<Mend>>,
}

/// What the zone stands on, by what is kept of those above it.
pub fn standing_of(
    alloc: Global,
    is_anchored: bool,
    levels: &[Level],
    zone: &ZoneFacts,
) -> Result<ZoneStanding, AllocError>
    ensures { IfOk result (λ standing. seen_standing standing ≡ standing_of is_anchored (map seen_level levels.now) zone.now) }
{
    let nothing = Mend::nothing(alloc);
    let above = zone_above(levels, &nothing);
    let chains = chains_of(alloc, levels, above, &zone.ds)?;
    let lead = lead_of(alloc, levels, above, zone, &chains)?;
    Ok(ZoneStanding {
        labels: levels.len(),
        is_anchored,
        lead,
        chains,
    })
}

/// For each of the DS RRsets, the least that has to be mended so that it is signed.
#[tactic(auto, using(crate::proofs::Lists::made_next))]
fn chains_of(
    alloc: Global,
    levels: &[Level],
    above: Option<&Mend>,
    ds: &[DsFacts],
) -> Result<Vec<Option<Mend>>, AllocError>
    requires { option_map (λ m. seen m.now) above ≡ zone_above (map seen_level levels.now) }
    ensures { IfOk result (λ chains. map (option_map seen) chains.items ≡ map (chain_of (map seen_level levels.now)) ds.now) }
{
    let mut chains = Vec::with_capacity(alloc, ds.len())?;
    for each in ds {
        chains.push(chain_of(alloc, levels, above, each)?)?;
    }
    Ok(chains)
}

/// That of one of them.
#[tactic(auto, unfolding(crate::specs::Zone::chain_of))]
fn chain_of(
    alloc: Global,
    levels: &[Level],
    above: Option<&Mend>,
    ds: &DsFacts,
) -> Result<Option<Mend>, AllocError>
    requires { option_map (λ m. seen m.now) above ≡ zone_above (map seen_level levels.now) }
    ensures { IfOk result (λ chain. option_map seen chain ≡ chain_of (map seen_level levels.now) ds.now) }
{
    rrset_mend(alloc, levels, above, &ds.rrset)
}

/// Whether the zone has no trust anchor and no DS RRset of its own.
fn has_none(zone: &ZoneFacts) -> bool
    ensures { result ≡ has_none zone.now }
{
    is_none(&zone.anchors) && is_none(&zone.ds)
}

/// What leads into the zone.
#[tactic(auto, using(crate::proofs::Lists::offered_both))]
fn lead_of(
    alloc: Global,
    levels: &[Level],
    above: Option<&Mend>,
    zone: &ZoneFacts,
    chains: &[Option<Mend>],
) -> Result<Option<Mend>, AllocError>
    requires { option_map (λ m. seen m.now) above ≡ zone_above (map seen_level levels.now) }
    ensures { IfOk result (λ lead. option_map seen lead ≡ cheapest (lead_ways (length levels.now) (map seen_level levels.now)
        zone.now (map (option_map seen) chains.now))) }
{
    let mut best = None;
    if has_none(zone) {
        let own = Mend::fault(alloc, Told::Zone(WhyZone::DsMissing, levels.len()))?;
        offer_after(alloc, above, &own, &mut best)?;
        return Ok(best);
    }
    offer_anchors(alloc, &zone.anchors, &mut best);
    offer_each(alloc, chains, &mut best)?;
    Ok(best)
}

/// Offers nothing for each of the anchors.
#[tactic(auto, using(crate::proofs::Lists::offered_next), unfolding(crate::specs::Zone::anchor_ways))]
fn offer_anchors(alloc: Global, anchors: &[VoucherFacts], best: &mut Option<Mend>)
    ensures { Offers (flat_map anchor_ways anchors.now) best.old best.new }
{
    for _anchor in anchors {
        offer(best, Mend::nothing(alloc));
    }
}

/// Offers each of what is kept.
#[tactic(auto, using(crate::proofs::Lists::offered_mapped), unfolding(crate::specs::Zone::kept_ways))]
pub fn offer_each(
    alloc: Global,
    kept: &[Option<Mend>],
    best: &mut Option<Mend>,
) -> Result<(), AllocError>
    ensures { OnOk result (Offers (flat_map kept_ways (map (option_map seen) kept.now)) best.old best.new) }
{
    for each in kept {
        offer_kept(alloc, each.as_ref(), best)?;
    }
    Ok(())
}

/// That no trust anchor is at or above the zone.
pub fn unanchored(alloc: Global, standing: &ZoneStanding) -> Result<Mend, AllocError>
    ensures { IfOk result (λ m. seen m ≡ unanchored (seen_standing standing.now)) }
{
    if standing.is_anchored {
        Mend::fault(alloc, Told::Zone(WhyZone::NoAnchor, standing.labels))
    } else {
        Ok(Mend::nothing(alloc))
    }
}

/// Whether one of the anchors or DS records fits one of the keys.
fn is_fitted(vouchers: &[VoucherFacts], keys: &[SigningKey]) -> bool
    ensures { result ≡ is_fitted vouchers.now (map seen_signing keys.now) }
{
    vouchers.iter().any(|voucher| fits_one(voucher, keys))
}

/// Whether one of the zone's does.
fn is_vouched(zone: &ZoneFacts, keys: &[SigningKey]) -> bool
    ensures { result ≡ is_vouched zone.now (map seen_signing keys.now) }
{
    is_fitted(&zone.anchors, keys) || is_one_fitted(&zone.ds, keys)
}

/// Whether a record of one of the DS RRsets does.
fn is_one_fitted(ds: &[DsFacts], keys: &[SigningKey]) -> bool
    ensures { result ≡ list_any (λ each. is_fitted each.records.items (map seen_signing keys.now)) ds.now }
{
    ds.iter().any(|each| is_fitted(&each.records, keys))
}

/// The least that has to be mended so that the DNSKEY RRset of the zone is trusted.
#[tactic(auto, unfolding(crate::specs::Zone::dnskey_mend))]
pub fn dnskey_mend(
    alloc: Global,
    standing: &ZoneStanding,
    zone: &ZoneFacts,
    rrset: &DnskeyFacts,
) -> Result<Option<Mend>, AllocError>
    ensures { IfOk result (λ best. option_map seen best ≡ dnskey_mend (seen_standing standing.now) zone.now rrset.now) }
{
    if rrset.is_trusted {
        return Ok(Some(Mend::nothing(alloc)));
    }
    if !zone.is_anchored {
        return Ok(Some(unanchored(alloc, standing)?));
    }
    let keys = signing_keys(alloc, rrset)?;
    let mut best = None;
    offer_anchored(alloc, standing, zone, rrset, &keys, &mut best)?;
    Ok(best)
}

/// Offers the ways to a DNSKEY RRset of a zone that has an anchor at or above it.
#[tactic(auto, using(crate::proofs::Lists::offered_both))]
fn offer_anchored(
    alloc: Global,
    standing: &ZoneStanding,
    zone: &ZoneFacts,
    rrset: &DnskeyFacts,
    keys: &[SigningKey],
    best: &mut Option<Mend>,
) -> Result<(), AllocError>
    ensures { OnOk result (Offers (anchored_ways (seen_standing standing.now) zone.now rrset.now (map seen_signing keys.now))
        best.old best.new) }
{
    if !is_vouched(zone, keys) {
        let why = not_vouched(zone, rrset);
        return offer_unvouched(alloc, standing.lead.as_ref(), why, keys, best);
    }
    let nothing = Mend::nothing(alloc);
    offer_group(alloc, Some(&nothing), keys, &zone.anchors, best)?;
    offer_ds(alloc, keys, &standing.chains, &zone.ds, best)
}

/// What is reported of it where no anchor and no DS record fits a key in it, though there are some.
fn not_vouched(zone: &ZoneFacts, rrset: &DnskeyFacts) -> Option<Told>
    ensures { result ≡ not_vouched zone.now rrset.now }
{
    if has_none(zone) {
        None
    } else {
        Some(Told::NotVouched(rrset.number))
    }
}

/// Offers the ways by the keys in it, where no anchor and no DS record fits one.
#[tactic(auto, using(crate::proofs::Lists::offered_mapped), unfolding(crate::specs::Zone::unvouched_ways))]
fn offer_unvouched(
    alloc: Global,
    lead: Option<&Mend>,
    why: Option<Told>,
    keys: &[SigningKey],
    best: &mut Option<Mend>,
) -> Result<(), AllocError>
    ensures { OnOk result (Offers (flat_map (unvouched_ways (option_map (λ m. seen m.now) lead.entry) why)
        (map seen_signing keys.now)) best.old best.new) }
{
    for key in keys {
        offer_joined(alloc, lead, why, key.mend.as_ref(), best)?;
    }
    Ok(())
}

/// Offers the ways by the records of each DS RRset, which stands on its chain.
fn offer_ds(
    alloc: Global,
    keys: &[SigningKey],
    chains: &[Option<Mend>],
    ds: &[DsFacts],
    best: &mut Option<Mend>,
) -> Result<(), AllocError>
    ensures { OnOk result (Offers (ds_ways (map seen_signing keys.now) (map (option_map seen) chains.now) 0 ds.now)
        best.old best.new) }
{
    for (place, each) in ds.iter().enumerate() {
        offer_records(alloc, keys, chains, place, each, best)?;
    }
    Ok(())
}

/// Offers those by the records of the DS RRset, which stands on the chain with the place.
fn offer_records(
    alloc: Global,
    keys: &[SigningKey],
    chains: &[Option<Mend>],
    place: usize,
    ds: &DsFacts,
    best: &mut Option<Mend>,
) -> Result<(), AllocError>
    ensures { OnOk result (Offers (group_ways (mend_at (map (option_map seen) chains.now) place) (map seen_signing keys.now)
        ds.now.records.items) best.old best.new) }
{
    offer_group(alloc, mend_at(chains, place), keys, &ds.records, best)
}

/// What is kept at the place; `None` where nothing is.
pub fn mend_at(kept: &[Option<Mend>], place: usize) -> Option<&Mend>
    ensures { option_map (λ m. seen m.now) result ≡ mend_at (map (option_map seen) kept.now) place }
{
    match kept.get(place) {
        Some(mend) => mend.as_ref(),
        None => None,
    }
}
