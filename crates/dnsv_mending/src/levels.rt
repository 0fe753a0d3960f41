//! What has to be mended so that the zones are trusted, from the root down.
ghost use Rattle.std.specs.Prelude.{◌≡◌, ◌&&◌, IfOk, OnOk, map, flat_map};
ghost use Rattle.std.specs.List.{list_any};
ghost use Rattle.std.specs.Option.{option_map};
ghost use Rattle.dnsv_mending.specs.Level.{seen_key, seen_level};
ghost use Rattle.dnsv_mending.specs.Mend.{Offers, cheapest, seen};
ghost use Rattle.dnsv_mending.specs.Zone.{dnskey_mend, held, holder_ways, is_zone_trusted, level_of_sets, level_over, levels_of, zone_ways};
ghost use Rattle.dnsv_mending.specs.Zone.{seen_standing};

use crate::facts::keys::DnskeyFacts;
use crate::facts::zone::{ZoneFacts, ZoneKey};
use crate::level::{HeldMend, Level};
use crate::mend::{Mend, is_none, offer_after, offer_kept};
use crate::told::Told;
use crate::zone::{ZoneStanding, dnskey_mend, mend_at, offer_each, standing_of, unanchored};
use dnsv_lines::WhyZone;
use std::alloc::{AllocError, Global};

/// What is kept of the zones, from the root down, of which the last has the name that is asked for. `is_anchored` tells
/// whether a trust anchor is at or above that name.
#[tactic(auto, using(crate::proofs::Lists::levels_next))]
pub fn levels_of(
    alloc: Global,
    is_anchored: bool,
    zones: &[ZoneFacts],
) -> Result<Vec<Level>, AllocError>
    ensures { IfOk result (λ levels. map seen_level levels.items ≡ levels_of is_anchored zones.now) }
{
    let mut levels = Vec::with_capacity(alloc, zones.len())?;
    for zone in zones {
        let level = level_over(alloc, is_anchored, &levels, zone)?;
        levels.push(level)?;
    }
    Ok(levels)
}

/// What is kept of a zone, by what is kept of those above it.
#[tactic(auto, unfolding(crate::specs::Zone::level_over))]
fn level_over(
    alloc: Global,
    is_anchored: bool,
    levels: &[Level],
    zone: &ZoneFacts,
) -> Result<Level, AllocError>
    ensures { IfOk result (λ level. seen_level level ≡ level_over is_anchored (map seen_level levels.now) zone.now) }
{
    let standing = standing_of(alloc, is_anchored, levels, zone)?;
    let sets = sets_of(alloc, &standing, zone, &zone.dnskeys)?;
    level_of(alloc, &standing, zone, &sets)
}

/// For each of its DNSKEY RRsets, the least that has to be mended so that it is trusted.
#[tactic(auto, using(crate::proofs::Lists::made_next))]
fn sets_of(
    alloc: Global,
    standing: &ZoneStanding,
    zone: &ZoneFacts,
    rrsets: &[DnskeyFacts],
) -> Result<Vec<Option<Mend>>, AllocError>
    ensures { IfOk result (λ sets. map (option_map seen) sets.items
        ≡ map (dnskey_mend (seen_standing standing.now) zone.now) rrsets.now) }
{
    let mut sets = Vec::with_capacity(alloc, rrsets.len())?;
    for rrset in rrsets {
        sets.push(dnskey_mend(alloc, standing, zone, rrset)?)?;
    }
    Ok(sets)
}

/// What is kept of the zone, by its DNSKEY RRsets.
fn level_of(
    alloc: Global,
    standing: &ZoneStanding,
    zone: &ZoneFacts,
    sets: &[Option<Mend>],
) -> Result<Level, AllocError>
    ensures { IfOk result (λ level. seen_level level
        ≡ level_of_sets (seen_standing standing.now) zone.now (map (option_map seen) sets.now)) }
{
    Ok(Level {
        zone: zone_mend(alloc, standing, zone, sets)?,
        is_trusted: is_trusted(zone),
        leads: zone.is_known && zone.is_anchored,
        keys: held_keys(alloc, sets, &zone.keys)?,
    })
}

/// Whether one of its DNSKEY RRsets is trusted.
fn is_trusted(zone: &ZoneFacts) -> bool
    ensures { result ≡ is_zone_trusted zone.now }
{
    zone.dnskeys.iter().any(|rrset| rrset.is_trusted)
}

/// The least that has to be mended so that one of them is.
fn zone_mend(
    alloc: Global,
    standing: &ZoneStanding,
    zone: &ZoneFacts,
    sets: &[Option<Mend>],
) -> Result<Option<Mend>, AllocError>
    ensures { IfOk result (λ best. option_map seen best
        ≡ cheapest (zone_ways (seen_standing standing.now) zone.now (map (option_map seen) sets.now))) }
{
    if is_trusted(zone) {
        return Ok(Some(Mend::nothing(alloc)));
    }
    if !zone.is_anchored {
        return Ok(Some(unanchored(alloc, standing)?));
    }
    let mut best = None;
    if is_none(&zone.dnskeys) {
        let own = Mend::fault(alloc, Told::Zone(WhyZone::DnskeyMissing, standing.labels))?;
        offer_after(alloc, standing.lead.as_ref(), &own, &mut best)?;
    } else {
        offer_each(alloc, sets, &mut best)?;
    }
    Ok(best)
}

/// What is kept of the keys of a zone.
#[tactic(auto, using(crate::proofs::Lists::made_next))]
fn held_keys(
    alloc: Global,
    sets: &[Option<Mend>],
    keys: &[ZoneKey],
) -> Result<Vec<HeldMend>, AllocError>
    ensures { IfOk result (λ kept. map seen_key kept.items ≡ map (held (map (option_map seen) sets.now)) keys.now) }
{
    let mut kept = Vec::with_capacity(alloc, keys.len())?;
    for key in keys {
        kept.push(held_key(alloc, sets, key)?)?;
    }
    Ok(kept)
}

/// That of one of them.
#[tactic(auto, unfolding(crate::specs::Zone::held))]
fn held_key(alloc: Global, sets: &[Option<Mend>], key: &ZoneKey) -> Result<HeldMend, AllocError>
    ensures { IfOk result (λ kept. seen_key kept ≡ held (map (option_map seen) sets.now) key.now) }
{
    let mut best = None;
    offer_holders(alloc, sets, &key.holders, &mut best)?;
    Ok(HeldMend {
        is_trusted: key.is_trusted,
        mend: best,
    })
}

/// Offers the DNSKEY RRsets with these places.
#[tactic(auto, using(crate::proofs::Lists::offered_next))]
fn offer_holders(
    alloc: Global,
    sets: &[Option<Mend>],
    places: &[usize],
    best: &mut Option<Mend>,
) -> Result<(), AllocError>
    ensures { OnOk result (Offers (flat_map (holder_ways (map (option_map seen) sets.now)) places.now) best.old best.new) }
{
    for place in places {
        offer_holder(alloc, sets, *place, best)?;
    }
    Ok(())
}

/// Offers that with the place.
#[tactic(auto, unfolding(crate::specs::Zone::holder_ways))]
fn offer_holder(
    alloc: Global,
    sets: &[Option<Mend>],
    place: usize,
    best: &mut Option<Mend>,
) -> Result<(), AllocError>
    ensures { OnOk result (Offers (holder_ways (map (option_map seen) sets.now) place) best.old best.new) }
{
    offer_kept(alloc, mend_at(sets, place), best)
}
