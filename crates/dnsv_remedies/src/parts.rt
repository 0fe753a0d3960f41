//! Parts of a proof: that one of the RRsets of some records is signed by a zone that is taken as trusted.
ghost use Rattle.std.specs.Prelude.{◌≡◌, IfOk, OnOk, map, flat_map};
ghost use Rattle.std.specs.Option.{option_map};
ghost use Rattle.dnsv_mending.specs.Level.{seen_level};
ghost use Rattle.dnsv_mending.specs.Mend as mending;
ghost use Rattle.dnsv_remedies.specs.Parts.{or_missing, part, part_of_one, within_kept, zone_kept};
ghost use Rattle.dnsv_mending.specs.declared.price.Class.TheVariants as class;
ghost use Rattle.dnsv_remedies.specs.Remedy as remedies;
ghost use Rattle.dnsv_remedies.specs.Remedy.{seen};

use crate::remedy::{Remedy, missing, whole};
use crate::said::Said;
use dnsv_mending::{Class, Level, Mend, RrsetFacts, offer, within_mend};
use std::alloc::{AllocError, Global};

/// The part that records give by their RRsets; `lines` tell that it is missing, where there are none.
pub fn part(
    alloc: Global,
    levels: &[Level],
    zone: usize,
    rrsets: &[RrsetFacts],
    lines: &[Said],
) -> Result<Remedy, AllocError>
    ensures { IfOk result (λ m. seen m ≡ part (map seen_level levels.now) zone rrsets.now lines.now) }
{
    let mut best = None;
    offer_each(alloc, levels, zone, rrsets, &mut best)?;
    or_missing(alloc, &best, lines)
}

/// The part that one record gives by its RRset.
pub fn part_of_one(
    alloc: Global,
    levels: &[Level],
    zone: usize,
    rrset: &RrsetFacts,
) -> Result<Remedy, AllocError>
    ensures { IfOk result (λ m. seen m ≡ part_of_one (map seen_level levels.now) zone rrset.now) }
{
    let kept = within_mend(alloc, levels, zone, rrset)?;
    or_missing(alloc, &kept, &[])
}

/// What has to be mended, or else what is missing.
fn or_missing(alloc: Global, kept: &Option<Mend>, lines: &[Said]) -> Result<Remedy, AllocError>
    ensures { IfOk result (λ m. seen m ≡ or_missing (option_map mending.seen kept.now) (remedies.missing class.Lacking lines.now)) }
{
    match kept {
        Some(mend) => whole(alloc, mend),
        None => missing(alloc, Class::Lacking, lines),
    }
}

/// Offers each of the RRsets.
#[tactic(auto, using(crate::proofs::Lists::kept_next))]
fn offer_each(
    alloc: Global,
    levels: &[Level],
    zone: usize,
    rrsets: &[RrsetFacts],
    best: &mut Option<Mend>,
) -> Result<(), AllocError>
    ensures { OnOk result (mending.Offers (flat_map (within_kept (map seen_level levels.now) zone) rrsets.now) best.old best.new) }
{
    for rrset in rrsets {
        offer_one(alloc, levels, zone, rrset, best)?;
    }
    Ok(())
}

/// Offers one of them.
#[tactic(auto, unfolding(crate::specs::Parts::within_kept))]
fn offer_one(
    alloc: Global,
    levels: &[Level],
    zone: usize,
    rrset: &RrsetFacts,
    best: &mut Option<Mend>,
) -> Result<(), AllocError>
    ensures { OnOk result (mending.Offers (within_kept (map seen_level levels.now) zone rrset.now) best.old best.new) }
{
    if let Some(kept) = within_mend(alloc, levels, zone, rrset)? {
        offer(best, kept);
    }
    Ok(())
}

/// What has to be mended so that the zone with so many labels is trusted.
pub fn zone_kept(levels: &[Level], labels: usize) -> Option<&Mend>
    ensures { option_map (λ m. mending.seen m.now) result ≡ zone_kept (map seen_level levels.now) labels }
{
    match levels.get(labels) {
        Some(level) => level.zone.as_ref(),
        None => None,
    }
}
