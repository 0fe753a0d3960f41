//! What has to be mended so that a name is shown to be an unsigned delegation.
ghost use Rattle.std.specs.Prelude.{◌≡◌, IfOk, OnOk, map, flat_map};
ghost use Rattle.std.specs.List.{list_any};
ghost use Rattle.std.specs.Option.{option_map};
ghost use Rattle.dnsv_mending.specs.Level.{seen_level};
ghost use Rattle.dnsv_remedies.specs.Cuts.{cut_least, cut_remedy, cut_source_ways, cut_ways, is_proving, is_way, opt_out_remedy, parent_ways, signed_remedy, source_remedy};
ghost use Rattle.dnsv_remedies.specs.Remedy.{Offers, seen};

use crate::facts::cut::{CutCase, CutFacts, CutSource, OptOutFacts, ParentFacts, SignedCutFacts};
use crate::facts::name::{AskedName, CutNumber, SourceNumber};
use crate::parts::{part, part_of_one, zone_kept};
use crate::remedy::{
    Remedy, both, end_with, gap, is_none, missing, offer, offer_after, put_in_front,
};
use crate::said::Said;
use dnsv_lines::{Role, WhySource};
use dnsv_mending::{Class, Level};
use std::alloc::{AllocError, Global};

/// Offers the names below each of the zones.
#[tactic(auto, using(crate::proofs::Lists::offered_next))]
pub fn offer_parents(
    alloc: Global,
    levels: &[Level],
    parents: &[ParentFacts],
    best: &mut Option<Remedy>,
) -> Result<(), AllocError>
    ensures { OnOk result (Offers (flat_map (parent_ways (map seen_level levels.now)) parents.now) best.old best.new) }
{
    for parent in parents {
        offer_parent(alloc, levels, parent, best)?;
    }
    Ok(())
}

/// Offers the names below one of them.
#[tactic(auto, unfolding(crate::specs::Cuts::parent_ways))]
fn offer_parent(
    alloc: Global,
    levels: &[Level],
    parent: &ParentFacts,
    best: &mut Option<Remedy>,
) -> Result<(), AllocError>
    ensures { OnOk result (Offers (parent_ways (map seen_level levels.now) parent.now) best.old best.new) }
{
    offer_cuts(alloc, levels, parent, &parent.cuts, best)
}

/// Offers each of the names.
#[tactic(auto, using(crate::proofs::Lists::offered_next))]
fn offer_cuts(
    alloc: Global,
    levels: &[Level],
    parent: &ParentFacts,
    cuts: &[CutFacts],
    best: &mut Option<Remedy>,
) -> Result<(), AllocError>
    ensures { OnOk result (Offers (flat_map (cut_ways (map seen_level levels.now) parent.now) cuts.now) best.old best.new) }
{
    for cut in cuts {
        offer_cut(alloc, levels, parent, cut, best)?;
    }
    Ok(())
}

/// Offers one of them, where it is a way.
#[tactic(auto, unfolding(crate::specs::Cuts::cut_ways))]
fn offer_cut(
    alloc: Global,
    levels: &[Level],
    parent: &ParentFacts,
    cut: &CutFacts,
    best: &mut Option<Remedy>,
) -> Result<(), AllocError>
    ensures { OnOk result (Offers (cut_ways (map seen_level levels.now) parent.now cut.now) best.old best.new) }
{
    if !is_way(alloc, levels, parent.labels, cut)? {
        return Ok(());
    }
    let Some(mut least) = cut_least(alloc, levels, parent.labels, cut)? else {
        return Ok(());
    };
    put_in_front(alloc, &parent.unusable, &mut least)?;
    let number = CutNumber {
        zone: parent.labels,
        name: cut.name,
    };
    end_with(&mut least, Said::DsUnproved(number))?;
    offer_after(alloc, zone_kept(levels, parent.labels), &least, best)
}

/// Whether the name is a way: the evidence shows a delegation there, or a source of the zone lacks nothing of it.
fn is_way(alloc: Global, levels: &[Level], zone: usize, cut: &CutFacts) -> Result<bool, AllocError>
    ensures { IfOk result (λ is. is ≡ is_way (map seen_level levels.now) zone cut.now) }
{
    if cut.is_shown {
        return Ok(true);
    }
    is_proved(alloc, levels, zone, cut.name, &cut.sources)
}

/// Whether one of the sources lacks nothing of the name with so many labels.
#[tactic(auto, using(crate::proofs::Lists::any_none, crate::proofs::Lists::any_some))]
fn is_proved(
    alloc: Global,
    levels: &[Level],
    zone: usize,
    name: usize,
    sources: &[CutSource],
) -> Result<bool, AllocError>
    ensures { IfOk result (λ is. is ≡ list_any (is_proving (map seen_level levels.now) zone name) sources.now) }
{
    for source in sources {
        if is_proving(alloc, levels, zone, name, source)? {
            return Ok(true);
        }
    }
    Ok(false)
}

/// Whether the source does.
#[tactic(auto, unfolding(crate::specs::Cuts::is_proving))]
fn is_proving(
    alloc: Global,
    levels: &[Level],
    zone: usize,
    name: usize,
    source: &CutSource,
) -> Result<bool, AllocError>
    ensures { IfOk result (λ is. is ≡ is_proving (map seen_level levels.now) zone name source.now) }
{
    match source_remedy(alloc, levels, zone, name, source)? {
        Some(lacking) => Ok(!lacking.lacks),
        None => Ok(false),
    }
}

/// The least that a source lacks; `None` where each says that there is no delegation.
fn cut_least(
    alloc: Global,
    levels: &[Level],
    zone: usize,
    cut: &CutFacts,
) -> Result<Option<Remedy>, AllocError>
    ensures { IfOk result (λ m. option_map seen m ≡ cut_least (map seen_level levels.now) zone cut.now) }
{
    if is_none(&cut.sources) {
        return Ok(Some(gap(alloc)));
    }
    let mut best = None;
    offer_sources(alloc, levels, zone, cut.name, &cut.sources, &mut best)?;
    Ok(best)
}

/// Offers what each of the sources lacks.
#[tactic(auto, using(crate::proofs::Lists::offered_next))]
fn offer_sources(
    alloc: Global,
    levels: &[Level],
    zone: usize,
    name: usize,
    sources: &[CutSource],
    best: &mut Option<Remedy>,
) -> Result<(), AllocError>
    ensures { OnOk result (Offers (flat_map (cut_source_ways (map seen_level levels.now) zone name) sources.now) best.old best.new) }
{
    for source in sources {
        offer_source(alloc, levels, zone, name, source, best)?;
    }
    Ok(())
}

/// Offers what one of them lacks.
#[tactic(auto, unfolding(crate::specs::Cuts::cut_source_ways))]
fn offer_source(
    alloc: Global,
    levels: &[Level],
    zone: usize,
    name: usize,
    source: &CutSource,
    best: &mut Option<Remedy>,
) -> Result<(), AllocError>
    ensures { OnOk result (Offers (cut_source_ways (map seen_level levels.now) zone name source.now) best.old best.new) }
{
    if let Some(lacking) = source_remedy(alloc, levels, zone, name, source)? {
        offer(best, lacking);
    }
    Ok(())
}

/// What the source lacks of the name; `None` where it says that there is no delegation.
fn source_remedy(
    alloc: Global,
    levels: &[Level],
    zone: usize,
    name: usize,
    source: &CutSource,
) -> Result<Option<Remedy>, AllocError>
    ensures { IfOk result (λ m. option_map seen m ≡ source_remedy (map seen_level levels.now) zone name source.now) }
{
    let number = SourceNumber {
        zone,
        place: source.place,
    };
    cut_remedy(alloc, levels, number, name, &source.case)
}

/// The same, by the case that is so.
fn cut_remedy(
    alloc: Global,
    levels: &[Level],
    source: SourceNumber,
    name: usize,
    case: &CutCase,
) -> Result<Option<Remedy>, AllocError>
    ensures { IfOk result (λ m. option_map seen m ≡ cut_remedy (map seen_level levels.now) source name case.now) }
{
    let asked = AskedName::At(name);
    let lacking = match case {
        CutCase::Delegation(rrsets) => part(alloc, levels, source.zone, rrsets, &[])?,
        CutCase::NoCut => return Ok(None),
        CutCase::Signed(signed) => signed_remedy(alloc, levels, source, name, signed)?,
        CutCase::OptOut(opt_out) => opt_out_remedy(alloc, levels, source, name, opt_out)?,
        CutCase::Uncovered => {
            let uncovered = Said::Source(WhySource::CoverMissing(Role::Cut), source, asked);
            missing(alloc, Class::Lacking, &[uncovered])?
        }
        CutCase::Unmatched => {
            let unmatched = Said::Source(WhySource::MatchMissing, source, asked);
            missing(alloc, Class::Lacking, &[unmatched])?
        }
    };
    Ok(Some(lacking))
}

/// What has to be mended where the record at the name isn't one of an unsigned delegation.
fn signed_remedy(
    alloc: Global,
    levels: &[Level],
    source: SourceNumber,
    name: usize,
    signed: &SignedCutFacts,
) -> Result<Remedy, AllocError>
    ensures { IfOk result (λ m. seen m ≡ signed_remedy (map seen_level levels.now) source name signed.now) }
{
    let given = part_of_one(alloc, levels, source.zone, &signed.rrset)?;
    let why = WhySource::TypeHeld(signed.number, signed.held);
    let held = Said::Source(why, source, AskedName::At(name));
    let absent = missing(alloc, Class::Lacking, &[held])?;
    both(alloc, &given, &absent)
}

/// What has to be mended where unsigned delegations may be left out at the name.
fn opt_out_remedy(
    alloc: Global,
    levels: &[Level],
    source: SourceNumber,
    name: usize,
    opt_out: &OptOutFacts,
) -> Result<Remedy, AllocError>
    ensures { IfOk result (λ m. seen m ≡ opt_out_remedy (map seen_level levels.now) source name opt_out.now) }
{
    let unshown = Said::Source(WhySource::EncloserMissing, source, AskedName::At(name));
    let shown = part(alloc, levels, source.zone, &opt_out.shown, &[unshown])?;
    let covered = part(alloc, levels, source.zone, &opt_out.covers, &[])?;
    both(alloc, &shown, &covered)
}
