//! What the records of a source lack to deny a question.
ghost use Rattle.std.specs.Prelude.{◌≡◌, IfOk, OnOk, map, flat_map};
ghost use Rattle.dnsv_mending.specs.Level.{seen_level};
ghost use Rattle.dnsv_remedies.specs.Remedy.{Offers, seen};
ghost use Rattle.dnsv_remedies.specs.Sources.{at_remedy, case_remedy, closed_line, closed_remedy, encloser_remedy, held_line, next_remedy, shown_remedy, source_ways, wildcard_remedy};

use crate::facts::denial::{
    ClosedFacts, EncloserFacts, RecordsAt, SourceCase, SourceFacts, WildcardFacts,
};
use crate::facts::name::{AskedName, SourceNumber};
use crate::parts::{part, part_of_one};
use crate::remedy::{Remedy, both, is_none, missing, nothing, offer};
use crate::said::Said;
use dnsv_lines::{Role, WhySource};
use dnsv_mending::{Class, Level, RrsetFacts};
use std::alloc::{AllocError, Global};

/// Offers what each source of the zone lacks. `zone` and `labels` are how many labels the zone and the name that is asked for
/// have.
#[tactic(auto, using(crate::proofs::Lists::offered_next))]
pub fn offer_sources(
    alloc: Global,
    levels: &[Level],
    labels: usize,
    zone: usize,
    sources: &[SourceFacts],
    best: &mut Option<Remedy>,
) -> Result<(), AllocError>
    ensures { OnOk result (Offers (flat_map (source_ways (map seen_level levels.now) labels zone) sources.now) best.old best.new) }
{
    for source in sources {
        offer_source(alloc, levels, labels, zone, source, best)?;
    }
    Ok(())
}

/// Offers what one of them lacks.
#[tactic(auto, unfolding(crate::specs::Sources::source_ways))]
fn offer_source(
    alloc: Global,
    levels: &[Level],
    labels: usize,
    zone: usize,
    source: &SourceFacts,
    best: &mut Option<Remedy>,
) -> Result<(), AllocError>
    ensures { OnOk result (Offers (source_ways (map seen_level levels.now) labels zone source.now) best.old best.new) }
{
    let number = SourceNumber {
        zone,
        place: source.place,
    };
    let lacking = case_remedy(alloc, levels, labels, number, &source.case)?;
    offer(best, lacking);
    Ok(())
}

/// What it lacks, by the case that is so.
fn case_remedy(
    alloc: Global,
    levels: &[Level],
    labels: usize,
    source: SourceNumber,
    case: &SourceCase,
) -> Result<Remedy, AllocError>
    ensures { IfOk result (λ m. seen m ≡ case_remedy (map seen_level levels.now) labels source case.now) }
{
    let name = AskedName::At(labels);
    let unmatched = Said::Source(WhySource::MatchMissing, source, name);
    match case {
        SourceCase::Closed(closed) => closed_remedy(alloc, levels, source, closed),
        SourceCase::At(records) => at_remedy(alloc, levels, source, name, records),
        SourceCase::Apex => missing(alloc, Class::Lacking, &[unmatched]),
        SourceCase::NonTerminal(rrsets) => part(alloc, levels, source.zone, rrsets, &[]),
        SourceCase::NoEncloser => {
            let unshown = Said::Source(WhySource::EncloserMissing, source, name);
            missing(alloc, Class::Lacking, &[unshown, unmatched])
        }
        SourceCase::Encloser(encloser) => {
            encloser_remedy(alloc, levels, labels, source, encloser)
        }
    }
}

/// What has to be mended where a record above the name denies nothing below it.
fn closed_remedy(
    alloc: Global,
    levels: &[Level],
    source: SourceNumber,
    closed: &ClosedFacts,
) -> Result<Remedy, AllocError>
    ensures { IfOk result (λ m. seen m ≡ closed_remedy (map seen_level levels.now) source closed.now) }
{
    let given = part_of_one(alloc, levels, source.zone, &closed.rrset)?;
    let absent = missing(alloc, Class::Missing, &[closed_line(source, closed)])?;
    both(alloc, &given, &absent)
}

/// What is reported of it.
fn closed_line(source: SourceNumber, closed: &ClosedFacts) -> Said
    ensures { result ≡ closed_line source closed.now }
{
    if closed.is_dname {
        Said::DnameHeld(closed.name, closed.number)
    } else {
        let name = AskedName::At(closed.name);
        Said::Source(WhySource::Delegation(closed.number), source, name)
    }
}

/// What records at a name lack.
fn at_remedy(
    alloc: Global,
    levels: &[Level],
    source: SourceNumber,
    name: AskedName,
    records: &RecordsAt,
) -> Result<Remedy, AllocError>
    ensures { IfOk result (λ m. seen m ≡ at_remedy (map seen_level levels.now) source name records.now) }
{
    match records {
        RecordsAt::Denying(rrsets) => part(alloc, levels, source.zone, rrsets, &[]),
        RecordsAt::Holding(holding) => {
            let given = part(alloc, levels, source.zone, &holding.rrsets, &[])?;
            let lines = held_lines(alloc, source, name, &holding.held)?;
            let absent = missing(alloc, Class::Lacking, &lines)?;
            both(alloc, &given, &absent)
        }
    }
}

/// What is reported of records that don't deny the type.
#[tactic(auto, using(crate::proofs::Lists::made_next), unfolding(crate::specs::Sources::held_line))]
fn held_lines(
    alloc: Global,
    source: SourceNumber,
    name: AskedName,
    held: &[WhySource],
) -> Result<Vec<Said>, AllocError>
    ensures { IfOk result (λ lines. lines.items ≡ map (held_line source name) held.now) }
{
    let mut lines = Vec::with_capacity(alloc, held.len())?;
    for why in held {
        lines.push(Said::Source(*why, source, name))?;
    }
    Ok(lines)
}

/// What it lacks where an ancestor of the name is there, and the name isn't.
fn encloser_remedy(
    alloc: Global,
    levels: &[Level],
    labels: usize,
    source: SourceNumber,
    encloser: &EncloserFacts,
) -> Result<Remedy, AllocError>
    ensures { IfOk result (λ m. seen m ≡ encloser_remedy (map seen_level levels.now) labels source encloser.now) }
{
    let shown = shown_remedy(alloc, levels, source, &encloser.shown)?;
    let next = next_remedy(alloc, levels, labels, source, encloser)?;
    let wildcard = wildcard_remedy(alloc, levels, source, encloser.name, &encloser.wildcard)?;
    both(alloc, &shown, &both(alloc, &next, &wildcard)?)
}

/// The part that shows the ancestor; a zone is shown by its own NSEC records.
fn shown_remedy(
    alloc: Global,
    levels: &[Level],
    source: SourceNumber,
    rrsets: &[RrsetFacts],
) -> Result<Remedy, AllocError>
    ensures { IfOk result (λ m. seen m ≡ shown_remedy (map seen_level levels.now) source rrsets.now) }
{
    if is_none(rrsets) {
        return Ok(nothing(alloc));
    }
    part(alloc, levels, source.zone, rrsets, &[])
}

/// The part that covers the next closer name.
fn next_remedy(
    alloc: Global,
    levels: &[Level],
    labels: usize,
    source: SourceNumber,
    encloser: &EncloserFacts,
) -> Result<Remedy, AllocError>
    ensures { IfOk result (λ m. seen m ≡ next_remedy (map seen_level levels.now) labels source encloser.now) }
{
    let why = WhySource::CoverMissing(Role::NextCloser);
    let uncovered = Said::Source(why, source, AskedName::At(encloser.next));
    let unmatched = Said::Source(WhySource::MatchMissing, source, AskedName::At(labels));
    part(
        alloc,
        levels,
        source.zone,
        &encloser.covers,
        &[uncovered, unmatched],
    )
}

/// The part by which no wildcard answers. `name` is how many labels the ancestor has.
fn wildcard_remedy(
    alloc: Global,
    levels: &[Level],
    source: SourceNumber,
    name: usize,
    wildcard: &WildcardFacts,
) -> Result<Remedy, AllocError>
    ensures { IfOk result (λ m. seen m ≡ wildcard_remedy (map seen_level levels.now) source name wildcard.now) }
{
    let name = AskedName::Wildcard(name);
    match wildcard {
        WildcardFacts::OptedOut => Ok(nothing(alloc)),
        WildcardFacts::At(records) => at_remedy(alloc, levels, source, name, records),
        WildcardFacts::Covered(rrsets) => {
            let why = WhySource::CoverMissing(Role::Wildcard);
            let uncovered = Said::Source(why, source, name);
            part(alloc, levels, source.zone, rrsets, &[uncovered])
        }
    }
}
