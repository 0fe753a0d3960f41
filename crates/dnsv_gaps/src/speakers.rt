//! What the known zones have that may deny a question.

mod cases;

ghost use Rattle.std.specs.Prelude.{◌≡◌, ◌≤◌, IfOk, length, map};
ghost use Rattle.std.specs.List.{AllByRecursion, AllZip, enumerate_from};
ghost use Rattle.dnsv_gaps.specs.Asking.{IsAsked, asking};
ghost use Rattle.dnsv_gaps.specs.SourceSearch.{AreZoneDenials, IsHeldIn, held_chain, zone_in};
ghost use Rattle.dnsv_gaps.specs.SpeakerSearch.{AreSaidBySources};
ghost use Rattle.dnsv_gaps.specs.Speakers.{AreSourceFacts, AreSpeakerFacts, AreSpeakers};

use crate::asked::AskedQuestion;
use crate::denials::is_known;
use crate::sources::{HeldSource, ZoneDenials, sources_of, zone_denials};
use crate::speakers::cases::source_case;
use dnsv_remedies::{SourceFacts, SpeakerFacts};
use std::alloc::{AllocError, Global};

/// What the known zones have that may deny the question, from many labels to few.
pub fn speaker_facts(
    alloc: Global,
    question: &AskedQuestion<'_, '_>,
) -> Result<Vec<SpeakerFacts>, AllocError>
    requires { IsAsked question.now }
    ensures { IfOk result (λ speakers. AreSpeakers (asking question.now) speakers.items) }
{
    let mut speakers = Vec::new(alloc);
    let count = question.name.labels();
    for above in 0..count + 1 {
        let labels = count - above;
        if is_known(question, labels) {
            speakers.push(zone_facts(alloc, question, labels)?)?;
        }
    }
    Ok(speakers)
}

/// What the zone with so many of the name's labels has.
fn zone_facts(
    alloc: Global,
    question: &AskedQuestion<'_, '_>,
    labels: usize,
) -> Result<SpeakerFacts, AllocError>
    requires asked { IsAsked question.now }
    requires within { labels ≤ length question.now.name.now }
    ensures labels { IfOk result (λ facts. facts.labels ≡ labels) }
    ensures facts { IfOk result (AreSpeakerFacts (asking question.now)) }
{
    let zone = zone_denials(alloc, question, labels)?;
    let sources = said_by_sources(alloc, question, &zone)?;
    Ok(SpeakerFacts {
        labels,
        has_denials: zone.has_denials,
        sources,
        unusable: zone.unusable,
    })
}

/// What the sources of the zone say, in their order.
fn said_by_sources(
    alloc: Global,
    question: &AskedQuestion<'_, '_>,
    zone: &ZoneDenials<'_>,
) -> Result<Vec<SourceFacts>, AllocError>
    requires asked { IsAsked question.now }
    requires zone { AreZoneDenials question.now zone.now }
    ensures { IfOk result (λ facts. AreSaidBySources question.now zone.now.labels facts.items) }
{
    Ok(facts_of_sources(alloc, question, zone)?)
}

/// The same, of what is lent for as long.
fn facts_of_sources<'r>(
    alloc: Global,
    question: &'r AskedQuestion<'r, '_>,
    zone: &'r ZoneDenials<'r>,
) -> Result<Vec<SourceFacts>, AllocError>
    requires asked { IsAsked question.now }
    requires zone { AreZoneDenials question.now zone.now }
    ensures { IfOk result (λ facts. AreSaidBySources question.now zone.now.labels facts.items) }
{
    let sources = sources_of(alloc, question, zone)?;
    Ok(facts_of_each(alloc, question, zone.labels, &sources)?)
}

/// What each of the sources says, which are those of the zone with so many labels.
fn facts_of_each(
    alloc: Global,
    question: &AskedQuestion<'_, '_>,
    labels: usize,
    sources: &[HeldSource<'_>],
) -> Result<Vec<SourceFacts>, AllocError>
    requires within { labels ≤ length question.now.name.now }
    requires each { AllByRecursion (IsHeldIn question.now labels) sources.now }
    ensures { IfOk result (λ facts. AllZip (AreSourceFacts (asking question.now) (zone_in question.now labels))
        (enumerate_from 0 (map held_chain sources.now)) facts.items) }
{
    let mut facts = Vec::with_capacity(alloc, sources.len())?;
    for (place, held) in sources.iter().enumerate() {
        let source = held.source(labels);
        let case = source_case(alloc, question, &source)?;
        facts.push(SourceFacts { place, case })?;
    }
    Ok(facts)
}
