//! Sources, as lines name them.
ghost use Rattle.std.specs.Prelude.{◌≡◌, IfOk, MatchOption, None, Some, map, slice_get};
ghost use Rattle.dnsv_names.specs.Name.{Labels};
ghost use Rattle.dnsv_remedies.specs.declared.facts.name.AskedName.TheVariants.{Wildcard};
ghost use Rattle.dnsv_lines.specs.declared.line.fault.denial.Source.{Source};
ghost use Rattle.dnsv_gaps.specs.Asking.{IsAsked, asking};
ghost use Rattle.dnsv_gaps.specs.SourceSearch.{AreZoneDenials, held_chain};
ghost use Rattle.dnsv_reasons.specs.Sources.{IsAskedName, IsParametersOf, IsSource};
ghost use Rattle.dnsv_reasons.specs.SourceSearch.{AreAllDenials, AreAllNamed, AreNamed, chain_named};

use dnsv_gaps::{AskedQuestion, HeldSource, ZoneDenials, sources_of, zone_denials};
use dnsv_lines::{Source, SourceParameters};
use dnsv_names::Name;
use dnsv_records::Nsec3Parameters;
use dnsv_remedies::{AskedName, SourceNumber};
use dnsv_trust_reasons::above;
use std::alloc::{AllocError, Global};

/// A source of a zone, as lines name it.
#[derive(Clone, Copy)]
pub enum NamedSource<'a> {
    /// The NSEC records.
    Nsec,
    /// The NSEC3 records with these parameters.
    Nsec3(&'a Nsec3Parameters<'a>),
}

/// The sources of a zone, in their order.
#[derive(Drop)]
pub struct NamedSources<'a> {
    pub sources: Vec<NamedSource<'a>>,
}

/// The denials of each zone at or above the name, from the root down.
pub fn all_denials<'a>(
    alloc: Global,
    question: &AskedQuestion<'a, '_>,
) -> Result<Vec<ZoneDenials<'a>>, AllocError>
    requires { IsAsked question.now }
    ensures { IfOk result (λ zones. AreAllDenials question.now zones.items) }
{
    let count = question.name.labels();
    let mut zones = Vec::with_capacity(alloc, count + 1)?;
    for labels in 0..count + 1 {
        zones.push(zone_denials(alloc, question, labels)?)?;
    }
    Ok(zones)
}

/// The sources of each zone at or above the name, from the root down, as lines name them. `zones` are their denials.
pub fn named_sources<'r>(
    alloc: Global,
    question: &'r AskedQuestion<'r, '_>,
    zones: &'r [ZoneDenials<'r>],
) -> Result<Vec<NamedSources<'r>>, AllocError>
    requires asked { IsAsked question.now }
    requires zones { AreAllDenials question.now zones.now }
    ensures { IfOk result (λ named. AreAllNamed (asking question.now) named.items) }
{
    let mut named = Vec::with_capacity(alloc, zones.len())?;
    for zone in zones {
        named.push(names_at(alloc, question, zone)?)?;
    }
    Ok(named)
}

/// The sources of the zone, as lines name them.
fn names_at<'r>(
    alloc: Global,
    question: &'r AskedQuestion<'r, '_>,
    zone: &'r ZoneDenials<'r>,
) -> Result<NamedSources<'r>, AllocError>
    requires asked { IsAsked question.now }
    requires zone { AreZoneDenials question.now zone.now }
    ensures { IfOk result (AreNamed (asking question.now) zone.now.labels) }
{
    let held = sources_of(alloc, question, zone)?;
    Ok(NamedSources {
        sources: names_of(alloc, &held)?,
    })
}

/// The sources, as lines name them.
fn names_of<'r>(alloc: Global, held: &[HeldSource<'r>]) -> Result<Vec<NamedSource<'r>>, AllocError>
    ensures { IfOk result (λ named. map chain_named named.items ≡ map held_chain held.now) }
{
    let mut named = Vec::with_capacity(alloc, held.len())?;
    for source in held {
        named.push(name_of(source))?;
    }
    Ok(named)
}

/// The source, as lines name it.
fn name_of<'r>(held: &HeldSource<'r>) -> NamedSource<'r>
    ensures { chain_named result ≡ held_chain held.now }
{
    match held {
        HeldSource::Nsec(_) => NamedSource::Nsec,
        HeldSource::Nsec3(hashed) => NamedSource::Nsec3(hashed.parameters),
    }
}

/// The source with the number, of a zone at or above the name. `named` are the sources of each such zone.
pub fn source(
    alloc: Global,
    question: &AskedQuestion<'_, '_>,
    named: &[NamedSources<'_>],
    number: SourceNumber,
) -> Result<Option<Source>, AllocError>
    requires { AreAllNamed (asking question.now) named.now }
    ensures { IfOk result (λ found. MatchOption found ((each : Source) → ¬ IsSource (asking question.now) number each)
        (IsSource (asking question.now) number)) }
{
    let Some(zone) = above(question.name, number.zone) else {
        return Ok(None);
    };
    let Some(found) = name_at(&named[number.zone], number.place) else {
        return Ok(None);
    };
    Ok(Some(Source {
        zone,
        parameters: told_parameters(alloc, found)?,
    }))
}

/// The source of the zone at the place, from 0.
fn name_at<'a>(named: &NamedSources<'a>, place: usize) -> Option<NamedSource<'a>>
    ensures { MatchOption result (slice_get named.now.sources.items place ≡ None)
        (λ found. slice_get named.now.sources.items place ≡ Some found) }
{
    let Some(found) = named.sources.get(place) else {
        return None;
    };
    Some(*found)
}

/// What the hashes of the source are made with, where it is one of NSEC3.
fn told_parameters(
    alloc: Global,
    source: NamedSource<'_>,
) -> Result<Option<SourceParameters>, AllocError>
    ensures { IfOk result (IsParametersOf (chain_named source.entry)) }
{
    let NamedSource::Nsec3(parameters) = source else {
        return Ok(None);
    };
    Ok(Some(SourceParameters::copy_of(alloc, parameters)?))
}

/// The name that a record is to be at, or to cover; `None` where the name has fewer labels.
pub fn asked_name(name: &Name, asked: AskedName) -> Option<Name>
    ensures { MatchOption result ((each : Labels) → ¬ IsAskedName name.now asked each) (IsAskedName name.now asked) }
{
    match asked {
        AskedName::At(labels) => above(name, labels),
        AskedName::Wildcard(labels) => wildcard(name, labels),
    }
}

/// The wildcard right below so many of the name's rightmost labels; `None` where it has no more.
fn wildcard(name: &Name, labels: usize) -> Option<Name>
    ensures { MatchOption result ((each : Labels) → ¬ IsAskedName name.now (Wildcard labels) each)
        (IsAskedName name.now (Wildcard labels)) }
{
    if labels >= name.labels() {
        return None;
    }
    Some(name.source_of_synthesis(labels))
}
