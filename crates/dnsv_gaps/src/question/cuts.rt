//! Which names below zones may be unsigned delegations.

mod case;
mod shown;

ghost use Rattle.std.specs.Prelude.{◌≡◌, ◌↔◌, ◌≤◌, ◌<◌, ◌+◌, ◌-◌, IfOk, IsTrue, OnOk, Some, length, map};
ghost use Rattle.std.specs.List.{AllZip, enumerate_from, range_with_len};
ghost use Rattle.dnsv_gaps.specs.Asking.{IsAsked, asking};
ghost use Rattle.dnsv_gaps.specs.SourceSearch.{AreZoneDenials, held_chain, zone_in};
ghost use Rattle.dnsv_gaps.specs.questions.Cuts.{AreCutFacts, AreCutsBelow, AreParentFacts, AreParents, IsCutSource, IsNext, IsParent, lowest_cut};
ghost use Rattle.dnsv_gaps.specs.questions.CutSearch.{IsParentZone};
ghost use Rattle.dnsv_gaps.specs.questions.Listing.{AddsWhere};

use crate::asked::AskedQuestion;
use crate::denials::is_known;
use crate::question::cuts::case::cut_case;
use crate::question::cuts::shown::first_seen;
use crate::sources::{HeldSource, ZoneDenials, sources_of, zone_denials};
use dnsv_faults::has_anchor;
use dnsv_names::RecordType;
use dnsv_remedies::{CutFacts, CutSource, ParentFacts};
use std::alloc::{AllocError, Global};

/// A zone at or above the name that is asked for, with what names below it are looked at by.
#[derive(Clone, Copy)]
pub struct ParentZone<'s, 'r, 'a> {
    pub question: &'r AskedQuestion<'r, 'a>,
    /// How many labels the zone has.
    pub labels: usize,
    /// How many the known zone has that is next below it, toward the name, if there is one.
    pub next: Option<usize>,
    /// The sources of the zone.
    pub sources: &'s [HeldSource<'r>],
}

/// What is so of the names below each known zone with a trust anchor at or above it, from few labels to many.
pub fn parents(
    alloc: Global,
    question: &AskedQuestion<'_, '_>,
) -> Result<Vec<ParentFacts>, AllocError>
    requires asked { IsAsked question.now }
    ensures { IfOk result (λ parents. AreParents (asking question.now) parents.items) }
{
    let mut parents = Vec::new(alloc);
    for labels in 0..question.name.labels() + 1 {
        add_parent(alloc, question, labels, &mut parents)?;
    }
    Ok(parents)
}

/// Adds the zone with so many of the name's labels, if it is such a one.
fn add_parent(
    alloc: Global,
    question: &AskedQuestion<'_, '_>,
    labels: usize,
    parents: &mut Vec<ParentFacts>,
) -> Result<(), AllocError>
    requires asked { IsAsked question.now }
    requires within { labels ≤ length question.now.name.now }
    ensures { OnOk result (AddsWhere (IsParent (asking question.now) labels)
        (λ parent. AreParentFacts (asking question.now) parent × (parent.labels ≡ labels)) parents.old.items parents.new.items) }
{
    if !is_parent(question, labels) {
        return Ok(());
    }
    let parent = parent_facts(alloc, question, labels)?;
    parents.push(parent)?;
    Ok(())
}

/// Whether the zone with so many labels is known, and has an anchor at or above it.
fn is_parent(question: &AskedQuestion<'_, '_>, labels: usize) -> bool
    requires asked { IsAsked question.now }
    requires within { labels ≤ length question.now.name.now }
    ensures { IsTrue result ↔ IsParent (asking question.now) labels }
{
    if !is_known(question, labels) {
        return false;
    }
    has_anchor(question.facts, &question.name.suffix(labels))
}

/// What is so of the names below the zone with so many labels.
fn parent_facts(
    alloc: Global,
    question: &AskedQuestion<'_, '_>,
    labels: usize,
) -> Result<ParentFacts, AllocError>
    requires asked { IsAsked question.now }
    requires within { labels ≤ length question.now.name.now }
    ensures { IfOk result (λ parent. AreParentFacts (asking question.now) parent × (parent.labels ≡ labels)) }
{
    let zone = zone_denials(alloc, question, labels)?;
    let cuts = cuts_below(alloc, question, &zone)?;
    Ok(ParentFacts {
        labels,
        cuts,
        unusable: zone.unusable,
    })
}

/// What is so of each name below the zone, whose denials are these.
fn cuts_below<'r>(
    alloc: Global,
    question: &'r AskedQuestion<'r, '_>,
    zone: &'r ZoneDenials<'r>,
) -> Result<Vec<CutFacts>, AllocError>
    requires asked { IsAsked question.now }
    requires zone { AreZoneDenials question.now zone.now }
    ensures { IfOk result (λ cuts. AreCutsBelow (asking question.now) zone.now.labels cuts.items) }
{
    let sources = sources_of(alloc, question, zone)?;
    let parent = ParentZone {
        question,
        labels: zone.labels,
        next: next_zone(question, zone.labels),
        sources: &sources,
    };
    Ok(cuts(alloc, &parent)?)
}

/// How many labels the known zone has that is next below the one with so many, if there is one.
fn next_zone(question: &AskedQuestion<'_, '_>, labels: usize) -> Option<usize>
    requires asked { IsAsked question.now }
    requires within { labels ≤ length question.now.name.now }
    ensures { IsNext (asking question.now) labels result }
{
    for count in labels + 1..question.name.labels() + 1 {
        if is_known(question, count) {
            return Some(count);
        }
    }
    None
}

/// How many labels the lowest name has that may be a delegation: the name itself, or where DS is asked the one above it.
fn lowest_cut(question: &AskedQuestion<'_, '_>) -> usize
    ensures value { result ≡ lowest_cut (asking question.now) }
    ensures within { result ≤ length question.now.name.now }
{
    let labels = question.name.labels();
    if question.rtype != RecordType::DS {
        return labels;
    }
    labels.saturating_sub(1)
}

/// What is so of each name below the zone.
fn cuts(alloc: Global, parent: &ParentZone<'_, '_, '_>) -> Result<Vec<CutFacts>, AllocError>
    requires { IsParentZone parent.now }
    ensures { IfOk result (λ cuts. AllZip (AreCutFacts (asking parent.now.question.now) parent.now.labels parent.now.next
        (map held_chain parent.now.sources.now)) (range_with_len (parent.now.labels + 1)
        (lowest_cut (asking parent.now.question.now) - parent.now.labels)) cuts.items) }
{
    // What is true of every name: it has few labels.
    let _labels = parent.question.name.labels();
    let lowest = lowest_cut(parent.question);
    let shown = first_seen(alloc, parent, lowest)?;
    let mut cuts = Vec::new(alloc);
    for name in parent.labels + 1..lowest + 1 {
        cuts.push(CutFacts {
            name,
            is_shown: is_that(shown, name),
            sources: cut_sources(alloc, parent, name)?,
        })?;
    }
    Ok(cuts)
}

/// Whether it is that number.
fn is_that(found: Option<usize>, number: usize) -> bool
    ensures { IsTrue result ↔ (found ≡ Some number) }
{
    match found {
        Some(each) => each == number,
        None => false,
    }
}

/// What each of the sources of the zone says of the name with so many labels.
fn cut_sources(
    alloc: Global,
    parent: &ParentZone<'_, '_, '_>,
    name: usize,
) -> Result<Vec<CutSource>, AllocError>
    requires parent { IsParentZone parent.now }
    requires below { parent.now.labels < name }
    requires within { name ≤ length parent.now.question.now.name.now }
    ensures { IfOk result (λ all. AllZip (IsCutSource (asking parent.now.question.now)
        (zone_in parent.now.question.now parent.now.labels) name)
        (enumerate_from 0 (map held_chain parent.now.sources.now)) all.items) }
{
    let mut all = Vec::with_capacity(alloc, parent.sources.len())?;
    for (place, held) in parent.sources.iter().enumerate() {
        let source = held.source(parent.labels);
        let case = cut_case(alloc, parent.question, &source, name)?;
        all.push(CutSource { place, case })?;
    }
    Ok(all)
}
