//! What wildcards' signatures ask for beside them: that no closer name is there.
ghost use Rattle.std.specs.Prelude.{◌≡◌, ◌↔◌, ◌≤◌, ◌<◌, ◌+◌, Contains, IfOk, IsTrue, length};
ghost use Rattle.std.specs.List.{AllByRecursion};
ghost use Rattle.std.specs.List.Sorted.{IsStrictlySortedBy};
ghost use Rattle.dnsv_proof_forms.specs.records.Numbers.{number_cmp};
ghost use Rattle.dnsv_proof_forms.specs.words.Asked.{IsWithin};
ghost use Rattle.dnsv_faults.specs.KnownZones.{IsGoal};
ghost use Rattle.dnsv_chain.specs.Basis.{basis_by};
ghost use Rattle.dnsv_gaps.specs.Asking.{IsAsked, asking};
ghost use Rattle.dnsv_gaps.specs.Parts.{AreFactsOf};
ghost use Rattle.dnsv_gaps.specs.SourceSearch.{AreZoneDenials, IsHeldIn};
ghost use Rattle.dnsv_gaps.specs.questions.Closers.{AreCloserFacts, HasCloserAt, IsCloserOf, IsCover, IsOpen};
ghost use Rattle.dnsv_gaps.specs.questions.CloserSearch.{IsSignatureNumber, IsViewOf};
ghost use Rattle.dnsv_gaps.specs.questions.CutSearch.{IsSaidByOne};

use crate::asked::AskedQuestion;
use crate::parts::facts_of_numbers;
use crate::sources::saying::numbers_saying;
use crate::sources::{HeldSource, ZoneDenials, sources_of, zone_denials};
use dnsv_canonical::{RecordNumber, Rrset, is_expanded};
use dnsv_denial::View;
use dnsv_mending::RrsetFacts;
use dnsv_proof_forms::{AskedName, AskedWord};
use dnsv_records::Rrsig;
use dnsv_remedies::CloserFacts;
use dnsv_verifier::may_sign;
use std::alloc::{AllocError, Global};

/// What the signature of the RRset with the number, from 1 on, asks for beside it; `None` where that is nothing, or is proved.
pub fn closer_of(
    alloc: Global,
    question: &AskedQuestion<'_, '_>,
    view: &View<'_, '_>,
    rrset: &Rrset<'_>,
    number: usize,
) -> Result<Option<CloserFacts>, AllocError>
    requires asked { IsAsked question.now }
    requires view { IsViewOf question.now view.now }
    requires goal { IsGoal question.now.name.now question.now.rtype.0 rrset.now }
    requires its { IsSignatureNumber rrset.now number }
    ensures { IfOk result (HasCloserAt (asking question.now) rrset.now number) }
{
    let rrsigs = rrset.signatures();
    if number == 0 {
        return Ok(None);
    }
    if number > rrsigs.len() {
        return Ok(None);
    }
    Ok(closer_by(alloc, question, view, rrset, &rrsigs[number - 1])?)
}

/// What the signature of the RRset asks for beside it.
fn closer_by(
    alloc: Global,
    question: &AskedQuestion<'_, '_>,
    view: &View<'_, '_>,
    rrset: &Rrset<'_>,
    rrsig: &Rrsig<'_>,
) -> Result<Option<CloserFacts>, AllocError>
    requires asked { IsAsked question.now }
    requires view { IsViewOf question.now view.now }
    requires goal { IsGoal question.now.name.now question.now.rtype.0 rrset.now }
    ensures { IfOk result (IsCloserOf (asking question.now) rrset.now rrsig.now) }
{
    if !is_open(question, view, rrset, rrsig) {
        return Ok(None);
    }
    Ok(Some(closer_facts(alloc, question, rrsig)?))
}

/// Whether the RRset is one of a wildcard by the signature, whose signer may be its zone and is at or above the name, and no
/// records that are trusted show that no closer name is there.
fn is_open(
    question: &AskedQuestion<'_, '_>,
    view: &View<'_, '_>,
    rrset: &Rrset<'_>,
    rrsig: &Rrsig<'_>,
) -> bool
    requires view { IsViewOf question.now view.now }
    ensures { IsTrue result ↔ IsOpen (asking question.now) rrset.now rrsig.now }
{
    if !is_expanded(rrset.owner(), rrsig) {
        return false;
    }
    let signer = rrsig.signer.to_name();
    if !question.name.is_at_or_below(&signer) {
        return false;
    }
    if !may_sign(&signer, rrset.rtype(), rrset.owner()) {
        return false;
    }
    view.no_closer(&signer, rrsig.labels as usize).is_none()
}

/// What the records of the signer say of the next closer name.
fn closer_facts(
    alloc: Global,
    question: &AskedQuestion<'_, '_>,
    rrsig: &Rrsig<'_>,
) -> Result<CloserFacts, AllocError>
    requires asked { IsAsked question.now }
    requires above { length rrsig.now.signer ≤ length question.now.name.now }
    requires closer { rrsig.now.labels < length question.now.name.now }
    ensures { IfOk result (AreCloserFacts (asking question.now) rrsig.now) }
{
    let zone = zone_denials(alloc, question, rrsig.signer.labels())?;
    let covers = covers_by(alloc, question, &zone, rrsig.labels as usize)?;
    Ok(CloserFacts {
        name: rrsig.labels as usize + 1,
        covers,
        unusable: zone.unusable,
    })
}

/// The same as `covers`, at lifetimes of their own.
fn covers_by(
    alloc: Global,
    question: &AskedQuestion<'_, '_>,
    zone: &ZoneDenials<'_>,
    labels: usize,
) -> Result<Vec<RrsetFacts>, AllocError>
    requires asked { IsAsked question.now }
    requires zone { AreZoneDenials question.now zone.now }
    requires closer { labels < length question.now.name.now }
    ensures { IfOk result (λ facts. AreFactsOf (basis_by question.now.facts.now)
        (IsCover (asking question.now) zone.now.labels labels) facts.items) }
{
    Ok(covers(alloc, question, zone, labels)?)
}

/// What is so of the RRsets with a record of a source of the zone that covers the name with one label more than so many; of none,
/// where the zone has more.
fn covers<'r>(
    alloc: Global,
    question: &'r AskedQuestion<'r, '_>,
    zone: &'r ZoneDenials<'r>,
    labels: usize,
) -> Result<Vec<RrsetFacts>, AllocError>
    requires asked { IsAsked question.now }
    requires zone { AreZoneDenials question.now zone.now }
    requires closer { labels < length question.now.name.now }
    ensures { IfOk result (λ facts. AreFactsOf (basis_by question.now.facts.now)
        (IsCover (asking question.now) zone.now.labels labels) facts.items) }
{
    if labels < zone.labels {
        return Ok(Vec::new(alloc));
    }
    let sources = sources_of(alloc, question, zone)?;
    let next_closer = AskedName::Above(labels + 1);
    let numbers = numbers_of(
        alloc,
        question,
        zone.labels,
        &sources,
        next_closer,
        AskedWord::Absent,
    )?;
    Ok(facts_of_numbers(alloc, question.facts, &numbers)?)
}

/// The numbers of the records of the sources that say so of the name, rising.
fn numbers_of(
    alloc: Global,
    question: &AskedQuestion<'_, '_>,
    zone: usize,
    sources: &[HeldSource<'_>],
    asked: AskedName,
    word: AskedWord,
) -> Result<Vec<RecordNumber>, AllocError>
    requires zone { zone ≤ length question.now.name.now }
    requires sources { AllByRecursion (IsHeldIn question.now zone) sources.now }
    requires within { IsWithin question.now.name.now asked }
    ensures order { IfOk result (λ numbers. IsStrictlySortedBy number_cmp numbers.items) }
    ensures members { IfOk result (λ numbers. (number : RecordNumber) → Contains numbers.items number
        ↔ IsSaidByOne question.now zone asked word sources.now number) }
{
    let mut numbers = Vec::new(alloc);
    for held in sources {
        let source = held.source(zone);
        let said = numbers_saying(alloc, question, &source, asked, word)?;
        numbers.extend_from_slice(&said)?;
    }
    numbers.sort_unstable();
    numbers.dedup();
    Ok(numbers)
}
