//! The first closed record above the name: one of a delegation or of a DNAME.
ghost use Rattle.std.specs.Prelude.{◌≡◌, ◌<◌, ◌∷◌, [], ℕ, IfOk, List, MatchOption, length};
ghost use Rattle.dnsv_chain.specs.Basis.{basis_by};
ghost use Rattle.dnsv_proof_forms.specs.records.Numbers.{record_count};
ghost use Rattle.dnsv_gaps.specs.CaseSearch.{AreClosedFactsAt, AreFactsAtPlace, HasNoneClosedAt};
ghost use Rattle.dnsv_gaps.specs.Cases.{AreClosedFacts, HasNoneClosed};
ghost use Rattle.dnsv_gaps.specs.SourceSearch.{IsSourceIn, said_in, zone_in};

use crate::asked::AskedQuestion;
use crate::parts::facts_of_rrset;
use crate::sources::ZoneSource;
use dnsv_names::RecordType;
use dnsv_proof_forms::{AskedName, AskedTypes, AskedWord, places_saying};
use dnsv_remedies::ClosedFacts;
use std::alloc::{AllocError, Global};

/// The closed record of lowest number at the shortest name that has one, of those properly above the question's and strictly
/// below the zone.
pub fn first_closed(
    alloc: Global,
    question: &AskedQuestion<'_, '_>,
    source: &ZoneSource<'_>,
) -> Result<Option<ClosedFacts>, AllocError>
    requires { IsSourceIn question.now source.now }
    ensures { IfOk result (λ found. MatchOption found
        (HasNoneClosed (said_in question.now source.now) (zone_in question.now source.now.labels) question.now.name.now)
        (AreClosedFacts (basis_by question.now.facts.now) (said_in question.now source.now) (zone_in question.now source.now.labels)
        question.now.name.now)) }
{
    let end = question.name.labels();
    for labels in source.labels + 1..end {
        let found = closed_at(alloc, question, source, labels)?;
        if let Some(closed) = found {
            return Ok(Some(closed));
        }
    }
    Ok(None)
}

/// The closed record of lowest number at the name with so many labels.
fn closed_at(
    alloc: Global,
    question: &AskedQuestion<'_, '_>,
    source: &ZoneSource<'_>,
    labels: usize,
) -> Result<Option<ClosedFacts>, AllocError>
    requires source { IsSourceIn question.now source.now }
    requires within { labels < length question.now.name.now }
    ensures { IfOk result (λ found. MatchOption found
        (HasNoneClosedAt (said_in question.now source.now) question.now.name.now labels)
        (AreClosedFactsAt (basis_by question.now.facts.now) (said_in question.now source.now) question.now.name.now labels)) }
{
    let name = AskedName::Above(labels);
    let word = AskedWord::Types(AskedTypes::Closed);
    let places = places_saying(alloc, question.name, name, word, &source.records)?;
    let Some(place) = first_of(&places) else {
        return Ok(None);
    };
    let facts = closed_record(alloc, question, source, labels, place)?;
    Ok(Some(facts))
}

/// The first of the places.
fn first_of(places: &[usize]) -> Option<usize>
    ensures { MatchOption result (places.now ≡ []) (λ place. (rest : List ℕ) × (places.now ≡ place ∷ rest)) }
{
    if places.is_empty() {
        return None;
    }
    Some(places[0])
}

/// What is so of the closed record at the place, which is at the name with so many labels.
fn closed_record(
    alloc: Global,
    question: &AskedQuestion<'_, '_>,
    source: &ZoneSource<'_>,
    labels: usize,
    place: usize,
) -> Result<ClosedFacts, AllocError>
    requires source { IsSourceIn question.now source.now }
    requires place { place < record_count source.now.records }
    ensures { IfOk result (AreFactsAtPlace question.now source.now labels place) }
{
    let records = &source.records;
    let number = records.number(place);
    Ok(ClosedFacts {
        name: labels,
        number,
        is_dname: records.types(place).contains(RecordType::DNAME),
        rrset: facts_of_rrset(alloc, question.facts, number.rrset)?,
    })
}
