//! Which records of a source say what of a name that is asked for.
ghost use Rattle.std.specs.Prelude.{◌≡◌, ◌↔◌, ◌<◌, ℕ, Contains, IfOk, IsTrue, map};
ghost use Rattle.std.specs.List.{AllByRecursion};
ghost use Rattle.dnsv_proof_forms.specs.records.Numbers.{number_at, numbers_of, record_count};
ghost use Rattle.dnsv_proof_forms.specs.words.Asked.{IsWithin};
ghost use Rattle.dnsv_canonical.specs.declared.number.RecordNumber.{RecordNumber};
ghost use Rattle.dnsv_chain.specs.Basis.{basis_by};
ghost use Rattle.dnsv_gaps.specs.Parts.{AreFactsOf, IsInEvidence};
ghost use Rattle.dnsv_gaps.specs.SourceSearch.{AreSaying, IsSourceIn, Says};

use crate::asked::AskedQuestion;
use crate::parts::facts_of_numbers;
use crate::sources::ZoneSource;
use dnsv_canonical::RecordNumber;
use dnsv_mending::RrsetFacts;
use dnsv_proof_forms::{AskedName, AskedWord, ChainRecords, places_saying};
use std::alloc::{AllocError, Global};

/// The numbers of all records of the source that say the word of the name, rising.
pub fn numbers_saying(
    alloc: Global,
    question: &AskedQuestion<'_, '_>,
    source: &ZoneSource<'_>,
    asked: AskedName,
    word: AskedWord,
) -> Result<Vec<RecordNumber>, AllocError>
    requires source { IsSourceIn question.now source.now }
    requires within { IsWithin question.now.name.now asked }
    ensures all { IfOk result (λ numbers. AreSaying question.now source.now asked word numbers.items) }
    ensures there { IfOk result (λ numbers. AllByRecursion (IsInEvidence question.now.facts.now.rrsets) numbers.items) }
{
    let places = places_saying(alloc, question.name, asked, word, &source.records)?;
    Ok(numbers_at(alloc, &source.records, &places)?)
}

/// The numbers of the records at the places.
fn numbers_at(
    alloc: Global,
    records: &ChainRecords<'_>,
    places: &[usize],
) -> Result<Vec<RecordNumber>, AllocError>
    requires { AllByRecursion (λ place. place < record_count records.now) places.now }
    ensures { IfOk result (λ numbers. numbers.items ≡ map (number_at (numbers_of records.now)) places.now) }
{
    let mut numbers = Vec::with_capacity(alloc, places.len())?;
    for place in places {
        numbers.push(records.number(*place))?;
    }
    Ok(numbers)
}

/// What is so of the RRsets with such a record, each once, by their numbers.
pub fn facts_saying(
    alloc: Global,
    question: &AskedQuestion<'_, '_>,
    source: &ZoneSource<'_>,
    asked: AskedName,
    word: AskedWord,
) -> Result<Vec<RrsetFacts>, AllocError>
    requires source { IsSourceIn question.now source.now }
    requires within { IsWithin question.now.name.now asked }
    ensures { IfOk result (λ facts. AreFactsOf (basis_by question.now.facts.now) (Says question.now source.now asked word)
        facts.items) }
{
    let numbers = numbers_saying(alloc, question, source, asked, word)?;
    Ok(facts_of_numbers(alloc, question.facts, &numbers)?)
}

/// Whether there is such a record.
pub fn has_saying(
    alloc: Global,
    question: &AskedQuestion<'_, '_>,
    source: &ZoneSource<'_>,
    asked: AskedName,
    word: AskedWord,
) -> Result<bool, AllocError>
    requires source { IsSourceIn question.now source.now }
    requires within { IsWithin question.now.name.now asked }
    ensures { IfOk result (λ is. IsTrue is ↔ ((number : RecordNumber) × Says question.now source.now asked word number)) }
{
    let places = places_saying(alloc, question.name, asked, word, &source.records)?;
    Ok(has_any(&places))
}

/// Whether there is one of the numbers.
pub fn has_any(places: &[usize]) -> bool
    ensures { IsTrue result ↔ ((place : ℕ) × Contains places.now place) }
{
    !places.is_empty()
}
