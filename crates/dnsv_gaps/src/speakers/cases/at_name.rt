//! What records at a name say of the type that is asked for.
ghost use Rattle.std.specs.FinSet as set;
ghost use Rattle.std.specs.Prelude.{◌≡◌, ◌<◌, IfOk};
ghost use Rattle.std.specs.List.{AllByRecursion, AllZip};
ghost use Rattle.dnsv_proof_forms.specs.records.Numbers.{record_count};
ghost use Rattle.dnsv_gaps.specs.CaseSearch.{IsHeldBy};
ghost use Rattle.dnsv_proof_forms.specs.words.Asked.{IsWithin, asked_name};
ghost use Rattle.dnsv_chain.specs.Basis.{basis_by};
ghost use Rattle.dnsv_zones.specs.chains.NsecChain.{IsInBitmap};
ghost use Rattle.dnsv_gaps.specs.Cases.{AreHeld, AreRecordsAt, IsHeld, why_held};
ghost use Rattle.dnsv_gaps.specs.SourceSearch.{IsSourceIn, said_in};

use crate::asked::AskedQuestion;
use crate::sources::ZoneSource;
use crate::sources::saying::{facts_saying, has_saying};
use dnsv_canonical::RecordNumber;
use dnsv_lines::WhySource;
use dnsv_names::RecordType;
use dnsv_proof_forms::{AskedName, AskedTypes, AskedWord, places_saying};
use dnsv_records::TypeBitmap;
use dnsv_remedies::{HoldingFacts, RecordsAt};
use std::alloc::{AllocError, Global};

/// What the records at the name say of the type: some deny it, or what is in the way in each.
pub fn records_at(
    alloc: Global,
    question: &AskedQuestion<'_, '_>,
    source: &ZoneSource<'_>,
    name: AskedName,
) -> Result<RecordsAt, AllocError>
    requires source { IsSourceIn question.now source.now }
    requires within { IsWithin question.now.name.now name }
    ensures { IfOk result (AreRecordsAt (basis_by question.now.facts.now) (said_in question.now source.now)
        (asked_name question.now.name.now name) question.now.rtype.0) }
{
    let word = AskedWord::Types(AskedTypes::Without(question.rtype));
    let denies = has_saying(alloc, question, source, name, word)?;
    if denies {
        let denying = facts_saying(alloc, question, source, name, word)?;
        return Ok(RecordsAt::Denying(denying));
    }
    let word = AskedWord::Types(AskedTypes::Any);
    let rrsets = facts_saying(alloc, question, source, name, word)?;
    let held = held_at(alloc, question, source, name)?;
    Ok(RecordsAt::Holding(HoldingFacts { rrsets, held }))
}

/// What is in the way in each record at the name, by their numbers.
fn held_at(
    alloc: Global,
    question: &AskedQuestion<'_, '_>,
    source: &ZoneSource<'_>,
    name: AskedName,
) -> Result<Vec<WhySource>, AllocError>
    requires source { IsSourceIn question.now source.now }
    requires within { IsWithin question.now.name.now name }
    ensures { IfOk result (λ told. AreHeld (said_in question.now source.now) (asked_name question.now.name.now name)
        question.now.rtype.0 told.items) }
{
    let word = AskedWord::Types(AskedTypes::Any);
    let places = places_saying(alloc, question.name, name, word, &source.records)?;
    Ok(held_by_each(alloc, source, question.rtype, &places)?)
}

/// What is in the way in the records at the places.
fn held_by_each(
    alloc: Global,
    source: &ZoneSource<'_>,
    rtype: RecordType,
    places: &[usize],
) -> Result<Vec<WhySource>, AllocError>
    requires { AllByRecursion (λ place. place < record_count source.now.records) places.now }
    ensures { IfOk result (λ told. AllZip (IsHeldBy source.now rtype.0) places.now told.items) }
{
    let mut told = Vec::with_capacity(alloc, places.len())?;
    for place in places {
        told.push(held_by(source, rtype, *place))?;
    }
    Ok(told)
}

/// What is in the way in the record at the place.
fn held_by(source: &ZoneSource<'_>, rtype: RecordType, place: usize) -> WhySource
    requires { place < record_count source.now.records }
    ensures { IsHeldBy source.now rtype.0 place result }
{
    let records = &source.records;
    why_held(records.number(place), held(records.types(place), rtype))
}

/// The first that is among the types: the one asked, or CNAME; where DS is asked, SOA.
fn held(types: &TypeBitmap<'_>, rtype: RecordType) -> Option<RecordType>
    ensures { IsHeld (IsInBitmap (λ t. set.contains types.now t)) rtype.0 result }
{
    if types.contains(rtype) {
        return Some(rtype);
    }
    if types.contains(RecordType::CNAME) {
        return Some(RecordType::CNAME);
    }
    if rtype != RecordType::DS {
        return None;
    }
    if types.contains(RecordType::SOA) {
        return Some(RecordType::SOA);
    }
    None
}

/// What is in the way in the record: that it has the type, or is one of a delegation.
fn why_held(number: RecordNumber, held: Option<RecordType>) -> WhySource
    ensures { result ≡ why_held number held }
{
    match held {
        Some(rtype) => WhySource::TypeHeld(number, rtype),
        None => WhySource::Delegation(number),
    }
}
