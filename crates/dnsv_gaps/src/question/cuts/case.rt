//! What a source says of a name that may be an unsigned delegation.
ghost use Rattle.std.specs.FinSet as set;
ghost use Rattle.std.specs.Prelude.{◌≡◌, ◌≤◌, ◌<◌, IfOk, length};
ghost use Rattle.dnsv_names.specs.Name.{rightmost};
ghost use Rattle.dnsv_gaps.specs.Cases.{HasNone, HasOne, IsAt};
ghost use Rattle.dnsv_gaps.specs.SourceSearch.{IsSourceIn, said_in};
ghost use Rattle.dnsv_gaps.specs.questions.Cuts.{IsUnsignedAt};
ghost use Rattle.dnsv_gaps.specs.questions.CutSearch.{IsCaseOfCut, IsLowestPlace, held_instead};

use crate::asked::AskedQuestion;
use crate::sources::ZoneSource;
use crate::sources::saying::facts_saying;
use dnsv_names::RecordType;
use dnsv_proof_forms::{AskedName, AskedTypes, AskedWord, is_opt_out_source, places_saying};
use dnsv_records::TypeBitmap;
use dnsv_remedies::{CutCase, OptOutFacts, SignedCutFacts};
use std::alloc::{AllocError, Global};

/// The first case that is so of the name with so many labels.
pub fn cut_case(
    alloc: Global,
    question: &AskedQuestion<'_, '_>,
    source: &ZoneSource<'_>,
    name: usize,
) -> Result<CutCase, AllocError>
    requires source { IsSourceIn question.now source.now }
    requires below { 0 < name }
    requires within { name ≤ length question.now.name.now }
    ensures { IfOk result (IsCaseOfCut question.now source.now name) }
{
    let cut = AskedName::Above(name);
    let any = AskedWord::Types(AskedTypes::Any);
    let at = places_saying(alloc, question.name, cut, any, &source.records)?;
    if at.is_empty() {
        return Ok(uncovered_case(alloc, question, source, name)?);
    }
    let unsigned = AskedWord::Types(AskedTypes::UnsignedDelegation);
    let rrsets = facts_saying(alloc, question, source, cut, unsigned)?;
    if !rrsets.is_empty() {
        return Ok(CutCase::Delegation(rrsets));
    }
    Ok(lowest_case(alloc, question, source, name, at[0])?)
}

/// The case by the lowest record at the name, which has the place, where none is one of an unsigned delegation.
fn lowest_case(
    alloc: Global,
    question: &AskedQuestion<'_, '_>,
    source: &ZoneSource<'_>,
    name: usize,
    place: usize,
) -> Result<CutCase, AllocError>
    requires source { IsSourceIn question.now source.now }
    requires lowest { IsLowestPlace question.now source.now name place }
    requires none { HasNone (IsUnsignedAt (said_in question.now source.now) (rightmost question.now.name.now name)) }
    ensures { IfOk result (IsCaseOfCut question.now source.now name) }
{
    let types = source.records.types(place);
    if !types.contains(RecordType::NS) {
        return Ok(CutCase::NoCut);
    }
    let held = held_instead(types);
    let number = source.records.number(place);
    let Some(rrset) = question.facts.rrset_facts(alloc, number.rrset)? else {
        return Ok(CutCase::NoCut);
    };
    Ok(CutCase::Signed(SignedCutFacts {
        number,
        held,
        rrset,
    }))
}

/// DS, where that is there; else SOA.
fn held_instead(types: &TypeBitmap<'_>) -> RecordType
    ensures { result.0 ≡ held_instead (λ t. set.contains types.now t) }
{
    if types.contains(RecordType::DS) {
        return RecordType::DS;
    }
    RecordType::SOA
}

/// The case where no record is at the name.
fn uncovered_case(
    alloc: Global,
    question: &AskedQuestion<'_, '_>,
    source: &ZoneSource<'_>,
    name: usize,
) -> Result<CutCase, AllocError>
    requires source { IsSourceIn question.now source.now }
    requires below { 0 < name }
    requires within { name ≤ length question.now.name.now }
    requires none { HasNone (IsAt (said_in question.now source.now) (rightmost question.now.name.now name)) }
    ensures { IfOk result (IsCaseOfCut question.now source.now name) }
{
    let cut = AskedName::Above(name);
    let covers = facts_saying(alloc, question, source, cut, AskedWord::OptedOut)?;
    if !covers.is_empty() {
        let parent = AskedName::Above(name - 1);
        let shown = facts_saying(alloc, question, source, parent, AskedWord::Encloser)?;
        return Ok(CutCase::OptOut(OptOutFacts { shown, covers }));
    }
    if is_opt_out_source(&source.records) {
        return Ok(CutCase::Uncovered);
    }
    Ok(CutCase::Unmatched)
}
