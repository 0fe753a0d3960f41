//! What a source says of the question: the first case that is so.

mod at_name;
mod closed;
mod encloser;

ghost use Rattle.std.specs.Prelude.{◌≡◌, ◌↔◌, IfOk, IsTrue, length};
ghost use Rattle.dnsv_chain.specs.Basis.{basis_by};
ghost use Rattle.dnsv_gaps.specs.Cases.{HasNoneClosed, IsSourceCase};
ghost use Rattle.dnsv_gaps.specs.SourceSearch.{IsSourceIn, said_in, zone_in};

use crate::asked::AskedQuestion;
use crate::sources::ZoneSource;
use crate::sources::saying::{facts_saying, has_saying};
use crate::speakers::cases::at_name::records_at;
use crate::speakers::cases::closed::first_closed;
use crate::speakers::cases::encloser::encloser_case;
use dnsv_proof_forms::{AskedName, AskedTypes, AskedWord};
use dnsv_remedies::SourceCase;
use std::alloc::{AllocError, Global};

/// The first case that is so.
pub fn source_case(
    alloc: Global,
    question: &AskedQuestion<'_, '_>,
    source: &ZoneSource<'_>,
) -> Result<SourceCase, AllocError>
    requires { IsSourceIn question.now source.now }
    ensures { IfOk result (IsSourceCase (basis_by question.now.facts.now) (said_in question.now source.now)
        (zone_in question.now source.now.labels) question.now.name.now question.now.rtype.0) }
{
    let found = first_closed(alloc, question, source)?;
    if let Some(closed) = found {
        return Ok(SourceCase::Closed(closed));
    }
    Ok(open_case(alloc, question, source)?)
}

/// The first of those behind it, where no closed record is above the name.
fn open_case(
    alloc: Global,
    question: &AskedQuestion<'_, '_>,
    source: &ZoneSource<'_>,
) -> Result<SourceCase, AllocError>
    requires source { IsSourceIn question.now source.now }
    requires before { HasNoneClosed (said_in question.now source.now) (zone_in question.now source.now.labels)
        question.now.name.now }
    ensures { IfOk result (IsSourceCase (basis_by question.now.facts.now) (said_in question.now source.now)
        (zone_in question.now source.now.labels) question.now.name.now question.now.rtype.0) }
{
    let name = AskedName::Above(question.name.labels());
    let word = AskedWord::Types(AskedTypes::Any);
    let is_there = has_saying(alloc, question, source, name, word)?;
    if is_there {
        let records = records_at(alloc, question, source, name)?;
        return Ok(SourceCase::At(records));
    }
    if is_apex(question, source) {
        return Ok(SourceCase::Apex);
    }
    let word = AskedWord::EmptyNonTerminal;
    let is_empty = has_saying(alloc, question, source, name, word)?;
    if is_empty {
        let rrsets = facts_saying(alloc, question, source, name, word)?;
        return Ok(SourceCase::NonTerminal(rrsets));
    }
    Ok(encloser_case(alloc, question, source)?)
}

/// Whether the name is that of the zone.
fn is_apex(question: &AskedQuestion<'_, '_>, source: &ZoneSource<'_>) -> bool
    ensures { IsTrue result ↔ (source.now.labels ≡ length question.now.name.now) }
{
    source.labels == question.name.labels()
}
