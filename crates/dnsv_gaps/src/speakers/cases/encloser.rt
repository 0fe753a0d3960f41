//! The longest ancestor that is shown to be there, and what is said of the name below it and of the wildcard.
ghost use Rattle.std.specs.Prelude.{◌↔◌, ◌+◌, ◌<◌, ◌≤◌, IfOk, IsTrue, MatchOption, length};
ghost use Rattle.dnsv_names.specs.Name.{rightmost};
ghost use Rattle.dnsv_names.specs.Tree.{wildcard_of};
ghost use Rattle.dnsv_chain.specs.Basis.{basis_by};
ghost use Rattle.dnsv_gaps.specs.Cases.{AreShowing, AreWildcardFacts, HasNoneShown, IsBestCover, IsOptedOut, IsLongestShown, IsNotThere, IsShown, IsSourceCase};
ghost use Rattle.dnsv_gaps.specs.Parts.{AreFactsOf};
ghost use Rattle.dnsv_gaps.specs.SourceSearch.{IsSourceIn, said_in, zone_in};

use crate::asked::AskedQuestion;
use crate::sources::ZoneSource;
use crate::sources::saying::{facts_saying, has_saying};
use crate::speakers::cases::at_name::records_at;
use dnsv_mending::RrsetFacts;
use dnsv_proof_forms::{AskedName, AskedTypes, AskedWord, has_encloser, needs_none};
use dnsv_remedies::{EncloserFacts, SourceCase, WildcardFacts};
use std::alloc::{AllocError, Global};

/// The case where no case before is so: an ancestor is shown to be there, or none is.
pub fn encloser_case(
    alloc: Global,
    question: &AskedQuestion<'_, '_>,
    source: &ZoneSource<'_>,
) -> Result<SourceCase, AllocError>
    requires source { IsSourceIn question.now source.now }
    requires before { IsNotThere (said_in question.now source.now) (zone_in question.now source.now.labels) question.now.name.now }
    ensures { IfOk result (IsSourceCase (basis_by question.now.facts.now) (said_in question.now source.now)
        (zone_in question.now source.now.labels) question.now.name.now question.now.rtype.0) }
{
    // A name has at most 127 labels.
    let _ = question.name.labels();
    let Some(labels) = longest_shown(question, source) else {
        return Ok(SourceCase::NoEncloser);
    };
    let shown = showing(alloc, question, source, labels)?;
    let covers = cover_facts(alloc, question, source, labels)?;
    let wildcard = wildcard_facts(alloc, question, source, labels)?;
    Ok(SourceCase::Encloser(EncloserFacts {
        name: labels,
        next: labels + 1,
        shown,
        covers,
        wildcard,
    }))
}

/// How many labels the longest proper ancestor of the name in the zone has that is shown to be there.
fn longest_shown(question: &AskedQuestion<'_, '_>, source: &ZoneSource<'_>) -> Option<usize>
    requires { IsSourceIn question.now source.now }
    ensures { MatchOption result
        (HasNoneShown (said_in question.now source.now) (zone_in question.now source.now.labels) question.now.name.now)
        (IsLongestShown (said_in question.now source.now) (zone_in question.now source.now.labels) question.now.name.now) }
{
    let mut labels = question.name.labels();
    while labels > source.labels {
        labels -= 1;
        if is_shown(question, source, labels) {
            return Some(labels);
        }
    }
    None
}

/// Whether the name's so many rightmost labels are shown to be there, or are the zone, where the records are of NSEC.
fn is_shown(question: &AskedQuestion<'_, '_>, source: &ZoneSource<'_>, labels: usize) -> bool
    requires source { IsSourceIn question.now source.now }
    requires within { labels ≤ length question.now.name.now }
    ensures { IsTrue result ↔ IsShown (said_in question.now source.now) (rightmost question.now.name.now labels) }
{
    let zone = question.name.suffix(source.labels);
    has_encloser(&zone, question.name, labels, &source.records)
}

/// What is so of the RRsets that show them; of none where they are the zone, and the records are of NSEC.
fn showing(
    alloc: Global,
    question: &AskedQuestion<'_, '_>,
    source: &ZoneSource<'_>,
    labels: usize,
) -> Result<Vec<RrsetFacts>, AllocError>
    requires source { IsSourceIn question.now source.now }
    requires within { labels ≤ length question.now.name.now }
    ensures { IfOk result (λ facts. AreShowing (basis_by question.now.facts.now) (said_in question.now source.now)
        (rightmost question.now.name.now labels) facts.items) }
{
    let zone = question.name.suffix(source.labels);
    if needs_none(&zone, question.name, labels, &source.records) {
        return Ok(Vec::new(alloc));
    }
    let name = AskedName::Above(labels);
    let word = AskedWord::Encloser;
    Ok(facts_saying(alloc, question, source, name, word)?)
}

/// What is so of the RRsets whose records cover the next closer name without the Opt-Out flag, or where there are none, with it.
fn cover_facts(
    alloc: Global,
    question: &AskedQuestion<'_, '_>,
    source: &ZoneSource<'_>,
    labels: usize,
) -> Result<Vec<RrsetFacts>, AllocError>
    requires source { IsSourceIn question.now source.now }
    requires within { labels < length question.now.name.now }
    ensures { IfOk result (λ facts. AreFactsOf (basis_by question.now.facts.now)
        (IsBestCover (said_in question.now source.now) (rightmost question.now.name.now (labels + 1))) facts.items) }
{
    // A name has at most 127 labels.
    let _ = question.name.labels();
    let next = AskedName::Above(labels + 1);
    let is_absent = has_saying(alloc, question, source, next, AskedWord::Absent)?;
    if is_absent {
        let firm = facts_saying(alloc, question, source, next, AskedWord::Absent)?;
        return Ok(firm);
    }
    let opted = facts_saying(alloc, question, source, next, AskedWord::OptedOut)?;
    Ok(opted)
}

/// Whether records with the Opt-Out flag alone cover the next closer name.
fn is_opted_out(
    alloc: Global,
    question: &AskedQuestion<'_, '_>,
    source: &ZoneSource<'_>,
    labels: usize,
) -> Result<bool, AllocError>
    requires source { IsSourceIn question.now source.now }
    requires within { labels < length question.now.name.now }
    ensures { IfOk result (λ is. IsTrue is
        ↔ IsOptedOut (said_in question.now source.now) (rightmost question.now.name.now (labels + 1))) }
{
    // A name has at most 127 labels.
    let _ = question.name.labels();
    let next = AskedName::Above(labels + 1);
    let is_absent = has_saying(alloc, question, source, next, AskedWord::Absent)?;
    if is_absent {
        return Ok(false);
    }
    let opts_out = has_saying(alloc, question, source, next, AskedWord::OptedOut)?;
    Ok(opts_out)
}

/// What is said of the wildcard right below them.
fn wildcard_facts(
    alloc: Global,
    question: &AskedQuestion<'_, '_>,
    source: &ZoneSource<'_>,
    labels: usize,
) -> Result<WildcardFacts, AllocError>
    requires source { IsSourceIn question.now source.now }
    requires within { labels < length question.now.name.now }
    ensures { IfOk result (AreWildcardFacts (basis_by question.now.facts.now) (said_in question.now source.now)
        (rightmost question.now.name.now (labels + 1)) (wildcard_of (rightmost question.now.name.now labels))
        question.now.rtype.0) }
{
    // A name has at most 127 labels.
    let _ = question.name.labels();
    let opts_out = is_opted_out(alloc, question, source, labels)?;
    if opts_out {
        return Ok(WildcardFacts::OptedOut);
    }
    let wildcard = AskedName::Wildcard(labels);
    let word = AskedWord::Types(AskedTypes::Any);
    let is_there = has_saying(alloc, question, source, wildcard, word)?;
    if is_there {
        let records = records_at(alloc, question, source, wildcard)?;
        return Ok(WildcardFacts::At(records));
    }
    let covers = facts_saying(alloc, question, source, wildcard, AskedWord::RuledOut)?;
    Ok(WildcardFacts::Covered(covers))
}
