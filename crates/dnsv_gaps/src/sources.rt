//! The sources of a zone: its records that may deny, whether they are trusted or not, chain by chain.

pub mod saying;
mod unusable;

ghost use Rattle.std.specs.Prelude.{◌≡◌, ◌↔◌, ◌≤◌, ◌++◌, ℕ, Contains, IfOk, List, OnOk, length};
ghost use Rattle.std.specs.List.Sorted.{IsStrictlySortedBy};
ghost use Rattle.std.specs.Ordering.{nat_cmp};
ghost use Rattle.dnsv_names.specs.Name.{rightmost};
ghost use Rattle.dnsv_gaps.specs.Denials.{IsDenialNumber};
ghost use Rattle.dnsv_proof_forms.specs.QuestionHashes.{AreUsed};
ghost use Rattle.dnsv_proof_forms.specs.words.ChainSaid.{HasHashes};
ghost use Rattle.dnsv_zones.specs.chains.Rdata.{parameters_of};
ghost use Rattle.dnsv_gaps.specs.Asking.{IsAsked, asking};
ghost use Rattle.dnsv_gaps.specs.SourceSearch.{AreHeldSources, AreItsRecords, AreNsecSources, AreNsec3Sources, AreZoneDenials, IsHeldIn, IsSourceIn, chain_of, held_chain, zone_in};
ghost use Rattle.dnsv_gaps.specs.declared.asked.AskedQuestion.{AskedQuestion};
ghost use Rattle.dnsv_gaps.specs.declared.sources.HeldSource.{HeldSource};

use crate::asked::AskedQuestion;
use crate::denials::denials_of;
use crate::sources::saying::has_any;
use crate::sources::unusable::unusable_of;
use dnsv_denial::{GatheredRecords, gathered_records};
use dnsv_proof_forms::{ChainRecords, HashedRecords, NsecEntry, is_source, parameters_in_order};
use dnsv_records::Nsec3Parameters;
use dnsv_remedies::UnusableFacts;
use std::alloc::{AllocError, Global};

/// The denials of a zone at or above the name that is asked for.
#[derive(Drop)]
pub struct ZoneDenials<'a> {
    /// How many labels the zone has.
    pub labels: usize,
    /// Whether there are any.
    pub has_denials: bool,
    /// Their NSEC records, and those of their NSEC3 records that are the zone's and can be used.
    pub records: GatheredRecords<'a>,
    /// Their NSEC3 records that can't be used, by their numbers.
    pub unusable: Vec<UnusableFacts>,
}

/// The records of a source, with the hashes that NSEC3 records are asked by.
#[derive(Clone, Copy)]
pub enum HeldSource<'r> {
    /// The NSEC records.
    Nsec(&'r [NsecEntry<'r>]),
    /// The NSEC3 records, of which those with the parameters of the hashes are meant.
    Nsec3(HashedRecords<'r>),
}

/// A source of a zone at or above the name that is asked for.
#[derive(Clone, Copy)]
pub struct ZoneSource<'r> {
    /// How many labels the zone has.
    pub labels: usize,
    pub records: ChainRecords<'r>,
}

impl HeldSource<'_> {
    /// The source, which is one of the zone with so many labels.
    pub fn source(&self, labels: usize) -> ZoneSource<'_>
        ensures labels { result.labels ≡ labels }
        ensures chain { chain_of result.records ≡ held_chain self.now }
        ensures its { (question : AskedQuestion) → labels ≤ length question.name.now → IsHeldIn question labels self.now
            → IsSourceIn question result }
    {
        ZoneSource {
            labels,
            records: self.records(),
        }
    }

    /// Its records.
    fn records(&self) -> ChainRecords<'_>
        ensures chain { chain_of result ≡ held_chain self.now }
        ensures its { (question : AskedQuestion) (labels : ℕ) → IsHeldIn question labels self.now
            → HasHashes question.name.now result × AreItsRecords (asking question) (zone_in question labels) result }
    {
        match self {
            HeldSource::Nsec(entries) => ChainRecords::Nsec(entries),
            HeldSource::Nsec3(hashed) => ChainRecords::Nsec3(hashed),
        }
    }
}

/// The denials of the zone with so many of the name's labels.
pub fn zone_denials<'a>(
    alloc: Global,
    question: &AskedQuestion<'a, '_>,
    labels: usize,
) -> Result<ZoneDenials<'a>, AllocError>
    requires asked { IsAsked question.now }
    requires within { labels ≤ length question.now.name.now }
    ensures labels { IfOk result (λ zone. zone.labels ≡ labels) }
    ensures denials { IfOk result (AreZoneDenials question.now) }
{
    let numbers = denials_of(alloc, question, labels)?;
    Ok(denials_with(alloc, question, labels, &numbers)?)
}

/// The same, which are the RRsets with these numbers.
fn denials_with<'a>(
    alloc: Global,
    question: &AskedQuestion<'a, '_>,
    labels: usize,
    numbers: &[usize],
) -> Result<ZoneDenials<'a>, AllocError>
    requires within { labels ≤ length question.now.name.now }
    requires order { IsStrictlySortedBy nat_cmp numbers.now }
    requires members { (k : ℕ) → Contains numbers.now k
        ↔ IsDenialNumber (asking question.now) (rightmost question.now.name.now labels) k }
    ensures labels { IfOk result (λ zone. zone.labels ≡ labels) }
    ensures denials { IfOk result (AreZoneDenials question.now) }
{
    let zone = question.name.suffix(labels);
    let capture = question.facts.capture();
    Ok(ZoneDenials {
        labels,
        has_denials: has_any(numbers),
        records: gathered_records(alloc, capture, &zone, numbers)?,
        unusable: unusable_of(alloc, capture, &zone, numbers)?,
    })
}

/// The sources of the zone in their order, those that have records: of NSEC, and then of NSEC3, by iterations and salt.
pub fn sources_of<'r>(
    alloc: Global,
    question: &'r AskedQuestion<'r, '_>,
    zone: &'r ZoneDenials<'r>,
) -> Result<Vec<HeldSource<'r>>, AllocError>
    requires asked { IsAsked question.now }
    requires zone { AreZoneDenials question.now zone.now }
    ensures { IfOk result (λ sources. AreHeldSources question.now zone.now.labels sources.items) }
{
    let mut sources = Vec::new(alloc);
    add_nsecs(&mut sources, zone)?;
    let all = question.facts.capture().nsec3_parameters();
    let ordered = parameters_in_order(alloc, all)?;
    for each in ordered.iter() {
        add_nsec3s(&mut sources, question, zone, each.parameters)?;
    }
    Ok(sources)
}

/// Adds the source of NSEC, if it has records.
fn add_nsecs<'r>(
    sources: &mut Vec<HeldSource<'r>>,
    zone: &'r ZoneDenials<'r>,
) -> Result<(), AllocError>
    ensures { OnOk result ((more : List HeldSource) × (sources.new.items ≡ sources.old.items ++ more)
        × AreNsecSources zone.now more) }
{
    if zone.records.nsecs.is_empty() {
        return Ok(());
    }
    let Ok(()) = sources.push(HeldSource::Nsec(&zone.records.nsecs)) else {
        return Err(AllocError);
    };
    Ok(())
}

/// Adds the source of NSEC3 with the parameters, if it has records.
fn add_nsec3s<'r>(
    sources: &mut Vec<HeldSource<'r>>,
    question: &'r AskedQuestion<'r, '_>,
    zone: &'r ZoneDenials<'r>,
    parameters: &Nsec3Parameters<'_>,
) -> Result<(), AllocError>
    requires { AreUsed question.now.hashes.now.rrsets (parameters_of parameters.now) }
    ensures { OnOk result ((more : List HeldSource) × (sources.new.items ≡ sources.old.items ++ more)
        × AreNsec3Sources question.now zone.now (parameters_of parameters.now) more) }
{
    let Some(hashed) = question.hashes.hashed(&zone.records.nsec3s, parameters) else {
        unreachable!();
    };
    if !is_source(&ChainRecords::Nsec3(&hashed)) {
        return Ok(());
    }
    let Ok(()) = sources.push(HeldSource::Nsec3(hashed)) else {
        return Err(AllocError);
    };
    Ok(())
}
