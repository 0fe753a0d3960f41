//! What the records of a zone say of a name below it that may be an unsigned delegation.

use crate::facts::name::UnusableFacts;
use dnsv_canonical::RecordNumber;
use dnsv_mending::RrsetFacts;
use dnsv_names::RecordType;

/// A record at the name that isn't one of an unsigned delegation.
#[derive(Debug, Drop)]
pub struct SignedCutFacts {
    pub number: RecordNumber,
    /// What it has: DS, or else SOA.
    pub held: RecordType,
    pub rrset: RrsetFacts,
}

/// That unsigned delegations may be left out at the name (RFC 5155 6).
#[derive(Debug, Drop)]
pub struct OptOutFacts {
    /// The RRsets with a record that shows the name's parent to be there, by their numbers.
    pub shown: Vec<RrsetFacts>,
    /// Those with a record of opt-out that covers the name, by their numbers.
    pub covers: Vec<RrsetFacts>,
}

/// What the records of a source say of the name: the first case that is so (RFC 4035 5.2, RFC 5155 8.9).
#[derive(Debug, Drop)]
pub enum CutCase {
    /// The RRsets with a record of an unsigned delegation at it, by their numbers.
    Delegation(Vec<RrsetFacts>),
    /// The lowest record at it says that it is no delegation.
    NoCut,
    /// The lowest record at it has DS or SOA.
    Signed(SignedCutFacts),
    /// Opt-out covers it.
    OptOut(OptOutFacts),
    /// None of these, and a record of the source has Opt-Out.
    Uncovered,
    /// None of these.
    Unmatched,
}

/// A source of the zone, and what it says.
#[derive(Debug, Drop)]
pub struct CutSource {
    /// Its place among the sources of the zone, from 0.
    pub place: usize,
    pub case: CutCase,
}

/// A name that may be an unsigned delegation.
#[derive(Debug, Drop)]
pub struct CutFacts {
    /// How many labels it has.
    pub name: usize,
    /// Whether something in the evidence shows a delegation there, signed or not, and above it none.
    pub is_shown: bool,
    /// What each source of the zone says of it.
    pub sources: Vec<CutSource>,
}

/// A known zone with a trust anchor at or above it, and the names below it, at or above the name that is asked for.
#[derive(Debug, Drop)]
pub struct ParentFacts {
    /// How many labels the zone has.
    pub labels: usize,
    /// From few labels to many.
    pub cuts: Vec<CutFacts>,
    /// Its NSEC3 records that can't be used, by their numbers.
    pub unusable: Vec<UnusableFacts>,
}
