//! What the records of a zone say of a question.

use crate::facts::name::UnusableFacts;
use dnsv_canonical::RecordNumber;
use dnsv_lines::WhySource;
use dnsv_mending::RrsetFacts;

/// What records at a name say of the type that is asked for.
#[derive(Debug, Drop)]
pub enum RecordsAt {
    /// Some deny it: their RRsets, by their numbers.
    Denying(Vec<RrsetFacts>),
    /// None does.
    Holding(HoldingFacts),
}

/// Records at a name that don't deny the type.
#[derive(Debug, Drop)]
pub struct HoldingFacts {
    /// Their RRsets, by their numbers.
    pub rrsets: Vec<RrsetFacts>,
    /// What is in the way in each record, by their numbers: that it has a type, or is one of a delegation.
    pub held: Vec<WhySource>,
}

/// A record above the name that is asked for which denies nothing below it (RFC 6840 4.1).
#[derive(Debug, Drop)]
pub struct ClosedFacts {
    /// How many labels the name of the record has.
    pub name: usize,
    pub number: RecordNumber,
    /// Whether it has the type DNAME; else it is one of a delegation.
    pub is_dname: bool,
    pub rrset: RrsetFacts,
}

/// What records say of the wildcard that might answer.
#[derive(Debug, Drop)]
pub enum WildcardFacts {
    /// Nothing is asked: the next closer name may be an unsigned delegation that was left out (RFC 5155 6).
    OptedOut,
    /// They are at it.
    At(RecordsAt),
    /// The RRsets with a record that says that it isn't there, or that it holds nothing, by their numbers.
    Covered(Vec<RrsetFacts>),
}

/// That the name isn't there: what records say of the longest of its ancestors that is shown to be there, of the name one
/// label below that, and of the wildcard (RFC 4035 5.4, RFC 5155 8.3 to 8.7).
#[derive(Debug, Drop)]
pub struct EncloserFacts {
    /// How many labels that ancestor has.
    pub name: usize,
    /// How many the next closer name has, the one below it at or above the name that is asked for.
    pub next: usize,
    /// The RRsets with a record that shows the ancestor, by their numbers; none where it is the zone, and the source one of
    /// NSEC.
    pub shown: Vec<RrsetFacts>,
    /// The RRsets with a record that covers the next closer name, by their numbers.
    pub covers: Vec<RrsetFacts>,
    pub wildcard: WildcardFacts,
}

/// What the records of a source say of the question: the first case that is so.
#[derive(Debug, Drop)]
pub enum SourceCase {
    /// A delegation or a DNAME is above the name, strictly below the zone: of the shortest such name the lowest record.
    Closed(ClosedFacts),
    /// Records are at the name.
    At(RecordsAt),
    /// The name is the zone itself.
    Apex,
    /// The RRsets with a record by which the name is an empty non-terminal, by their numbers.
    NonTerminal(Vec<RrsetFacts>),
    /// No ancestor of the name is shown to be there.
    NoEncloser,
    /// One is.
    Encloser(EncloserFacts),
}

/// A source of a zone, and what it says.
#[derive(Debug, Drop)]
pub struct SourceFacts {
    /// Its place among the sources of the zone, from 0.
    pub place: usize,
    pub case: SourceCase,
}

/// What a known zone has that may deny.
#[derive(Debug, Drop)]
pub struct SpeakerFacts {
    /// How many labels the zone has.
    pub labels: usize,
    /// Whether NSEC or NSEC3 RRsets are there that are its denials.
    pub has_denials: bool,
    /// Its sources: the NSEC records, then the NSEC3 records by their parameters.
    pub sources: Vec<SourceFacts>,
    /// Its NSEC3 records that can't be used, by their numbers.
    pub unusable: Vec<UnusableFacts>,
}
