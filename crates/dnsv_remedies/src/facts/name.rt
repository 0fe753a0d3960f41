//! What lines about denials name.

use dnsv_canonical::RecordNumber;
use dnsv_lines::WhyNsec3;

/// A name that a record is to be at, or to cover.
#[derive(Clone, Copy, Debug)]
pub enum AskedName {
    /// The name with so many labels at or above the name that is asked for.
    At(usize),
    /// The wildcard below the name with so many labels.
    Wildcard(usize),
}

/// A source of a zone: its NSEC records, or its NSEC3 records with the same parameters.
#[derive(Clone, Copy, Debug)]
pub struct SourceNumber {
    /// How many labels the zone has.
    pub zone: usize,
    /// The place of the source among those of the zone, from 0.
    pub place: usize,
}

/// A name below a zone, at or above the name that is asked for: how many labels both have.
#[derive(Clone, Copy, Debug)]
pub struct CutNumber {
    pub zone: usize,
    pub name: usize,
}

/// An NSEC3 record that can't be used, and why.
#[derive(Clone, Copy, Debug)]
pub struct UnusableFacts {
    pub why: WhyNsec3,
    pub number: RecordNumber,
}
