//! What is so of a zone.

use crate::facts::keys::{DnskeyFacts, VoucherFacts};
use crate::facts::signature::RrsetFacts;

/// A key of a zone: the RDATA of one or more of its DNSKEY records.
#[derive(Debug, Drop)]
pub struct ZoneKey {
    /// Whether a trusted DNSKEY RRset of the zone holds it.
    pub is_trusted: bool,
    /// The places of the RRsets that hold it among the DNSKEY RRsets of the zone (`ZoneFacts::dnskeys`), from 0, rising.
    pub holders: Vec<usize>,
}

/// A DS RRset of a zone.
#[derive(Debug, Drop)]
pub struct DsFacts {
    pub rrset: RrsetFacts,
    /// Its records in canonical order.
    pub records: Vec<VoucherFacts>,
}

/// What is so of a name at or above the name that is asked for, as a zone.
#[derive(Debug, Drop)]
pub struct ZoneFacts {
    /// Whether the evidence or an anchor speaks of it as of a zone: it owns an anchor, a DS or a DNSKEY RRset, or has signed
    /// what may answer or deny. Where a DS RRset is asked for, the name itself is none.
    pub is_known: bool,
    /// Whether a trust anchor is at or above it.
    pub is_anchored: bool,
    /// Its keys, each once.
    pub keys: Vec<ZoneKey>,
    /// Its DNSKEY RRsets by their numbers.
    pub dnskeys: Vec<DnskeyFacts>,
    /// The trust anchors at just this name, by their numbers.
    pub anchors: Vec<VoucherFacts>,
    /// Its DS RRsets by their numbers.
    pub ds: Vec<DsFacts>,
}
