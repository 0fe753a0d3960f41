//! What is so of a DNSKEY RRset and of what vouches for its keys.

use crate::facts::signature::{KeyAnswer, SignatureFaults};
use dnsv_canonical::{RecordNumber, SignatureNumber};
use dnsv_lines::{EntryNumber, KeyName, WhyEntry};

/// A signature of a DNSKEY RRset with the tag and the algorithm of a key in it, which isn't good under another key in it.
#[derive(Clone, Copy, Debug)]
pub struct SelfSignature {
    pub number: SignatureNumber,
    pub faults: SignatureFaults,
    /// What a verifier says of it under this key. It counts only where nothing else is wrong with it.
    pub answer: KeyAnswer,
}

/// A key in a DNSKEY RRset.
#[derive(Debug, Drop)]
pub struct HeldKey {
    pub number: RecordNumber,
    /// Its place among the keys of the zone (`ZoneFacts::keys`), from 0.
    pub key: usize,
    pub name: KeyName,
    /// Whether it is one that signs in the zone (RFC 4034 2.1.1).
    pub is_zone_key: bool,
    /// Whether the RRset has a signature with its tag and its algorithm.
    pub is_named: bool,
    /// Those that may be by this key, by their numbers.
    pub signatures: Vec<SelfSignature>,
}

/// What is so of a DNSKEY RRset.
#[derive(Debug, Drop)]
pub struct DnskeyFacts {
    /// Its number in the evidence.
    pub number: usize,
    pub is_trusted: bool,
    /// Whether it has signatures.
    pub has_signatures: bool,
    /// Its keys in canonical order.
    pub keys: Vec<HeldKey>,
}

/// What is so of a trust anchor, or of a DS record: it vouches for keys of its owner (RFC 4035 5).
#[derive(Debug, Drop)]
pub struct VoucherFacts {
    pub number: EntryNumber,
    /// Why it matches no key of the zone; `None` where it matches one.
    pub why: Option<WhyEntry>,
    /// The tag and the algorithm of the key that it asks for.
    pub name: KeyName,
    /// The places of the keys that it matches among those of the zone (`ZoneFacts::keys`), from 0.
    pub matches: Vec<usize>,
}
