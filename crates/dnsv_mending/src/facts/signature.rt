//! What is so of a signature and of the RRset that it signs.

use dnsv_canonical::SignatureNumber;
use dnsv_lines::SignatureTimes;

/// What a verifier says of a signature under a key.
#[derive(Clone, Copy, Debug)]
pub enum KeyAnswer {
    /// It is good: nothing is wrong with it under this key.
    Good,
    /// It is bad (RFC 4035 5.3.3).
    Bad,
    /// Nothing is known of it.
    Unanswered,
}

/// What is wrong with a signature, whichever key made it (RFC 4035 5.3.1).
#[derive(Clone, Copy, Debug)]
pub struct SignatureFaults {
    /// It counts more labels than the owner of its RRset has.
    pub labels: bool,
    /// Its signer can't be the zone of its RRset: it is not at or above the owner; or it is the owner of a DS RRset; or it
    /// isn't that of a DNSKEY RRset.
    pub signer: bool,
    /// It is one of a wildcard, and a wildcard stands for no RRset of this type.
    pub expanded: bool,
    /// Its algorithm isn't supported.
    pub algorithm: bool,
    /// Where the moment is before its inception, its times, and by how much.
    pub not_yet: Option<SignatureTimes>,
    /// Where the moment is behind its expiration, its times, and by how much.
    pub expired: Option<SignatureTimes>,
}

/// A zone key that a signature names by its tag and its algorithm.
#[derive(Clone, Copy, Debug)]
pub struct NamedKey {
    /// The place of the key among those of the signer (`ZoneFacts::keys`), from 0.
    pub key: usize,
    /// What a verifier says of the signature under it. It counts only where nothing else is wrong with the signature.
    pub answer: KeyAnswer,
}

/// What is so of a signature.
#[derive(Debug, Drop)]
pub struct SignatureFacts {
    pub number: SignatureNumber,
    /// The number of labels of its signer. It counts only where the signer is at or above the owner of the RRset.
    pub signer: usize,
    /// Whether it is good under a key of a trusted DNSKEY RRset of its signer.
    pub is_signed: bool,
    pub faults: SignatureFaults,
    /// Whether its signer has keys, and it names none of them.
    pub key_missing: bool,
    /// Whether it names keys of its signer, none of which is a zone key (RFC 4034 2.1.1).
    pub not_zone_key: bool,
    /// The zone keys that it names, each once, in the order in which they first stand in the DNSKEY RRsets of its signer.
    pub keys: Vec<NamedKey>,
}

/// What is so of an RRset.
#[derive(Debug, Drop)]
pub struct RrsetFacts {
    /// Its number in the evidence.
    pub number: usize,
    /// Its signatures: those by signers with most labels first, and of those of one signer the lowest first.
    pub signatures: Vec<SignatureFacts>,
}
