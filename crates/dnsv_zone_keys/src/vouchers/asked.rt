//! What trust anchors and DS records ask for.
ghost use Rattle.std.specs.Prelude.{◌≡◌, ◌↔◌, IsTrue};
ghost use Rattle.dnsv_names.specs.Octets.{number_at};
ghost use Rattle.dnsv_zone_keys.specs.Vouchers.{HasTag, HasUnknownDigest, IsMatchOf, IsWantedBy, wanted_key};
ghost use Rattle.dnsv_zone_keys.specs.Vouchers.VoucherSearch.{wanted_of};

use crate::vouchers::digested::DigestedKey;
use dnsv_digest::DigestAlgorithm;
use dnsv_lines::KeyName;
use dnsv_records::{Algorithm, Ds, KeyTag, key_tag};
use dnsv_verifier::KeyRecord;

/// What is asked for.
#[derive(Clone, Copy)]
pub enum Asked<'a> {
    /// The key of a DS record, of a trust anchor, or of a DS RRset with these records.
    Digest(&'a [Ds<'a>], &'a Ds<'a>),
    /// The key with the RDATA, which a trust anchor has.
    Key(&'a [u8]),
}

impl Asked<'_> {
    /// The tag and the algorithm of the key that is asked for.
    pub fn key_name(self) -> KeyName
        ensures { result ≡ wanted_key (wanted_of self.entry) }
    {
        match self {
            Asked::Digest(_, ds) => KeyName {
                tag: ds.key_tag,
                algorithm: ds.algorithm,
            },
            Asked::Key(rdata) => KeyName {
                tag: KeyTag(key_tag(rdata)),
                algorithm: Algorithm(algorithm_in(rdata)),
            },
        }
    }

    /// Whether its digest type isn't supported.
    pub(crate) fn has_unknown_digest(self) -> bool
        ensures { IsTrue result ↔ HasUnknownDigest (wanted_of self.entry) }
    {
        match self {
            Asked::Digest(_, ds) => DigestAlgorithm::from_number(ds.digest_type.0).is_none(),
            Asked::Key(_) => false,
        }
    }

    /// Whether the key has its tag; for a whole key, whether that is its RDATA.
    pub(crate) fn has_tag(self, key: &KeyRecord<'_>) -> bool
        ensures { IsTrue result ↔ HasTag (wanted_of self.entry) key.now }
    {
        match self {
            Asked::Digest(_, ds) => key.key_tag().0 == ds.key_tag.0,
            Asked::Key(rdata) => key.rdata() == rdata,
        }
    }

    /// Whether the key has its tag and its algorithm.
    pub(crate) fn is_wanted(self, key: &KeyRecord<'_>) -> bool
        ensures { IsTrue result ↔ IsWantedBy (wanted_of self.entry) key.now }
    {
        match self {
            Asked::Digest(_, ds) => {
                key.key_tag().0 == ds.key_tag.0 && key.dnskey().algorithm.0 == ds.algorithm.0
            }
            Asked::Key(rdata) => key.rdata() == rdata,
        }
    }

    /// Whether it matches the key.
    pub(crate) fn is_match(self, digested: &DigestedKey<'_>) -> bool
        ensures { IsTrue result ↔ IsMatchOf (wanted_of self.entry) digested.now.key }
    {
        match self {
            Asked::Digest(_, ds) => self.is_wanted(digested.key()) && digested.has_digest(ds),
            Asked::Key(rdata) => digested.key().rdata() == rdata,
        }
    }
}

/// The algorithm in the RDATA of a DNSKEY record (RFC 4034 2.1).
fn algorithm_in(rdata: &[u8]) -> u8
    ensures { result ≡ number_at rdata.now 3 1 }
{
    if rdata.len() < 4 {
        return 0;
    }
    rdata[3]
}
