//! Keys with their digests.
ghost use Rattle.std.specs.Prelude.{◌≡◌, ◌↔◌, IsTrue, Some};
ghost use Rattle.dnsv_chain.specs.Ds.{HasDigestOf, IsMatch};
ghost use Rattle.dnsv_digest.specs.Digest.{ds_digest_of};
ghost use Rattle.dnsv_derivations.specs.Following.{IsNamed};

use dnsv_digest::{Digest, DigestAlgorithm, ds_digest};
use dnsv_records::Ds;
use dnsv_verifier::KeyRecord;
use std::marker::Model;

/// A key with its digest by each digest type that is supported, worked out once for all DS records that may name it.
/// It is seen as the key.
#[derive(Drop)]
pub struct DigestedKey<'a> {
    key: &'a KeyRecord<'a>,
    sha1: Option<Digest>,
    sha256: Option<Digest>,
    sha384: Option<Digest>,
}

impl<'a> Model for DigestedKey<'a> {
    ghost use Rattle.dnsv_verifier.specs.Admissible.{DnskeyRecord};
    ghost use Rattle.dnsv_derivations.specs.Digests.{AreDigestsOf};

    ghost Value = { DnskeyRecord };

    ghost view = { λ digested. digested.key.now };

    ghost invariant = { λ digested. AreDigestsOf digested.key.now digested.sha1 digested.sha256 digested.sha384 };
}

impl<'a> DigestedKey<'a> {
    /// The key with its digests.
    pub fn new(key: &'a KeyRecord<'a>) -> DigestedKey<'a>
        ensures { result ≡ key.now }
    {
        DigestedKey {
            key,
            sha1: digest_of(1, key),
            sha256: digest_of(2, key),
            sha384: digest_of(4, key),
        }
    }

    /// The key.
    pub fn key(&self) -> &KeyRecord<'a>
        ensures { result.now ≡ self.now }
    {
        self.key
    }

    /// Whether the DS record matches the key, by its own owner.
    pub fn is_match(&self, ds: &Ds<'_>) -> bool
        ensures { IsTrue result ↔ IsMatch self.now.owner ds.now self.now }
    {
        names(ds, self.key) && self.has_digest(ds)
    }

    /// Whether the DS record's digest is the key's (RFC 4034 5.1.4).
    fn has_digest(&self, ds: &Ds<'_>) -> bool
        ensures { IsTrue result ↔ HasDigestOf ds.now self.now }
    {
        match DigestAlgorithm::from_number(ds.digest_type.0) {
            Some(DigestAlgorithm::Sha1) => is_digest(&self.sha1, ds),
            Some(DigestAlgorithm::Sha256) => is_digest(&self.sha256, ds),
            Some(DigestAlgorithm::Sha384) => is_digest(&self.sha384, ds),
            None => false,
        }
    }
}

/// The key's digest by the digest type with the number.
fn digest_of(digest_type: u8, key: &KeyRecord<'_>) -> Option<Digest>
    ensures { result ≡ ds_digest_of digest_type key.now.owner key.now.rdata }
{
    ds_digest(digest_type, key.owner(), key.rdata())
}

/// Whether the digest is there, and is the DS record's.
fn is_digest(digest: &Option<Digest>, ds: &Ds<'_>) -> bool
    ensures { IsTrue result ↔ (digest.now ≡ Some ds.now.digest) }
{
    match digest {
        Some(digest) => digest.octets() == ds.digest.as_slice(),
        None => false,
    }
}

/// Whether the key has the tag and the algorithm of the DS record.
fn names(ds: &Ds<'_>, key: &KeyRecord<'_>) -> bool
    ensures { IsTrue result ↔ IsNamed key.now (record { tag = ds.now.key_tag; algorithm = ds.now.algorithm }) }
{
    ds.key_tag.0 == key.key_tag().0 && ds.algorithm.0 == key.dnskey().algorithm.0
}
