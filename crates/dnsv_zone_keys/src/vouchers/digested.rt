//! Keys with their digests.
ghost use Rattle.std.specs.Prelude.{◌≡◌, ◌↔◌, IsTrue};
ghost use Rattle.dnsv_chain.specs.Ds.{HasDigestOf};
ghost use Rattle.dnsv_zone_keys.specs.Vouchers.VoucherSearch.{IsKeptDigest};

use crate::keys::placed::PlacedKey;
use dnsv_digest::{Digest, DigestAlgorithm, ds_digest};
use dnsv_records::Ds;
use dnsv_verifier::KeyRecord;
use std::marker::Model;

/// A key with its place and, where many may ask for them, with its digest by each digest type that is supported, worked out
/// once for all. It is seen as the key with its place.
#[derive(Drop)]
pub struct DigestedKey<'a> {
    placed: PlacedKey<'a>,
    sha1: Option<Digest>,
    sha256: Option<Digest>,
    sha384: Option<Digest>,
}

impl<'a> Model for DigestedKey<'a> {
    ghost use Rattle.dnsv_zone_keys.specs.Keys.Index.{Placed};
    ghost use Rattle.dnsv_zone_keys.specs.Vouchers.VoucherSearch.{AreDigestsOf};

    ghost Value = { Placed };

    ghost view = { λ digested. digested.placed };

    ghost invariant = { λ digested. AreDigestsOf digested.placed.key digested.sha1 digested.sha256 digested.sha384 };
}

impl<'a> DigestedKey<'a> {
    /// The key, with its digests where they are to be kept.
    pub fn new(placed: PlacedKey<'a>, is_kept: bool) -> DigestedKey<'a>
        ensures { result ≡ placed.entry }
    {
        let sha1 = kept_digest(is_kept, 1, placed.key());
        let sha256 = kept_digest(is_kept, 2, placed.key());
        let sha384 = kept_digest(is_kept, 4, placed.key());
        DigestedKey {
            placed,
            sha1,
            sha256,
            sha384,
        }
    }

    /// The place of the key among those of its zone.
    pub fn place(&self) -> usize
        ensures { result ≡ self.now.place }
    {
        self.placed.place()
    }

    /// The key.
    pub fn key(&self) -> &KeyRecord<'a>
        ensures { result.now ≡ self.now.key }
    {
        self.placed.key()
    }

    /// Whether the DS record's digest is the key's (RFC 4034 5.1.4).
    #[tactic(auto, using(crate::proofs::lemmas::VoucherLemmas::kept_sha1, crate::proofs::lemmas::VoucherLemmas::kept_sha256, crate::proofs::lemmas::VoucherLemmas::kept_sha384))]
    pub fn has_digest(&self, ds: &Ds<'_>) -> bool
        ensures { IsTrue result ↔ HasDigestOf ds.now self.now.key }
    {
        match DigestAlgorithm::from_number(ds.digest_type.0) {
            Some(DigestAlgorithm::Sha1) => is_digest(&self.sha1, ds, self.key()),
            Some(DigestAlgorithm::Sha256) => is_digest(&self.sha256, ds, self.key()),
            Some(DigestAlgorithm::Sha384) => is_digest(&self.sha384, ds, self.key()),
            None => false,
        }
    }
}

/// The key's digest by the digest type with the number, where it is to be kept.
#[tactic(auto, using(crate::proofs::lemmas::VoucherLemmas::kept_itself))]
fn kept_digest(is_kept: bool, digest_type: u8, key: &KeyRecord<'_>) -> Option<Digest>
    ensures { IsKeptDigest digest_type key.now result }
{
    if !is_kept {
        return None;
    }
    ds_digest(digest_type, key.owner(), key.rdata())
}

/// Whether the DS record's digest is the key's, which is worked out where it isn't kept.
#[tactic(auto, using(crate::proofs::lemmas::VoucherLemmas::kept_is))]
fn is_digest(kept: &Option<Digest>, ds: &Ds<'_>, key: &KeyRecord<'_>) -> bool
    requires { IsKeptDigest ds.now.digest_type.0 key.now kept.now }
    ensures { IsTrue result ↔ HasDigestOf ds.now key.now }
{
    if let Some(digest) = kept {
        return digest.octets() == ds.digest.as_slice();
    }
    match ds_digest(ds.digest_type.0, key.owner(), key.rdata()) {
        Some(digest) => digest.octets() == ds.digest.as_slice(),
        None => false,
    }
}
