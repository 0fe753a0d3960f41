//! Which keys a DS record matches.
ghost use Rattle.std.specs.Prelude.{◌≡◌, ◌↔◌, IsTrue};
ghost use Rattle.dnsv_names.specs.Name.{SameName};
ghost use Rattle.dnsv_digest.specs.Digest.{ds_digest_of};
ghost use Rattle.dnsv_chain.specs.Ds.{HasDigestOf, HasUsableMatch, IsMatch};
ghost use Rattle.dnsv_chain.specs.Ds.DsReading.{HasLeadingMatch, HasNamed, HasNamedDigest, NamesKey};

use dnsv_anchors::leading_digest_type;
use dnsv_digest::{Digest, ds_digest};
use dnsv_names::Name;
use dnsv_records::{DigestType, Ds};
use dnsv_verifier::KeyRecord;

/// Whether a DS record of the owner matches the key (RFC 4035 5.2): the key is the owner's, algorithm and key tag
/// agree, and the digest is the key's by a digest type that is supported.
pub fn is_match(owner: &Name, ds: &Ds<'_>, key: &KeyRecord<'_>) -> bool
    ensures { IsTrue result ↔ IsMatch owner.now ds.now key.now }
{
    names_key(ds, key) && is_owner(owner, key) && has_digest_of(ds, key)
}

/// Whether the key is one of the owner.
pub(crate) fn is_owner(owner: &Name, key: &KeyRecord<'_>) -> bool
    ensures { IsTrue result ↔ SameName owner.now key.now.owner }
{
    *owner == *key.owner()
}

/// Whether the record has the key's algorithm and tag.
fn names_key(ds: &Ds<'_>, key: &KeyRecord<'_>) -> bool
    ensures { IsTrue result ↔ NamesKey ds.now key.now }
{
    ds.algorithm.0 == key.dnskey().algorithm.0 && ds.key_tag.0 == key.key_tag().0
}

/// Whether the record's digest is the key's (RFC 4034 5.1.4).
fn has_digest_of(ds: &Ds<'_>, key: &KeyRecord<'_>) -> bool
    ensures { IsTrue result ↔ HasDigestOf ds.now key.now }
{
    match digest_of(ds.digest_type, key) {
        Some(digest) => digest.octets() == ds.digest.as_slice(),
        None => false,
    }
}

/// The key's digest by a digest type, `None` where that isn't supported (RFC 4034 5.1.4).
pub(crate) fn digest_of(digest_type: DigestType, key: &KeyRecord<'_>) -> Option<Digest>
    ensures { result ≡ ds_digest_of digest_type.0 key.now.owner key.now.rdata }
{
    ds_digest(digest_type.0, key.owner(), key.rdata())
}

/// Whether a usable record of a DS RRset of the owner matches the key.
pub fn has_usable_match(owner: &Name, records: &[Ds<'_>], key: &KeyRecord<'_>) -> bool
    ensures { IsTrue result ↔ HasUsableMatch owner.now records.now key.now }
{
    if !key.dnskey().algorithm.is_supported() {
        return false;
    }
    match leading_digest_type(records) {
        Some(leading) => has_leading_match(owner, records, leading, key),
        None => false,
    }
}

/// Whether a record of the owner has the digest type and matches the key. The key's digest is worked out once for all
/// records, and not at all where none names the key.
#[tactic(auto, using(crate::proofs::MatchingLemmas::same_owner, crate::proofs::MatchingLemmas::match_is_named, crate::proofs::MatchingLemmas::no_digest))]
fn has_leading_match(
    owner: &Name,
    records: &[Ds<'_>],
    digest_type: DigestType,
    key: &KeyRecord<'_>,
) -> bool
    ensures { IsTrue result ↔ HasLeadingMatch owner.now records.now digest_type.0 key.now }
{
    if !is_owner(owner, key) {
        return false;
    }
    if !has_named(records, digest_type, key) {
        return false;
    }
    match digest_of(digest_type, key) {
        Some(digest) => has_named_digest(records, digest_type, key, &digest),
        None => false,
    }
}

/// Whether a record has the digest type, and the key's algorithm and tag.
pub(crate) fn has_named(records: &[Ds<'_>], digest_type: DigestType, key: &KeyRecord<'_>) -> bool
    ensures { IsTrue result ↔ HasNamed records.now digest_type.0 key.now }
{
    records.iter().any(|ds| ds.digest_type.0 == digest_type.0 && names_key(ds, key))
}

/// Whether such a record has the digest.
pub(crate) fn has_named_digest(
    records: &[Ds<'_>],
    digest_type: DigestType,
    key: &KeyRecord<'_>,
    digest: &Digest,
) -> bool
    ensures { IsTrue result ↔ HasNamedDigest records.now digest_type.0 key.now digest.now }
{
    records.iter().any(|ds| {
        ds.digest_type.0 == digest_type.0
            && names_key(ds, key)
            && ds.digest.as_slice() == digest.octets()
    })
}
