//! Which keys are delegated to by DS RRsets.
ghost use Rattle.std.specs.Prelude.{◌↔◌, IsTrue, map};
ghost use Rattle.dnsv_chain.specs.Chain.{IsDelegatedBySome};
ghost use Rattle.dnsv_anchors.specs.Ds.DsReading.{Leads};
ghost use Rattle.dnsv_chain.specs.Ds.DsReading.{DelegatesByDigest, DelegatesByType, HasSome, NamesByType};

use crate::matching::{digest_of, has_named, has_named_digest, is_owner};
use dnsv_anchors::leading_digest_type;
use dnsv_canonical::Rrset;
use dnsv_digest::Digest;
use dnsv_names::RecordType;
use dnsv_records::{DigestType, Ds};
use dnsv_verifier::KeyRecord;

/// SHA-1 (RFC 4034 A.2).
const SHA1: DigestType = DigestType(1);

/// SHA-256 (RFC 4509 5).
const SHA256: DigestType = DigestType(2);

/// SHA-384 (RFC 6605 2).
const SHA384: DigestType = DigestType(4);

/// Whether a usable record of one of the DS RRsets matches the key. The key is digested at most once by each digest
/// type, however many RRsets name it.
#[tactic(auto, using(crate::proofs::DelegatedLemmas::delegated_supported))]
pub fn is_delegated(delegations: &[&Rrset<'_>], key: &KeyRecord<'_>) -> bool
    ensures { IsTrue result ↔ IsDelegatedBySome (map (λ ds. ds.now) delegations.now) key.now }
{
    if !key.dnskey().algorithm.is_supported() {
        return false;
    }
    if is_delegated_by(delegations, SHA1, key) {
        return true;
    }
    if is_delegated_by(delegations, SHA256, key) {
        return true;
    }
    is_delegated_by(delegations, SHA384, key)
}

/// Whether a record that has the digest type, which is the one that counts in its DS RRset, matches the key.
#[tactic(auto, using(crate::proofs::DelegatedLemmas::type_names, crate::proofs::DelegatedLemmas::no_type, crate::proofs::DelegatedLemmas::type_by_digest))]
fn is_delegated_by(delegations: &[&Rrset<'_>], digest_type: DigestType, key: &KeyRecord<'_>) -> bool
    ensures { IsTrue result
        ↔ HasSome (λ ds. DelegatesByType ds digest_type.0 key.now) (map (λ ds. ds.now) delegations.now) }
{
    if !is_named(delegations, digest_type, key) {
        return false;
    }
    match digest_of(digest_type, key) {
        Some(digest) => has_digest(delegations, digest_type, key, &digest),
        None => false,
    }
}

/// Whether a record of one of the DS RRsets has the digest type, and the key's algorithm and tag.
#[tactic(auto, using(crate::proofs::DelegatedLemmas::some_found))]
fn is_named(delegations: &[&Rrset<'_>], digest_type: DigestType, key: &KeyRecord<'_>) -> bool
    ensures { IsTrue result
        ↔ HasSome (λ ds. NamesByType ds digest_type.0 key.now) (map (λ ds. ds.now) delegations.now) }
{
    for ds in delegations {
        if names_by_type(ds, digest_type, key) {
            return true;
        }
    }
    false
}

/// Whether it is a DS RRset, and one of its records has the digest type, and the key's algorithm and tag.
fn names_by_type(ds: &Rrset<'_>, digest_type: DigestType, key: &KeyRecord<'_>) -> bool
    ensures { IsTrue result ↔ NamesByType ds.now digest_type.0 key.now }
{
    match ds.rtype() {
        RecordType::DS => has_named(ds.ds_records(), digest_type, key),
        _ => false,
    }
}

/// Whether such a record has the digest, and its digest type is the one that counts in one of the DS RRsets.
#[tactic(auto, using(crate::proofs::DelegatedLemmas::some_found))]
fn has_digest(
    delegations: &[&Rrset<'_>],
    digest_type: DigestType,
    key: &KeyRecord<'_>,
    digest: &Digest,
) -> bool
    ensures { IsTrue result ↔ HasSome (λ ds. DelegatesByDigest ds digest_type.0 key.now digest.now)
        (map (λ ds. ds.now) delegations.now) }
{
    for ds in delegations {
        if delegates_by_digest(ds, digest_type, key, digest) {
            return true;
        }
    }
    false
}

/// Whether it is a DS RRset of the key's owner in which the digest type counts, and a record that names the key has the
/// digest.
#[tactic(auto, using(crate::proofs::DelegatedLemmas::digest_is_named))]
fn delegates_by_digest(
    ds: &Rrset<'_>,
    digest_type: DigestType,
    key: &KeyRecord<'_>,
    digest: &Digest,
) -> bool
    ensures { IsTrue result ↔ DelegatesByDigest ds.now digest_type.0 key.now digest.now }
{
    if ds.rtype() != RecordType::DS {
        return false;
    }
    if !is_owner(ds.owner(), key) {
        return false;
    }
    if !has_named_digest(ds.ds_records(), digest_type, key, digest) {
        return false;
    }
    leads_in(ds.ds_records(), digest_type)
}

/// Whether the digest type is the one that counts among the records.
fn leads_in(records: &[Ds<'_>], digest_type: DigestType) -> bool
    ensures { IsTrue result ↔ Leads records.now digest_type.0 }
{
    match leading_digest_type(records) {
        Some(leading) => leading.0 == digest_type.0,
        None => false,
    }
}
