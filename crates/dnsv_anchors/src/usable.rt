//! Which records of a DS RRset count.

ghost use Rattle.std.specs.Prelude.{◌↔◌, IsTrue};
ghost use Rattle.dnsv_anchors.specs.Ds.{GoesBefore, HasUsable, IsIgnored, IsSupported, IsUsable};
ghost use Rattle.dnsv_anchors.specs.Ds.DsReading.{HasSupported, IsLeading, TakesOver};

use dnsv_records::{DigestType, Ds};

/// Whether DS records of a digest type go before those of another of the same DS RRset, which are then ignored
/// (RFC 4509 3): both types are supported, and the first is the stronger one.
pub fn goes_before(first: DigestType, other: DigestType) -> bool
    ensures { IsTrue result ↔ GoesBefore first.0 other.0 }
{
    let Some(first) = dnsv_digest::DigestAlgorithm::from_number(first.0) else {
        return false;
    };
    let Some(other) = dnsv_digest::DigestAlgorithm::from_number(other.0) else {
        return false;
    };
    first.is_stronger_than(other)
}

/// Whether a record is usable in the DS RRset of these records: its algorithm and its digest type are supported, and
/// no record of the RRset has a supported digest type that is stronger (RFC 4509 3).
pub fn is_usable(records: &[Ds<'_>], ds: &Ds<'_>) -> bool
    ensures { IsTrue result ↔ IsUsable records.now ds.now }
{
    ds.algorithm.is_supported() && is_supported(ds.digest_type) && !is_ignored(records, ds)
}

/// Whether the DS RRset of these records has a usable one.
pub fn has_usable(records: &[Ds<'_>]) -> bool
    ensures { IsTrue result ↔ HasUsable records.now }
{
    match leading_digest_type(records) {
        Some(leading) => has_supported(records, leading),
        None => false,
    }
}

/// Whether a record has the digest type, and an algorithm that is supported.
fn has_supported(records: &[Ds<'_>], digest_type: DigestType) -> bool
    ensures { IsTrue result ↔ HasSupported records.now digest_type.0 }
{
    records.iter().any(|ds| ds.digest_type.0 == digest_type.0 && ds.algorithm.is_supported())
}

/// The digest type whose records count in the DS RRset: the strongest of those that are supported, `None` where no
/// record has one. Finding it once spares the search for a stronger one for each record.
pub fn leading_digest_type(records: &[Ds<'_>]) -> Option<DigestType>
    ensures { IsLeading records.now result }
{
    let mut leading = None;
    for ds in records {
        if takes_over(ds.digest_type, leading) {
            leading = Some(ds.digest_type);
        }
    }
    leading
}

/// Whether a digest type takes the place of the one that led so far.
fn takes_over(digest_type: DigestType, leading: Option<DigestType>) -> bool
    ensures { IsTrue result ↔ TakesOver digest_type.0 leading }
{
    match leading {
        None => is_supported(digest_type),
        Some(leading) => goes_before(digest_type, leading),
    }
}

/// Whether the digest type is supported.
fn is_supported(digest_type: DigestType) -> bool
    ensures { IsTrue result ↔ IsSupported digest_type.0 }
{
    dnsv_digest::DigestAlgorithm::from_number(digest_type.0).is_some()
}

/// Whether the record is ignored beside another of the DS RRset.
fn is_ignored(records: &[Ds<'_>], ds: &Ds<'_>) -> bool
    ensures { IsTrue result ↔ IsIgnored records.now ds.now }
{
    records
        .iter()
        .any(|other| goes_before(other.digest_type, ds.digest_type))
}
