//! The canonical order of an RRset's RDATA.
ghost use Rattle.std.specs.Prelude.{◌≡◌, List, ℕ, IfOk, map};
ghost use Rattle.dnsv_canonical.specs.Canonical.{IsCanonical};

use dnsv_names::compare_octets;
use std::alloc::{AllocError, Global};

/// The RDATA of an RRset in canonical order (RFC 4034 6.3): rising as unsigned octets, a missing octet before
/// any other, and of equal ones one.
pub fn canonical_rdata<'a>(
    alloc: Global,
    received: &[&'a [u8]],
) -> Result<Vec<&'a [u8]>, AllocError>
    ensures order { IfOk result (λ sorted. IsCanonical (map (λ r. r.now) received.now)
        (map (λ r. r.now) sorted.items)) }
    // No other list is canonical.
    ensures only { IfOk result (λ sorted. (other : List (List ℕ)) → IsCanonical (map (λ r. r.now) received.now) other
        → other ≡ map (λ r. r.now) sorted.items) }
{
    let mut sorted = Vec::from_slice(alloc, received)?;
    sorted.sort_unstable_by(|a, b| compare_octets(a, b));
    sorted.dedup();
    Ok(sorted)
}
