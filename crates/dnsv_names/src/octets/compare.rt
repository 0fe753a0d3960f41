//! Octets compared eight at a time.
ghost use Rattle.std.specs.Prelude.{◌≡◌};
ghost use Rattle.dnsv_names.specs.Octets.{octets_cmp};

use crate::octets::u64_at;
use std::cmp::Ordering;

/// The order of octets as unsigned numbers: the first that differ decide, and a missing octet comes before any
/// other (RFC 4034 6.3). Eight octets as one number, the highest first, stand to eight others as these numbers do.
pub fn compare_octets(a: &[u8], b: &[u8]) -> Ordering
    ensures { result ≡ octets_cmp a.now b.now }
{
    let words = a.len().min(b.len()) / 8;
    for word in 0..words {
        let order = u64_at(a, 8 * word).cmp(&u64_at(b, 8 * word));
        if order != Ordering::Equal {
            return order;
        }
    }
    a[8 * words..].cmp(&b[8 * words..])
}
