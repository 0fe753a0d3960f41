//! Octets compared in lower case.
ghost use Rattle.std.specs.Prelude.{◌≡◌, ◌↔◌, ◌≤◌, ◌+◌, ℕ, IsTrue, map};
ghost use Rattle.std.specs.Char.{to_ascii_lowercase};
ghost use Rattle.std.specs.Ordering.{nat_cmp};
ghost use Rattle.dnsv_names.specs.Order.Ends.{EndAlike};
ghost use Rattle.dnsv_names.specs.Octets.{octets_cmp};

use std::cmp::Ordering;

/// The order of octets as they are in lower case: the first that differ decide, and a missing octet comes
/// before any other.
pub fn lower_order(a: &[u8], b: &[u8]) -> Ordering
    ensures { result ≡ octets_cmp (map to_ascii_lowercase a.now) (map to_ascii_lowercase b.now) }
{
    for i in 0..a.len().min(b.len()) {
        let order = octet_order(a[i], b[i]);
        if order != Ordering::Equal {
            return order;
        }
    }
    a.len().cmp(&b.len())
}

/// The order of two octets as they are in lower case.
fn octet_order(a: u8, b: u8) -> Ordering
    ensures { result ≡ nat_cmp (to_ascii_lowercase a) (to_ascii_lowercase b) }
{
    // Mostly they are the same already.
    if a == b {
        return Ordering::Equal;
    }
    a.to_ascii_lowercase().cmp(&b.to_ascii_lowercase())
}

/// How many octets are the same in lower case, from the right.
pub fn alike_at_end(a: &[u8], b: &[u8]) -> usize
    ensures alike { EndAlike a.now b.now result }
    ensures most { (n : ℕ) → EndAlike a.now b.now n → n ≤ result }
{
    let limit = a.len().min(b.len());
    for alike in 0..limit {
        if !is_same_octet(a[a.len() - 1 - alike], b[b.len() - 1 - alike]) {
            return alike;
        }
    }
    limit
}

/// Whether the octets are the same in lower case.
fn is_same_octet(a: u8, b: u8) -> bool
    ensures { IsTrue result ↔ (to_ascii_lowercase a ≡ to_ascii_lowercase b) }
{
    a == b || is_capital_of(a, b) || is_capital_of(b, a)
}

/// Whether the one octet is a capital letter, and the other is that letter in lower case.
fn is_capital_of(capital: u8, small: u8) -> bool
    ensures { IsTrue result ↔ ((65 ≤ capital) × (capital ≤ 90) × (small ≡ capital + 32)) }
{
    capital.is_ascii_uppercase() && small == capital + 32
}
