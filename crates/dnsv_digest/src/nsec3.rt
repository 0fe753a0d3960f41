//! The hashes of names in the chain of NSEC3 records.
ghost use Rattle.std.specs.Prelude.{◌≡◌, ◌+◌, ◌++◌, List, ℕ};
ghost use Rattle.sha1.specs.Sha1.{sha1};
ghost use Rattle.dnsv_names.specs.Count.{counted};
ghost use Rattle.dnsv_digest.specs.Nsec3Hash.{iterated_hash, nsec3_hash_of};

use dnsv_names::{Count, Hash20, Name};
use sha1::{DIGEST_LEN, Sha1};

/// How many octets the salt of an NSEC3 record has at most (RFC 5155 3.1.4).
const SALT_LIMIT: usize = 255;

/// The hash of a name, uncompressed and in lower case: it is hashed with the salt behind it, and then each
/// hash is, `iterations` times (RFC 5155 5). `count` grows by the number of hashes, which is one more.
pub fn nsec3_hash(name: &Name, salt: &[u8], iterations: u16, count: &mut Count) -> Hash20
    ensures hash { result ≡ nsec3_hash_of name.now salt.now iterations }
    ensures count { count.new ≡ counted count.old (iterations + 1) }
{
    count.add(iterations as u64 + 1);
    let name = name.to_lower();
    let first = joined_hash(name.wire(), salt);
    Hash20::new(hashed_again(first, salt, iterations))
}

/// What becomes of a hash that is hashed so many times more, each time with the salt behind it.
///
/// The hash and the salt lie side by side, where each hash takes the place of the one before. What is longer
/// than a salt can be in a record is hashed from where it lies.
fn hashed_again(first: [u8; DIGEST_LEN], salt: &[u8], iterations: u16) -> [u8; DIGEST_LEN]
    ensures { (x : List ℕ) → first ≡ sha1 (x ++ salt.now) → result ≡ iterated_hash salt.now x iterations }
{
    let beside = salt.len().min(SALT_LIMIT);
    let end = DIGEST_LEN + beside;
    let rest = &salt[beside..];
    let mut hash = first;
    let mut joined = [0; DIGEST_LEN + SALT_LIMIT];
    joined[DIGEST_LEN..end].copy_from_slice(&salt[..beside]);
    for _ in 0..iterations {
        joined[..DIGEST_LEN].copy_from_slice(&hash);
        hash = joined_hash(&joined[..end], rest);
    }
    hash
}

/// The hash of two pieces as one message.
#[inline(always)]
fn joined_hash(front: &[u8], rest: &[u8]) -> [u8; DIGEST_LEN]
    ensures { result ≡ sha1 (front.now ++ rest.now) }
{
    let mut hasher = Sha1::new();
    hasher.update(front);
    if !rest.is_empty() {
        hasher.update(rest);
    }
    hasher.finalize()
}
