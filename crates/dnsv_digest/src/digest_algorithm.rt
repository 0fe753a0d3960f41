//! Which digest types of DS records are supported.
ghost use Rattle.std.specs.Prelude.{◌≡◌, ◌++◌, ◌↔◌, IsTrue};
ghost use Rattle.dnsv_digest.specs.DigestAlgorithm.{IsStronger, digest_algorithm_of, hash_of, strength_of};

use crate::digest::Digest;
use sha1::Sha1;
use sha2::{Digest as Hasher, Sha256, Sha384};

/// A digest type of DS records that is supported. Any other is a number without a value here.
#[derive(Clone, Copy, Debug, PartialEq, Eq)]
pub enum DigestAlgorithm {
    /// SHA-1, with the number 1 (RFC 4034 A.2).
    Sha1,
    /// SHA-256, with the number 2 (RFC 4509 5).
    Sha256,
    /// SHA-384, with the number 4 (RFC 6605 2).
    Sha384,
}

/// How many octets a digest has at most.
pub const DIGEST_LIMIT: usize = 48;

impl DigestAlgorithm {
    /// The digest type with this number; `None` where it isn't supported.
    pub fn from_number(number: u8) -> Option<DigestAlgorithm>
        ensures { result ≡ digest_algorithm_of number }
    {
        match number {
            1 => Some(DigestAlgorithm::Sha1),
            2 => Some(DigestAlgorithm::Sha256),
            4 => Some(DigestAlgorithm::Sha384),
            _ => None,
        }
    }

    /// Whether this digest type goes before the other where a zone has DS records of both (RFC 4509 3).
    pub fn is_stronger_than(self, other: DigestAlgorithm) -> bool
        ensures { IsTrue result ↔ IsStronger self other }
    {
        self.strength() > other.strength()
    }

    /// How strong the digest type is beside the others, which their numbers don't tell by themselves.
    fn strength(self) -> u8
        ensures { result ≡ strength_of self }
    {
        match self {
            DigestAlgorithm::Sha1 => 1,
            DigestAlgorithm::Sha256 => 2,
            DigestAlgorithm::Sha384 => 3,
        }
    }

    /// The hash of a message that comes in two pieces.
    pub(crate) fn digest(self, first: &[u8], second: &[u8]) -> Digest
        ensures { result ≡ hash_of self (first.now ++ second.now) }
    {
        match self {
            DigestAlgorithm::Sha1 => {
                let mut hasher = Sha1::new();
                hasher.update(first);
                hasher.update(second);
                Digest::new(&hasher.finalize())
            }
            DigestAlgorithm::Sha256 => {
                let mut hasher = Sha256::new();
                hasher.update(first);
                hasher.update(second);
                Digest::new(&hasher.finalize())
            }
            DigestAlgorithm::Sha384 => {
                let mut hasher = Sha384::new();
                hasher.update(first);
                hasher.update(second);
                Digest::new(&hasher.finalize())
            }
        }
    }
}
