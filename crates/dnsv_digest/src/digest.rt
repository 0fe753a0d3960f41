//! The digests of DS records.
ghost use Rattle.std.specs.Prelude.{◌≡◌, ◌≤◌, ⊤, List, ℕ, nat_eq, length, IsTrue, ◌↔◌};
ghost use Rattle.std.specs.Cmp.{partial_equiv_from_equiv};
ghost use Rattle.std.specs.Cmp.Lexicographic.{lists_equiv, pointwise};
ghost use Rattle.std.proofs.lemmas.Cmp.{nat_eq_equiv};
ghost use Rattle.dnsv_digest.specs.Digest.{ds_digest_of};

use crate::digest_algorithm::{DIGEST_LIMIT, DigestAlgorithm};
use arrayvec::ArrayVec;
use dnsv_names::Name;
use std::alloc::AllocError;
use std::marker::Model;

/// A digest of a DS record, seen as its octets. It lies in the value itself and takes no memory.
#[derive(Debug, Drop)]
pub struct Digest {
    octets: ArrayVec<u8, DIGEST_LIMIT>,
}

impl Model for Digest {
    ghost Value = { List ℕ };

    ghost view = { λ digest. digest.octets.items };
}

impl PartialEq for Digest {
    ghost eq = { pointwise nat_eq };

    ghost laws = { partial_equiv_from_equiv (lists_equiv nat_eq_equiv) };

    fn eq(&self, other: &Digest) -> bool
        ensures value { result ≡ pointwise nat_eq self.now other.now }
        ensures same { IsTrue result ↔ (self.now ≡ other.now) }
    {
        self.octets.as_slice() == other.octets.as_slice()
    }
}

impl Eq for Digest {
    ghost laws = { lists_equiv nat_eq_equiv };
}

impl Clone for Digest {
    ghost is_clone = { λ digest clone. clone ≡ digest };

    ghost is_infallible = { λ _. ⊤ };

    fn clone(&self) -> Result<Digest, AllocError> {
        Ok(Digest::new(self.octets.as_slice()))
    }
}

impl Digest {
    /// The digest with these octets.
    pub(crate) fn new(octets: &[u8]) -> Digest
        requires { length octets.now ≤ DIGEST_LIMIT }
        ensures { result ≡ octets.now }
    {
        let mut digest = ArrayVec::new();
        digest.try_extend_from_slice(octets).unwrap();
        Digest { octets: digest }
    }

    /// The octets: 20 of SHA-1, 32 of SHA-256, 48 of SHA-384.
    pub fn octets(&self) -> &[u8]
        ensures { result.now ≡ self.now }
    {
        &self.octets
    }
}

/// The digest of a key, which its DS record holds (RFC 4034 5.1.4): the hash of its owner, uncompressed and in
/// lower case, followed by the RDATA of its DNSKEY record. `None` where the digest type isn't supported.
pub fn ds_digest(digest_type: u8, owner: &Name, rdata: &[u8]) -> Option<Digest>
    ensures { result ≡ ds_digest_of digest_type owner.now rdata.now }
{
    let digest_type = DigestAlgorithm::from_number(digest_type)?;
    let owner = owner.to_lower();
    Some(digest_type.digest(owner.wire(), rdata))
}
