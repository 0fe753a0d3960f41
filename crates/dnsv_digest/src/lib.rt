//! The hashes of DNSSEC and TSIG: digests of DS records (RFC 4034 5.1.4, RFC 4509), hashes of names in NSEC3
//! records (RFC 5155 5), and HMAC over SHA-256 (RFC 2104). No call takes memory.
#![tactic(auto)]

pub use digest::{Digest, ds_digest};
pub use digest_algorithm::DigestAlgorithm;
pub use hmac::hmac_sha256;
pub use nsec3::nsec3_hash;

mod digest;
mod digest_algorithm;
mod hmac;
mod nsec3;
