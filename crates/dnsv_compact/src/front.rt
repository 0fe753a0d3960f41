//! What a signature signs before the records.
ghost use Rattle.std.specs.Prelude.{◌≡◌, IfOk};
ghost use Rattle.dnsv_canonical.specs.SignedData.{signed_front};

use dnsv_records::Rrsig;
use std::alloc::{AllocError, Global};

/// The RDATA of the signature without the signature itself, its signer in lower case (RFC 4034 3.1.8.1).
pub fn front_of(alloc: Global, rrsig: &Rrsig<'_>) -> Result<Vec<u8>, AllocError>
    ensures { IfOk result (λ front. front.items ≡ signed_front rrsig.now) }
{
    let mut octets = Vec::new(alloc);
    octets.extend_from_slice(&rrsig.type_covered.0.to_be_bytes())?;
    octets.push(rrsig.algorithm.0)?;
    octets.push(rrsig.labels)?;
    octets.extend_from_slice(&rrsig.original_ttl.0.to_be_bytes())?;
    octets.extend_from_slice(&rrsig.expiration.0.to_be_bytes())?;
    octets.extend_from_slice(&rrsig.inception.0.to_be_bytes())?;
    octets.extend_from_slice(&rrsig.key_tag.0.to_be_bytes())?;
    octets.extend_from_slice(rrsig.signer.to_name().to_lower().wire())?;
    Ok(octets)
}
