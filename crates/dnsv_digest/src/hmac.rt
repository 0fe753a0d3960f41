//! HMAC over SHA-256 (RFC 2104).
ghost use Rattle.std.specs.Prelude.{◌≡◌, ◌-◌, ◌≤◌, ◌++◌, length, map, replicate};
ghost use Rattle.std.specs.List.{concat};
ghost use Rattle.dnsv_digest.specs.Hmac.{block_key, masked, hmac_sha256_of};

use sha2::{Digest, Sha256};

/// How many octets SHA-256 takes at a time (RFC 2104 2).
const BLOCK_LENGTH: usize = 64;

/// The octet of the inner pad (RFC 2104 2).
const INNER_PAD: u8 = 0x36;

/// The octet of the outer pad (RFC 2104 2).
const OUTER_PAD: u8 = 0x5c;

/// The HMAC of a text that comes in pieces, by SHA-256 and a key of any length (RFC 2104 2).
pub fn hmac_sha256(key: &[u8], pieces: &[&[u8]]) -> [u8; 32]
    ensures { result ≡ hmac_sha256_of key.now (concat (map (λ piece. piece.now) pieces.now)) }
{
    let block = block_key(key);
    let mut inner = Sha256::new();
    inner.update(masked(block, INNER_PAD));
    for piece in pieces {
        inner.update(*piece);
    }
    let mut outer = Sha256::new();
    outer.update(masked(block, OUTER_PAD));
    outer.update(inner.finalize());
    outer.finalize()
}

/// The key, or its hash where it is longer than a block, with zeros behind it up to a block.
fn block_key(key: &[u8]) -> [u8; BLOCK_LENGTH]
    ensures { result ≡ block_key key.now }
{
    if key.len() > BLOCK_LENGTH {
        zero_padded(&Sha256::digest(key))
    } else {
        zero_padded(key)
    }
}

/// The octets with zeros behind them up to a block.
fn zero_padded(octets: &[u8]) -> [u8; BLOCK_LENGTH]
    requires { length octets.now ≤ BLOCK_LENGTH }
    ensures { result ≡ octets.now ++ replicate (64 - length octets.now) 0 }
{
    let mut block = [0; BLOCK_LENGTH];
    block[..octets.len()].copy_from_slice(octets);
    block
}

/// The block with each octet in exclusive or with the pad's.
fn masked(block: [u8; BLOCK_LENGTH], pad: u8) -> [u8; BLOCK_LENGTH]
    ensures { result ≡ masked block pad }
{
    let mut masked = block;
    for octet in masked.iter_mut() {
        *octet ^= pad;
    }
    masked
}
