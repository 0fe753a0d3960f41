//! MACs of messages (RFC 8945 4.3), and the messages inside of signed ones.
ghost use Rattle.std.specs.Prelude.{◌≡◌, ◌≤◌, ◌-◌, length, IfOk};
ghost use Rattle.std.specs.Option.{option_copied};
ghost use Rattle.std.specs.Int.{w16, to_be_bytes};
ghost use Rattle.dnsv_names.specs.Octets.{number_at};
ghost use Rattle.dnsv_tsig.specs.Mac.{request_part, stripped, tsig_mac_of};
ghost use Rattle.dnsv_tsig.specs.Answer.{begins_mac};

use crate::signature::{MAC_LENGTH, Signature};
use arrayvec::ArrayVec;
use dnsv_digest::hmac_sha256;
use dnsv_names::u16_at;
use std::alloc::{AllocError, Global};

/// How many octets the MAC of a request has with its length.
const REQUEST_PART: usize = 2 + MAC_LENGTH;

/// Class ANY and TTL 0, as they are signed.
const CLASS_AND_TTL: [u8; 6] = [0, 255, 0, 0, 0, 0];

/// The right MAC of a message whose TSIG record begins at the place.
pub fn right_mac(
    secret: &[u8],
    request_mac: Option<&[u8; MAC_LENGTH]>,
    octets: &[u8],
    place: usize,
    signature: &Signature<'_>,
) -> [u8; MAC_LENGTH]
    requires header { 12 ≤ place }
    requires within { place ≤ length octets.now }
    ensures { result ≡ tsig_mac_of secret.now (option_copied request_mac.entry) octets.now place
        signature.now.owner.now signature.now.tsig }
{
    let tsig = &signature.tsig;
    let request = request_part(request_mac);
    let owner = signature.owner.to_name().to_lower();
    let algorithm = tsig.algorithm.to_lower();
    hmac_sha256(
        secret,
        &[
            request.as_slice(),
            &tsig.original_id.to_be_bytes(),
            &octets[2..10],
            &count_without_one(octets),
            &octets[12..place],
            owner.wire(),
            &CLASS_AND_TTL,
            algorithm.wire(),
            &tsig.time_signed.to_be_bytes()[2..],
            &tsig.fudge.to_be_bytes(),
            &tsig.error.to_be_bytes(),
            &(tsig.other.len() as u16).to_be_bytes(),
            tsig.other,
        ],
    )
}

/// The MAC of the request behind its length, or nothing where there was no request.
fn request_part(request_mac: Option<&[u8; MAC_LENGTH]>) -> ArrayVec<u8, REQUEST_PART>
    ensures { result.items ≡ request_part (option_copied request_mac.entry) }
{
    let mut part = ArrayVec::new();
    if let Some(mac) = request_mac {
        part.try_extend_from_slice(&(MAC_LENGTH as u16).to_be_bytes())
            .unwrap();
        part.try_extend_from_slice(mac).unwrap();
    }
    part
}

/// The octets of the message inside of a signed one.
pub fn stripped(
    alloc: Global,
    octets: &[u8],
    place: usize,
    original_id: u16,
) -> Result<Vec<u8>, AllocError>
    requires header { 12 ≤ place }
    requires within { place ≤ length octets.now }
    ensures { IfOk result (λ message. message.items ≡ stripped octets.now place original_id) }
{
    let mut message = Vec::with_capacity(alloc, place)?;
    message.extend_from_slice(&original_id.to_be_bytes())?;
    message.extend_from_slice(&octets[2..10])?;
    message.extend_from_slice(&count_without_one(octets))?;
    message.extend_from_slice(&octets[12..place])?;
    Ok(message)
}

/// How many records the additional section has, less one.
fn count_without_one(octets: &[u8]) -> [u8; 2]
    requires { 12 ≤ length octets.now }
    ensures { result ≡ to_be_bytes w16 (number_at octets.now 10 2 - 1) }
{
    u16_at(octets, 10).saturating_sub(1).to_be_bytes()
}

/// Whether the MAC is the right one or a beginning of it. All octets are compared, whatever differs first; that it
/// takes the same time for all MACs of one length is not promised.
pub fn begins_mac(mac: &[u8], right: &[u8; MAC_LENGTH]) -> bool
    requires { length mac.now ≤ 32 }
    ensures { result ≡ begins_mac mac.now right.now }
{
    let mut same = true;
    for (i, octet) in mac.iter().enumerate() {
        same = same & (*octet == right[i]);
    }
    same
}
