//! What is inside of a signed message.
ghost use Rattle.std.specs.Prelude.{◌≡◌, ◌≤◌, ◌⊎◌, Err, IsOk, length};
ghost use Rattle.std.specs.Option.{option_copied};
ghost use Rattle.dnsv_names.specs.Name.{same_name};
ghost use Rattle.dnsv_tsig.specs.Key.{key_named};
ghost use Rattle.dnsv_tsig.specs.Answer.{answer_by, hmac_sha256_name, tsig_answer_of};

use crate::error::TsigError;
use crate::key_ring::KeyRing;
use crate::mac::{right_mac, stripped};
use crate::signature::{MAC_LENGTH, Signature, last_rdata};
use bumpalo::Bump;
use dnsv_message::Message;
use dnsv_names::Name;
use std::alloc::Global;
use std::marker::Model;

/// The wire form of `hmac-sha256.`, the one algorithm that is supported (RFC 8945 6).
const HMAC_SHA256: [u8; 13] = *b"\x0bhmac-sha256\0";

/// The message that a server signed, as it was before it was signed, and the key.
#[derive(Debug, Drop)]
pub struct Opened<'b> {
    message: &'b [u8],
    key: Name,
}

impl<'b> Model for Opened<'b> {
    ghost use Rattle.dnsv_tsig.specs.Opened.{OpenedMessage};

    ghost Value = { OpenedMessage };

    ghost view = { λ opened. record { message = opened.message.now; key = opened.key } };
}

impl<'b> Opened<'b> {
    /// The octets of the message without its TSIG record, which is no longer counted, and with the identifier that it
    /// had when it was signed.
    ///
    /// They may be refused as a message where a name in them has a pointer into the header, or to the TSIG record.
    pub fn message(&self) -> &'b [u8]
        ensures { result.now ≡ self.now.message }
    {
        self.message
    }

    /// The name of the key, as the ring spells it.
    pub fn key(&self) -> &Name
        ensures { result.now ≡ self.now.key }
    {
        &self.key
    }
}

/// Tests whether octets are a message that a server signed with a key of the ring (RFC 8945 5.2), and gives the message
/// inside, which is placed in the arena. `now` is the moment in seconds since 1970, and `request_mac` the MAC of the
/// request that was answered, where it had one.
///
/// The error is that of the first of these tests that fails. The octets are a message (`Unreadable`). It has a TSIG record
/// (`NoTsig`), which is formed as it has to be (`Form`). The ring has its key, and the algorithm is `hmac-sha256.`
/// (`BadKey`). The MAC is the right one or a beginning of it (`BadMac`). The moment is within the signature's time
/// (`BadTime`). The MAC is whole (`TruncatedMac`). The signer reports no error (`PeerError`).
pub fn open<'b>(
    alloc: Global,
    octets: &[u8],
    keys: &KeyRing,
    now: u64,
    request_mac: Option<&[u8; MAC_LENGTH]>,
    bump: &'b Bump,
) -> Result<Opened<'b>, TsigError>
    ensures { (result ≡ Err TsigError.OutOfMemory)
        ⊎ tsig_answer_of octets.now keys.now now (option_copied request_mac.entry) result }
{
    let (message, tail) = Message::decode_with_tail(alloc, octets)?;
    let Some(place) = tail else {
        return Err(TsigError::NoTsig);
    };
    let rdata = last_rdata(alloc, &message)?;
    let signature = Signature::of(&message, &rdata)?;
    answer(
        alloc,
        octets,
        place,
        &signature,
        keys,
        now,
        request_mac,
        bump,
    )
}

/// What is answered to octets by their signature, whose record begins at the place. Where memory is refused, the message
/// passes all tests.
#[tactic(auto, using(crate::proofs::AnswerLemmas::accepted))]
fn answer<'b>(
    alloc: Global,
    octets: &[u8],
    place: usize,
    signature: &Signature<'_>,
    keys: &KeyRing,
    now: u64,
    request_mac: Option<&[u8; MAC_LENGTH]>,
    bump: &'b Bump,
) -> Result<Opened<'b>, TsigError>
    requires header { 12 ≤ place }
    requires within { place ≤ length octets.now }
    requires mac { length signature.now.tsig.mac ≤ 32 }
    ensures { ((result ≡ Err TsigError.OutOfMemory) × IsOk (answer_by (key_named signature.now.owner.now keys.now) now
        (option_copied request_mac.entry) octets.now place signature.now.owner.now signature.now.tsig))
        ⊎ (result ≡ answer_by (key_named signature.now.owner.now keys.now) now (option_copied request_mac.entry)
        octets.now place signature.now.owner.now signature.now.tsig) }
{
    let Some(key) = keys.key_named(&signature.owner.to_name()) else {
        return Err(TsigError::BadKey);
    };
    if !is_hmac_sha256(&signature.tsig.algorithm) {
        return Err(TsigError::BadKey);
    }
    let right = right_mac(key.secret(), request_mac, octets, place, signature);
    signature.test(&right, now)?;
    let inside = stripped(alloc, octets, place, signature.tsig.original_id)?;
    let message: &[u8] = bump.try_alloc_slice_copy(&inside)?;
    Ok(Opened {
        message,
        key: key.name(),
    })
}

/// Whether the algorithm's name is the supported one, without regard to case.
fn is_hmac_sha256(algorithm: &Name) -> bool
    ensures { result ≡ same_name algorithm.now hmac_sha256_name }
{
    let Some((supported, _)) = Name::read(&HMAC_SHA256) else {
        return false;
    };
    *algorithm == supported
}
