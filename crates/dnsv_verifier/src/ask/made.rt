//! The signatures of the evidence that some key may have made.
ghost use Rattle.std.specs.Prelude.{◌≡◌, ◌↔◌, ◌<◌, [], IfOk, IsTrue, List, MatchOption, OnOk};
ghost use Rattle.dnsv_canonical.specs.SignedData.{signed_label_count};
ghost use Rattle.dnsv_canonical.specs.Rrsets.{ReceivedRrset};
ghost use Rattle.dnsv_verifier.specs.Asking.{AddsJust, AreMadeAt, ComesOfSome, IsMadeBySome, IsMadeIn, IsMadeOf, IsPartOf, KeepsNumbers, named_by};
ghost use Rattle.dnsv_verifier.specs.Table.{HasNumber};

use crate::admissible::{is_verifiable_within, may_have_made};
use crate::entry::parts::SignaturePart;
use crate::key::KeyRecord;
use crate::key::keys::Keys;
use crate::key::numbered::Numbered;
use crate::signed_data::SignedData;
use bumpalo::Bump;
use dnsv_canonical::{Rrset, SignatureNumber, SigningRoom, make_signed_data};
use dnsv_records::Rrsig;
use dnsv_timeline::Range;
use std::alloc::{AllocError, Global};
use std::marker::Model;

/// A signature that lies elsewhere, with what it gives to its entries.
#[derive(Drop)]
pub(crate) struct Made<'a> {
    pub(crate) rrsig: &'a Rrsig<'a>,
    pub(crate) part: SignaturePart<'a>,
}

impl<'a> Model for Made<'a> {
    ghost use Rattle.dnsv_verifier.specs.Asking.{MadeSignature};

    ghost Value = { MadeSignature };

    ghost view = { λ made. record { rrsig = made.rrsig.now; part = made.part } };
}

impl<'a> Made<'a> {
    /// The signature by what it names keys by, with a number.
    pub(crate) fn with_number(&self, number: u32) -> Numbered<'a>
        ensures { result ≡ record { name = named_by self.now.rrsig; number = number } }
    {
        let rrsig = self.rrsig;
        Numbered::new(
            rrsig.key_tag,
            rrsig.algorithm,
            rrsig.signer.copied(),
            number,
        )
    }
}

/// Signatures that were made, and the numbers of each.
#[derive(Drop)]
pub(crate) struct MadeSignatures<'a> {
    pub(crate) signatures: Vec<Made<'a>>,
    /// One for each, rising by RRset, and then by signature.
    pub(crate) numbers: Vec<SignatureNumber>,
}

/// How many octets of an RRSIG's RDATA stand before its signer (RFC 4034 3.1).
const FIXED_LENGTH: usize = 18;

/// Room in which signed data is made, and the records that were kept last: signatures of an RRset sign the same ones
/// nearly always.
#[derive(Drop)]
struct Making<'a> {
    room: SigningRoom,
    records: &'a [u8],
}

impl<'a> Making<'a> {
    /// The octets that stand in the room, kept in the arena. The records behind so many octets are kept but once where
    /// they are those that were kept last.
    fn kept(&mut self, bump: &'a Bump, front: usize) -> Result<SignedData<'a>, AllocError>
        ensures { IfOk result (λ made. made ≡ self.old.room.octets.items) }
    {
        let octets = self.room.octets.as_slice();
        if front < 16 || front > octets.len() {
            return Ok(SignedData::of(bump.try_alloc_slice_copy(octets)?));
        }
        let (front, records) = octets.split_at(front);
        if !are_same(self.records, records) {
            self.records = bump.try_alloc_slice_copy(records)?;
        }
        let front = bump.try_alloc_slice_copy(front)?;
        Ok(SignedData::in_two(front, self.records))
    }
}

/// Whether the octets are the same.
fn are_same(octets: &[u8], others: &[u8]) -> bool
    ensures { IsTrue result ↔ (octets.now ≡ others.now) }
{
    octets == others
}

/// Which signatures are looked for: those that can be verified at some moment of the range, and that one of the keys may
/// have made. What they give to their entries is kept in the arena.
#[derive(Drop)]
struct Sought<'k, 'a> {
    bump: &'a Bump,
    range: Range,
    keys: &'k Keys<'k>,
}

/// The signatures of the RRsets that can be verified at some moment of the range, and that some key may have made.
pub(crate) fn made_signatures<'a>(
    alloc: Global,
    bump: &'a Bump,
    range: Range,
    keys: &Keys<'_>,
    rrsets: &'a [Rrset<'a>],
) -> Result<MadeSignatures<'a>, AllocError>
    ensures adds { IfOk result (λ made. AddsJust (ComesOfSome (IsMadeIn range.from range.to keys.now) rrsets.now) []
        made.signatures.items) }
    ensures numbers { IfOk result (λ made. AreMadeAt rrsets.now made.numbers.items made.signatures.items) }
{
    let sought = Sought { bump, range, keys };
    let mut making = Making {
        room: SigningRoom::new(alloc),
        records: &[],
    };
    let mut made = MadeSignatures {
        signatures: Vec::new(alloc),
        numbers: Vec::new(alloc),
    };
    for (place, rrset) in rrsets.iter().enumerate() {
        add_rrset(alloc, &mut making, &sought, place + 1, rrset, &mut made)?;
    }
    Ok(made)
}

/// Adds such signatures of the RRset with the number.
fn add_rrset<'a>(
    alloc: Global,
    making: &mut Making<'a>,
    sought: &Sought<'_, 'a>,
    number: usize,
    rrset: &'a Rrset<'a>,
    made: &mut MadeSignatures<'a>,
) -> Result<(), AllocError>
    ensures adds { OnOk result (AddsJust (IsMadeIn sought.now.range.from sought.now.range.to sought.now.keys.now rrset.now)
        made.old.signatures.items made.new.signatures.items) }
    ensures numbers { OnOk result (KeepsNumbers number rrset.now made.old.numbers.items made.old.signatures.items
        made.new.numbers.items made.new.signatures.items) }
{
    for (place, rrsig) in rrset.signatures().iter().enumerate() {
        let number = SignatureNumber {
            rrset: number,
            signature: place + 1,
        };
        add_signature(alloc, making, sought, number, rrset, rrsig, made)?;
    }
    Ok(())
}

/// Adds the signature with the number if it is such.
fn add_signature<'a>(
    alloc: Global,
    making: &mut Making<'a>,
    sought: &Sought<'_, 'a>,
    number: SignatureNumber,
    rrset: &Rrset<'_>,
    rrsig: &'a Rrsig<'a>,
    made: &mut MadeSignatures<'a>,
) -> Result<(), AllocError>
    ensures adds { OnOk result (AddsJust (IsMadeOf sought.now.range.from sought.now.range.to sought.now.keys.now rrset.now
        rrsig.now) made.old.signatures.items made.new.signatures.items) }
    ensures numbers { OnOk result ((rrsets : List ReceivedRrset) → HasNumber rrsets number rrset.now rrsig.now
        → AreMadeAt rrsets made.old.numbers.items made.old.signatures.items
        → AreMadeAt rrsets made.new.numbers.items made.new.signatures.items) }
{
    if !is_verifiable_within(sought.range, rrset, rrsig) {
        return Ok(());
    }
    if !is_made_by_some(sought.keys, rrsig) {
        return Ok(());
    }
    let Some(part) = part_of(alloc, sought.bump, making, rrset, rrsig)? else {
        return Ok(());
    };
    made.numbers.push(number)?;
    made.signatures.push(Made { rrsig, part })?;
    Ok(())
}

/// Whether one of the keys may have made the signature.
fn is_made_by_some(keys: &Keys<'_>, rrsig: &Rrsig<'_>) -> bool
    ensures { IsTrue result ↔ IsMadeBySome keys.now rrsig.now }
{
    is_made_by_one(keys.named_by(rrsig), rrsig)
}

/// Whether one of these keys may have made the signature.
fn is_made_by_one(keys: &[KeyRecord<'_>], rrsig: &Rrsig<'_>) -> bool
    ensures { IsTrue result ↔ IsMadeBySome keys.now rrsig.now }
{
    keys.iter().any(|key| may_have_made(key, rrsig))
}

/// What the signature gives to its entries, its signed data made in the room and kept in the arena. `None` where Labels
/// is above the owner's count of labels.
fn part_of<'a>(
    alloc: Global,
    bump: &'a Bump,
    making: &mut Making<'a>,
    rrset: &Rrset<'_>,
    rrsig: &'a Rrsig<'a>,
) -> Result<Option<SignaturePart<'a>>, AllocError>
    ensures { IfOk result (λ found. MatchOption found (signed_label_count rrset.now.owner < rrsig.now.labels)
        (IsPartOf rrset.now rrsig.now)) }
{
    if !make_signed_data(alloc, &mut making.room, rrset, rrsig)? {
        return Ok(None);
    }
    let front = FIXED_LENGTH + rrsig.signer.wire().len();
    Ok(Some(SignaturePart {
        signed_data: making.kept(bump, front)?,
        signature: rrsig.signature.copied(),
    }))
}
