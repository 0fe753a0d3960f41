//! The signatures of a capture that can be verified, by what they sign.
ghost use Rattle.std.specs.Prelude.{◌≡◌, ◌↔◌, ℕ, Contains, IfOk, List, OnOk, MatchOption};
ghost use Rattle.std.specs.List.Sorted.{IsSorted};
ghost use Rattle.std.specs.declared.cmp.Ordering.TheVariants.{Equal};
ghost use Rattle.dnsv_canonical.specs.SignedData.{IsSignedData};
ghost use Rattle.dnsv_verifier.specs.Asking.{AddsJust};
ghost use Rattle.dnsv_compact.specs.Signed.{AreSignedIn, IsSignedAmong, IsSignedBy, IsSignedIn, IsFirstSigned, part_cmp, signed_cmp};
ghost use Rattle.dnsv_compact.specs.declared.signed.Signed.{Signed};

use bumpalo::Bump;
use dnsv_canonical::{Rrset, SigningRoom, make_signed_data};
use dnsv_names::compare_octets;
use dnsv_records::{Octets, Rrsig};
use dnsv_timeline::Range;
use dnsv_verifier::{Entry, SignedData, is_verifiable_within};
use std::alloc::{AllocError, Global};
use std::cmp::Ordering;

/// A signature of an RRset, by the numbers of both, with what it signs. Such are ordered by what is signed, the signature,
/// and then by their numbers.
#[derive(Debug, PartialEq, Eq, PartialOrd, Ord, Drop)]
pub(crate) struct Signed<'b> {
    pub(crate) octets: Octets<'b>,
    pub(crate) made: Octets<'b>,
    pub(crate) rrset: usize,
    pub(crate) signature: usize,
}

impl Signed<'_> {
    /// How what is signed and the signature stand to those of the entry.
    fn compared(&self, entry: &Entry<'_>) -> Ordering
        ensures { result ≡ part_cmp self.now entry.now }
    {
        let (octets, made) = (self.octets.as_slice(), self.made.as_slice());
        let signature = entry.signature.as_slice();
        SignedData::of(octets)
            .cmp(&entry.signed_data)
            .then_with(|| compare_octets(made, signature))
    }
}

/// The signatures of the RRsets that can be verified at some moment of the range, in their order. What they sign lies in the arena.
pub(crate) fn all_signed<'b>(
    alloc: Global,
    bump: &'b Bump,
    range: Range,
    rrsets: &'b [Rrset<'b>],
) -> Result<Vec<Signed<'b>>, AllocError>
    ensures { IfOk result (λ signed. AreSignedIn range.from range.to rrsets.now signed.items) }
{
    let mut signed = gathered(alloc, bump, range, rrsets)?;
    signed.sort_unstable();
    Ok(signed)
}

/// Those of all RRsets.
fn gathered<'b>(
    alloc: Global,
    bump: &'b Bump,
    range: Range,
    rrsets: &'b [Rrset<'b>],
) -> Result<Vec<Signed<'b>>, AllocError>
    ensures { IfOk result (λ signed. (each : Signed) → Contains signed.items each ↔ IsSignedIn range.from range.to rrsets.now each) }
{
    let mut signed = Vec::new(alloc);
    let mut room = SigningRoom::new(alloc);
    for place in 0..rrsets.len() {
        add_rrset(
            alloc,
            bump,
            &mut room,
            range,
            place + 1,
            &rrsets[place],
            &mut signed,
        )?;
    }
    Ok(signed)
}

/// Adds those of the RRset with the number.
fn add_rrset<'b>(
    alloc: Global,
    bump: &'b Bump,
    room: &mut SigningRoom,
    range: Range,
    number: usize,
    rrset: &'b Rrset<'b>,
    signed: &mut Vec<Signed<'b>>,
) -> Result<(), AllocError>
    ensures { OnOk result (AddsJust (IsSignedAmong range.from range.to number rrset.now) signed.old.items signed.new.items) }
{
    let signatures = rrset.signatures();
    for place in 0..signatures.len() {
        add_signature(
            alloc,
            bump,
            room,
            range,
            number,
            place + 1,
            rrset,
            &signatures[place],
            signed,
        )?;
    }
    Ok(())
}

/// Adds the signature with the number, if it can be verified.
fn add_signature<'b>(
    alloc: Global,
    bump: &'b Bump,
    room: &mut SigningRoom,
    range: Range,
    number: usize,
    signature: usize,
    rrset: &Rrset<'_>,
    rrsig: &'b Rrsig<'b>,
    signed: &mut Vec<Signed<'b>>,
) -> Result<(), AllocError>
    ensures { OnOk result (AddsJust (IsSignedBy range.from range.to number rrset.now signature rrsig.now) signed.old.items
        signed.new.items) }
{
    if !is_verifiable_within(range, rrset, rrsig) {
        return Ok(());
    }
    let Some(octets) = octets_of(alloc, bump, room, rrset, rrsig)? else {
        return Ok(());
    };
    signed.push(Signed {
        octets,
        made: rrsig.signature.copied(),
        rrset: number,
        signature,
    })?;
    Ok(())
}

/// What the signature signs, made in the room and kept in the arena. `None` where Labels is above the owner's count of
/// labels.
fn octets_of<'b>(
    alloc: Global,
    bump: &'b Bump,
    room: &mut SigningRoom,
    rrset: &Rrset<'_>,
    rrsig: &Rrsig<'_>,
) -> Result<Option<Octets<'b>>, AllocError>
    ensures { IfOk result (IsSignedData rrset.now.owner rrset.now.rtype rrset.now.rdata rrsig.now) }
{
    if !make_signed_data(alloc, room, rrset, rrsig)? {
        return Ok(None);
    }
    let octets = bump.try_alloc_slice_copy(&room.octets)?;
    Ok(Some(Octets::of(octets)))
}

/// The first of the signatures that sign the entry's octets and are its signature.
pub(crate) fn first_of<'s, 'b>(
    signed: &'s [Signed<'b>],
    entry: &Entry<'_>,
) -> Option<&'s Signed<'b>>
    requires { IsSorted signed_cmp signed.now }
    ensures { MatchOption result ((each : Signed) → Contains signed.now each → part_cmp each entry.now ≡ Equal → ⊥)
        (λ found. (each : Signed) → Contains signed.now each → part_cmp each entry.now ≡ Equal
        → IsFirstSigned signed.now entry.now found.now each) }
{
    let start = signed.partition_point(|each| each.compared(entry).is_lt());
    if start >= signed.len() {
        return None;
    }
    Some(&signed[start])
}
