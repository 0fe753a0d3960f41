//! What has to be mended so that an RRset is signed by a zone that is taken as trusted.
ghost use Rattle.std.specs.Prelude.{◌≡◌, ◌&&◌, IfOk, OnOk, map, flat_map, slice_get};
ghost use Rattle.std.specs.List.{list_any};
ghost use Rattle.std.specs.Option.{option_map};
ghost use Rattle.dnsv_mending.specs.Level.{seen_level};
ghost use Rattle.dnsv_mending.specs.Mend.{Offers, cheapest, seen};
ghost use Rattle.dnsv_mending.specs.Within.{is_by, is_signer_trusted, milder, mildest, mildest_from, own_lines, own_way, own_ways, unfounded, within_ways, zone_signature_ways};
ghost use Rattle.dnsv_mending.specs.declared.facts.signature.KeyAnswer.TheVariants as answer;

use crate::facts::signature::{KeyAnswer, NamedKey, RrsetFacts, SignatureFacts};
use crate::faults::{push_answer, signature_lines};
use crate::level::Level;
use crate::mend::{Mend, is_none, offer};
use crate::price::Class;
use crate::told::Told;
use dnsv_lines::WhySignature;
use std::alloc::{AllocError, Global};

/// The least that has to be mended so that the RRset is signed by the zone with so many labels, which is taken as trusted;
/// `levels` are those of the zones, from the root down.
pub fn within_mend(
    alloc: Global,
    levels: &[Level],
    zone: usize,
    rrset: &RrsetFacts,
) -> Result<Option<Mend>, AllocError>
    ensures { IfOk result (λ best. option_map seen best ≡ cheapest (within_ways (map seen_level levels.now) zone rrset.now)) }
{
    if is_signed_by(zone, &rrset.signatures) {
        return Ok(Some(Mend::nothing(alloc)));
    }
    if is_none(&rrset.signatures) {
        return Ok(Some(Mend::fault(alloc, Told::Unsigned(rrset.number))?));
    }
    let mut best = None;
    if is_one_by(zone, &rrset.signatures) {
        offer_by_zone(alloc, levels, zone, &rrset.signatures, &mut best)?;
    } else {
        offer_all(alloc, levels, &rrset.signatures, &mut best)?;
    }
    Ok(best)
}

/// Whether the signature is by the zone.
fn is_by(zone: usize, signature: &SignatureFacts) -> bool
    ensures { result ≡ is_by zone signature.now }
{
    !signature.faults.signer && signature.signer == zone
}

/// Whether one of those by the zone is kept as good.
fn is_signed_by(zone: usize, signatures: &[SignatureFacts]) -> bool
    ensures { result ≡ list_any (λ s. is_by zone s && s.is_signed) signatures.now }
{
    signatures
        .iter()
        .any(|signature| is_by(zone, signature) && signature.is_signed)
}

/// Whether one of them is by the zone.
fn is_one_by(zone: usize, signatures: &[SignatureFacts]) -> bool
    ensures { result ≡ list_any (is_by zone) signatures.now }
{
    signatures.iter().any(|signature| is_by(zone, signature))
}

/// Offers each of them that is by the zone.
#[tactic(auto, using(crate::proofs::Lists::offered_next))]
fn offer_by_zone(
    alloc: Global,
    levels: &[Level],
    zone: usize,
    signatures: &[SignatureFacts],
    best: &mut Option<Mend>,
) -> Result<(), AllocError>
    ensures { OnOk result (Offers (flat_map (zone_signature_ways (map seen_level levels.now) zone) signatures.now) best.old best.new) }
{
    for signature in signatures {
        offer_one_by_zone(alloc, levels, zone, signature, best)?;
    }
    Ok(())
}

/// Offers the signature, where it is by the zone.
#[tactic(auto, unfolding(crate::specs::Within::zone_signature_ways))]
fn offer_one_by_zone(
    alloc: Global,
    levels: &[Level],
    zone: usize,
    signature: &SignatureFacts,
    best: &mut Option<Mend>,
) -> Result<(), AllocError>
    ensures { OnOk result (Offers (zone_signature_ways (map seen_level levels.now) zone signature.now) best.old best.new) }
{
    if is_by(zone, signature) {
        offer(best, own_way(alloc, levels, signature)?);
    }
    Ok(())
}

/// Offers each of them.
#[tactic(auto, using(crate::proofs::Lists::offered_next))]
fn offer_all(
    alloc: Global,
    levels: &[Level],
    signatures: &[SignatureFacts],
    best: &mut Option<Mend>,
) -> Result<(), AllocError>
    ensures { OnOk result (Offers (flat_map (own_ways (map seen_level levels.now)) signatures.now) best.old best.new) }
{
    for signature in signatures {
        offer_one(alloc, levels, signature, best)?;
    }
    Ok(())
}

/// Offers the signature.
#[tactic(auto, unfolding(crate::specs::Within::own_ways))]
fn offer_one(
    alloc: Global,
    levels: &[Level],
    signature: &SignatureFacts,
    best: &mut Option<Mend>,
) -> Result<(), AllocError>
    ensures { OnOk result (Offers (own_ways (map seen_level levels.now) signature.now) best.old best.new) }
{
    offer(best, own_way(alloc, levels, signature)?);
    Ok(())
}

/// What has to be mended of the signature itself.
fn own_way(alloc: Global, levels: &[Level], signature: &SignatureFacts) -> Result<Mend, AllocError>
    ensures { IfOk result (λ m. seen m ≡ own_way (map seen_level levels.now) signature.now) }
{
    let lines = own_lines(alloc, signature)?;
    if is_none(&lines) {
        return unfounded(
            alloc,
            is_signer_trusted(levels, signature.signer),
            signature,
        );
    }
    Ok(Mend::telling(alloc, lines))
}

/// What is wrong with the signature itself.
fn own_lines(alloc: Global, signature: &SignatureFacts) -> Result<Vec<Told>, AllocError>
    ensures { IfOk result (λ lines. lines.items ≡ own_lines signature.now) }
{
    let mut lines = signature_lines(alloc, signature)?;
    push_answer(&mut lines, signature.number, mildest(signature))?;
    Ok(lines)
}

/// The answer under which least is wrong with it, of those under the keys that it names.
fn mildest(signature: &SignatureFacts) -> KeyAnswer
    ensures { result ≡ mildest signature.now }
{
    if is_none(&signature.keys) {
        KeyAnswer::Good
    } else {
        mildest_of(&signature.keys)
    }
}

/// That of some keys.
fn mildest_of(keys: &[NamedKey]) -> KeyAnswer
    ensures { result ≡ mildest_from answer.Bad keys.now }
{
    let mut least = KeyAnswer::Bad;
    for key in keys {
        least = milder(least, key.answer);
    }
    least
}

/// The one of both under which less is wrong.
fn milder(one: KeyAnswer, other: KeyAnswer) -> KeyAnswer
    ensures { result ≡ milder one other }
{
    match (one, other) {
        (KeyAnswer::Good, _) | (_, KeyAnswer::Good) => KeyAnswer::Good,
        (KeyAnswer::Bad, _) => other,
        (KeyAnswer::Unanswered, _) => KeyAnswer::Unanswered,
    }
}

/// Whether the signer is trusted.
fn is_signer_trusted(levels: &[Level], signer: usize) -> bool
    ensures { result ≡ is_signer_trusted (slice_get (map seen_level levels.now) signer) }
{
    match levels.get(signer) {
        Some(level) => level.is_trusted,
        None => false,
    }
}

/// What has to be mended of a signature with which nothing is wrong.
fn unfounded(
    alloc: Global,
    is_trusted: bool,
    signature: &SignatureFacts,
) -> Result<Mend, AllocError>
    ensures { IfOk result (λ m. seen m ≡ unfounded is_trusted signature.now) }
{
    if !is_trusted {
        return Mend::fault(alloc, Told::Follows(signature.number));
    }
    let why = Told::Signature(WhySignature::KeyUntrusted, signature.number);
    let mut own = Mend::fault(alloc, why)?;
    own.add_untold(Class::NotFitting);
    Ok(own)
}
