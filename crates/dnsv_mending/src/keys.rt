//! What has to be mended so that a key signs its DNSKEY RRset, and which anchors and DS records fit it.
ghost use Rattle.std.specs.Prelude.{◌≡◌, ◌&&◌, IfOk, OnOk, map, flat_map, nat_eq};
ghost use Rattle.std.specs.List.{list_any};
ghost use Rattle.std.specs.Option.{option_map};
ghost use Rattle.dnsv_mending.specs.Keys.{fits, fitting_way, group_ways, is_missing_by, is_name, is_near_by, is_served, is_tag, self_way, self_ways, signing, signings, unsigned_way, voucher_fault, voucher_ways};
ghost use Rattle.dnsv_mending.specs.Keys.{seen_signing};
ghost use Rattle.dnsv_mending.specs.Mend.{Offers, cheapest, seen};

use crate::facts::keys::{DnskeyFacts, HeldKey, SelfSignature, VoucherFacts};
use crate::faults::self_lines;
use crate::mend::{Mend, is_none, offer, offer_joined};
use crate::told::Told;
use dnsv_lines::{KeyName, WhyEntry};
use std::alloc::{AllocError, Global};

/// A key in a DNSKEY RRset, with the least that has to be mended so that it signs it.
#[derive(Drop)]
pub struct SigningKey {
    pub key: usize,
    pub name: KeyName,
    /// Whether the RRset has a signature with its tag and its algorithm.
    pub is_named: bool,
    pub mend: Option<Mend>,
}

/// The keys in the RRset.
#[tactic(auto, using(crate::proofs::Lists::made_next))]
pub fn signing_keys(alloc: Global, rrset: &DnskeyFacts) -> Result<Vec<SigningKey>, AllocError>
    ensures { IfOk result (λ signed. map seen_signing signed.items ≡ signings rrset.now) }
{
    let mut signed = Vec::with_capacity(alloc, rrset.keys.len())?;
    for key in &rrset.keys {
        signed.push(signing_key(alloc, rrset, key)?)?;
    }
    Ok(signed)
}

/// One of them.
#[tactic(auto, unfolding(crate::specs::Keys::signing))]
fn signing_key(alloc: Global, rrset: &DnskeyFacts, key: &HeldKey) -> Result<SigningKey, AllocError>
    ensures { IfOk result (λ signed. seen_signing signed ≡ signing rrset.now key.now) }
{
    Ok(SigningKey {
        key: key.key,
        name: key.name,
        is_named: key.is_named,
        mend: self_mend(alloc, rrset, key)?,
    })
}

/// The least that has to be mended so that the key signs the RRset that holds it.
fn self_mend(alloc: Global, rrset: &DnskeyFacts, key: &HeldKey) -> Result<Option<Mend>, AllocError>
    ensures { IfOk result (λ best. option_map seen best ≡ cheapest (self_ways rrset.now key.now)) }
{
    let mut best = None;
    if is_none(&key.signatures) {
        offer(&mut best, unsigned(alloc, rrset, key)?);
        return Ok(best);
    }
    offer_self(alloc, key, &key.signatures, &mut best)?;
    Ok(best)
}

/// What has to be mended where none of its signatures may be by the key.
fn unsigned(alloc: Global, rrset: &DnskeyFacts, key: &HeldKey) -> Result<Mend, AllocError>
    ensures { IfOk result (λ m. seen m ≡ unsigned_way rrset.now key.now) }
{
    if rrset.has_signatures {
        Mend::fault(alloc, Told::NotSelfSigned(key.number))
    } else {
        Mend::fault(alloc, Told::Unsigned(rrset.number))
    }
}

/// Offers each of the signatures as one by the key.
#[tactic(auto, using(crate::proofs::Lists::offered_next))]
fn offer_self(
    alloc: Global,
    key: &HeldKey,
    signatures: &[SelfSignature],
    best: &mut Option<Mend>,
) -> Result<(), AllocError>
    ensures { OnOk result (Offers (flat_map (self_way key.now) signatures.now) best.old best.new) }
{
    for signature in signatures {
        offer_signature(alloc, key, *signature, best)?;
    }
    Ok(())
}

/// Offers the signature as one by the key.
#[tactic(auto, unfolding(crate::specs::Keys::self_way))]
fn offer_signature(
    alloc: Global,
    key: &HeldKey,
    signature: SelfSignature,
    best: &mut Option<Mend>,
) -> Result<(), AllocError>
    ensures { OnOk result (Offers (self_way key.now signature) best.old best.new) }
{
    offer(
        best,
        Mend::telling(alloc, self_lines(alloc, key, signature)?),
    );
    Ok(())
}

/// Whether both have this tag.
fn is_tag(one: KeyName, other: KeyName) -> bool
    ensures { result ≡ is_tag one other }
{
    one.tag.0 == other.tag.0
}

/// Whether both have this tag and this algorithm.
fn is_name(one: KeyName, other: KeyName) -> bool
    ensures { result ≡ is_name one other }
{
    one.tag.0 == other.tag.0 && one.algorithm.0 == other.algorithm.0
}

/// Whether the anchor or DS record fits the key: it matches it; or would, but for its digest or its algorithm; or it has no
/// key to fit, and so may as well fit any.
fn fits(voucher: &VoucherFacts, key: &SigningKey) -> bool
    ensures { result ≡ fits voucher.now (seen_signing key.now) }
{
    match voucher.why {
        None => is_among(key.key, &voucher.matches),
        Some(WhyEntry::DigestDiffers) => is_name(voucher.name, key.name),
        Some(WhyEntry::KeyAlgorithm) => is_tag(voucher.name, key.name),
        Some(
            WhyEntry::KeyMissing
            | WhyEntry::Algorithm
            | WhyEntry::DigestType
            | WhyEntry::DigestIgnored,
        ) => true,
    }
}

/// Whether the number is one of these.
fn is_among(number: usize, numbers: &[usize]) -> bool
    ensures { result ≡ list_any (nat_eq number) numbers.now }
{
    numbers.iter().any(|each| number == *each)
}

/// Whether it matches keys, or differs from them by the digest alone.
fn is_near(voucher: &VoucherFacts) -> bool
    ensures { result ≡ is_near_by voucher.now.why }
{
    matches!(voucher.why, None | Some(WhyEntry::DigestDiffers))
}

/// Whether no key has the tag that it asks for.
fn is_missing(voucher: &VoucherFacts) -> bool
    ensures { result ≡ is_missing_by voucher.now.why }
{
    matches!(voucher.why, Some(WhyEntry::KeyMissing))
}

/// Whether it fits one of the keys.
#[tactic(auto, using(crate::proofs::Lists::any_mapped))]
pub fn fits_one(voucher: &VoucherFacts, keys: &[SigningKey]) -> bool
    ensures { result ≡ list_any (fits voucher.now) (map seen_signing keys.now) }
{
    let found = fits_some(voucher, keys);
    found
}

/// The same, of the keys as they are.
fn fits_some(voucher: &VoucherFacts, keys: &[SigningKey]) -> bool
    ensures { result ≡ list_any (λ k. fits voucher.now (seen_signing k)) keys.now }
{
    keys.iter().any(|key| fits(voucher, key))
}

/// Whether it fits one of the keys of which the RRset has a signature with tag and algorithm.
#[tactic(auto, using(crate::proofs::Lists::any_mapped))]
fn fits_named(voucher: &VoucherFacts, keys: &[SigningKey]) -> bool
    ensures { result ≡ list_any (λ k. k.is_named && fits voucher.now k) (map seen_signing keys.now) }
{
    let found = fits_some_named(voucher, keys);
    found
}

/// The same, of the keys as they are.
fn fits_some_named(voucher: &VoucherFacts, keys: &[SigningKey]) -> bool
    ensures { result ≡ list_any (λ k. k.is_named && fits voucher.now (seen_signing k)) keys.now }
{
    keys.iter().any(|key| key.is_named && fits(voucher, key))
}

/// Whether one of them matches, or differs by its digest alone from, a key of which the RRset has a signature with tag and
/// algorithm.
fn is_served(group: &[VoucherFacts], keys: &[SigningKey]) -> bool
    ensures { result ≡ is_served group.now (map seen_signing keys.now) }
{
    group
        .iter()
        .any(|voucher| is_near(voucher) && fits_named(voucher, keys))
}

/// Offers the ways by anchors, or by the records of one DS RRset, which stand on `chain`.
#[tactic(auto, using(crate::proofs::Lists::offered_next))]
pub fn offer_group(
    alloc: Global,
    chain: Option<&Mend>,
    keys: &[SigningKey],
    group: &[VoucherFacts],
    best: &mut Option<Mend>,
) -> Result<(), AllocError>
    ensures { OnOk result (Offers (group_ways (option_map (λ m. seen m.now) chain.entry) (map seen_signing keys.now) group.now)
        best.old best.new) }
{
    let served = is_served(group, keys);
    for voucher in group {
        offer_voucher(alloc, chain, served, keys, voucher, best)?;
    }
    Ok(())
}

/// Offers those by one of them.
#[tactic(auto, unfolding(crate::specs::Keys::voucher_ways))]
fn offer_voucher(
    alloc: Global,
    chain: Option<&Mend>,
    served: bool,
    keys: &[SigningKey],
    voucher: &VoucherFacts,
    best: &mut Option<Mend>,
) -> Result<(), AllocError>
    ensures { OnOk result (Offers (voucher_ways (option_map (λ m. seen m.now) chain.entry) served
        (map seen_signing keys.now) voucher.now) best.old best.new) }
{
    if is_missing(voucher) && served {
        return Ok(());
    }
    offer_keys(alloc, chain, keys, voucher, best)
}

/// Offers those by each of the keys.
#[tactic(auto, using(crate::proofs::Lists::offered_mapped))]
fn offer_keys(
    alloc: Global,
    chain: Option<&Mend>,
    keys: &[SigningKey],
    voucher: &VoucherFacts,
    best: &mut Option<Mend>,
) -> Result<(), AllocError>
    ensures { OnOk result (Offers (flat_map (fitting_way (option_map (λ m. seen m.now) chain.entry) voucher.now)
        (map seen_signing keys.now)) best.old best.new) }
{
    for key in keys {
        offer_fitting(alloc, chain, voucher, key, best)?;
    }
    Ok(())
}

/// Offers that by the key, where it fits it.
#[tactic(auto, unfolding(crate::specs::Keys::fitting_way))]
fn offer_fitting(
    alloc: Global,
    chain: Option<&Mend>,
    voucher: &VoucherFacts,
    key: &SigningKey,
    best: &mut Option<Mend>,
) -> Result<(), AllocError>
    ensures { OnOk result (Offers (fitting_way (option_map (λ m. seen m.now) chain.entry) voucher.now (seen_signing key.now))
        best.old best.new) }
{
    if !fits(voucher, key) {
        return Ok(());
    }
    offer_joined(
        alloc,
        chain,
        voucher_fault(voucher),
        key.mend.as_ref(),
        best,
    )
}

/// What is reported of it where it matches no key.
fn voucher_fault(voucher: &VoucherFacts) -> Option<Told>
    ensures { result ≡ voucher_fault voucher.now }
{
    match voucher.why {
        Some(why) => Some(Told::Entry(why, voucher.number)),
        None => None,
    }
}
