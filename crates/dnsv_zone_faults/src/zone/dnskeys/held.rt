//! What is so of the keys in a DNSKEY RRset.
ghost use Rattle.std.specs.Prelude.{◌≡◌, ◌↔◌, Contains, IfOk, IsTrue, OnOk, map};
ghost use Rattle.dnsv_verifier.specs.Asking.{GivesMore};
ghost use Rattle.dnsv_zone_keys.specs.Answers.AnswerSearch.{ArePutInOrder};
ghost use Rattle.dnsv_zone_faults.specs.Dnskeys.{AreHeldKeys, AreOwnSignatures, IsAnothers, IsHeldKey, IsNamedIn, MayBeBy, signature_number};
ghost use Rattle.dnsv_zone_faults.specs.Dnskeys.DnskeySearch.{IsKeyedSet, IsSelfOf, basis_of_set, rdata_of};
ghost use Rattle.dnsv_zone_faults.specs.Dnskeys.OwnSearch.{HasNaming};

use crate::zone::dnskeys::set::KeyedSet;
use crate::zone::dnskeys::tagged::OwnSignature;
use dnsv_canonical::{RecordNumber, SignatureNumber};
use dnsv_faults::signature_faults;
use dnsv_lines::KeyName;
use dnsv_mending::{HeldKey, SelfSignature};
use dnsv_verifier::KeyRecord;
use dnsv_zone_keys::{PlacedKey, answer_under, is_named, is_zone_key};
use std::alloc::{AllocError, Global};

/// What is so of the keys in the DNSKEY RRset.
pub fn held_keys(alloc: Global, set: &KeyedSet<'_>) -> Result<Vec<HeldKey>, AllocError>
    requires { IsKeyedSet set.now }
    ensures { IfOk result (λ held. AreHeldKeys (basis_of_set set.now) set.now.keyed.now.zone.now set.now.number set.now.rrset.now 1
        (map rdata_of set.now.keys.items) held.items) }
{
    let mut held = Vec::with_capacity(alloc, set.keys.len())?;
    for (place, placed) in set.keys.iter().enumerate() {
        held.push(held_key(alloc, set, place + 1, placed)?)?;
    }
    Ok(held)
}

/// What is so of the key in it, which has the place in canonical order.
fn held_key(
    alloc: Global,
    set: &KeyedSet<'_>,
    place: usize,
    placed: &PlacedKey<'_>,
) -> Result<HeldKey, AllocError>
    requires set { IsKeyedSet set.now }
    requires among { Contains set.now.keys.items placed.now }
    ensures { IfOk result (IsHeldKey (basis_of_set set.now) set.now.keyed.now.zone.now set.now.number set.now.rrset.now place
        placed.now.key.rdata) }
{
    let key = placed.key();
    Ok(HeldKey {
        number: RecordNumber {
            rrset: set.number,
            place,
        },
        key: placed.place(),
        name: KeyName {
            tag: key.key_tag(),
            algorithm: key.dnskey().algorithm,
        },
        is_zone_key: is_zone_key(key),
        is_named: is_named_in(set, key),
        signatures: self_signatures(alloc, set, placed)?,
    })
}

/// Whether a signature of the RRset names the key.
fn is_named_in(set: &KeyedSet<'_>, key: &KeyRecord<'_>) -> bool
    requires { IsKeyedSet set.now }
    ensures { IsTrue result ↔ IsNamedIn set.now.rrset.now key.now }
{
    has_naming(set.own.tagged(key.key_tag()), key)
}

/// Whether one of the signatures names the key.
fn has_naming(own: &[OwnSignature<'_>], key: &KeyRecord<'_>) -> bool
    ensures { IsTrue result ↔ HasNaming own.now key.now }
{
    own.iter().any(|each| is_named(key, each.rrsig))
}

/// What is so of the signatures of the RRset that may be by the key in it, by their numbers.
fn self_signatures(
    alloc: Global,
    set: &KeyedSet<'_>,
    placed: &PlacedKey<'_>,
) -> Result<Vec<SelfSignature>, AllocError>
    requires set { IsKeyedSet set.now }
    requires among { Contains set.now.keys.items placed.now }
    ensures { IfOk result (λ found. AreOwnSignatures (basis_of_set set.now) set.now.number set.now.rrset.now placed.now.key found.items) }
{
    let mut found = Vec::new(alloc);
    for own in set.own.tagged(placed.key().key_tag()) {
        add_self(set, placed, own, &mut found)?;
    }
    put_in_order(&mut found);
    Ok(found)
}

/// Adds what is so of the signature, if it may be by the key.
fn add_self(
    set: &KeyedSet<'_>,
    placed: &PlacedKey<'_>,
    own: &OwnSignature<'_>,
    found: &mut Vec<SelfSignature>,
) -> Result<(), AllocError>
    requires set { IsKeyedSet set.now }
    requires among { Contains set.now.keys.items placed.now }
    requires own { Contains set.now.own own.now }
    ensures { OnOk result (GivesMore (IsSelfOf (basis_of_set set.now) set.now.number set.now.rrset.now placed.now.key)
        (λ each. MayBeBy (basis_of_set set.now) set.now.rrset.now placed.now.key each.rrsig.now) own.now found.old.items found.new.items) }
{
    if !may_be_by(set, placed, own) {
        return Ok(());
    }
    found.push(self_signature(set, placed, own))?;
    Ok(())
}

/// What is so of the signature under the key.
fn self_signature(
    set: &KeyedSet<'_>,
    placed: &PlacedKey<'_>,
    own: &OwnSignature<'_>,
) -> SelfSignature
    requires set { IsKeyedSet set.now }
    requires own { Contains set.now.own own.now }
    requires may { MayBeBy (basis_of_set set.now) set.now.rrset.now placed.now.key own.now.rrsig.now }
    ensures { IsSelfOf (basis_of_set set.now) set.now.number set.now.rrset.now placed.now.key own.now result }
{
    let table = set.keyed.facts.table();
    SelfSignature {
        number: SignatureNumber {
            rrset: set.number,
            signature: own.number,
        },
        faults: signature_faults(table.moment(), set.rrset, own.rrsig),
        answer: answer_under(table, set.rrset, own.rrsig, &own.octets, placed.key()),
    }
}

/// Whether the signature has the tag and the algorithm of the key, and isn't good under another in the RRset.
fn may_be_by(set: &KeyedSet<'_>, placed: &PlacedKey<'_>, own: &OwnSignature<'_>) -> bool
    requires set { IsKeyedSet set.now }
    requires among { Contains set.now.keys.items placed.now }
    requires own { Contains set.now.own own.now }
    ensures { IsTrue result ↔ MayBeBy (basis_of_set set.now) set.now.rrset.now placed.now.key own.now.rrsig.now }
{
    is_named(placed.key(), own.rrsig) && !is_anothers(set, placed, own)
}

/// Whether the signature is good under another key in the RRset.
fn is_anothers(set: &KeyedSet<'_>, placed: &PlacedKey<'_>, own: &OwnSignature<'_>) -> bool
    requires set { IsKeyedSet set.now }
    requires among { Contains set.now.keys.items placed.now }
    requires own { Contains set.now.own own.now }
    ensures { IsTrue result ↔ IsAnothers (basis_of_set set.now) set.now.rrset.now own.now.rrsig.now placed.now.key }
{
    own.good.has_other(placed.place())
}

/// Puts them in the order of their numbers, of those with one number one.
fn put_in_order(found: &mut Vec<SelfSignature>)
    ensures { ArePutInOrder signature_number found.old.items found.new.items }
{
    found.sort_unstable_by(|a, b| a.number.signature.cmp(&b.number.signature));
    found.dedup_by_key(|each| each.number.signature);
}
