//! What is so of the DNSKEY RRsets of a zone.

pub mod held;
pub mod own;
pub mod set;
pub mod tagged;

ghost use Rattle.std.specs.Prelude.{◌≢◌, ◌↔◌, [], IfOk, IsTrue, OnOk};
ghost use Rattle.dnsv_chain.specs.Trusted.{IsTrusted};
ghost use Rattle.dnsv_zone_faults.specs.Dnskeys.{AreAllDnskeyFacts, AreDnskeyFacts};
ghost use Rattle.dnsv_zone_faults.specs.Dnskeys.DnskeySearch.{AddsDnskey, AreKeyed, HasTrusting, IsKeyedSet, IsSetNumber, IsSetOf, IsTrusting, basis_in, basis_of_set};
ghost use Rattle.dnsv_zone_faults.specs.Dnskeys.OwnSearch.{HasGood, IsSigning};

use crate::zone::dnskeys::held::held_keys;
use crate::zone::dnskeys::set::{KeyedSet, keyed_set};
use crate::zone::dnskeys::tagged::{OwnSignature, OwnSignatures};
use crate::zone::keyed::KeyedZone;
use crate::zone::places::Places;
use dnsv_canonical::Rrset;
use dnsv_mending::DnskeyFacts;
use dnsv_names::RecordType;
use dnsv_zone_keys::PlacedKey;
use std::alloc::{AllocError, Global};

/// What is so of the DNSKEY RRsets of the zone, by their numbers.
pub fn dnskey_facts(alloc: Global, keyed: &KeyedZone<'_>) -> Result<Vec<DnskeyFacts>, AllocError>
    requires { AreKeyed keyed.now }
    ensures { IfOk result (λ dnskeys. AreAllDnskeyFacts (basis_in keyed.now) keyed.now.zone.now dnskeys.items) }
{
    let mut dnskeys = Vec::new(alloc);
    for number in keyed.facts.capture().at(keyed.zone, RecordType::DNSKEY) {
        add_dnskey(alloc, keyed, *number, &mut dnskeys)?;
    }
    Ok(dnskeys)
}

/// Adds what is so of the DNSKEY RRset with the number.
fn add_dnskey(
    alloc: Global,
    keyed: &KeyedZone<'_>,
    number: usize,
    dnskeys: &mut Vec<DnskeyFacts>,
) -> Result<(), AllocError>
    requires keyed { AreKeyed keyed.now }
    requires number { IsSetNumber keyed.now.facts.now.rrsets keyed.now.zone.now number }
    ensures { OnOk result (AddsDnskey (basis_in keyed.now) keyed.now.zone.now number dnskeys.old.items dnskeys.new.items) }
{
    let Some(rrset) = keyed.facts.capture().rrset(number) else {
        return Ok(());
    };
    dnskeys.push(facts_of_set(alloc, keyed, number, rrset)?)?;
    Ok(())
}

/// What is so of the DNSKEY RRset, which has the number.
fn facts_of_set(
    alloc: Global,
    keyed: &KeyedZone<'_>,
    number: usize,
    rrset: &Rrset<'_>,
) -> Result<DnskeyFacts, AllocError>
    requires keyed { AreKeyed keyed.now }
    requires set { IsSetOf keyed.now.facts.now.rrsets keyed.now.zone.now number rrset.now }
    ensures { IfOk result (AreDnskeyFacts (basis_in keyed.now) keyed.now.zone.now number) }
{
    let set = keyed_set(alloc, keyed, number, rrset)?;
    Ok(DnskeyFacts {
        number,
        is_trusted: is_trusted(&set),
        has_signatures: has_signatures(rrset),
        keys: held_keys(alloc, &set)?,
    })
}

/// Whether the RRset has signatures.
fn has_signatures(rrset: &Rrset<'_>) -> bool
    ensures { IsTrue result ↔ (rrset.now.signatures ≢ []) }
{
    !rrset.signatures().is_empty()
}

/// Whether the RRset is trusted: a key in it that is vouched for signs it (RFC 4035 5).
fn is_trusted(set: &KeyedSet<'_>) -> bool
    requires { IsKeyedSet set.now }
    ensures { IsTrue result ↔ IsTrusted (basis_of_set set.now).meaning (basis_of_set set.now).moment
        (basis_of_set set.now).rrsets (basis_of_set set.now).anchors set.now.rrset.now }
{
    has_trusting(&set.keyed.vouched, &set.own, &set.keys)
}

/// Whether one of the keys is vouched for, and one of the signatures is good under it.
fn has_trusting(vouched: &Places, own: &OwnSignatures<'_>, keys: &[PlacedKey<'_>]) -> bool
    ensures { IsTrue result ↔ HasTrusting vouched.now own.now keys.now }
{
    keys.iter().any(|placed| is_trusting(vouched, own, placed))
}

/// Whether this key is.
fn is_trusting(vouched: &Places, own: &OwnSignatures<'_>, placed: &PlacedKey<'_>) -> bool
    ensures { IsTrue result ↔ IsTrusting vouched.now own.now placed.now }
{
    vouched.has(placed.place()) && is_signing(own, placed)
}

/// Whether one of the signatures with its tag is good under the key.
fn is_signing(own: &OwnSignatures<'_>, placed: &PlacedKey<'_>) -> bool
    ensures { IsTrue result ↔ IsSigning own.now placed.now }
{
    has_good(own.tagged(placed.key().key_tag()), placed.place())
}

/// Whether one of these signatures is good under the key with the place.
fn has_good(own: &[OwnSignature<'_>], place: usize) -> bool
    ensures { IsTrue result ↔ HasGood own.now place }
{
    own.iter().any(|each| each.good.has(place))
}
