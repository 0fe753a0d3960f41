//! What is so of a signature.

pub mod named;
pub mod words;

ghost use Rattle.std.specs.Prelude.{◌↔◌, Contains, IfOk, IsTrue, List};
ghost use Rattle.dnsv_canonical.specs.Rrsets.{ReceivedRrset};
ghost use Rattle.dnsv_records.specs.declared.rrsig.Rrsig.{Rrsig};
ghost use Rattle.dnsv_chain.specs.Trusted.{IsSecured};
ghost use Rattle.dnsv_chain.specs.Basis.{basis_by};
ghost use Rattle.dnsv_zone_keys.specs.Keys.{HasKeys, NamesKey, NamesZoneKey};
ghost use Rattle.dnsv_zone_keys.specs.Keys.KeySearch.{AreNamedOf, HasZoneKey};
ghost use Rattle.dnsv_faults.specs.Signatures.{AreSignatureFacts, IsSignatureAt};

use crate::case_facts::CaseFacts;
use crate::known::has_rrset;
use crate::signature::named::named_keys;
use crate::signature::words::signature_faults;
use dnsv_canonical::{Rrset, SignatureNumber};
use dnsv_mending::SignatureFacts;
use dnsv_names::RecordType;
use dnsv_records::Rrsig;
use dnsv_zone_keys::{PlacedKey, is_zone_key};
use std::alloc::{AllocError, Global};

/// What is so of the signature with the number, which is that of the RRset.
pub fn signature_facts(
    alloc: Global,
    facts: &CaseFacts<'_>,
    number: SignatureNumber,
    rrset: &Rrset<'_>,
    rrsig: &Rrsig<'_>,
) -> Result<SignatureFacts, AllocError>
    requires { IsSignatureAt rrset.now number.signature rrsig.now }
    ensures { IfOk result (AreSignatureFacts (basis_by facts.now) number.rrset rrset.now number.signature) }
{
    let named = facts.named_by(rrsig);
    Ok(SignatureFacts {
        number,
        signer: rrsig.signer.labels(),
        is_signed: is_signed(facts, number),
        faults: signature_faults(facts.table().moment(), rrset, rrsig),
        key_missing: is_key_missing(facts, rrsig, named),
        not_zone_key: has_no_zone_key(named),
        keys: named_keys(alloc, facts, rrset, rrsig, named)?,
    })
}

/// Whether the signature is good under a key of a trusted DNSKEY RRset of its signer.
fn is_signed(facts: &CaseFacts<'_>, number: SignatureNumber) -> bool
    ensures { IsTrue result ↔ IsSecured (basis_by facts.now).meaning (basis_by facts.now).moment facts.now.rrsets
        facts.now.anchors number.rrset number.signature }
{
    is_among(facts.trust().signed(number.rrset), number.signature)
}

/// Whether the number is one of these.
pub fn is_among(numbers: &[usize], number: usize) -> bool
    ensures { IsTrue result ↔ Contains numbers.now number }
{
    numbers.contains(&number)
}

/// Whether the signer has keys, none of which the signature names.
fn is_key_missing(facts: &CaseFacts<'_>, rrsig: &Rrsig<'_>, named: &[PlacedKey<'_>]) -> bool
    requires { AreNamedOf facts.now.rrsets rrsig.now named.now }
    ensures { IsTrue result ↔ (HasKeys facts.now.rrsets rrsig.now.signer × (¬ NamesKey facts.now.rrsets rrsig.now)) }
{
    has_rrset(facts, &rrsig.signer.to_name(), RecordType::DNSKEY) && named.is_empty()
}

/// Whether there are keys that the signature names, none of which a zone may sign with.
fn has_no_zone_key(named: &[PlacedKey<'_>]) -> bool
    ensures { (rrsets : List ReceivedRrset) (rrsig : Rrsig) → AreNamedOf rrsets rrsig named.now
        → IsTrue result ↔ (NamesKey rrsets rrsig × (¬ NamesZoneKey rrsets rrsig)) }
{
    !named.is_empty() && !has_zone_key(named)
}

/// Whether a zone may sign with one of the keys.
fn has_zone_key(keys: &[PlacedKey<'_>]) -> bool
    ensures { IsTrue result ↔ HasZoneKey keys.now }
{
    keys.iter().any(|placed| is_zone_key(placed.key()))
}
