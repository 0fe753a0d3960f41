//! The keys of a DNSKEY RRset, and the signatures of it that are good under them.
ghost use Rattle.std.specs.Prelude.{◌≡◌, ℕ, IfOk, MatchOption};
ghost use Rattle.dnsv_canonical.specs.Rrsets.{IsNumbered};
ghost use Rattle.dnsv_derivations.specs.Explained.{setting_in};
ghost use Rattle.dnsv_derivations.specs.Following.{IsGoodUnder, IsNamed};
ghost use Rattle.dnsv_derivations.specs.derivations.WaySearch.{AreKeysInOrder, AreSetKeys, IsLowestGood, IsSetKey, signature_of};

use crate::digested::DigestedKey;
use crate::evidence::Evidence;
use dnsv_canonical::Rrset;
use dnsv_lines::{KeyName, Todo};
use dnsv_records::Dnskey;
use dnsv_rrsets::{ReadRecord, in_canonical_order};
use dnsv_verifier::KeyRecord;
use std::alloc::{AllocError, Global};

/// A DNSKEY RRset that ways are looked for into.
#[derive(Drop)]
pub struct KeySet<'a> {
    /// The number of the RRset.
    pub number: usize,
    pub rrset: &'a Rrset<'a>,
    /// Its keys, each RDATA once, in the order of RDATA.
    pub keys: Vec<SetKey<'a>>,
}

/// A key of a DNSKEY RRset.
#[derive(Drop)]
pub struct SetKey<'a> {
    pub key: &'a KeyRecord<'a>,
    /// How it signs the RRset, if it does: only then something has to match it.
    pub signing: Option<Signing<'a>>,
}

/// How a key signs its RRset.
#[derive(Drop)]
pub struct Signing<'a> {
    /// The key with its digests.
    pub digested: DigestedKey<'a>,
    /// The lowest signature of the RRset that is good under the key.
    pub signature: GoodSignature,
}

/// A signature that is good under a key.
#[derive(Clone, Copy)]
pub struct GoodSignature {
    /// The number of the signature.
    pub number: usize,
    /// The number of what was asked of the two.
    pub todo: Todo,
}

/// The keys of the DNSKEY RRset, each RDATA once, in the order of RDATA.
pub fn keys_in_order<'a>(
    alloc: Global,
    set: &'a Rrset<'a>,
) -> Result<Vec<KeyRecord<'a>>, AllocError>
    requires { set.now.rtype ≡ 48 }
    ensures { IfOk result (λ keys. AreKeysInOrder set.now keys.items) }
{
    let records = in_canonical_order(alloc, set, set.dnskeys())?;
    let mut keys = Vec::new(alloc);
    for each in &records {
        keys.push(KeyRecord::new(set.owner(), each.rdata, each.record))?;
    }
    Ok(keys)
}

/// The tag and the algorithm of the key.
pub fn key_name(key: &KeyRecord<'_>) -> KeyName
    ensures { IsNamed key.now result }
{
    KeyName {
        tag: key.key_tag(),
        algorithm: key.dnskey().algorithm,
    }
}

/// The signature of lowest number of the RRset, which has the number, that is good under the key.
pub fn lowest_good(
    alloc: Global,
    evidence: &Evidence<'_>,
    number: usize,
    rrset: &Rrset<'_>,
    key: &KeyRecord<'_>,
) -> Result<Option<GoodSignature>, AllocError>
    requires { IsNumbered evidence.now.rrsets number rrset.now }
    ensures { IfOk result (λ lowest. MatchOption lowest
        ((s : ℕ) → ¬ IsGoodUnder (setting_in evidence.now) (signature_of number s) rrset.now key.now)
        (IsLowestGood (setting_in evidence.now) number rrset.now key.now)) }
{
    for (place, rrsig) in rrset.signatures().iter().enumerate() {
        if evidence.is_good(alloc, rrset, rrsig, key)? {
            let todo = evidence.todo_of(alloc, rrset, rrsig, key)?;
            return Ok(Some(GoodSignature {
                number: place + 1,
                todo,
            }));
        }
    }
    Ok(None)
}

/// The keys, which are those of the RRset with the number in order, each with how it signs the RRset.
pub fn set_keys<'a>(
    alloc: Global,
    evidence: &Evidence<'_>,
    number: usize,
    rrset: &Rrset<'_>,
    keys: &'a [KeyRecord<'a>],
) -> Result<Vec<SetKey<'a>>, AllocError>
    requires { IsNumbered evidence.now.rrsets number rrset.now }
    ensures { IfOk result (λ made. AreSetKeys (setting_in evidence.now) number rrset.now keys.now made.items) }
{
    let mut made = Vec::new(alloc);
    for key in keys {
        made.push(set_key(alloc, evidence, number, rrset, key)?)?;
    }
    Ok(made)
}

/// The key, with how it signs the RRset, which has the number.
fn set_key<'a>(
    alloc: Global,
    evidence: &Evidence<'_>,
    number: usize,
    rrset: &Rrset<'_>,
    key: &'a KeyRecord<'a>,
) -> Result<SetKey<'a>, AllocError>
    requires { IsNumbered evidence.now.rrsets number rrset.now }
    ensures key { IfOk result (λ made. made.key.now ≡ key.now) }
    ensures signing { IfOk result (IsSetKey (setting_in evidence.now) number rrset.now) }
{
    let Some(signature) = lowest_good(alloc, evidence, number, rrset, key)? else {
        return Ok(SetKey { key, signing: None });
    };
    let signing = Signing {
        digested: DigestedKey::new(key),
        signature,
    };
    Ok(SetKey {
        key,
        signing: Some(signing),
    })
}
