//! Which signatures are good under which keys.

pub mod answered;
pub mod good;

ghost use Rattle.std.specs.Prelude.{◌↔◌, ◌≡◌, IfOk, IsTrue};
ghost use Rattle.dnsv_canonical.specs.Rrsets.{ReceivedRrset};
ghost use Rattle.dnsv_verifier.specs.Admissible.{IsGood, IsVerifiable, entry_over};
ghost use Rattle.dnsv_verifier.specs.Table.{HasNumber, table_answer};
ghost use Rattle.dnsv_anchors.specs.ByOwner.{values_at};
ghost use Rattle.dnsv_chain.specs.Signing.{AreGoodNumbers, IsGoodUnderSome, IsOfTable, IsSignatureAt, IsSignedUnderSome, IsValidBy, MayHaveMadeOne};

use crate::signing::answered::AnsweredRrset;
use dnsv_anchors::{ByOwner, at};
use dnsv_canonical::SignatureNumber;
use dnsv_records::Rrsig;
use dnsv_verifier::{Answer, KeyRecord, Table, Verifier, entry_over, is_verifiable, may_have_made};
use std::alloc::{AllocError, Global};

/// The keys of trusted RRsets by their owner, of each RDATA one.
pub type TrustedKeys<'a> = ByOwner<'a, KeyRecord<'a>>;

/// The numbers of the signatures, from 1 on, that are good under one of their signer's keys, rising.
pub fn good_numbers<'a>(
    alloc: Global,
    answered: &AnsweredRrset<'_, 'a>,
    keys: &TrustedKeys<'a>,
) -> Result<Vec<usize>, AllocError>
    requires { IsOfTable answered.now }
    ensures { IfOk result (λ numbers. AreGoodNumbers (table_answer answered.now.table.now) answered.now.table.now.moment
        answered.now.rrset.now (values_at keys.now) numbers.items) }
{
    let mut numbers = Vec::new(alloc);
    for (place, rrsig) in answered.rrset.signatures().iter().enumerate() {
        let own = at(keys, &rrsig.signer);
        if is_good_under_some(alloc, answered, place + 1, rrsig, own)? {
            numbers.push(place + 1)?;
        }
    }
    Ok(numbers)
}

/// Whether the RRset has a signature that is good under one of the keys.
pub fn is_signed_under_some(
    alloc: Global,
    answered: &AnsweredRrset<'_, '_>,
    keys: &[KeyRecord<'_>],
) -> Result<bool, AllocError>
    requires { IsOfTable answered.now }
    ensures { IfOk result (λ signed. IsTrue signed ↔ IsSignedUnderSome (table_answer answered.now.table.now)
        answered.now.table.now.moment answered.now.rrset.now keys.now) }
{
    for (place, rrsig) in answered.rrset.signatures().iter().enumerate() {
        if is_good_under_some(alloc, answered, place + 1, rrsig, keys)? {
            return Ok(true);
        }
    }
    Ok(false)
}

/// Whether the signature of the RRset, which has the number in it, is good under one of the keys.
#[tactic(auto, using(crate::proofs::SigningLemmas::none_made, crate::proofs::SigningLemmas::not_verifiable))]
fn is_good_under_some(
    alloc: Global,
    answered: &AnsweredRrset<'_, '_>,
    number: usize,
    rrsig: &Rrsig<'_>,
    keys: &[KeyRecord<'_>],
) -> Result<bool, AllocError>
    requires rrset { IsOfTable answered.now }
    requires signature { IsSignatureAt answered.now.rrset.now number rrsig.now }
    ensures { IfOk result (λ good. IsTrue good ↔ IsGoodUnderSome (table_answer answered.now.table.now)
        answered.now.table.now.moment answered.now.rrset.now rrsig.now keys.now) }
{
    let (rrset, table) = (answered.rrset, answered.table);
    if !has_made_one(keys, rrsig) {
        return Ok(false);
    }
    if !is_verifiable(table.moment(), rrset, rrsig) {
        return Ok(false);
    }
    is_good_by_number(alloc, answered, number, rrsig, keys)
}

/// Whether the signature, which can be verified, is good under one of the keys, by what the table says of its numbers.
fn is_good_by_number(
    alloc: Global,
    answered: &AnsweredRrset<'_, '_>,
    number: usize,
    rrsig: &Rrsig<'_>,
    keys: &[KeyRecord<'_>],
) -> Result<bool, AllocError>
    requires rrset { IsOfTable answered.now }
    requires signature { IsSignatureAt answered.now.rrset.now number rrsig.now }
    requires verifiable { IsVerifiable answered.now.table.now.moment answered.now.rrset.now rrsig.now }
    ensures { IfOk result (λ good. IsTrue good ↔ IsGoodUnderSome (table_answer answered.now.table.now)
        answered.now.table.now.moment answered.now.rrset.now rrsig.now keys.now) }
{
    let number = SignatureNumber {
        rrset: answered.number,
        signature: number,
    };
    for key in keys {
        if is_good_at(alloc, answered.table, number, rrsig, key)? {
            return Ok(true);
        }
    }
    Ok(false)
}

/// Whether the signature, which can be verified and has these numbers, is good under the key.
fn is_good_at(
    alloc: Global,
    table: &Table<'_>,
    number: SignatureNumber,
    rrsig: &Rrsig<'_>,
    key: &KeyRecord<'_>,
) -> Result<bool, AllocError>
    ensures { IfOk result (λ good. (rrset : ReceivedRrset) → HasNumber table.now.rrsets number rrset rrsig.now
        → IsVerifiable table.now.moment rrset rrsig.now
        → IsTrue good ↔ IsGood (table_answer table.now) table.now.moment rrset rrsig.now key.now) }
{
    if !may_have_made(key, rrsig) {
        return Ok(false);
    }
    let answer = table.answer_at(alloc, number, key)?;
    Ok(answer == Some(Answer::Valid))
}

/// Whether one of the keys may have made the signature.
fn has_made_one(keys: &[KeyRecord<'_>], rrsig: &Rrsig<'_>) -> bool
    ensures { IsTrue result ↔ MayHaveMadeOne keys.now rrsig.now }
{
    keys.iter().any(|key| may_have_made(key, rrsig))
}

/// Whether the key may have made the signature, and the table says Valid of it over the octets.
pub(crate) fn is_valid(
    table: &Table<'_>,
    rrsig: &Rrsig<'_>,
    octets: &[u8],
    key: &KeyRecord<'_>,
) -> bool
    ensures { IsTrue result ↔ IsValidBy (table_answer table.now) rrsig.now octets.now key.now }
{
    may_have_made(key, rrsig) && says_valid(table, rrsig, octets, key)
}

/// Whether the table says Valid of the signature over the octets under the key.
fn says_valid(table: &Table<'_>, rrsig: &Rrsig<'_>, octets: &[u8], key: &KeyRecord<'_>) -> bool
    ensures { IsTrue result ↔ (table_answer table.now (entry_over rrsig.now octets.now key.now) ≡ Answer.Valid) }
{
    table.answer(&entry_over(rrsig, octets, key)) == Answer::Valid
}
