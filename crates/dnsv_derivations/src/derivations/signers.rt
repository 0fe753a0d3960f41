//! By which trusted key a signature is good.

mod valid;

ghost use Rattle.std.specs.Prelude.{◌≡◌, ◌↔◌, ◌+◌, ◌≤◌, ℕ, length, IfOk, IsTrue, MatchOption};
ghost use Rattle.dnsv_canonical.specs.Rrsets.{IsNumbered};
ghost use Rattle.dnsv_chain.specs.Trusted.{IsKeyOf, IsSecured, IsTrusted};
ghost use Rattle.dnsv_verifier.specs.Admissible.{DnskeyRecord, IsGood};
ghost use Rattle.dnsv_verifier.specs.Table.{table_answer};
ghost use Rattle.dnsv_derivations.specs.Explained.{Setting, setting_in};
ghost use Rattle.dnsv_derivations.specs.derivations.SignerSearch.{IsFirstTo, IsLowestGoodKey, IsLowestOf, IsSignatureAt, IsSignedOver};
ghost use Rattle.dnsv_derivations.specs.derivations.Ways.{IsSignedLine};

use crate::derivations::signers::valid::{lowest_valid, signed_octets};
use crate::derivations::ways::first_way;
use crate::derivations::ways::keys::key_name;
use crate::evidence::Evidence;
use dnsv_canonical::{Rrset, SignatureNumber, numbered};
use dnsv_lines::{KeyName, SignedRrset, Todo};
use dnsv_names::RecordType;
use dnsv_records::Rrsig;
use dnsv_rrsets::in_canonical_order;
use dnsv_verifier::KeyRecord;
use std::alloc::{AllocError, Global};
use std::cmp::Ordering;

/// A key of a DNSKEY RRset.
#[derive(Clone, Copy)]
pub struct Signer<'a> {
    /// The number of the RRset.
    pub set: usize,
    /// The RDATA of the key.
    pub rdata: &'a [u8],
    pub key: KeyName,
    /// The number of what was asked of the signature under the key.
    pub todo: Todo,
}

/// What is to be said of the signature with the number: that it is good under the lowest of the trusted keys of its
/// signer under which it is, in the trusted DNSKEY RRset of lowest number that holds this one. `None` where there is no
/// such key.
pub fn signed_line(
    alloc: Global,
    evidence: &Evidence<'_>,
    number: SignatureNumber,
) -> Result<Option<SignedRrset>, AllocError>
    ensures { IfOk result (λ line. MatchOption line
        (¬ IsSecured (table_answer evidence.now.table) evidence.now.table.moment evidence.now.rrsets evidence.now.anchors number.rrset
        number.signature)
        (IsSignedLine (setting_in evidence.now) number)) }
{
    let rrsets = evidence.rrsets();
    let Some(rrset) = numbered(rrsets, number.rrset) else {
        return Ok(None);
    };
    let Some(rrsig) = numbered(rrset.signatures(), number.signature) else {
        return Ok(None);
    };
    let Some(signer) = first_signer(alloc, evidence, rrsets, number, rrset, rrsig)? else {
        return Ok(None);
    };
    let Some(set) = numbered(rrsets, signer.set) else {
        return Ok(None);
    };
    Ok(Some(SignedRrset {
        owner: rrset.owner().clone()?,
        rtype: rrset.rtype(),
        signature: number,
        key: signer.key,
        zone: set.owner().clone()?,
        keys: signer.set,
        todo: signer.todo,
    }))
}

/// The first key of the signature among the RRsets, which are those of the evidence. What is signed is made once.
fn first_signer<'a>(
    alloc: Global,
    evidence: &Evidence<'_>,
    rrsets: &'a [Rrset<'a>],
    number: SignatureNumber,
    rrset: &Rrset<'_>,
    rrsig: &Rrsig<'_>,
) -> Result<Option<Signer<'a>>, AllocError>
    requires all { rrsets.now ≡ evidence.now.rrsets }
    requires rrset { IsNumbered evidence.now.rrsets number.rrset rrset.now }
    requires rrsig { IsSignatureAt rrset.now number.signature rrsig.now }
    ensures { IfOk result (IsFirstTo (setting_in evidence.now) number (length rrsets.now)) }
{
    let Some(octets) = signed_octets(alloc, evidence, rrset, rrsig)? else {
        return Ok(None);
    };
    let signer = rrsig.signer.to_name();
    let capture = evidence.capture();
    let mut first = None;
    for k in capture.at(&signer, RecordType::DNSKEY) {
        let Some(set) = numbered(rrsets, *k) else {
            continue;
        };
        let found = lowest_in(alloc, evidence, number, rrset, rrsig, &octets, *k, set)?;
        first = earlier(first, found);
    }
    Ok(first)
}

/// The earlier of two keys: by RDATA, of equal ones the first.
fn earlier<'a>(first: Option<Signer<'a>>, found: Option<Signer<'a>>) -> Option<Signer<'a>>
    ensures { (setting : Setting) (number : SignatureNumber) (n : ℕ) → IsFirstTo setting number n first.entry
        → IsLowestOf setting number (n + 1) found.entry → IsFirstTo setting number (n + 1) result }
{
    let Some(found) = found else {
        return first;
    };
    let Some(first) = first else {
        return Some(found);
    };
    match found.rdata.cmp(first.rdata) {
        Ordering::Less => Some(found),
        Ordering::Equal => Some(first),
        Ordering::Greater => Some(first),
    }
}

/// The lowest key of the signature over the octets in the DNSKEY RRset of its signer, which has the number `k`. A key that
/// an earlier one has needn't be reported.
fn lowest_in<'a>(
    alloc: Global,
    evidence: &Evidence<'_>,
    number: SignatureNumber,
    rrset: &Rrset<'_>,
    rrsig: &Rrsig<'_>,
    octets: &[u8],
    k: usize,
    set: &'a Rrset<'a>,
) -> Result<Option<Signer<'a>>, AllocError>
    requires set { IsNumbered evidence.now.rrsets k set.now }
    requires rtype { set.now.rtype ≡ 48 }
    requires rrset { IsNumbered evidence.now.rrsets number.rrset rrset.now }
    requires rrsig { IsSignatureAt rrset.now number.signature rrsig.now }
    requires octets { IsSignedOver evidence.now.table.moment rrset.now rrsig.now octets.now }
    ensures { IfOk result (IsLowestOf (setting_in evidence.now) number k) }
{
    if !is_trusted(alloc, evidence, k, set)? {
        return Ok(None);
    }
    let Some(keys) = evidence.new_keys(k) else {
        return Ok(lowest_good_key(alloc, evidence, rrset, rrsig, k, set)?);
    };
    let Some(key) = lowest_valid(evidence.table(), rrsig, octets, set, keys) else {
        return Ok(None);
    };
    let todo = evidence.todo_of(alloc, rrset, rrsig, &key)?;
    Ok(Some(Signer {
        set: k,
        rdata: key.rdata(),
        key: key_name(&key),
        todo,
    }))
}

/// The lowest key of the DNSKEY RRset, which has the number `k`, under which the signature of the RRset is good.
fn lowest_good_key<'a>(
    alloc: Global,
    evidence: &Evidence<'_>,
    rrset: &Rrset<'_>,
    rrsig: &Rrsig<'_>,
    k: usize,
    set: &'a Rrset<'a>,
) -> Result<Option<Signer<'a>>, AllocError>
    requires { set.now.rtype ≡ 48 }
    ensures { IfOk result (λ lowest. MatchOption lowest
        ((key : DnskeyRecord) → IsKeyOf set.now key
        → ¬ IsGood (table_answer evidence.now.table) evidence.now.table.moment rrset.now rrsig.now key)
        (IsLowestGoodKey (setting_in evidence.now) rrset.now rrsig.now k set.now)) }
{
    let records = in_canonical_order(alloc, set, set.dnskeys())?;
    for each in &records {
        let key = KeyRecord::new(set.owner(), each.rdata, each.record);
        if evidence.is_good(alloc, rrset, rrsig, &key)? {
            let todo = evidence.todo_of(alloc, rrset, rrsig, &key)?;
            return Ok(Some(Signer {
                set: k,
                rdata: each.rdata,
                key: key_name(&key),
                todo,
            }));
        }
    }
    Ok(None)
}

/// Whether the DNSKEY RRset, which has the number, is trusted.
fn is_trusted(
    alloc: Global,
    evidence: &Evidence<'_>,
    number: usize,
    set: &Rrset<'_>,
) -> Result<bool, AllocError>
    requires numbered { IsNumbered evidence.now.rrsets number set.now }
    requires rtype { set.now.rtype ≡ 48 }
    ensures { IfOk result (λ trusted. IsTrue trusted
        ↔ IsTrusted (table_answer evidence.now.table) evidence.now.table.moment evidence.now.rrsets evidence.now.anchors set.now) }
{
    Ok(first_way(alloc, evidence, number, set)?.is_some())
}
