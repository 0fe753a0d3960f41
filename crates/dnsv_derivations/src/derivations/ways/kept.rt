//! The first ways into all RRsets, worked out once for all lines, and the keys that each of them is the first to have.
ghost use Rattle.std.specs.Prelude.{◌↔◌, ◌+◌, ◌≡◌, Contains, IfOk, IsTrue, length};
ghost use Rattle.dnsv_records.specs.Dnskey.KeyTag.{key_tag_of};
ghost use Rattle.dnsv_canonical.specs.Rrsets.{IsNumbered};
ghost use Rattle.dnsv_derivations.specs.Explained.{Setting, setting_in};
ghost use Rattle.dnsv_derivations.specs.derivations.NewKeys.{AreNewKeys, IsAmongNew, IsHadAbove, IsHadBy, IsKeySetTo, IsNewKey};
ghost use Rattle.dnsv_derivations.specs.derivations.WaySearch.{AreFirstWays, IsKeptWay, IsWayOf};

use crate::derivations::ways::{FoundWay, way_into};
use crate::evidence::Evidence;
use dnsv_canonical::{Rrset, numbered};
use dnsv_names::{Name, RecordType};
use dnsv_records::{KeyTag, key_tag};
use std::alloc::{AllocError, Global};

/// What is kept of an RRset by its number.
#[derive(Drop)]
pub struct KeptWay {
    /// The first way into it: none into one that isn't trusted, or is no DNSKEY RRset.
    pub way: Option<FoundWay>,
    /// Its keys, each once, but those that a trusted DNSKEY RRset of the owner before it has; none where there is no way.
    pub new_keys: Vec<NewKey>,
}

/// A key that a DNSKEY RRset is the first to have.
#[derive(Clone, Copy)]
pub struct NewKey {
    /// Its place in the RRset, from 0 on.
    pub place: usize,
    pub tag: KeyTag,
}

/// The first way into each RRset, by its number.
pub fn first_ways(alloc: Global, evidence: &Evidence<'_>) -> Result<Vec<KeptWay>, AllocError>
    ensures ways { IfOk result (λ ways. AreFirstWays (setting_in evidence.now) ways.items) }
    ensures all { IfOk result (λ ways. length ways.items ≡ length evidence.now.rrsets) }
{
    let mut ways = Vec::new(alloc);
    for (place, rrset) in evidence.rrsets().iter().enumerate() {
        let way = way_into(alloc, evidence, place + 1, rrset)?;
        let kept = kept_with(alloc, evidence, ways.as_slice(), rrset, way)?;
        ways.push(kept)?;
    }
    Ok(ways)
}

/// What is kept of the RRset behind those before, whose first way it is.
fn kept_with(
    alloc: Global,
    evidence: &Evidence<'_>,
    before: &[KeptWay],
    rrset: &Rrset<'_>,
    way: Option<FoundWay>,
) -> Result<KeptWay, AllocError>
    requires numbered { IsNumbered evidence.now.rrsets (length before.now + 1) rrset.now }
    requires before { AreFirstWays (setting_in evidence.now) before.now }
    requires way { IsWayOf (setting_in evidence.now) (length before.now + 1) way }
    ensures { IfOk result (IsKeptWay (setting_in evidence.now) (length before.now + 1)) }
{
    if way.is_none() {
        return Ok(KeptWay {
            way,
            new_keys: Vec::new(alloc),
        });
    }
    let new_keys = new_keys(alloc, evidence, before, rrset)?;
    Ok(KeptWay { way, new_keys })
}

/// The keys of the RRset, each once, but those that a trusted DNSKEY RRset of the owner among those before has.
fn new_keys(
    alloc: Global,
    evidence: &Evidence<'_>,
    before: &[KeptWay],
    rrset: &Rrset<'_>,
) -> Result<Vec<NewKey>, AllocError>
    requires { AreFirstWays (setting_in evidence.now) before.now }
    ensures { IfOk result (λ keys. AreNewKeys (setting_in evidence.now) (length before.now) rrset.now keys.items) }
{
    let mut keys = Vec::new(alloc);
    for place in 0..rrset.len() {
        let rdata = rrset.rdata(place);
        let tag = KeyTag(key_tag(rdata));
        if is_among(rrset, keys.as_slice(), tag, rdata) {
            continue;
        }
        if is_had_above(evidence, before, rrset.owner(), rdata) {
            continue;
        }
        keys.push(NewKey { place, tag })?;
    }
    Ok(keys)
}

/// Whether the RDATA, which has the tag, is that of one of the keys of the RRset.
fn is_among(rrset: &Rrset<'_>, keys: &[NewKey], tag: KeyTag, rdata: &[u8]) -> bool
    requires { tag.0 ≡ key_tag_of rdata.now }
    ensures { (is : IsTrue result) → IsAmongNew rrset.now rdata.now keys.now }
{
    for key in keys {
        if is_key(rrset, *key, tag, rdata) {
            return true;
        }
    }
    false
}

/// Whether the RDATA, which has the tag, is that of the key of the RRset.
fn is_key(rrset: &Rrset<'_>, key: NewKey, tag: KeyTag, rdata: &[u8]) -> bool
    requires { tag.0 ≡ key_tag_of rdata.now }
    ensures { (is : IsTrue result) → IsNewKey rrset.now rdata.now key }
{
    if key.tag.0 != tag.0 {
        return false;
    }
    if key.place >= rrset.len() {
        return false;
    }
    are_same(rrset.rdata(key.place), rdata)
}

/// Whether a trusted DNSKEY RRset of the owner, among those before, has the RDATA.
fn is_had_above(evidence: &Evidence<'_>, before: &[KeptWay], owner: &Name, rdata: &[u8]) -> bool
    requires { AreFirstWays (setting_in evidence.now) before.now }
    ensures { (is : IsTrue result) → IsHadAbove (setting_in evidence.now) (length before.now) owner.now rdata.now }
{
    let capture = evidence.capture();
    for number in capture.at(owner, RecordType::DNSKEY) {
        if is_had_by(evidence, before, *number, rdata) {
            return true;
        }
    }
    false
}

/// Whether the RRset with the number is a trusted DNSKEY RRset among those before, and has the RDATA.
fn is_had_by(evidence: &Evidence<'_>, before: &[KeptWay], number: usize, rdata: &[u8]) -> bool
    requires { AreFirstWays (setting_in evidence.now) before.now }
    ensures { (is : IsTrue result) → IsHadBy (setting_in evidence.now) (length before.now) number rdata.now }
{
    if !has_way(before, number) {
        return false;
    }
    let Some(set) = numbered(evidence.rrsets(), number) else {
        return false;
    };
    has_rdata(set, rdata)
}

/// Whether there is a way into the RRset with the number, among those that are known.
fn has_way(known: &[KeptWay], number: usize) -> bool
    ensures { (setting : Setting) → AreFirstWays setting known.now → (is : IsTrue result) → IsKeySetTo setting
        (length known.now) number }
{
    let Some(kept) = numbered(known, number) else {
        return false;
    };
    kept.way.is_some()
}

/// Whether the RRset has the RDATA.
fn has_rdata(set: &Rrset<'_>, rdata: &[u8]) -> bool
    ensures { (is : IsTrue result) → Contains set.now.rdata rdata.now }
{
    for place in 0..set.len() {
        if are_same(set.rdata(place), rdata) {
            return true;
        }
    }
    false
}

/// Whether the octets are the same.
fn are_same(a: &[u8], b: &[u8]) -> bool
    ensures { IsTrue result ↔ (a.now ≡ b.now) }
{
    a == b
}
