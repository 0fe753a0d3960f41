//! The chain of trust: which DNSKEY RRsets of a capture are trusted (RFC 4035 5).
ghost use Rattle.std.specs.Prelude.{◌↔◌, ◌≡◌, IfOk, IsTrue, OnOk, map};
ghost use Rattle.dnsv_verifier.specs.Table.{table_answer};
ghost use Rattle.dnsv_anchors.specs.ByOwner.{values_at};
ghost use Rattle.dnsv_chain.specs.ByOwner.{rrsets_at};
ghost use Rattle.dnsv_chain.specs.Trust.{IsTrustOf};
ghost use Rattle.dnsv_chain.specs.Chain.{AddsDelegation, AddsKeys, AddsTrusted, AreKeysByOwner, AreKeysOfSet, AreKnown, AreVouched, IsSignedByVouched, IsVouchedFor};
ghost use Rattle.dnsv_chain.specs.Signing.{IsOfTable};

use crate::anchored::has_anchor_match;
use crate::by_rdata::ByRdata;
use crate::delegated::is_delegated;
use crate::order::steps;
use crate::signing::answered::AnsweredRrset;
use crate::signing::{TrustedKeys, good_numbers, is_signed_under_some};
use crate::trust::Trust;
use dnsv_anchors::{Anchors, ByOwner, OwnerKey, add, at};
use dnsv_canonical::Rrset;
use dnsv_names::{RecordType, WireName};
use dnsv_verifier::{KeyRecord, Table};
use std::alloc::{AllocError, Global};
use std::collections::{BTreeMap, BTreeSet};

/// The trust that the evidence of the table gives at its moment, under the anchors and its answers (RFC 4035 5). An entry
/// that the table lacks counts as Unknown.
pub fn trusted<'c>(
    alloc: Global,
    anchors: &Anchors<'_>,
    table: &Table<'c>,
) -> Result<Trust<'c>, AllocError>
    ensures { IfOk result (IsTrustOf (table_answer table.now) table.now.moment table.now.rrsets anchors.now) }
{
    let keys = trusted_keys(alloc, anchors, table)?;
    Ok(Trust::of(alloc, table, &keys)?)
}

/// DS RRsets by owner that have a signature good under a key of a trusted RRset.
type Delegations<'a> = ByOwner<'a, &'a Rrset<'a>>;

/// Owner and RDATA of the keys that are kept, to find one again.
type KnownKeys<'a> = BTreeSet<(OwnerKey<'a>, ByRdata<'a>)>;

/// The keys of the trusted DNSKEY RRsets. One pass finds them: where a DS RRset is good, its signer is a proper
/// ancestor, whose RRsets have been looked at before.
fn trusted_keys<'a>(
    alloc: Global,
    anchors: &Anchors<'_>,
    table: &Table<'a>,
) -> Result<TrustedKeys<'a>, AllocError>
    ensures { IfOk result (λ keys. AreKeysByOwner (table_answer table.now) table.now.moment table.now.rrsets anchors.now
        (values_at keys)) }
{
    let order = steps(alloc, table.capture().rrsets())?;
    let mut keys = BTreeMap::new(alloc);
    let mut known = BTreeSet::new(alloc);
    let mut delegations = BTreeMap::new(alloc);
    for step in &order {
        let set = AnsweredRrset::at(table, step.place);
        match step.rtype {
            RecordType::DS => add_delegation(alloc, &set, &keys, &mut delegations)?,
            _ => add_trusted(alloc, &set, anchors, &delegations, &mut known, &mut keys)?,
        }
    }
    Ok(keys)
}

/// Adds the DS RRset where one of its signatures is good under one of the signer's keys.
fn add_delegation<'a>(
    alloc: Global,
    ds: &AnsweredRrset<'_, 'a>,
    keys: &TrustedKeys<'a>,
    delegations: &mut Delegations<'a>,
) -> Result<(), AllocError>
    requires { IsOfTable ds.now }
    ensures { OnOk result (AddsDelegation (table_answer ds.now.table.now) ds.now.table.now.moment (values_at keys.now)
        ds.now.rrset.now (rrsets_at delegations.old) (rrsets_at delegations.new)) }
{
    let numbers = good_numbers(alloc, ds, keys)?;
    if !numbers.as_slice().is_empty() {
        add(alloc, delegations, ds.rrset.owner(), ds.rrset)?;
    }
    Ok(())
}

/// Adds the keys of the DNSKEY RRset where it is trusted: where one of its keys signs it, and matches an anchor or a
/// usable record of one of the DS RRsets at its owner.
fn add_trusted<'a>(
    alloc: Global,
    set: &AnsweredRrset<'_, 'a>,
    anchors: &Anchors<'_>,
    delegations: &Delegations<'a>,
    known: &mut KnownKeys<'a>,
    keys: &mut TrustedKeys<'a>,
) -> Result<(), AllocError>
    requires number { IsOfTable set.now }
    requires rtype { set.now.rrset.now.rtype ≡ 48 }
    requires known { AreKnown known.old (values_at keys.old) }
    ensures known { OnOk result (AreKnown known.new (values_at keys.new)) }
    ensures trusted { OnOk result (AddsTrusted (table_answer set.now.table.now) set.now.table.now.moment anchors.now
        (rrsets_at delegations.now) set.now.rrset.now (values_at keys.old) (values_at keys.new)) }
{
    let owner = WireName::of(set.rrset.owner());
    if is_trusted(alloc, set, anchors, at(delegations, &owner))? {
        add_keys(alloc, known, keys, set.rrset)?;
    }
    Ok(())
}

/// Whether one of the keys of the DNSKEY RRset signs it, and matches an anchor or a usable record of one of the DS
/// RRsets. No key is digested where none signs it.
fn is_trusted(
    alloc: Global,
    set: &AnsweredRrset<'_, '_>,
    anchors: &Anchors<'_>,
    delegations: &[&Rrset<'_>],
) -> Result<bool, AllocError>
    requires number { IsOfTable set.now }
    requires rtype { set.now.rrset.now.rtype ≡ 48 }
    ensures { IfOk result (λ trusted. IsTrue trusted ↔ IsSignedByVouched (table_answer set.now.table.now)
        set.now.table.now.moment anchors.now (map (λ ds. ds.now) delegations.now) set.now.rrset.now) }
{
    let keys = keys_of(alloc, set.rrset)?;
    if !is_signed_under_some(alloc, set, keys.as_slice())? {
        return Ok(false);
    }
    let vouched = vouched_keys(alloc, anchors, delegations, keys)?;
    Ok(is_signed_under_some(alloc, set, vouched.as_slice())?)
}

/// The keys of the DNSKEY RRset.
fn keys_of<'a>(alloc: Global, set: &'a Rrset<'a>) -> Result<Vec<KeyRecord<'a>>, AllocError>
    requires { set.now.rtype ≡ 48 }
    ensures { IfOk result (λ keys. AreKeysOfSet set.now keys.items) }
{
    let mut keys = Vec::new(alloc);
    for (place, dnskey) in set.dnskeys().iter().enumerate() {
        keys.push(KeyRecord::new(set.owner(), set.rdata(place), dnskey))?;
    }
    Ok(keys)
}

/// Those of the keys that match an anchor or a usable record of one of the DS RRsets.
fn vouched_keys<'a>(
    alloc: Global,
    anchors: &Anchors<'_>,
    delegations: &[&Rrset<'_>],
    keys: Vec<KeyRecord<'a>>,
) -> Result<Vec<KeyRecord<'a>>, AllocError>
    ensures { IfOk result (λ vouched. AreVouched anchors.now (map (λ ds. ds.now) delegations.now) keys.entry.items
        vouched.items) }
{
    let mut vouched = Vec::new(alloc);
    for key in keys {
        if is_vouched_for(anchors, delegations, &key) {
            vouched.push(key)?;
        }
    }
    Ok(vouched)
}

/// Whether an anchor or a usable record of one of the DS RRsets matches the key.
fn is_vouched_for(anchors: &Anchors<'_>, delegations: &[&Rrset<'_>], key: &KeyRecord<'_>) -> bool
    ensures { IsTrue result ↔ IsVouchedFor anchors.now (map (λ ds. ds.now) delegations.now) key.now }
{
    has_anchor_match(anchors, key) || is_delegated(delegations, key)
}

/// Adds the keys of the DNSKEY RRset, but those whose RDATA is there.
fn add_keys<'a>(
    alloc: Global,
    known: &mut KnownKeys<'a>,
    keys: &mut TrustedKeys<'a>,
    set: &'a Rrset<'a>,
) -> Result<(), AllocError>
    requires rtype { set.now.rtype ≡ 48 }
    requires known { AreKnown known.old (values_at keys.old) }
    ensures known { OnOk result (AreKnown known.new (values_at keys.new)) }
    ensures adds { OnOk result (AddsKeys set.now (values_at keys.old) (values_at keys.new)) }
{
    for (place, dnskey) in set.dnskeys().iter().enumerate() {
        let rdata = set.rdata(place);
        if known.insert((
            OwnerKey(WireName::of(set.owner())),
            ByRdata::new(rdata, dnskey),
        ))? {
            let key = KeyRecord::new(set.owner(), rdata, dnskey);
            add(alloc, keys, set.owner(), key)?;
        }
    }
    Ok(())
}
