//! Trust anchors and DS records, as lines tell them.
ghost use Rattle.std.specs.Prelude.{◌≡◌, IfOk, MatchOption};
ghost use Rattle.dnsv_lines.specs.declared.line.fault.zone.Entry.{Entry};
ghost use Rattle.dnsv_trust_reasons.specs.Places.{IsAnchorEntry, IsDsEntry, IsEntry, anchor_digest, anchor_entry, ds_entry};

use dnsv_canonical::{Capture, RecordNumber, Rrset, numbered};
use dnsv_chain::Anchor;
use dnsv_faults::CaseFacts;
use dnsv_lines::{Entry, EntryNumber, KeyName};
use dnsv_names::RecordType;
use dnsv_records::{DigestType, Ds};
use dnsv_rrsets::in_canonical_order;
use dnsv_zone_faults::anchor_key_name;
use std::alloc::{AllocError, Global};

/// The trust anchor or the DS record with the number, if there is one.
pub fn entry(
    alloc: Global,
    facts: &CaseFacts<'_>,
    number: EntryNumber,
) -> Result<Option<Entry>, AllocError>
    ensures { IfOk result (λ found. MatchOption found
        ((each : Entry) → ¬ IsEntry facts.now.rrsets facts.now.anchors number each)
        (IsEntry facts.now.rrsets facts.now.anchors number)) }
{
    match number {
        EntryNumber::Anchor(anchor) => Ok(anchor_entry(facts.anchors(), anchor)),
        EntryNumber::Ds(record) => ds_entry(alloc, facts.capture(), record),
    }
}

/// The trust anchor with the number.
fn anchor_entry(anchors: &[Anchor<'_>], number: usize) -> Option<Entry>
    ensures { MatchOption result ((each : Entry) → ¬ IsAnchorEntry anchors.now number each) (IsAnchorEntry anchors.now number) }
{
    let Some(anchor) = numbered(anchors, number) else {
        return None;
    };
    Some(told_anchor(number, anchor))
}

/// The trust anchor, which has the number, as it is reported.
fn told_anchor(number: usize, anchor: &Anchor<'_>) -> Entry
    ensures { result ≡ anchor_entry number anchor.now }
{
    Entry {
        zone: anchor.owner().clone().unwrap(),
        number: EntryNumber::Anchor(number),
        key: anchor_key_name(anchor),
        digest_type: anchor_digest(anchor),
    }
}

/// The digest type of the anchor, where it is a DS record.
fn anchor_digest(anchor: &Anchor<'_>) -> Option<DigestType>
    ensures { result ≡ anchor_digest anchor.now }
{
    match anchor {
        Anchor::Ds { ds, .. } => Some(ds.digest_type),
        Anchor::Key { .. } => None,
    }
}

/// The DS record with the number.
fn ds_entry(
    alloc: Global,
    capture: &Capture<'_>,
    number: RecordNumber,
) -> Result<Option<Entry>, AllocError>
    ensures { IfOk result (λ found. MatchOption found ((each : Entry) → ¬ IsDsEntry capture.now.rrsets number each)
        (IsDsEntry capture.now.rrsets number)) }
{
    let Some(rrset) = capture.rrset(number.rrset) else {
        return Ok(None);
    };
    if rrset.rtype() != RecordType::DS {
        return Ok(None);
    }
    let records = in_canonical_order(alloc, rrset, rrset.ds_records())?;
    let Some(found) = numbered(&records, number.place) else {
        return Ok(None);
    };
    Ok(Some(told_ds(number, rrset, found.record)))
}

/// The DS record, which has the number, as it is reported.
fn told_ds(number: RecordNumber, rrset: &Rrset<'_>, ds: &Ds<'_>) -> Entry
    ensures { result ≡ ds_entry number rrset.now ds.now }
{
    Entry {
        zone: rrset.owner().clone().unwrap(),
        number: EntryNumber::Ds(number),
        key: KeyName {
            tag: ds.key_tag,
            algorithm: ds.algorithm,
        },
        digest_type: Some(ds.digest_type),
    }
}
