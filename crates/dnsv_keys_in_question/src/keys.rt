//! The lines of the keys of zones in question.

ghost use Rattle.std.specs.Prelude.{◌↔◌, IfOk, IsTrue, OnOk};
ghost use Rattle.dnsv_canonical.specs.Rrsets.{IsNumbered};
ghost use Rattle.dnsv_chain.specs.Trusted.{IsKeyOf};
ghost use Rattle.dnsv_anchors.specs.Ds.{IsUsable};
ghost use Rattle.dnsv_chain.specs.Ds.{IsMatch};
ghost use Rattle.dnsv_derivations.specs.Explained.{setting_in};
ghost use Rattle.dnsv_derivations.specs.Following.{IsGoodUnder};
ghost use Rattle.dnsv_derivations.specs.derivations.WaySearch.{AreKeysInOrder, signature_of};
ghost use Rattle.dnsv_keys_in_question.specs.KeyLines.{AreLinesOfKeysAsked, AreLinesOfSet, HasMatch, IsKeyLine, IsLowestDs, IsLowestOf, IsMatchedByAnchor, IsMatchedByDs, IsShownKey};
ghost use Rattle.dnsv_derivations.specs.Listing.{AddsThose, AreOfNumbered};
ghost use Rattle.dnsv_derivations.specs.derivations.Ways.{record_at};

use crate::zones::is_in_question;
use dnsv_canonical::{RecordNumber, Rrset};
use dnsv_chain::{is_anchor_match, is_usable};
use dnsv_derivations::{DigestedKey, Evidence, is_ds_match, key_name, keys_in_order, lowest_good};
use dnsv_lines::{Line, ShownKey};
use dnsv_names::{Name, RecordType};
use dnsv_records::Ds;
use dnsv_rrsets::in_canonical_order;
use dnsv_verifier::KeyRecord;
use std::alloc::{AllocError, Global};

/// Adds a line for each DNSKEY record of the zones whose keys are in question by the lines, by RRset and place.
pub fn add_keys_in_question(
    alloc: Global,
    evidence: &Evidence<'_>,
    reasons: &[Line],
    lines: &mut Vec<Line>,
) -> Result<(), AllocError>
    ensures { OnOk result (AddsThose (AreLinesOfKeysAsked (setting_in evidence.now) reasons.now) lines.old.items
        lines.new.items) }
{
    for (place, set) in evidence.rrsets().iter().enumerate() {
        add_set(alloc, evidence, reasons, lines, place + 1, set)?;
    }
    Ok(())
}

/// Adds those of the RRset, which has the number, if it is a DNSKEY RRset of such a zone.
fn add_set(
    alloc: Global,
    evidence: &Evidence<'_>,
    reasons: &[Line],
    lines: &mut Vec<Line>,
    number: usize,
    set: &Rrset<'_>,
) -> Result<(), AllocError>
    requires { IsNumbered evidence.now.rrsets number set.now }
    ensures { OnOk result (AddsThose (AreLinesOfSet (setting_in evidence.now) reasons.now number set.now) lines.old.items
        lines.new.items) }
{
    if set.rtype() != RecordType::DNSKEY {
        return Ok(());
    }
    if !is_in_question(reasons, set.owner()) {
        return Ok(());
    }
    let keys = keys_in_order(alloc, set)?;
    add_keys(alloc, evidence, lines, number, set, &keys)?;
    Ok(())
}

/// Adds those of the keys, which are the RRset's in order.
fn add_keys(
    alloc: Global,
    evidence: &Evidence<'_>,
    lines: &mut Vec<Line>,
    number: usize,
    set: &Rrset<'_>,
    keys: &[KeyRecord<'_>],
) -> Result<(), AllocError>
    requires numbered { IsNumbered evidence.now.rrsets number set.now }
    requires in_order { AreKeysInOrder set.now keys.now }
    ensures { OnOk result (AddsThose (AreOfNumbered (IsKeyLine (setting_in evidence.now) number set.now) 1 keys.now)
        lines.old.items lines.new.items) }
{
    for (place, key) in keys.iter().enumerate() {
        let number = RecordNumber {
            rrset: number,
            place: place + 1,
        };
        add_key(alloc, evidence, lines, number, set, key)?;
    }
    Ok(())
}

/// Adds that of the key at the place of the RRset.
fn add_key(
    alloc: Global,
    evidence: &Evidence<'_>,
    lines: &mut Vec<Line>,
    number: RecordNumber,
    set: &Rrset<'_>,
    key: &KeyRecord<'_>,
) -> Result<(), AllocError>
    requires numbered { IsNumbered evidence.now.rrsets number.rrset set.now }
    requires stands { IsKeyOf set.now key.now }
    ensures { OnOk result (AddsThose (IsKeyLine (setting_in evidence.now) number.rrset set.now number.place key.now)
        lines.old.items lines.new.items) }
{
    lines.push(Line::Key(shown_key(alloc, evidence, number, set, key)?))?;
    Ok(())
}

/// The key at the place of the DNSKEY RRset, with what is good under it and what matches it.
fn shown_key(
    alloc: Global,
    evidence: &Evidence<'_>,
    number: RecordNumber,
    set: &Rrset<'_>,
    key: &KeyRecord<'_>,
) -> Result<ShownKey, AllocError>
    requires numbered { IsNumbered evidence.now.rrsets number.rrset set.now }
    requires stands { IsKeyOf set.now key.now }
    ensures { IfOk result (IsShownKey (setting_in evidence.now) number.rrset number.place set.now key.now) }
{
    Ok(ShownKey {
        zone: set.owner().clone()?,
        number,
        key: key_name(key),
        flags: key.dnskey().flags,
        signature: lowest_signature(alloc, evidence, number.rrset, set, key)?,
        anchor: lowest_anchor(evidence, key),
        ds: matching_ds(alloc, evidence, key)?,
    })
}

/// The number of the lowest signature of the RRset, which has the number, that is good under the key.
fn lowest_signature(
    alloc: Global,
    evidence: &Evidence<'_>,
    number: usize,
    set: &Rrset<'_>,
    key: &KeyRecord<'_>,
) -> Result<Option<usize>, AllocError>
    requires { IsNumbered evidence.now.rrsets number set.now }
    ensures { IfOk result (IsLowestOf (λ s. IsGoodUnder (setting_in evidence.now) (signature_of number s) set.now key.now)) }
{
    let Some(found) = lowest_good(alloc, evidence, number, set, key)? else {
        return Ok(None);
    };
    Ok(Some(found.number))
}

/// The number of the lowest trust anchor that matches the key.
fn lowest_anchor(evidence: &Evidence<'_>, key: &KeyRecord<'_>) -> Option<usize>
    ensures { IsLowestOf (IsMatchedByAnchor (setting_in evidence.now) key.now) result }
{
    for (place, anchor) in evidence.anchors().iter().enumerate() {
        if is_anchor_match(anchor, key) {
            return Some(place + 1);
        }
    }
    None
}

/// The lowest DS record that can be used and matches the key, signed or not. The key is digested once for all.
fn matching_ds(
    alloc: Global,
    evidence: &Evidence<'_>,
    key: &KeyRecord<'_>,
) -> Result<Option<RecordNumber>, AllocError>
    ensures { IfOk result (IsLowestDs (setting_in evidence.now) key.now) }
{
    let digested = DigestedKey::new(key);
    let lowest = lowest_ds(alloc, evidence, &digested)?;
    Ok(lowest)
}

/// The lowest such record of the key with its digests.
fn lowest_ds(
    alloc: Global,
    evidence: &Evidence<'_>,
    key: &DigestedKey<'_>,
) -> Result<Option<RecordNumber>, AllocError>
    ensures { IfOk result (IsLowestDs (setting_in evidence.now) key.now) }
{
    for (before, ds) in evidence.rrsets().iter().enumerate() {
        if let Some(place) = lowest_match(alloc, evidence, before + 1, ds, key)? {
            return Ok(Some(RecordNumber {
                rrset: before + 1,
                place,
            }));
        }
    }
    Ok(None)
}

/// The lowest place of such a record in the RRset, which has the number. Where no record matches, none is put in order.
fn lowest_match(
    alloc: Global,
    evidence: &Evidence<'_>,
    number: usize,
    ds: &Rrset<'_>,
    key: &DigestedKey<'_>,
) -> Result<Option<usize>, AllocError>
    requires { IsNumbered evidence.now.rrsets number ds.now }
    ensures { IfOk result (IsLowestOf (λ place. IsMatchedByDs (setting_in evidence.now) key.now (record_at number place))) }
{
    let values = ds.ds_records();
    if !has_match(values, ds.owner(), key) {
        return Ok(None);
    }
    let place = lowest_in(alloc, evidence, number, ds, key)?;
    Ok(place)
}

/// Whether one of the records of a DS RRset of the owner matches the key.
fn has_match(values: &[Ds<'_>], owner: &Name, key: &DigestedKey<'_>) -> bool
    ensures { IsTrue result ↔ HasMatch values.now owner.now key.now }
{
    values.iter().any(|ds| is_ds_match(owner, ds, key))
}

/// The same, of the records in their order.
fn lowest_in(
    alloc: Global,
    evidence: &Evidence<'_>,
    number: usize,
    ds: &Rrset<'_>,
    key: &DigestedKey<'_>,
) -> Result<Option<usize>, AllocError>
    requires { IsNumbered evidence.now.rrsets number ds.now }
    ensures { IfOk result (IsLowestOf (λ place. IsMatchedByDs (setting_in evidence.now) key.now (record_at number place))) }
{
    if ds.rtype() != RecordType::DS {
        return Ok(None);
    }
    let values = ds.ds_records();
    let records = in_canonical_order(alloc, ds, values)?;
    for (place, each) in records.iter().enumerate() {
        if is_usable_match(values, ds.owner(), each.record, key) {
            return Ok(Some(place + 1));
        }
    }
    Ok(None)
}

/// Whether the record of a DS RRset of the owner can be used, and matches the key.
fn is_usable_match(values: &[Ds<'_>], owner: &Name, ds: &Ds<'_>, key: &DigestedKey<'_>) -> bool
    ensures { IsTrue result ↔ (IsUsable values.now ds.now × IsMatch owner.now ds.now key.now) }
{
    is_usable(values, ds) && is_ds_match(owner, ds, key)
}
