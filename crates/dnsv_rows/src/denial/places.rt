//! Calls of the functions below a view, which are asked about the records of one chain: of each RRset of a capture they
//! get the first record. Its place among these is counted from 0.
ghost use Rattle.dnsv_proof_forms.specs.words.ChainSaid.{HasHashes};

use crate::denial::rtype_of;
use bumpalo::Bump;
use dnsv_canonical::{Capture, RecordNumber, Rrset};
use dnsv_names::{Count, Hash20, Name};
use dnsv_proof_forms::{
    ChainRecords, HashedRecords, Nsec3Entries, Nsec3Entry, NsecEntry, Places, no_closer, no_data,
    no_name, opt_out, opts_out_next_closer, unsigned_delegation,
};
use dnsv_record_rows::capture_or_refusal;
use dnsv_records::base32hex_read;
use dnsv_row_text::{Row, RowError};
use dnsv_zones::hash_names;
use std::alloc::Global;

/// What these functions answer, where they have the call.
pub fn answer(row: &Row) -> Result<Option<String>, RowError> {
    if !row.calls("places") && !row.calls("closerplace") {
        return Ok(None);
    }
    let bump = Bump::new(row.alloc());
    match capture_or_refusal(row, 0, &bump)? {
        Ok(capture) => Ok(Some(told_in(row, &capture)?)),
        Err(refusal) => Ok(Some(refusal)),
    }
}

fn told_in(row: &Row, capture: &Capture<'_>) -> Result<String, RowError> {
    let name = row.name(2)?;
    let nsecs = nsec_entries(row.alloc(), capture)?;
    if !nsecs.is_empty() {
        return told(row, &name, &ChainRecords::Nsec(&nsecs));
    }
    let nsec3s = nsec3_entries(row.alloc(), capture)?;
    let entries = Nsec3Entries::new(row.alloc(), nsec3s)?;
    told_by_hashes(row, &name, &entries)
}

/// The first record of each NSEC RRset.
fn nsec_entries<'a>(
    alloc: Global,
    capture: &'a Capture<'a>,
) -> Result<Vec<NsecEntry<'a>>, RowError> {
    let mut entries = Vec::new(alloc);
    for (before, rrset) in capture.rrsets().iter().enumerate() {
        if let Some(nsec) = rrset.nsecs().first() {
            entries.push(NsecEntry {
                number: first_of(before),
                owner: rrset.owner(),
                nsec,
            })?;
        }
    }
    Ok(entries)
}

/// The number of the first record of the RRset with so many others before it.
fn first_of(before: usize) -> RecordNumber {
    RecordNumber {
        rrset: before.saturating_add(1),
        place: 1,
    }
}

/// The first record of each NSEC3 RRset, where it is usable and its owner spells a hash.
fn nsec3_entries<'a>(
    alloc: Global,
    capture: &'a Capture<'a>,
) -> Result<Vec<Nsec3Entry<'a>>, RowError> {
    let mut entries = Vec::new(alloc);
    for (before, rrset) in capture.rrsets().iter().enumerate() {
        if let Some(entry) = nsec3_entry(first_of(before), rrset) {
            let Ok(()) = entries.push(entry) else {
                return Err(RowError::OutOfMemory);
            };
        }
    }
    Ok(entries)
}

fn nsec3_entry<'a>(number: RecordNumber, rrset: &'a Rrset<'a>) -> Option<Nsec3Entry<'a>> {
    let Some(nsec3) = rrset.nsec3s().first() else {
        return None;
    };
    let Some(usable) = nsec3.usable() else {
        return None;
    };
    let Some(hash) = hash_of(rrset.owner()) else {
        return None;
    };
    Some(Nsec3Entry {
        number,
        hash,
        is_opt_out: usable.is_opt_out,
        parameters: usable.parameters,
        next_hash: usable.next_hash,
        types: usable.types,
    })
}

/// The hash that the owner's first label spells.
fn hash_of(owner: &Name) -> Option<Hash20> {
    if owner.labels() == 0 {
        return None;
    }
    base32hex_read(owner.label(0))
}

fn told_by_hashes(row: &Row, name: &Name, entries: &Nsec3Entries<'_>) -> Result<String, RowError> {
    let Some(first) = entries.as_slice().first() else {
        return Err(RowError::Malformed);
    };
    let parameters = first.parameters;
    let hashed = hash_names(row.alloc(), name, parameters, &mut Count::new())?;
    let set = HashedRecords {
        entries,
        name,
        parameters,
        above: &hashed.above,
        wildcards: &hashed.wildcards,
    };
    told(row, name, &ChainRecords::Nsec3(&set))
}

fn told(row: &Row, name: &Name, records: &ChainRecords<'_>) -> Result<String, RowError>
    requires { HasHashes name.now records.now }
{
    if row.calls("places") {
        return places(row, name, records);
    }
    closerplace(row, name, records)
}

/// `places CAPTURE APEX NAME TYPE`: the places of the records that show that there is no such name, and of those that
/// show that the type isn't there; how many labels the highest delegation without DS has, and how many the closest
/// encloser below which one may be left out.
fn places(row: &Row, name: &Name, records: &ChainRecords<'_>) -> Result<String, RowError>
    requires { HasHashes name.now records.now }
{
    let alloc = row.alloc();
    let apex = row.name(1)?;
    let rtype = rtype_of(row.text(3)?)?;
    let missing_name = listed(alloc, no_name(&apex, name, records))?;
    let missing_type = listed(alloc, no_data(&apex, name, rtype, records))?;
    let cut = numbered(alloc, unsigned_delegation(&apex, name, records))?;
    let left_out = numbered(alloc, opt_out(&apex, name, records))?;
    Ok(format!(in alloc; "{missing_name}, {missing_type}, {cut}, {left_out}")?)
}

/// `closerplace CAPTURE APEX NAME LABELS`: the place of the record that leaves no closer name than so many labels, and
/// whether that name may be left out.
fn closerplace(row: &Row, name: &Name, records: &ChainRecords<'_>) -> Result<String, RowError>
    requires { HasHashes name.now records.now }
{
    let alloc = row.alloc();
    let apex = row.name(1)?;
    let Ok(labels) = usize::try_from(row.number(3)?) else {
        return Err(RowError::Malformed);
    };
    let place = numbered(alloc, no_closer(&apex, name, labels, records))?;
    let is_opted_out = opts_out_next_closer(&apex, name, labels, records);
    Ok(format!(in alloc; "{place}, {is_opted_out}")?)
}

fn listed(alloc: Global, places: Option<Places>) -> Result<String, RowError> {
    let Some(places) = places else {
        return Ok(String::from_str(alloc, "none")?);
    };
    let mut text = String::new(alloc);
    for place in places.as_slice() {
        let mark = if text.as_str().is_empty() { "" } else { " " };
        text = format!(in alloc; "{text}{mark}{place}")?;
    }
    Ok(text)
}

fn numbered(alloc: Global, number: Option<usize>) -> Result<String, RowError> {
    match number {
        Some(number) => Ok(format!(in alloc; "{number}")?),
        None => Ok(String::from_str(alloc, "none")?),
    }
}
