//! Which DS records of an RRset count, and the keys that they match.

use crate::evidence::dnskey_of;
use dnsv_chain::{has_usable, has_usable_match, is_match, is_usable};
use dnsv_records::Ds;
use dnsv_row_text::{Row, RowError, list_text};
use dnsv_verifier::KeyRecord;
use std::alloc::Global;

/// What the library answers, where it has the call.
pub fn answer(row: &Row) -> Result<Option<String>, RowError> {
    if row.calls("usable-ds") {
        return Ok(Some(usable(row)?));
    }
    if row.calls("has-usable-ds") {
        return Ok(Some(is_some_usable(row)?));
    }
    if row.calls("ds-match") {
        return Ok(Some(matched(row)?));
    }
    if row.calls("has-usable-match") {
        return Ok(Some(is_some_matched(row)?));
    }
    Ok(None)
}

/// `usable-ds RDATA..`: which records of the DS RRset count, by their numbers from 1 on.
fn usable(row: &Row) -> Result<String, RowError> {
    let alloc = row.alloc();
    let rdata = rdata_from(row, 0)?;
    let records = ds_records(alloc, rdata.as_slice())?;
    let mut numbers = Vec::new(alloc);
    for (before, ds) in records.iter().enumerate() {
        if is_usable(records.as_slice(), ds) {
            let number = before.saturating_add(1);
            numbers.push(format!(in alloc; "{number}")?)?;
        }
    }
    list_text(alloc, numbers.as_slice())
}

/// `has-usable-ds RDATA..`: whether some record of the DS RRset counts.
fn is_some_usable(row: &Row) -> Result<String, RowError> {
    let rdata = rdata_from(row, 0)?;
    let records = ds_records(row.alloc(), rdata.as_slice())?;
    let found = has_usable(records.as_slice());
    Ok(format!(in row.alloc(); "{found}")?)
}

/// `ds-match OWNER KEY RDATA..`: of each DS record of the owner, whether it matches the owner's DNSKEY record.
fn matched(row: &Row) -> Result<String, RowError> {
    let alloc = row.alloc();
    let (owner, rdata) = (row.name(0)?, row.octets(1)?);
    let dnskey = dnskey_of(rdata.as_slice())?;
    let key = KeyRecord::new(&owner, rdata.as_slice(), &dnskey);
    let ds_rdata = rdata_from(row, 2)?;
    let mut texts = Vec::new(alloc);
    for ds in &ds_records(alloc, ds_rdata.as_slice())? {
        let is_matched = is_match(&owner, ds, &key);
        texts.push(format!(in alloc; "{is_matched}")?)?;
    }
    list_text(alloc, texts.as_slice())
}

/// `has-usable-match OWNER KEY RDATA..`: whether a record of the owner's DS RRset that counts matches the owner's
/// DNSKEY record.
fn is_some_matched(row: &Row) -> Result<String, RowError> {
    let (owner, rdata) = (row.name(0)?, row.octets(1)?);
    let dnskey = dnskey_of(rdata.as_slice())?;
    let key = KeyRecord::new(&owner, rdata.as_slice(), &dnskey);
    let ds_rdata = rdata_from(row, 2)?;
    let records = ds_records(row.alloc(), ds_rdata.as_slice())?;
    let found = has_usable_match(&owner, records.as_slice(), &key);
    Ok(format!(in row.alloc(); "{found}")?)
}

/// The RDATA that the arguments from a place on are.
fn rdata_from(row: &Row, place: usize) -> Result<Vec<Vec<u8>>, RowError> {
    let mut rdata = Vec::new(row.alloc());
    for each in place..row.count() {
        rdata.push(row.octets(each)?)?;
    }
    Ok(rdata)
}

/// The DS records with these RDATA.
fn ds_records(alloc: Global, rdata: &[Vec<u8>]) -> Result<Vec<Ds<'_>>, RowError> {
    let mut records = Vec::new(alloc);
    for octets in rdata {
        records.push(ds_of(octets.as_slice())?)?;
    }
    Ok(records)
}

fn ds_of(rdata: &[u8]) -> Result<Ds<'_>, RowError> {
    match Ds::read(rdata) {
        Ok(ds) => Ok(ds),
        Err(_) => Err(RowError::Malformed),
    }
}
