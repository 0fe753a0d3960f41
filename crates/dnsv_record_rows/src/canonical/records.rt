//! What the records of captures say.

use crate::captures::{capture, rrset};
use bumpalo::Bump;
use dnsv_canonical::Rrset;
use dnsv_row_text::{Row, RowError, list_text, octets_text};
use std::alloc::Global;

/// What the library answers, where it has the call.
pub fn answer(row: &Row) -> Result<Option<String>, RowError> {
    if row.calls("dnskeys") {
        return Ok(Some(dnskeys(row)?));
    }
    if row.calls("ds-records") {
        return Ok(Some(ds_records(row)?));
    }
    if row.calls("nsecs") {
        return Ok(Some(nsecs(row)?));
    }
    if row.calls("nsec3s") {
        return Ok(Some(nsec3s(row)?));
    }
    if row.calls("nsec3-parameters") {
        return Ok(Some(nsec3_parameters(row)?));
    }
    Ok(None)
}

/// `dnskeys CAPTURE RRSET`: of each key of the RRset `FLAGS:PROTOCOL:ALGORITHM:KEY`.
fn dnskeys(row: &Row) -> Result<String, RowError> {
    let bump = Bump::new(row.alloc());
    let capture = capture(row, 0, &bump)?;
    keys_of(row.alloc(), rrset(row, 1, &capture)?)
}

fn keys_of(alloc: Global, rrset: &Rrset<'_>) -> Result<String, RowError> {
    let mut texts = Vec::new(alloc);
    for key in rrset.dnskeys() {
        let (flags, protocol, algorithm) = (key.flags.0, key.protocol, key.algorithm.0);
        let octets = octets_text(alloc, key.key.as_slice())?;
        texts.push(format!(in alloc; "{flags}:{protocol}:{algorithm}:{octets}")?)?;
    }
    list_text(alloc, texts.as_slice())
}

/// `ds-records CAPTURE RRSET`: of each DS record of the RRset `TAG:ALGORITHM:DIGESTTYPE:DIGEST`.
fn ds_records(row: &Row) -> Result<String, RowError> {
    let bump = Bump::new(row.alloc());
    let capture = capture(row, 0, &bump)?;
    digests_of(row.alloc(), rrset(row, 1, &capture)?)
}

fn digests_of(alloc: Global, rrset: &Rrset<'_>) -> Result<String, RowError> {
    let mut texts = Vec::new(alloc);
    for ds in rrset.ds_records() {
        let (tag, algorithm, digest_type) = (ds.key_tag.0, ds.algorithm.0, ds.digest_type.0);
        let digest = octets_text(alloc, ds.digest.as_slice())?;
        texts.push(format!(in alloc; "{tag}:{algorithm}:{digest_type}:{digest}")?)?;
    }
    list_text(alloc, texts.as_slice())
}

/// `nsecs CAPTURE RRSET`: of each NSEC record of the RRset `NEXT:BITMAP`.
fn nsecs(row: &Row) -> Result<String, RowError> {
    let bump = Bump::new(row.alloc());
    let capture = capture(row, 0, &bump)?;
    nexts_of(row.alloc(), rrset(row, 1, &capture)?)
}

fn nexts_of(alloc: Global, rrset: &Rrset<'_>) -> Result<String, RowError> {
    let mut texts = Vec::new(alloc);
    for nsec in rrset.nsecs() {
        let next = nsec.next.to_name();
        let bitmap = octets_text(alloc, nsec.types.write())?;
        texts.push(format!(in alloc; "{next}:{bitmap}")?)?;
    }
    list_text(alloc, texts.as_slice())
}

/// `nsec3s CAPTURE RRSET`: of each NSEC3 record of the RRset `ITERATIONS:SALT:NEXTHASH:BITMAP`.
fn nsec3s(row: &Row) -> Result<String, RowError> {
    let bump = Bump::new(row.alloc());
    let capture = capture(row, 0, &bump)?;
    hashes_of(row.alloc(), rrset(row, 1, &capture)?)
}

fn hashes_of(alloc: Global, rrset: &Rrset<'_>) -> Result<String, RowError> {
    let mut texts = Vec::new(alloc);
    for nsec3 in rrset.nsec3s() {
        let iterations = nsec3.parameters.iterations.0;
        let salt = octets_text(alloc, nsec3.parameters.salt.as_slice())?;
        let next = octets_text(alloc, nsec3.next_hash.as_slice())?;
        let bitmap = octets_text(alloc, nsec3.types.write())?;
        texts.push(format!(in alloc; "{iterations}:{salt}:{next}:{bitmap}")?)?;
    }
    list_text(alloc, texts.as_slice())
}

/// `nsec3-parameters CAPTURE`: of each of the parameters that the usable NSEC3 records have `ITERATIONS:SALT`.
fn nsec3_parameters(row: &Row) -> Result<String, RowError> {
    let alloc = row.alloc();
    let mut texts = Vec::new(alloc);
    let bump = Bump::new(row.alloc());
    for parameters in capture(row, 0, &bump)?.nsec3_parameters() {
        let iterations = parameters.iterations.0;
        let salt = octets_text(alloc, parameters.salt.as_slice())?;
        texts.push(format!(in alloc; "{iterations}:{salt}")?)?;
    }
    list_text(alloc, texts.as_slice())
}
