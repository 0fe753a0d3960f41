//! Keys, their digests and signatures.

use super::told;
use dnsv_records::{Algorithm, Dnskey, DnskeyFlags, Ds, Rrsig};
use dnsv_row_text::{Row, RowError, truth_text};
use std::alloc::{AllocError, Global};

/// What the library answers, where it has the call.
pub fn answer(row: &Row) -> Result<Option<String>, RowError> {
    if row.calls("dnskey") {
        return Ok(Some(dnskey(row)?));
    }
    if row.calls("is_zone_key") {
        return Ok(Some(is_zone_key(row)?));
    }
    if row.calls("is_supported") {
        return Ok(Some(is_supported(row)?));
    }
    if row.calls("ds") {
        return Ok(Some(ds(row)?));
    }
    if row.calls("rrsig") {
        return Ok(Some(rrsig(row)?));
    }
    Ok(None)
}

/// `dnskey OCTETS`: flags, protocol, algorithm and key of the RDATA.
fn dnskey(row: &Row) -> Result<String, RowError> {
    let alloc = row.alloc();
    let rdata = row.octets(0)?;
    match Dnskey::read(rdata.as_slice()) {
        Ok(key) => Ok(dnskey_told(alloc, &key)?),
        Err(error) => Ok(told::refused(alloc, &error)?),
    }
}

fn dnskey_told(alloc: Global, dnskey: &Dnskey<'_>) -> Result<String, AllocError> {
    let flags = dnskey.flags.0;
    let protocol = dnskey.protocol;
    let algorithm = dnskey.algorithm.0;
    let key = told::octets(alloc, &dnskey.key)?;
    format!(in alloc; "flags {flags} protocol {protocol} algorithm {algorithm} key {key}")
}

/// `is_zone_key FLAGS`: whether a DNSKEY with these flags may sign a zone's records.
fn is_zone_key(row: &Row) -> Result<String, RowError> {
    let is_zone_key = DnskeyFlags(row.number16(0)?).is_zone_key();
    Ok(truth_text(row.alloc(), is_zone_key)?)
}

/// `is_supported ALGORITHM`: whether signatures of the algorithm count.
fn is_supported(row: &Row) -> Result<String, RowError> {
    let is_supported = Algorithm(row.number8(0)?).is_supported();
    Ok(truth_text(row.alloc(), is_supported)?)
}

/// `ds OCTETS`: key tag, algorithm, digest type and digest of the RDATA.
fn ds(row: &Row) -> Result<String, RowError> {
    let alloc = row.alloc();
    let rdata = row.octets(0)?;
    match Ds::read(rdata.as_slice()) {
        Ok(ds) => Ok(ds_told(alloc, &ds)?),
        Err(error) => Ok(told::refused(alloc, &error)?),
    }
}

fn ds_told(alloc: Global, ds: &Ds<'_>) -> Result<String, AllocError> {
    let tag = ds.key_tag.0;
    let algorithm = ds.algorithm.0;
    let digest_type = ds.digest_type.0;
    let digest = told::octets(alloc, &ds.digest)?;
    format!(in alloc; "tag {tag} algorithm {algorithm} type {digest_type} digest {digest}")
}

/// `rrsig OCTETS`: type covered, algorithm, labels, original TTL, expiration, inception, key tag, signer and signature
/// of the RDATA.
fn rrsig(row: &Row) -> Result<String, RowError> {
    let alloc = row.alloc();
    let rdata = row.octets(0)?;
    match Rrsig::read(rdata.as_slice()) {
        Ok(rrsig) => Ok(rrsig_told(alloc, &rrsig)?),
        Err(error) => Ok(told::refused(alloc, &error)?),
    }
}

fn rrsig_told(alloc: Global, rrsig: &Rrsig<'_>) -> Result<String, AllocError> {
    let front = rrsig_front(alloc, rrsig)?;
    let times = rrsig_times(alloc, rrsig)?;
    let signer = rrsig.signer.to_name();
    let signature = told::octets(alloc, &rrsig.signature)?;
    format!(in alloc; "{front} {times} signer {signer} signature {signature}")
}

fn rrsig_front(alloc: Global, rrsig: &Rrsig<'_>) -> Result<String, AllocError> {
    let covered = rrsig.type_covered.0;
    let algorithm = rrsig.algorithm.0;
    let labels = rrsig.labels;
    let ttl = rrsig.original_ttl.0;
    format!(in alloc; "covers {covered} algorithm {algorithm} labels {labels} ttl {ttl}")
}

fn rrsig_times(alloc: Global, rrsig: &Rrsig<'_>) -> Result<String, AllocError> {
    let expiration = rrsig.expiration.0;
    let inception = rrsig.inception.0;
    let tag = rrsig.key_tag.0;
    format!(in alloc; "expiration {expiration} inception {inception} tag {tag}")
}
