//! RDATA as it came and as it is signed, and signatures.

use crate::captures::{capture, rrset, signature};
use bumpalo::Bump;
use dnsv_canonical::{Rrset, canonical_rrset, is_expanded, signed_data};
use dnsv_records::Rrsig;
use dnsv_row_text::{
    Row, RowError, list_text, none_text, octets_list_text, octets_text, truth_text,
};
use std::alloc::Global;

/// What the library answers, where it has the call.
pub fn answer(row: &Row) -> Result<Option<String>, RowError> {
    if row.calls("rdata") {
        return Ok(Some(rdata(row)?));
    }
    if row.calls("canonical") {
        return Ok(Some(canonical(row)?));
    }
    if row.calls("signatures") {
        return Ok(Some(signatures(row)?));
    }
    if row.calls("signed") {
        return Ok(Some(signed(row)?));
    }
    if row.calls("expanded") {
        return Ok(Some(expanded(row)?));
    }
    Ok(None)
}

/// `rdata CAPTURE RRSET`: the RDATA of the RRset's records as it came.
fn rdata(row: &Row) -> Result<String, RowError> {
    let bump = Bump::new(row.alloc());
    let capture = capture(row, 0, &bump)?;
    received(row.alloc(), rrset(row, 1, &capture)?)
}

fn received(alloc: Global, rrset: &Rrset<'_>) -> Result<String, RowError> {
    let mut texts = Vec::new(alloc);
    for place in 0..rrset.len() {
        texts.push(octets_text(alloc, rrset.rdata(place))?)?;
    }
    list_text(alloc, texts.as_slice())
}

/// `canonical CAPTURE RRSET`: the RRset's RDATA in canonical form and order, of equal ones one.
fn canonical(row: &Row) -> Result<String, RowError> {
    let bump = Bump::new(row.alloc());
    let capture = capture(row, 0, &bump)?;
    let sorted = canonical_rrset(row.alloc(), rrset(row, 1, &capture)?)?;
    octets_list_text(row.alloc(), sorted.as_slice())
}

/// `signatures CAPTURE RRSET`: of each signature of the RRset with the number, which needn't be there,
/// `TYPE:ALGORITHM:LABELS:TTL:EXPIRATION:INCEPTION:TAG:SIGNER:SIGNATURE`.
fn signatures(row: &Row) -> Result<String, RowError> {
    let Ok(number) = usize::try_from(row.number(1)?) else {
        return Err(RowError::Malformed);
    };
    let mut texts = Vec::new(row.alloc());
    let bump = Bump::new(row.alloc());
    for rrsig in capture(row, 0, &bump)?.signatures(number) {
        texts.push(text_of(row.alloc(), rrsig)?)?;
    }
    list_text(row.alloc(), texts.as_slice())
}

fn text_of(alloc: Global, rrsig: &Rrsig<'_>) -> Result<String, RowError> {
    let (rtype, algorithm, labels) = (rrsig.type_covered.0, rrsig.algorithm.0, rrsig.labels);
    let (ttl, end, start) = (rrsig.original_ttl.0, rrsig.expiration.0, rrsig.inception.0);
    let (tag, signer) = (rrsig.key_tag.0, rrsig.signer.to_name());
    let octets = octets_text(alloc, rrsig.signature.as_slice())?;
    let front = format!(in alloc; "{rtype}:{algorithm}:{labels}:{ttl}:{end}:{start}")?;
    Ok(format!(in alloc; "{front}:{tag}:{signer}:{octets}")?)
}

/// `signed CAPTURE RRSET SIGNATURE`: the octets that the signature signs, `none` where Labels is too great.
fn signed(row: &Row) -> Result<String, RowError> {
    let bump = Bump::new(row.alloc());
    let capture = capture(row, 0, &bump)?;
    let rrset = rrset(row, 1, &capture)?;
    match signed_data(row.alloc(), rrset, signature(row, 2, rrset)?)? {
        Some(octets) => Ok(octets_text(row.alloc(), octets.as_slice())?),
        None => Ok(none_text(row.alloc())?),
    }
}

/// `expanded CAPTURE RRSET SIGNATURE`: whether a wildcard was signed, which the owner was expanded from.
fn expanded(row: &Row) -> Result<String, RowError> {
    let bump = Bump::new(row.alloc());
    let capture = capture(row, 0, &bump)?;
    let rrset = rrset(row, 1, &capture)?;
    let is_expanded = is_expanded(rrset.owner(), signature(row, 2, rrset)?);
    Ok(truth_text(row.alloc(), is_expanded)?)
}
