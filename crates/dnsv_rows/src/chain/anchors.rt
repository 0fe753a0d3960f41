//! Files of trust anchors, and the keys that they match.

use crate::evidence::dnskey_of;
use bumpalo::Bump;
use dnsv_chain::{Anchor, Anchors, AnchorsError, has_anchor_match};
use dnsv_names::Name;
use dnsv_row_text::{Row, RowError, list_text, octets_text};
use dnsv_verifier::KeyRecord;
use std::alloc::Global;

/// What the library answers, where it has the call.
pub fn answer(row: &Row) -> Result<Option<String>, RowError> {
    if row.calls("anchors") {
        return Ok(Some(anchors(row)?));
    }
    if row.calls("anchor-list") {
        return Ok(Some(anchor_list(row)?));
    }
    if row.calls("anchors-match") {
        return Ok(Some(anchors_match(row)?));
    }
    Ok(None)
}

/// `anchors TEXT`: how many trust anchors the text has, or its refusal.
fn anchors(row: &Row) -> Result<String, RowError> {
    let bump = Bump::new(row.alloc());
    match Anchors::parse(row.alloc(), &bump, row.octets(0)?.as_slice()) {
        Ok(anchors) => {
            let count = anchors.as_slice().len();
            Ok(format!(in row.alloc(); "{count}")?)
        }
        Err(error) => refused(row.alloc(), &error),
    }
}

fn refused(alloc: Global, error: &AnchorsError) -> Result<String, RowError> {
    let code = error.code();
    Ok(match error {
        AnchorsError::OutOfMemory => format!(in alloc; "refused {code}")?,
        AnchorsError::Syntax(line) | AnchorsError::TooMany(line) => {
            format!(in alloc; "refused {code} line {line}")?
        }
    })
}

/// `anchor-list TEXT`: each anchor of the text, `DS:OWNER:TAG:ALGORITHM:DIGESTTYPE:DIGEST` or `KEY:OWNER:RDATA`.
fn anchor_list(row: &Row) -> Result<String, RowError> {
    let mut texts = Vec::new(row.alloc());
    let bump = Bump::new(row.alloc());
    for anchor in trust_anchors(row, 0, &bump)?.as_slice() {
        texts.push(anchor_text(row.alloc(), anchor)?)?;
    }
    list_text(row.alloc(), texts.as_slice())
}

fn anchor_text(alloc: Global, anchor: &Anchor<'_>) -> Result<String, RowError> {
    Ok(match anchor {
        Anchor::Ds { owner, ds } => {
            let (tag, algorithm, digest_type) = (ds.key_tag.0, ds.algorithm.0, ds.digest_type.0);
            let digest = octets_text(alloc, ds.digest.as_slice())?;
            format!(in alloc; "DS:{owner}:{tag}:{algorithm}:{digest_type}:{digest}")?
        }
        Anchor::Key { owner, rdata } => {
            let rdata = octets_text(alloc, rdata.as_slice())?;
            format!(in alloc; "KEY:{owner}:{rdata}")?
        }
    })
}

/// `anchors-match TEXT OWNER RDATA`: whether an anchor of the text matches the DNSKEY record.
fn anchors_match(row: &Row) -> Result<String, RowError> {
    let bump = Bump::new(row.alloc());
    let anchors = trust_anchors(row, 0, &bump)?;
    let (owner, rdata) = (row.name(1)?, row.octets(2)?);
    let dnskey = dnskey_of(rdata.as_slice())?;
    let is_matched = has_anchor_match(&anchors, &KeyRecord::new(&owner, rdata.as_slice(), &dnskey));
    Ok(format!(in row.alloc(); "{is_matched}")?)
}

/// The trust anchors that the argument is a text of.
pub fn trust_anchors<'b>(row: &Row, place: usize, bump: &'b Bump) -> Result<Anchors<'b>, RowError> {
    match Anchors::parse(row.alloc(), bump, row.octets(place)?.as_slice()) {
        Ok(anchors) => Ok(anchors),
        Err(AnchorsError::OutOfMemory) => Err(RowError::OutOfMemory),
        Err(_) => Err(RowError::Malformed),
    }
}
