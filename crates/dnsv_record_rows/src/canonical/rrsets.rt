//! Which RRsets captures have, and what they refuse.

use crate::canonical::record_type;
use crate::captures::{capture, capture_or_refusal, frames, messages};
use bumpalo::Bump;
use dnsv_canonical::{Capture, CaptureError, Rrset};
use dnsv_message::Section;
use dnsv_row_text::{Row, RowError, list_text};
use std::alloc::Global;

/// What the library answers, where it has the call.
pub fn answer(row: &Row) -> Result<Option<String>, RowError> {
    if row.calls("rrsets") {
        return Ok(Some(rrsets(row)?));
    }
    if row.calls("rrsets-of-the-rest") {
        return Ok(Some(rrsets_of_the_rest(row)?));
    }
    if row.calls("totals") {
        return Ok(Some(totals(row)?));
    }
    if row.calls("at") {
        return Ok(Some(at(row)?));
    }
    if row.calls("each-at") {
        return Ok(Some(each_at(row)?));
    }
    Ok(None)
}

/// `rrsets CAPTURE`: of each RRset `MESSAGE:SECTION:OWNER:TYPE:RECORDS:SIGNATURES`, the last two in number; or why a
/// message is refused.
fn rrsets(row: &Row) -> Result<String, RowError> {
    let bump = Bump::new(row.alloc());
    match capture_or_refusal(row, 0, &bump)? {
        Ok(capture) => list(row.alloc(), &capture),
        Err(refusal) => Ok(refusal),
    }
}

/// `rrsets-of-the-rest CAPTURE`: the same, where each message that is refused is passed over.
fn rrsets_of_the_rest(row: &Row) -> Result<String, RowError> {
    let bump = Bump::new(row.alloc());
    let frames = frames(row, 0, &bump)?;
    let mut capture = Capture::new(row.alloc(), &bump);
    for message in &messages(row.alloc(), &frames)? {
        let _ = capture.add(message);
    }
    list(row.alloc(), &capture)
}

/// `totals CAPTURE`: how many RRsets, records of RRsets, signatures, and parameters of NSEC3 the capture has.
fn totals(row: &Row) -> Result<String, RowError> {
    let bump = Bump::new(row.alloc());
    let capture = capture(row, 0, &bump)?;
    let (mut records, mut signatures) = (0usize, 0usize);
    for rrset in capture.rrsets() {
        records = records.saturating_add(rrset.len());
        signatures = signatures.saturating_add(rrset.signatures().len());
    }
    let (rrsets, parameters) = (capture.rrsets().len(), capture.nsec3_parameters().len());
    Ok(format!(in row.alloc(); "{rrsets} {records} {signatures} {parameters}")?)
}

/// `at CAPTURE NAME TYPE`: the numbers of the RRsets of the name and type.
fn at(row: &Row) -> Result<String, RowError> {
    let bump = Bump::new(row.alloc());
    let capture = capture(row, 0, &bump)?;
    let numbers = capture.at(&row.name(1)?, record_type(row, 2)?);
    let mut texts = Vec::new(row.alloc());
    for number in numbers {
        texts.push(format!(in row.alloc(); "{number}")?)?;
    }
    list_text(row.alloc(), texts.as_slice())
}

/// `each-at CAPTURE`: how many RRsets are found alone by their owner and type.
fn each_at(row: &Row) -> Result<String, RowError> {
    let bump = Bump::new(row.alloc());
    let capture = capture(row, 0, &bump)?;
    let mut found = 0usize;
    for (place, rrset) in capture.rrsets().iter().enumerate() {
        if is_alone(&capture, place.saturating_add(1), rrset) {
            found = found.saturating_add(1);
        }
    }
    Ok(format!(in row.alloc(); "{found}")?)
}

fn is_alone(capture: &Capture<'_>, number: usize, rrset: &Rrset<'_>) -> bool {
    let [found] = capture.at(rrset.owner(), rrset.rtype()) else {
        return false;
    };
    *found == number
}

/// Of each RRset what `rrsets` prints.
pub fn list(alloc: Global, capture: &Capture<'_>) -> Result<String, RowError> {
    let mut texts = Vec::new(alloc);
    for rrset in capture.rrsets() {
        texts.push(text_of(alloc, rrset)?)?;
    }
    list_text(alloc, texts.as_slice())
}

fn text_of(alloc: Global, rrset: &Rrset<'_>) -> Result<String, RowError> {
    let (message, owner, rtype) = (rrset.message(), rrset.owner(), rrset.rtype().0);
    let section = match rrset.section() {
        Section::Answer => "answer",
        Section::Authority => "authority",
        Section::Additional => "additional",
    };
    let (records, signatures) = (rrset.len(), rrset.signatures().len());
    Ok(format!(in alloc; "{message}:{section}:{owner}:{rtype}:{records}:{signatures}")?)
}
