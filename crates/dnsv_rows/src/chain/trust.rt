//! What is trusted in a capture, where `ByFirstOctet` verifies.

use super::anchors::trust_anchors;
use crate::evidence::verifying::ByFirstOctet;
use bumpalo::Bump;
use dnsv_canonical::Capture;
use dnsv_chain::{Anchors, Trust, trusted};
use dnsv_names::Count;
use dnsv_record_rows::capture;
use dnsv_row_text::{Row, RowError, list_text, octets_text};
use dnsv_verifier::ask_all;
use std::alloc::Global;

/// What the library answers, where it has the call.
pub fn answer(row: &Row) -> Result<Option<String>, RowError> {
    if row.calls("trusted") {
        return Ok(Some(good_signatures(row)?));
    }
    if row.calls("trusted-rrset") {
        return Ok(Some(good_signatures_of(row)?));
    }
    if row.calls("trusted-keys") {
        return Ok(Some(keys(row)?));
    }
    Ok(None)
}

/// `trusted CAPTURE ANCHORS MOMENT`: of each RRset the numbers of its good signatures, parted by `,`.
fn good_signatures(row: &Row) -> Result<String, RowError> {
    let bump = Bump::new(row.alloc());
    let capture = capture(row, 0, &bump)?;
    good_signatures_in(row, &bump, &capture)
}

fn good_signatures_in(row: &Row, bump: &Bump, capture: &Capture<'_>) -> Result<String, RowError> {
    let alloc = row.alloc();
    let trust = trust_in(row, bump, capture, 1)?;
    let mut texts = Vec::new(alloc);
    for before in 0..capture.rrsets().len() {
        texts.push(numbers(alloc, trust.signed(before.saturating_add(1)))?)?;
    }
    list_text(alloc, texts.as_slice())
}

/// `trusted-rrset CAPTURE ANCHORS MOMENT RRSET`: the same of the RRset with the number alone.
fn good_signatures_of(row: &Row) -> Result<String, RowError> {
    let bump = Bump::new(row.alloc());
    let capture = capture(row, 0, &bump)?;
    good_signatures_of_in(row, &bump, &capture)
}

fn good_signatures_of_in(
    row: &Row,
    bump: &Bump,
    capture: &Capture<'_>,
) -> Result<String, RowError> {
    let trust = trust_in(row, bump, capture, 1)?;
    match usize::try_from(row.number(3)?) {
        Ok(rrset) => numbers(row.alloc(), trust.signed(rrset)),
        Err(_) => Err(RowError::Malformed),
    }
}

/// `trusted-keys CAPTURE ANCHORS MOMENT ZONE`: the trusted keys of the zone, `FLAGS:PROTOCOL:ALGORITHM:KEY`.
fn keys(row: &Row) -> Result<String, RowError> {
    let bump = Bump::new(row.alloc());
    let capture = capture(row, 0, &bump)?;
    keys_in(row, &bump, &capture)
}

fn keys_in(row: &Row, bump: &Bump, capture: &Capture<'_>) -> Result<String, RowError> {
    let alloc = row.alloc();
    let trust = trust_in(row, bump, capture, 1)?;
    let mut texts = Vec::new(alloc);
    for key in trust.keys(&row.name(3)?) {
        let (flags, protocol, algorithm) = (key.flags.0, key.protocol, key.algorithm.0);
        let octets = octets_text(alloc, key.key.as_slice())?;
        texts.push(format!(in alloc; "{flags}:{protocol}:{algorithm}:{octets}")?)?;
    }
    list_text(alloc, texts.as_slice())
}

/// The trust in the capture by the anchors of the argument with so many before it, at the moment that the third one is. What
/// is asked lies in the arena.
pub fn trust_in<'c>(
    row: &Row,
    bump: &'c Bump,
    capture: &'c Capture<'c>,
    anchors: usize,
) -> Result<Trust<'c>, RowError> {
    let moment = row.number(2)?;
    let anchors = trust_anchors(row, anchors, bump)?;
    trust_by(row.alloc(), bump, capture, &anchors, moment)
}

/// The trust in the capture by the anchors at the moment; what is asked lies in the arena.
fn trust_by<'c>(
    alloc: Global,
    bump: &'c Bump,
    capture: &'c Capture<'c>,
    anchors: &Anchors<'_>,
    moment: u64,
) -> Result<Trust<'c>, RowError> {
    let mut count = Count::new();
    let table = ask_all(alloc, bump, capture, moment, &ByFirstOctet, &mut count)?;
    Ok(trusted(alloc, anchors, &table)?)
}

/// The numbers parted by `,`, `-` for none.
fn numbers(alloc: Global, numbers: &[usize]) -> Result<String, RowError> {
    let Some((first, others)) = numbers.split_first() else {
        return Ok(String::from_str(alloc, "-")?);
    };
    let mut text = format!(in alloc; "{first}")?;
    for number in others {
        text = format!(in alloc; "{text},{number}")?;
    }
    Ok(text)
}
