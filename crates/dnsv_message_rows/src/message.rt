//! Calls of `dnsv_message`.

use dnsv_message::{DecodeError, Message, Record, Section};
use dnsv_row_text::{Row, RowError};
use std::alloc::{AllocError, Global};

mod names;
mod streams;

/// What the library answers, where it has the call.
pub fn answer(row: &Row) -> Result<Option<String>, RowError> {
    if row.calls("decode") {
        return Ok(Some(decode(row)?));
    }
    if row.calls("written") {
        return Ok(Some(written(row)?));
    }
    if row.calls("contents") {
        return Ok(Some(contents(row)?));
    }
    if row.calls("cut_short") {
        return Ok(Some(cut_short(row)?));
    }
    if let Some(text) = names::answer(row)? {
        return Ok(Some(text));
    }
    streams::answer(row)
}

/// `decode OCTETS`: at which octet the message's last record begins, or `-`, and the octets that are written for the
/// message.
fn decode(row: &Row) -> Result<String, RowError> {
    let alloc = row.alloc();
    let octets = row.octets(0)?;
    match Message::decode_with_tail(alloc, &octets) {
        Ok((message, tail)) => {
            let place = place_of(alloc, tail)?;
            let octets = hex::encode(alloc, message.encode(alloc)?)?;
            Ok(format!(in alloc; "{place} {octets}")?)
        }
        Err(error) => refused(alloc, &error),
    }
}

/// `written OCTETS WRITTEN`: the same, but whether the octets that are written are these.
fn written(row: &Row) -> Result<String, RowError> {
    let alloc = row.alloc();
    let octets = row.octets(0)?;
    match Message::decode_with_tail(alloc, &octets) {
        Ok((message, tail)) => {
            let place = place_of(alloc, tail)?;
            let is_so = message.encode(alloc)? == row.octets(1)?;
            Ok(format!(in alloc; "{place} {is_so}")?)
        }
        Err(error) => refused(alloc, &error),
    }
}

fn place_of(alloc: Global, tail: Option<usize>) -> Result<String, AllocError> {
    match tail {
        Some(place) => Ok(format!(in alloc; "{place}")?),
        None => Ok(String::from_str(alloc, "-")?),
    }
}

fn refused(alloc: Global, error: &DecodeError) -> Result<String, RowError> {
    let code = error.code();
    match error {
        DecodeError::BadRdata(number) => Ok(format!(in alloc; "refused {code} record {number}")?),
        _ => Ok(format!(in alloc; "refused {code}")?),
    }
}

/// `contents OCTETS`: the message's identifier and flags, `response` and `truncated` where it is so, and then each
/// question and record: where it stands, its name, type, class, TTL and RDATA.
fn contents(row: &Row) -> Result<String, RowError> {
    let octets = row.octets(0)?;
    match Message::decode(row.alloc(), &octets) {
        Ok(message) => Ok(contents_of(row.alloc(), &message)?),
        Err(error) => refused(row.alloc(), &error),
    }
}

fn contents_of(alloc: Global, message: &Message<'_>) -> Result<String, AllocError> {
    let (id, flags) = (message.id(), message.flags());
    let mut text = format!(in alloc; "{id} {}", flags.0)?;
    if flags.is_response() {
        text.push_str(" response")?;
    }
    if flags.is_truncated() {
        text.push_str(" truncated")?;
    }
    for question in message.questions() {
        let (rtype, class) = (question.rtype.0, question.class.0);
        write!(
            text,
            " question {} {rtype} {class}",
            question.name.to_name()
        )?;
    }
    push_records(&mut text, "answer", message.records(Section::Answer))?;
    push_records(&mut text, "authority", message.records(Section::Authority))?;
    push_records(
        &mut text,
        "additional",
        message.records(Section::Additional),
    )?;
    Ok(text)
}

fn push_records(
    text: &mut String,
    section: &str,
    records: &[Record<'_>],
) -> Result<(), AllocError> {
    for each in records {
        let (rtype, class, ttl) = (each.rtype.0, each.class.0, each.ttl.0);
        let name = each.name.to_name();
        write!(text, " {section} {name} {rtype} {class} {ttl}")?;
        let alloc = *text.allocator();
        let octets = each.rdata.octets(alloc)?;
        let rdata = hex::encode(alloc, octets.as_slice())?;
        write!(text, " {rdata}")?;
    }
    Ok(())
}

/// `cut_short OCTETS CODE`: how many of the octets' beginnings, but for the whole, are refused so.
fn cut_short(row: &Row) -> Result<String, RowError> {
    let octets = row.octets(0)?;
    let code = row.number(1)?;
    let mut count = 0usize;
    for length in 0..octets.len() {
        if let Err(error) = Message::decode(row.alloc(), &octets[..length]) {
            if u64::from(error.code()) == code {
                count = count.saturating_add(1);
            }
        }
    }
    Ok(format!(in row.alloc(); "{count}")?)
}
