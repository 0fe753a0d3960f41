//! Calls of `dnsv_records`.

mod denial;
mod key;
mod told;

use dnsv_names::Hash20;
use dnsv_records::{Expiration, Inception, base32hex_read, base32hex_write, key_tag, time_valid};
use dnsv_row_text::{Row, RowError, none_text, truth_text};
use std::str;

/// What the library answers, where it has the call.
pub fn answer(row: &Row) -> Result<Option<String>, RowError> {
    if let Some(text) = key::answer(row)? {
        return Ok(Some(text));
    }
    if let Some(text) = denial::answer(row)? {
        return Ok(Some(text));
    }
    answer_of_numbers(row)
}

/// The same of what is no record.
fn answer_of_numbers(row: &Row) -> Result<Option<String>, RowError> {
    if row.calls("key_tag") {
        return Ok(Some(tag(row)?));
    }
    if row.calls("time_valid") {
        return Ok(Some(is_valid(row)?));
    }
    if row.calls("base32hex_read") {
        return Ok(Some(hash_read(row)?));
    }
    if row.calls("base32hex_write") {
        return Ok(Some(hash_written(row)?));
    }
    Ok(None)
}

/// `key_tag OCTETS`: the key tag of the DNSKEY with this RDATA.
fn tag(row: &Row) -> Result<String, RowError> {
    let tag = key_tag(row.octets(0)?.as_slice());
    Ok(format!(in row.alloc(); "{tag}")?)
}

/// `time_valid INCEPTION EXPIRATION MOMENT`: whether a signature with these times is valid at the moment.
fn is_valid(row: &Row) -> Result<String, RowError> {
    let inception = Inception(row.number32(0)?);
    let expiration = Expiration(row.number32(1)?);
    let is_valid = time_valid(inception, expiration, row.number(2)?);
    Ok(truth_text(row.alloc(), is_valid)?)
}

/// `base32hex_read OCTETS`: the hash that the text spells.
fn hash_read(row: &Row) -> Result<String, RowError> {
    match base32hex_read(row.octets(0)?.as_slice()) {
        Some(hash) => Ok(hex::encode(row.alloc(), hash.octets().as_slice())?),
        None => Ok(none_text(row.alloc())?),
    }
}

/// `base32hex_write OCTETS`: the text of a hash of 20 octets.
fn hash_written(row: &Row) -> Result<String, RowError> {
    let Ok(octets) = <[u8; 20]>::try_from(row.octets(0)?.as_slice()) else {
        return Err(RowError::Malformed);
    };
    match str::from_utf8(base32hex_write(&Hash20::new(octets)).as_slice()) {
        Ok(text) => Ok(String::from_str(row.alloc(), text)?),
        Err(_) => Err(RowError::Malformed),
    }
}
