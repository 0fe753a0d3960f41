//! Equality and order of names, and gaps in circles.

use dnsv_names::{ByWire, Hash20, Name, covers};
use dnsv_row_text::{Row, RowError, order_sign, truth_text};

/// What the library answers, where it has the call.
pub fn answer(row: &Row) -> Result<Option<String>, RowError> {
    if row.calls("is_same_name") {
        return Ok(Some(is_same_name(row)?));
    }
    if row.calls("canonical_cmp") {
        return Ok(Some(canonical_cmp(row)?));
    }
    if row.calls("by_wire") {
        return Ok(Some(by_wire(row)?));
    }
    if row.calls("covers") {
        return Ok(Some(covers_name(row)?));
    }
    if row.calls("covers_hash") {
        return Ok(Some(covers_hash(row)?));
    }
    Ok(None)
}

/// `is_same_name NAME NAME`: whether the two are equal.
fn is_same_name(row: &Row) -> Result<String, RowError> {
    let is_same = row.name(0)? == row.name(1)?;
    Ok(truth_text(row.alloc(), is_same)?)
}

/// `canonical_cmp NAME NAME ..`: how each compares with each, a word of `<`, `=` and `>` for each name.
fn canonical_cmp(row: &Row) -> Result<String, RowError> {
    let mut words = String::new(row.alloc());
    for place in 0..row.count() {
        if place > 0 {
            words.push(' ')?;
        }
        push_comparisons(&mut words, row, &row.name(place)?)?;
    }
    Ok(words)
}

/// Adds how the name compares with each of the row.
fn push_comparisons(word: &mut String, row: &Row, name: &Name) -> Result<(), RowError> {
    for place in 0..row.count() {
        word.push(order_sign(name.canonical_cmp(&row.name(place)?)))?;
    }
    Ok(())
}

/// `by_wire NAME NAME`: how the two compare as keys to search by.
fn by_wire(row: &Row) -> Result<String, RowError> {
    let order = ByWire(&row.name(0)?).cmp(&ByWire(&row.name(1)?));
    let sign = order_sign(order);
    Ok(format!(in row.alloc(); "{sign}")?)
}

/// `covers OWNER NEXT NAME`: whether the name lies in the gap between the two.
fn covers_name(row: &Row) -> Result<String, RowError> {
    let is_covered = covers(&row.name(0)?, &row.name(1)?, &row.name(2)?);
    Ok(truth_text(row.alloc(), is_covered)?)
}

/// `covers_hash OWNER NEXT HASH`: the same of hashes of 20 octets.
fn covers_hash(row: &Row) -> Result<String, RowError> {
    let is_covered = covers(&hash(row, 0)?, &hash(row, 1)?, &hash(row, 2)?);
    Ok(truth_text(row.alloc(), is_covered)?)
}

/// The hash that the argument is.
fn hash(row: &Row, place: usize) -> Result<Hash20, RowError> {
    match <[u8; 20]>::try_from(row.octets(place)?.as_slice()) {
        Ok(octets) => Ok(Hash20::new(octets)),
        Err(_) => Err(RowError::Malformed),
    }
}
