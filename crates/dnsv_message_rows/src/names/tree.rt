//! The labels of a name, and the names above and below it.

use super::refused;
use dnsv_names::Name;
use dnsv_row_text::{Row, RowError, none_text, octets_text, truth_text};

/// What the library answers, where it has the call.
pub fn answer(row: &Row) -> Result<Option<String>, RowError> {
    if row.calls("label") {
        return Ok(Some(label(row)?));
    }
    if row.calls("suffix") {
        return Ok(Some(suffix(row)?));
    }
    if row.calls("to_lower") {
        return Ok(Some(to_lower(row)?));
    }
    if row.calls("clone_of_name") {
        return Ok(Some(clone_of_name(row)?));
    }
    if row.calls("parent") {
        return Ok(Some(parent(row)?));
    }
    if row.calls("is_at_or_below") {
        return Ok(Some(is_at_or_below(row)?));
    }
    answer_of_wildcards(row)
}

/// The same of wildcards.
fn answer_of_wildcards(row: &Row) -> Result<Option<String>, RowError> {
    if row.calls("is_wildcard") {
        return Ok(Some(is_wildcard(row)?));
    }
    if row.calls("wildcard_of") {
        return Ok(Some(wildcard_of(row)?));
    }
    if row.calls("source_of_synthesis") {
        return Ok(Some(source_of_synthesis(row)?));
    }
    Ok(None)
}

/// `label NAME N`: the octets of the label with N others to its left.
fn label(row: &Row) -> Result<String, RowError> {
    let name = row.name(0)?;
    let place = row.number(1)? as usize;
    if place >= name.labels() {
        return Ok(none_text(row.alloc())?);
    }
    Ok(octets_text(row.alloc(), name.label(place))?)
}

/// `suffix NAME N`: the N rightmost labels.
fn suffix(row: &Row) -> Result<String, RowError> {
    let name = row.name(0)?;
    let count = row.number(1)? as usize;
    if count > name.labels() {
        return Ok(none_text(row.alloc())?);
    }
    let suffix = name.suffix(count);
    Ok(format!(in row.alloc(); "{suffix}")?)
}

/// `to_lower NAME`: the name in lower case.
fn to_lower(row: &Row) -> Result<String, RowError> {
    let lower = row.name(0)?.to_lower();
    Ok(format!(in row.alloc(); "{lower}")?)
}

/// `clone_of_name NAME`: a clone of the name.
fn clone_of_name(row: &Row) -> Result<String, RowError> {
    let clone = row.name(0)?.clone()?;
    Ok(format!(in row.alloc(); "{clone}")?)
}

/// `parent NAME`: the name without its leftmost label.
fn parent(row: &Row) -> Result<String, RowError> {
    match row.name(0)?.parent() {
        Some(parent) => Ok(format!(in row.alloc(); "{parent}")?),
        None => Ok(none_text(row.alloc())?),
    }
}

/// `is_at_or_below NAME ABOVE`: whether the first name is the second or stands below it.
fn is_at_or_below(row: &Row) -> Result<String, RowError> {
    let is_below = row.name(0)?.is_at_or_below(&row.name(1)?);
    Ok(truth_text(row.alloc(), is_below)?)
}

/// `is_wildcard NAME`: whether the leftmost label is `*`.
fn is_wildcard(row: &Row) -> Result<String, RowError> {
    let is_wildcard = row.name(0)?.is_wildcard();
    Ok(truth_text(row.alloc(), is_wildcard)?)
}

/// `wildcard_of NAME`: the wildcard right below the name, or its refusal.
fn wildcard_of(row: &Row) -> Result<String, RowError> {
    match row.name(0)?.wildcard_of() {
        Ok(wildcard) => Ok(format!(in row.alloc(); "{wildcard}")?),
        Err(error) => Ok(refused(row.alloc(), &error)?),
    }
}

/// `source_of_synthesis NAME N`: the wildcard right below the N rightmost labels.
fn source_of_synthesis(row: &Row) -> Result<String, RowError> {
    let name = row.name(0)?;
    let count = row.number(1)? as usize;
    if count >= name.labels() {
        return Ok(none_text(row.alloc())?);
    }
    let source = name.source_of_synthesis(count);
    Ok(format!(in row.alloc(); "{source}")?)
}
