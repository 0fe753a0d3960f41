//! Names as octets and as text.

use super::refused;
use dnsv_names::Name;
use dnsv_row_text::{Row, RowError, none_text};

/// What the library answers, where it has the call.
pub fn answer(row: &Row) -> Result<Option<String>, RowError> {
    if row.calls("parse") {
        return Ok(Some(parse(row)?));
    }
    if row.calls("read_name") {
        return Ok(Some(read_name(row)?));
    }
    if row.calls("text_of_name") {
        return Ok(Some(text_of_name(row)?));
    }
    if row.calls("display") {
        return Ok(Some(display(row)?));
    }
    Ok(None)
}

/// `parse OCTETS`: the wire form of the name whose text the octets are, or its refusal.
fn parse(row: &Row) -> Result<String, RowError> {
    match Name::parse(row.octets(0)?.as_slice()) {
        Ok(name) => Ok(hex::encode(row.alloc(), name.wire())?),
        Err(error) => Ok(refused(row.alloc(), &error)?),
    }
}

/// `read_name OCTETS`: how many octets the name at the front takes, how many labels it has, and its wire form.
fn read_name(row: &Row) -> Result<String, RowError> {
    let alloc = row.alloc();
    let octets = row.octets(0)?;
    let Some((name, length)) = Name::read(octets.as_slice()) else {
        return Ok(none_text(alloc)?);
    };
    let labels = name.labels();
    let wire = hex::encode(alloc, name.wire())?;
    Ok(format!(in alloc; "{length} {labels} {wire}")?)
}

/// `text_of_name OCTETS`: the text of the name at the front.
fn text_of_name(row: &Row) -> Result<String, RowError> {
    let octets = row.octets(0)?;
    match Name::read(octets.as_slice()) {
        Some((name, _)) => Ok(String::from_str(row.alloc(), name.text().as_str())?),
        None => Ok(none_text(row.alloc())?),
    }
}

/// `display NAME`: the name as it is written into a text.
fn display(row: &Row) -> Result<String, RowError> {
    let name = row.name(0)?;
    Ok(format!(in row.alloc(); "{name}")?)
}
