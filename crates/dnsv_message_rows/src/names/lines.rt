//! Lines of text files, their fields, and numbers in them.
ghost use Rattle.std.specs.Prelude.{◌≤◌};

use dnsv_names::{Line, Lines, decimal_u8, decimal_u16};
use dnsv_row_text::{Row, RowError, none_text, octets_text};
use std::alloc::{AllocError, Global};

/// What the library answers, where it has the call.
pub fn answer(row: &Row) -> Result<Option<String>, RowError> {
    if row.calls("lines") {
        return Ok(Some(lines(row)?));
    }
    if row.calls("fields") {
        return Ok(Some(fields(row)?));
    }
    if row.calls("decimal_u8") {
        return Ok(Some(decimal8(row)?));
    }
    if row.calls("decimal_u16") {
        return Ok(Some(decimal16(row)?));
    }
    Ok(None)
}

/// `lines OCTETS`: the lines that count, each as its number, a colon and its octets.
fn lines(row: &Row) -> Result<String, RowError> {
    let alloc = row.alloc();
    let octets = row.octets(0)?;
    let mut text = String::new(alloc);
    for line in Lines::new(octets.as_slice()) {
        push_item(&mut text, line_told(alloc, &line)?.as_str())?;
    }
    Ok(or_none(text)?)
}

fn line_told(alloc: Global, line: &Line<'_>) -> Result<String, AllocError> {
    let number = line.number();
    let octets = octets_text(alloc, line.octets())?;
    format!(in alloc; "{number}:{octets}")
}

/// Adds an item, behind a blank where it isn't the first.
fn push_item(text: &mut String, item: &str) -> Result<(), AllocError> {
    if !text.is_empty() {
        text.push(' ')?;
    }
    text.push_str(item)
}

fn or_none(text: String) -> Result<String, AllocError> {
    if text.is_empty() {
        return none_text(*text.allocator());
    }
    Ok(text)
}

/// `fields N OCTETS`: the fields of the first line, where it has N of them, from 1 to 3.
fn fields(row: &Row) -> Result<String, RowError> {
    let octets = row.octets(1)?;
    let Some(line) = Lines::new(octets.as_slice()).next() else {
        return Err(RowError::Malformed);
    };
    match row.number(0)? {
        1 => Ok(fields_of::<1>(row.alloc(), &line)?),
        2 => Ok(fields_of::<2>(row.alloc(), &line)?),
        3 => Ok(fields_of::<3>(row.alloc(), &line)?),
        _ => Err(RowError::Malformed),
    }
}

/// The fields of the line, where it has so many.
fn fields_of<const N: usize>(alloc: Global, line: &Line<'_>) -> Result<String, AllocError>
    requires { N ≤ 3 }
{
    let Some(fields) = line.fields::<N>() else {
        return none_text(alloc);
    };
    let mut text = String::new(alloc);
    for field in fields.as_slice() {
        push_item(&mut text, octets_text(alloc, field)?.as_str())?;
    }
    Ok(text)
}

/// `decimal_u8 OCTETS`: the number below 2^8 whose digits the text is.
fn decimal8(row: &Row) -> Result<String, RowError> {
    match decimal_u8(row.octets(0)?.as_slice()) {
        Some(number) => Ok(format!(in row.alloc(); "{number}")?),
        None => Ok(none_text(row.alloc())?),
    }
}

/// `decimal_u16 OCTETS`: the number below 2^16 whose digits the text is.
fn decimal16(row: &Row) -> Result<String, RowError> {
    match decimal_u16(row.octets(0)?.as_slice()) {
        Some(number) => Ok(format!(in row.alloc(); "{number}")?),
        None => Ok(none_text(row.alloc())?),
    }
}
