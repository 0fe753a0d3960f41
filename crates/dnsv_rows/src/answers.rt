//! What is printed for a line of the input.

use crate::{chain, denial, verdict, verifier};
use dnsv_row_text::{Row, RowError};
use std::alloc::AllocError;

/// What is printed for the line: a title as it stands, what a library answers to a row, and nothing for comments, empty
/// lines and definitions.
pub fn told(row: &mut Row, line: &str) -> Result<Option<String>, AllocError> {
    if line.starts_with("##") {
        return Ok(Some(String::from_str(row.alloc(), line)?));
    }
    if line.is_empty() || line.starts_with('#') {
        return Ok(None);
    }
    row.read(line)?;
    let found = if row.calls("let") {
        row.define()
    } else {
        answer(row)
    };
    text_of(row, found)
}

fn text_of(
    row: &Row,
    found: Result<Option<String>, RowError>,
) -> Result<Option<String>, AllocError> {
    let why = match found {
        Ok(text) => return Ok(text),
        Err(RowError::OutOfMemory) => "out of memory",
        Err(RowError::Malformed) => "malformed row",
    };
    Ok(Some(String::from_str(row.alloc(), why)?))
}

/// What the library that has the call answers.
fn answer(row: &Row) -> Result<Option<String>, RowError> {
    if let Some(text) = dnsv_message_rows::answer(row)? {
        return Ok(Some(text));
    }
    if let Some(text) = dnsv_record_rows::answer(row)? {
        return Ok(Some(text));
    }
    if let Some(text) = verifier::answer(row)? {
        return Ok(Some(text));
    }
    if let Some(text) = chain::answer(row)? {
        return Ok(Some(text));
    }
    if let Some(text) = denial::answer(row)? {
        return Ok(Some(text));
    }
    if let Some(text) = verdict::answer(row)? {
        return Ok(Some(text));
    }
    Err(RowError::Malformed)
}
