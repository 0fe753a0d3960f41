//! What the libraries up to `dnsv_tsig` answer to a row.

use crate::{digest, message, names, signed};
use dnsv_row_text::{Row, RowError};

/// What the library that has the call answers, where one of these has it.
pub fn answer(row: &Row) -> Result<Option<String>, RowError> {
    if let Some(text) = names::answer(row)? {
        return Ok(Some(text));
    }
    if let Some(text) = message::answer(row)? {
        return Ok(Some(text));
    }
    if let Some(text) = digest::answer(row)? {
        return Ok(Some(text));
    }
    signed::answer(row)
}
