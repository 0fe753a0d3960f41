//! What the libraries of records, captures and questions answer to a row.

use crate::canonical::again;
use crate::{canonical, questions, records};
use dnsv_row_text::{Row, RowError};

/// What the library that has the call answers, where one of these has it.
pub fn answer(row: &Row) -> Result<Option<String>, RowError> {
    if let Some(text) = records::answer(row)? {
        return Ok(Some(text));
    }
    if let Some(text) = again::answer(row)? {
        return Ok(Some(text));
    }
    if let Some(text) = canonical::answer(row)? {
        return Ok(Some(text));
    }
    questions::answer(row)
}
