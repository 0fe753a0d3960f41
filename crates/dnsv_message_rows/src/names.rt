//! Calls of `dnsv_names`.

mod lines;
mod order;
mod spelling;
mod tree;

use dnsv_names::NameError;
use dnsv_row_text::{Row, RowError};
use std::alloc::{AllocError, Global};

/// What the library answers, where it has the call.
pub fn answer(row: &Row) -> Result<Option<String>, RowError> {
    if let Some(text) = spelling::answer(row)? {
        return Ok(Some(text));
    }
    if let Some(text) = tree::answer(row)? {
        return Ok(Some(text));
    }
    if let Some(text) = order::answer(row)? {
        return Ok(Some(text));
    }
    lines::answer(row)
}

fn refused(alloc: Global, error: &NameError) -> Result<String, AllocError> {
    let code = error.code();
    format!(in alloc; "refused {code}")
}
