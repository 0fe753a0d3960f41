//! Calls of `dnsv_chain`.

pub use anchors::trust_anchors;
use dnsv_row_text::{Row, RowError};
pub use trust::trust_in;

mod anchors;
mod ds;
mod trust;

/// What the library answers, where it has the call.
pub fn answer(row: &Row) -> Result<Option<String>, RowError> {
    if let Some(text) = anchors::answer(row)? {
        return Ok(Some(text));
    }
    if let Some(text) = ds::answer(row)? {
        return Ok(Some(text));
    }
    trust::answer(row)
}
