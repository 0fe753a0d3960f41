//! Rows of worked examples as text: how a row is read, what rows have named, and how an answer is written.
#![tactic(auto)]

pub use printed::{list_text, none_text, octets_list_text, octets_text, order_sign, truth_text};
pub use row::{Row, RowError};

mod printed;
mod row;
mod written;
