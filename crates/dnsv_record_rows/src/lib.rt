//! Worked examples of records, captures and questions: what these libraries answer to a row, and the captures that rows
//! write.
#![tactic(auto)]

pub use answers::answer;
pub use captures::{capture, capture_or_refusal, rrset, signature};

mod answers;
mod canonical;
mod captures;
mod questions;
mod records;
