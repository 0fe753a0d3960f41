//! Worked examples of names, messages, digests and signed messages: what these libraries answer to a row.
#![tactic(auto)]

pub use answers::answer;

mod answers;
mod digest;
mod message;
mod names;
mod signed;
