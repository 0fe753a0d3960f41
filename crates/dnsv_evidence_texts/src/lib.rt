//! The texts that need no verdict: of messages, of what signatures sign, of what is to be checked, and of a question that
//! is refused, in lines or in JSON.
//!
//! Nothing is decided here: each text is that of the values that are given. Those of verdicts are `dnsv_texts`'.
#![tactic(auto)]

pub use compact::compact_text;
pub use heading::Heading;
pub use json::question::push_question;
pub use json::todo::push_entry_array;
pub use listing::listing_text;
pub use refused::refused_text;
pub use showing::push_message;
pub use todo::{push_entries, todo_text};

mod compact;
mod heading;
mod hex_text;
mod json;
mod listing;
mod refused;
mod showing;
mod todo;
