//! What keeps a zone from being trusted, or an RRset from being signed, as lines: what is told of it by numbers, with the
//! names, the keys and the records that these are of.
//!
//! What is told is what `dnsv_mending` finds. `dnsv_reasons` tells besides what keeps a question from being answered.
#![tactic(auto)]

pub use labels::above;
pub use signature::shown;
pub use trust::trust_line;

mod entry;
mod key;
mod labels;
mod signature;
mod trust;
