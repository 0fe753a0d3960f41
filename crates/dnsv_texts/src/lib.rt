//! The texts of what the program says of questions: of a verdict and of why it stands, in lines or in JSON.
//!
//! Nothing is decided here: each text is that of the values that are given. Those of evidence are `dnsv_evidence_texts`'.
#![tactic(auto)]

pub use checking::check_text;
pub use told::told_text;

mod checking;
mod explaining;
mod json;
mod numbering;
mod reason;
mod told;
mod words;
