//! Why a verdict stands: lines that each say a fact of the evidence.
//!
//! The lines are those of `dnsv_lines`; `dnsv_holding` makes those of what holds, and `dnsv_reasons` those of what fails.
#![tactic(auto)]

pub use explanation::explainer::Explainer;
pub use explanation::{Explanation, explain};

mod explanation;
