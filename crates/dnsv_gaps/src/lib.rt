//! What the evidence has that may answer a question or deny it, whether it is trusted or not, and what it lacks.
//!
//! The facts are those of `dnsv_remedies`, which finds by them the least that has to be mended. `dnsv_reasons`
//! reports that.
#![tactic(auto)]

pub use asked::AskedQuestion;
pub use question::question_facts;
pub use sources::{HeldSource, ZoneDenials, sources_of, zone_denials};

mod asked;
mod denials;
mod parts;
mod question;
mod sources;
mod speakers;
