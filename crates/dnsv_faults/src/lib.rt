//! What is so of the evidence where it proves nothing, as far as it costs something to mend: of RRsets, of their signatures
//! and of the keys that these name; and which zones the evidence knows.
//!
//! The facts are those of `dnsv_mending`, which finds by them the least that has to be mended. `dnsv_reasons`
//! reports that.
#![tactic(auto)]

pub use case_facts::CaseFacts;
pub use known::speakers::{is_above, is_from_above, is_goal};
pub use known::{has_anchor, has_own_anchor, has_rrset};
pub use rrset::facts_of;
pub use signature::words::signature_faults;

mod case_facts;
mod known;
mod rrset;
mod signature;
