//! Which keys are trusted: trust anchors and DS records, and the keys that match them (RFC 4035 5).
//!
//! A DNSKEY RRset is trusted where one of its keys signs it and matches a trust anchor, or matches a usable record of a
//! DS RRset that is signed by a trusted RRset above.
#![tactic(auto)]

pub use anchored::{has_anchor_match, is_anchor_match};
pub use chain::trusted;
pub use dnsv_anchors::{
    Anchor, Anchors, AnchorsError, ByOwner, OwnerKey, a_text_is_one_list_of_anchors, add_at, at,
    goes_before, has_usable, is_usable,
};
pub use laws::{
    more_evidence_takes_no_trust_away, nothing_is_trusted_without_an_anchor,
    trust_depends_on_what_is_asked, trust_leads_down_from_an_anchor,
};
pub use matching::{has_usable_match, is_match};
pub use signing::good::is_good;
pub use trust::Trust;
pub use unusable_ds::is_unusable_ds;

mod anchored;
mod by_rdata;
mod chain;
mod delegated;
mod laws;
mod matching;
mod order;
mod signing;
mod trust;
mod unusable_ds;
