//! What is so of the names at or above a name as zones: of their keys, their DNSKEY RRsets, and the trust anchors and DS
//! records that may vouch for these.
//!
//! The facts are those of `dnsv_mending`, which finds by them the least that has to be mended. What is so of each RRset and
//! its signatures is found by `dnsv_faults`.
#![tactic(auto)]

pub use laws::{what_is_found_is_in_place, what_is_found_is_whole};
pub use zone::groups::anchors::anchor_key_name;
pub use zone::zone_facts;

mod laws;
mod zone;
