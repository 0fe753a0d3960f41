//! The least that has to be mended, so that a zone is trusted and an RRset signed.
//!
//! What has to be mended on a way costs as many faults of each class as there are, and is reported from the root down. Of
//! some ways the cheapest is kept. `dnsv_faults` finds the ways in the evidence.
#![tactic(auto)]

pub use facts::keys::{DnskeyFacts, HeldKey, SelfSignature, VoucherFacts};
pub use facts::signature::{KeyAnswer, NamedKey, RrsetFacts, SignatureFacts, SignatureFaults};
pub use facts::zone::{DsFacts, ZoneFacts, ZoneKey};
pub use laws::{
    a_sum_is_nothing_where_both_are, something_always_leads_there, the_break_is_told,
    the_cheapest_is_the_first_of_the_least, what_costs_nothing_is_trusted,
    what_is_asked_of_facts_can_be_met, what_is_kept_is_a_single_way,
    what_is_not_trusted_has_a_reason, what_is_told_is_enough,
    who_grants_nothing_has_what_is_trusted,
};
pub use level::{HeldMend, Level, zone_above};
pub use levels::levels_of;
pub use mend::{Mend, offer, offer_after};
pub use price::{Class, Price};
pub use rrset::rrset_mend;
pub use signature::offer_signature;
pub use told::Told;
pub use within::within_mend;

mod facts;
mod faults;
mod keys;
mod laws;
mod level;
mod levels;
mod mend;
mod price;
mod rrset;
mod signature;
mod told;
mod within;
mod zone;
