//! Proofs that a name or a type isn't there, by the records of evidence (RFC 4035 5.4, RFC 5155 8).
//!
//! A `View` gathers the NSEC and NSEC3 records that each zone itself signed under a trusted key, and gives the first
//! proof that they make; what it means for the zone are laws of `dnsv_zones` about the zones whose chain has them.
#![tactic(auto)]

pub use gathering::denial_records::DenialRecords;
pub use gathering::gathered::gathered_records;
pub use gathering::nsec3::owner_hash;
pub use gathering::zone_records::GatheredRecords;
pub use proving::proof::Proof;
pub use proving::shown_denial::ShownDenial;
pub use unsigned_cuts::cut_meaning::{
    a_shown_encloser_is_an_open_node_of_the_zone, a_shown_unsigned_delegation_is_one_of_the_zone,
    an_opted_out_name_is_no_node_or_an_unsigned_end,
};
pub use unsigned_cuts::shown_cut::ShownCut;
pub use view::View;

mod gathering;
mod proving;
mod unsigned_cuts;
mod view;
mod wildcard_answers;
