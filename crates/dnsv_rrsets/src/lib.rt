//! What holds of RRsets (RFC 2181 5), and their records in canonical order (RFC 4034 6.3).
#![tactic(auto)]

pub use canonical_order::{ReadFrom, ReadRecord, in_canonical_order};
pub use laws::{
    canonical_form_lowers_the_names, captures_hold_the_rrsets, earlier_rrsets_keep_their_numbers,
    evidence_or_one_refusal, first_appearances_are_all_once, one_canonical_list,
    records_are_in_one_rrset, rrsets_are_well_formed, signed_data_begins_as_the_signature,
};

mod canonical_order;
mod laws;
