//! The laws of zones: what a zone is and what it answers, its chains of NSEC and NSEC3 records, and what their records
//! prove of it (RFC 4034 4, RFC 4035 5.4, RFC 5155).
//!
//! A form of proof stands over what records say of names. Where it stands over records of a zone's chain, it holds of
//! the zone; and the whole chain has a proof of each name and type that the zone lacks. Here are also the tests of one
//! record, and the hashes that a question asks for.
#![tactic(auto)]

pub use chain::each_zone_has_a_chain;
pub use hashing::{HashedNames, hash_names};
pub use lookup::a_question_has_one_answer;
pub use more::{more_nsec_records_prove_no_less, more_nsec3_records_prove_no_less};
pub use nsec::{
    a_name_absent_by_nsec_is_no_node, a_name_that_nsec_covers_has_nothing_closed_above,
    an_empty_non_terminal_by_nsec_is_one_of_the_zone, nsec_records_show_nodes,
    the_owner_before_a_name_is_the_end_above_it,
};
pub use nsec_complete::{
    an_nsec_chain_proves_each_missing_name, an_nsec_chain_proves_each_missing_type,
    an_nsec_chain_proves_each_unsigned_delegation,
};
pub use nsec_meaning::{
    a_small_zone_has_a_proof_of_no_such_name, no_closer_by_nsec_is_held_at_the_wildcard,
    no_data_by_nsec_is_no_data, no_name_by_nsec_is_no_name,
    unsigned_cut_by_nsec_is_an_unsigned_delegation,
};
pub use nsec3::{
    a_name_covered_by_nsec3_is_none_of_the_chain, a_name_matched_by_nsec3_is_of_the_chain,
    an_encloser_by_nsec3_is_an_open_node,
};
pub use nsec3_complete::{
    an_nsec3_chain_proves_each_denial_or_tells_of_opt_out,
    an_nsec3_chain_tells_of_each_unsigned_delegation,
    an_nsec3_chain_without_opt_out_proves_each_denial,
};
pub use nsec3_meaning::{
    a_small_zone_leaves_out_an_unsigned_delegation, no_closer_by_nsec3_is_held_at_the_wildcard,
    no_data_by_nsec3_is_no_data, no_name_by_nsec3_is_no_name, opted_out_nodes_are_unsigned_ends,
    unsigned_cut_by_nsec3_is_an_unsigned_delegation,
};
pub use types::{denies, is_closed, is_delegation, is_unsigned_delegation};
pub use words::{is_absent, is_covered, is_empty_non_terminal, is_no_cut_above, is_node};
pub use zone::{
    a_next_closer_name_that_is_missing_ends_the_search, no_node_is_below_an_end_of_the_zone,
    nothing_closed_is_above_a_missing_name, what_is_above_a_node_is_a_node,
};

mod chain;
mod hashing;
mod lookup;
mod more;
mod nsec;
mod nsec3;
mod nsec3_complete;
mod nsec3_meaning;
mod nsec_complete;
mod nsec_meaning;
mod types;
mod words;
mod zone;
