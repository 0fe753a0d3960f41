//! Whoever can verify signatures: what is asked of them, and what was said before (RFC 4035 5.3.3).
#![tactic(auto)]

pub use admissible::{is_admissible, is_verifiable, is_verifiable_within, may_have_made, may_sign};
pub use answer::Answer;
pub use ask::{ask_all, ask_within};
pub use entries::Entries;
pub use entry::{Entry, entry_over};
pub use key::KeyRecord;
pub use key::keys::{add_keys, all_keys};
pub use laws::{
    a_pair_has_one_entry, a_table_is_its_verifier, admissible_is_verifiable_and_made,
    good_depends_on_what_is_asked, more_rrsets_ask_for_no_less,
    several_verifiers_say_what_one_does, unknown_entries_may_turn_out_valid,
};
pub use panel::Panel;
pub use signed_data::SignedData;
pub use table::Table;
pub use verifier::Verifier;

mod admissible;
mod answer;
mod ask;
mod entries;
mod entry;
mod key;
mod laws;
mod panel;
mod signed_data;
mod table;
mod verifier;
