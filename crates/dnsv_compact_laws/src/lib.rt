//! Laws of the compact list: it reads back, and no two lists of entries have one compact list.
#![tactic(auto)]

pub use laws::{a_compact_list_has_one_reading, a_compact_list_reads_back};

mod laws;
