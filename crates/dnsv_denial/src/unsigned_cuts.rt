//! From which name on a question may be unsigned.
pub mod cut_meaning;
pub mod findings;
pub mod first_cut;
pub mod kept_cuts;
pub mod shown_cut;
pub mod shown_cuts;
pub mod unusable_ds;
pub mod zone_opt_out;
