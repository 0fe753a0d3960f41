//! The rules by which a text is checked, and their laws: what checks is true, each explanation checks and bears out its
//! verdict, and a text that leaves out what a proof needs doesn't check.
#![tactic(auto)]

pub use laws::{
    a_part_that_matches_denies_the_type, a_proof_of_a_text_is_of_a_trusted_zone,
    a_record_that_holds_the_type_denies_nothing, a_text_of_strange_names_does_not_check,
    a_text_that_checks_is_true, a_text_without_a_part_does_not_check,
    a_text_without_records_does_not_check, answers_that_are_borne_out_are_so,
    cases_that_are_borne_out_are_so, denials_that_are_borne_out_are_so,
    explanations_bear_out_their_verdicts, explanations_check,
};

mod laws;
