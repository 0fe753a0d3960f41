//! Laws of the reasons that are reported of a question: each is true, there is one where nothing is proved, and each signer
//! that isn't trusted has one.
#![tactic(auto)]

pub use ends::untrusted_signers_have_a_reason;
pub use truth::{each_reason_is_true, reasons_of_questions_are_true, reasons_of_trust_are_true};
pub use unmet::{
    bogus_questions_fail_for_a_reason, unproved_questions_fail_for_a_reason,
    what_is_found_of_questions_is_whole,
};

mod ends;
mod truth;
mod unmet;
