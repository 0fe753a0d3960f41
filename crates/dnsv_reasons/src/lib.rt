//! What fails, as lines: what is reported of a question by numbers, with the names, the keys and the records that these are
//! of.
#![tactic(auto)]

pub use dnsv_faults::CaseFacts;
pub use failing::failures;
pub use laws::anchors::a_missing_anchor_is_said_first;
pub use laws::once::{no_line_that_fails_stands_twice, no_text_of_what_fails_stands_twice};
pub use laws::one::{the_facts_of_zones_are_one, what_fails_is_one_list};
pub use laws::one_line::what_is_told_is_said_by_one_list;
pub use laws::one_question::the_facts_of_a_question_are_one;

mod failing;
mod laws;
mod lines;
mod question;
mod sources;
