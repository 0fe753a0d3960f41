//! Laws of explanations: that their lines follow, and are true; that there is one, and no line of it stands twice; how long it
//! holds, and what it hopes.
#![tactic(auto)]

pub use laws::{
    a_report_has_one_explanation, explanations_follow, lines_that_follow_are_true,
    marked_entries_settle_what_is_hoped, no_line_stands_twice, only_unproved_questions_fail,
    questions_get_no_worse_verdicts_where_aliases_have_one_target,
    verdicts_are_no_worse_as_long_as_explanations_hold,
};

mod laws;
