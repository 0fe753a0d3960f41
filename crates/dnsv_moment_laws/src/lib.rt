//! Laws of what is said at moments: what it depends on, that a question has one timeline, and that a timeline has one text.
#![tactic(auto)]

pub use texts::a_timeline_has_one_text;
pub use timelines::{a_question_has_one_timeline, what_is_refused_throughout};
pub use validity::{
    a_table_for_a_range_serves_each_moment, one_thing_is_said_of_a_question,
    the_same_signatures_derive_the_same, the_same_signatures_give_the_same_verdict,
    the_times_of_all_signatures_tell, what_is_said_depends_on_signatures,
    what_is_said_depends_on_what_is_asked,
};

mod texts;
mod timelines;
mod validity;
