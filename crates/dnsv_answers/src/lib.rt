//! Files of answers: what a verifier says of each entry of a capture's list, by the entry's number.
#![tactic(auto)]

pub use answered::{answered_table, answered_table_within, answers_are_a_verifier};
pub use answers::{Answers, a_text_is_one_list_of_answers};
pub use digest::capture_digest;
pub use error::AnswersError;
pub use heading::{Heading, Moments};
pub use said::SaidAnswer;

mod answered;
mod answers;
mod digest;
mod error;
mod heading;
mod said;
