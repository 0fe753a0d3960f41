//! What is asked: a question, for which type at which name; files of questions, many to one capture; the moment that is
//! asked about; the subcommand for a question; and the form of the text that answers it.
#![tactic(auto)]

pub use error::QuestionsError;
pub use format::Format;
pub use moment::Moment;
pub use question::{Question, is_question};
pub use questions::{Questions, a_text_is_one_list_of_questions};
pub use stored_question::StoredQuestion;
pub use subcommand::question_word;

mod error;
mod format;
mod line;
mod moment;
mod question;
mod questions;
mod stored_question;
mod subcommand;
