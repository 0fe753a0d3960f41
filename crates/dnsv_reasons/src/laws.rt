//! Laws of what fails of a question, as lines.

pub mod anchors;
pub mod once;
pub mod one;
pub mod one_line;
pub mod one_question;
