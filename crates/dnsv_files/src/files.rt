//! The files that a request reads: captured messages, trust anchors, statements, answers and questions.

pub mod anchors;
pub mod answers;
pub mod capture;
pub mod questions;
pub mod statements;
pub mod text;
