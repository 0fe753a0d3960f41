//! The text of a question's timeline: its intervals, and between them the signatures that end and begin.

pub mod borders;
pub mod json;
pub mod lines;
pub mod pieces;
pub mod shown;
pub mod text;
