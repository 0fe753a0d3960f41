//! What is said of a question at a moment: it depends on the moment through the validity of signatures alone.

pub mod kind;
