//! The rows, by what they ask of the program.
pub mod answered;
pub mod captures;
pub mod checking;
pub mod command_line;
pub mod compact;
pub mod explaining;
pub mod key_files;
pub mod listing;
pub mod misuse;
pub mod questions;
pub mod showing;
pub mod signed;
pub mod timelines;
