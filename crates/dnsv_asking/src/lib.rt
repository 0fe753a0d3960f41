//! Questions that are asked of the files: one, or each of a file of questions, with its verdict and why that stands.
#![tactic(auto)]

pub use asking::check_each;
pub use checking::check;

mod asking;
mod checking;
mod judging;
mod known;
