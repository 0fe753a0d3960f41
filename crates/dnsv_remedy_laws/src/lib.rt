//! Laws of what is reported of a question: facts that are alike tell the same.
#![tactic(auto)]

pub use laws::facts_that_are_alike_tell_the_same;

mod laws;
