//! What the definitions of a request's text and of its first fault say of each other: files have one text or one fault.
//!
//! Each is a function that does nothing and ensures the law, which its caller learns.
#![tactic(auto)]

pub use laws::{no_fault_of_a_text, one_first_fault, one_text};

mod laws;
