//! Laws of the lines of explanations: a text, and an object of JSON, determines its line.
#![tactic(auto)]

pub use laws::{a_json_has_one_line, a_text_has_one_line};

mod laws;
