//! Files of statements: which signatures were verified elsewhere, and with what outcome.
#![tactic(auto)]

pub use statements::statement::Word;
pub use statements::{Statements, StatementsError, a_text_is_one_list_of_statements};

mod packed_entry;
mod statements;
