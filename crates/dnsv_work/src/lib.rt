//! What `dnsv_program` stands on: its question, its machine, what it reads of its files and says of them without a verdict,
//! and how it tells that it failed.
#![tactic(auto)]

pub use given::{Given, Said, given_in};
pub use judged::{Asked, Outcome, Telling, refused, status_of, verdict_fault};
pub use known::{OpenNumbers, table_of};
pub use laws::{every_file_is_listed_or_refused, every_file_is_shown_or_refused};
pub use listing::{list, list_range};
pub use machine::{Host, Machine};
pub use opened::{open_all, request};
pub use question::question_name;
pub use showing::show;
pub use span::{Span, range_between};
pub use telling::{finish, refuse};

mod given;
mod judged;
mod known;
mod laws;
mod listing;
mod machine;
mod opened;
mod question;
mod showing;
mod span;
mod telling;
