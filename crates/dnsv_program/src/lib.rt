//! What the program `dnssec_check` does: what is asked of its files, and its exit status.
#![tactic(auto)]

pub use dnsv_commands::{
    Asking, CommandLineError, Form, Known, Listing, Request, read_command_line,
};
pub use dnsv_work::{
    Host, Machine, every_file_is_listed_or_refused, every_file_is_shown_or_refused,
};
pub use program::{exit_status, exit_status_on};
pub use work::run;

mod program;
mod work;
