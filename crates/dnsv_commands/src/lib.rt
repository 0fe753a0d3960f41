//! The command line: what the program is asked to do.
#![tactic(auto)]

pub use command_line::{CommandLineError, read_command_line};
pub use request::{Asking, Form, Known, Listing, Request};

mod command_line;
mod commands;
mod request;
