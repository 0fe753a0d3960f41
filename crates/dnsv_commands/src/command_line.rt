//! The command line.
ghost use Rattle.std.specs.Prelude.{◌≡◌, IfErr, IfOk, codes, map};
ghost use Rattle.std.specs.IoError.{error_kind as io_error_kind};
ghost use Rattle.clap.specs.Words.{found_of, rows_of};
ghost use Rattle.dnsv_commands.specs.CommandLine.{Asks, HasCapture, IsAccepted, IsRefused, command_line_code, command_line_error, words_error};
ghost use Rattle.dnsv_commands.specs.declared.command_line.CommandLineError.TheVariants.{OutOfMemory};

pub mod list;
pub mod question;
pub mod timeline;
pub mod values;

use crate::command_line::list::list_request;
use crate::command_line::question::check_request;
use crate::command_line::timeline::timeline_request;
use crate::command_line::values::value;
use crate::commands::program;
use crate::request::Request;
use clap::ArgMatches;
use clap::error::ErrorKind;
use std::alloc::{AllocError, Global};
use std::convert::AsStr;
use std::io;
use thiserror::Error;

/// Why the command line gives no request. The text, for the user, ends with a newline.
#[derive(Debug, Drop, Error)]
pub enum CommandLineError {
    /// Memory ran out.
    #[error("out of memory\n")]
    OutOfMemory,
    /// A word is no text in UTF-8.
    #[error("error: a word of the command line is not UTF-8\n")]
    NotText,
    /// Help was asked for, or the version.
    #[error(transparent)]
    Help(clap::Error),
    /// The words are no command of the program.
    #[error(transparent)]
    Misused(clap::Error),
    /// The words ask for no question, or for one and for many.
    #[error("error: a question is --name and --type, and many are --questions\n")]
    Unclear,
    /// The words ask for the list of no moment and no range, or for more than one of the two.
    #[error("error: a list is of --moment, or of --from and --to\n")]
    Undated,
    /// The words ask for two lists.
    #[error("error: a list is --all or --compact\n")]
    TwoLists,
    /// The words ask for all of a range.
    #[error("error: a list with --all is of --moment\n")]
    AllOfRange,
    /// The words name statements and answers.
    #[error("error: what was checked is --statements or --answers\n")]
    BothKnown,
}

impl CommandLineError {
    /// The exit status of the program: 1 without memory, 0 after help or the version, else 2.
    pub fn code(&self) -> u8
        ensures { result ≡ command_line_code self.now }
    {
        match self {
            CommandLineError::OutOfMemory => 1,
            CommandLineError::Help(_) => 0,
            CommandLineError::NotText
            | CommandLineError::Misused(_)
            | CommandLineError::Unclear
            | CommandLineError::Undated
            | CommandLineError::TwoLists
            | CommandLineError::AllOfRange
            | CommandLineError::BothKnown => 2,
        }
    }
}

impl From<AllocError> for CommandLineError {
    ghost from_gives = { λ _ error. error ≡ OutOfMemory };

    fn from(_error: AllocError) -> CommandLineError {
        CommandLineError::OutOfMemory
    }
}

/// What handing out the words of the command line ran into.
impl From<io::Error> for CommandLineError {
    ghost from_gives = { λ failure error. error ≡ words_error (io_error_kind failure) };

    fn from(failure: io::Error) -> CommandLineError {
        match failure.kind() {
            io::ErrorKind::OutOfMemory => CommandLineError::OutOfMemory,
            _ => CommandLineError::NotText,
        }
    }
}

impl From<clap::Error> for CommandLineError {
    ghost from_gives = { λ refusal error. error ≡ command_line_error refusal };

    fn from(refusal: clap::Error) -> CommandLineError {
        match refusal.kind() {
            ErrorKind::OutOfMemory => CommandLineError::OutOfMemory,
            ErrorKind::DisplayHelp | ErrorKind::DisplayVersion => CommandLineError::Help(refusal),
            _ => CommandLineError::Misused(refusal),
        }
    }
}

/// Reads the words of the command line, of which the first is the program's name.
///
/// Whatever `clap` takes for these commands is a request:
///
/// - `show --capture FILE`
/// - `list --capture FILE [--statements FILE] [--compact] [--json]` with `--moment N`, and then `--all` may stand in place of
///   `--compact`, or with `--from N --to N`
/// - `check --capture FILE --anchors FILE --moment N` with `[--statements FILE | --answers FILE]`, `[--keys FILE]`,
///   `[--macs FILE]`, `[--json]` and either `--name NAME --type N` or `--questions FILE`
/// - `explain` with the words of `check`
/// - `timeline --capture FILE --anchors FILE --from N --to N --name NAME --type N` with
///   `[--statements FILE | --answers FILE]`, `[--kinds]` and `[--json]`
///
/// Each error is one that `clap` gives there, or that neither or more than one of such two was given, or the want of memory.
pub fn read_command_line<S: AsStr>(alloc: Global, words: &[S]) -> Result<Request, CommandLineError>
    ensures accepted { IfOk result (λ request. IsAccepted (map S.text words.now) request) }
    ensures refused { IfErr result (λ error. IsRefused (map S.text words.now) error) }
{
    let matches = program(alloc)?.try_get_matches_from(words)?;
    let (name, values) = matches.subcommand().unwrap();
    if name == "show" {
        Ok(show_request(alloc, values)?)
    } else if name == "list" {
        list_request(alloc, values)
    } else if name == "timeline" {
        timeline_request(alloc, values)
    } else {
        check_request(alloc, values, name == "explain")
    }
}

/// The request of the matches of `show`.
fn show_request(alloc: Global, show: &ArgMatches<'_>) -> Result<Request, AllocError>
    requires { HasCapture (rows_of (found_of show.now)) }
    ensures { IfOk result (Asks (codes "show") (rows_of (found_of show.now))) }
{
    let capture = value(alloc, show, "capture")?;
    Ok(Request::Show { capture })
}
