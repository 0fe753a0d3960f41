//! What the words of `check` and `explain` ask for.
ghost use Rattle.std.specs.Prelude.{◌≡◌, ◌⊎◌, IfErr, IfOk};
ghost use Rattle.clap.specs.Words.{found_of, rows_of};
ghost use Rattle.dnsv_questions.specs.Subcommand.{question_word};
ghost use Rattle.dnsv_commands.specs.CommandLine.{Asks, AsksFor, GoesByBoth, HasCheckValues, IsUnclear};
ghost use Rattle.dnsv_commands.specs.declared.command_line.CommandLineError.TheVariants.{BothKnown, OutOfMemory, Unclear};

use crate::command_line::CommandLineError;
use crate::command_line::values::{
    format_asked, given_number, given_value, known_by, moment, value,
};
use crate::request::{Asking, Request};
use clap::ArgMatches;
use dnsv_names::RecordType;
use std::alloc::Global;

/// The request of the matches of `check`, or of `explain`.
pub fn check_request(
    alloc: Global,
    check: &ArgMatches<'_>,
    why: bool,
) -> Result<Request, CommandLineError>
    requires { HasCheckValues (rows_of (found_of check.now)) }
    ensures asks { IfOk result (Asks (question_word why) (rows_of (found_of check.now))) }
    ensures refused { IfErr result (λ error. (error ≡ OutOfMemory)
        ⊎ ((error ≡ Unclear) × IsUnclear (rows_of (found_of check.now)))
        ⊎ ((error ≡ BothKnown) × GoesByBoth (rows_of (found_of check.now)))) }
{
    let asking = asking_of(alloc, check)?;
    let capture = value(alloc, check, "capture")?;
    let anchors = value(alloc, check, "anchors")?;
    let moment = moment(check, "moment");
    let known = known_by(alloc, check)?;
    let keys = given_value(alloc, check, "keys")?;
    let macs = given_value(alloc, check, "macs")?;
    let format = format_asked(check);
    Ok(Request::Check {
        capture,
        anchors,
        moment,
        asking,
        known,
        keys,
        macs,
        format,
        why,
    })
}

/// What the matches of `check`, or of `explain`, ask for: a question, or each of a file.
fn asking_of(alloc: Global, check: &ArgMatches<'_>) -> Result<Asking, CommandLineError>
    requires { HasCheckValues (rows_of (found_of check.now)) }
    ensures asks { IfOk result (AsksFor (rows_of (found_of check.now))) }
    ensures refused { IfErr result (λ error. (error ≡ OutOfMemory)
        ⊎ ((error ≡ Unclear) × IsUnclear (rows_of (found_of check.now)))) }
{
    let name = given_value(alloc, check, "name")?;
    let rtype = given_number(check, "type", 65_535);
    let questions = given_value(alloc, check, "questions")?;
    match (name, rtype, questions) {
        (Some(name), Some(rtype), None) => {
            let rtype = RecordType(rtype as u16);
            Ok(Asking::One { name, rtype })
        }
        (None, None, Some(questions)) => Ok(Asking::Each { questions }),
        _ => Err(CommandLineError::Unclear),
    }
}
