//! The values of options.
ghost use Rattle.std.specs.Prelude.{◌≡◌, ◌⊎◌, ◌≤◌, IfErr, IfOk, IfSome, Some, codes, is_some, option_and_then, string_bytes};
ghost use Rattle.std.specs.Option.{option_map};
ghost use Rattle.clap.specs.Words.{first_of, found_of, one_of, rows_of};
ghost use Rattle.dnsv_questions.specs.Moment.{last_moment};
ghost use Rattle.dnsv_commands.specs.CommandLine.{GoesBy, GoesByBoth, HasNumber, HasValue, IsFlag, MayHaveNumber};
ghost use Rattle.dnsv_commands.specs.CommandLine.{flag_said, format_said, number_said};
ghost use Rattle.dnsv_commands.specs.declared.command_line.CommandLineError.TheVariants.{BothKnown, OutOfMemory};

use crate::command_line::CommandLineError;
use crate::request::Known;
use clap::ArgMatches;
use dnsv_names::RecordType;
use dnsv_questions::{Format, Moment};
use std::alloc::{AllocError, Global};

/// By what the matches have it known which signatures are good.
pub fn known_by(alloc: Global, matches: &ArgMatches<'_>) -> Result<Known, CommandLineError>
    ensures goes { IfOk result (GoesBy (rows_of (found_of matches.now))) }
    ensures refused { IfErr result (λ error. (error ≡ OutOfMemory)
        ⊎ ((error ≡ BothKnown) × GoesByBoth (rows_of (found_of matches.now)))) }
{
    let statements = given_value(alloc, matches, "statements")?;
    let answers = given_value(alloc, matches, "answers")?;
    match (statements, answers) {
        (statements, None) => Ok(Known::Statements(statements)),
        (None, Some(answers)) => Ok(Known::Answers(answers)),
        (Some(_), Some(_)) => Err(CommandLineError::BothKnown),
    }
}

/// The number of an option that may not be there, which is at most the last.
pub fn given_number(matches: &ArgMatches<'_>, option: &str, last: u64) -> Option<u64>
    requires { MayHaveNumber option.now last (rows_of (found_of matches.now)) }
    ensures said { option_and_then (number_said last) (first_of option.now (rows_of (found_of matches.now)))
        ≡ result }
    ensures bound { IfSome result (λ number. number ≤ last) }
    ensures given { is_some result ≡ is_some (first_of option.now (rows_of (found_of matches.now))) }
{
    matches.get_one::<u64>(option)
}

/// The number of an option that is there, which is at most the last.
pub fn number(matches: &ArgMatches<'_>, option: &str, last: u64) -> u64
    requires { HasNumber option.now last (rows_of (found_of matches.now)) }
    ensures said { option_and_then (number_said last) (first_of option.now (rows_of (found_of matches.now)))
        ≡ Some result }
    ensures bound { result ≤ last }
{
    matches.get_one::<u64>(option).unwrap()
}

/// The moment of an option that may not be there.
pub fn given_moment(matches: &ArgMatches<'_>, option: &str) -> Option<Moment>
    requires { MayHaveNumber option.now last_moment (rows_of (found_of matches.now)) }
    ensures said { option_and_then (number_said last_moment) (first_of option.now (rows_of (found_of matches.now)))
        ≡ result }
    ensures given { is_some result ≡ is_some (first_of option.now (rows_of (found_of matches.now))) }
{
    match given_number(matches, option, Moment::LAST) {
        Some(seconds) => Moment::new(seconds),
        None => None,
    }
}

/// The moment of an option that is there.
pub fn moment(matches: &ArgMatches<'_>, option: &str) -> Moment
    requires { HasNumber option.now last_moment (rows_of (found_of matches.now)) }
    ensures { option_and_then (number_said last_moment) (first_of option.now (rows_of (found_of matches.now)))
        ≡ Some result }
{
    Moment::new(number(matches, option, Moment::LAST)).unwrap()
}

/// The type that is asked for, where its option is there.
pub fn type_asked(matches: &ArgMatches<'_>) -> RecordType
    requires { HasNumber (codes "type") 65535 (rows_of (found_of matches.now)) }
    ensures { option_and_then (number_said 65535) (first_of (codes "type") (rows_of (found_of matches.now)))
        ≡ Some result.0 }
{
    RecordType(number(matches, "type", 65_535) as u16)
}

/// Whether a flag was given.
pub fn flag(matches: &ArgMatches<'_>, option: &str) -> bool
    requires { IsFlag (one_of option.now (rows_of (found_of matches.now))) }
    ensures { flag_said (one_of option.now (rows_of (found_of matches.now))) ≡ result }
{
    matches.get_flag(option)
}

/// How the text is to be written: as JSON, where the flag for it was given.
pub fn format_asked(matches: &ArgMatches<'_>) -> Format
    requires { IsFlag (one_of (codes "json") (rows_of (found_of matches.now))) }
    ensures { format_said (flag_said (one_of (codes "json") (rows_of (found_of matches.now)))) ≡ result }
{
    if flag(matches, "json") {
        Format::Json
    } else {
        Format::Lines
    }
}

/// The value of an option that is there.
pub fn value(alloc: Global, matches: &ArgMatches<'_>, option: &str) -> Result<String, AllocError>
    requires { HasValue option.now (rows_of (found_of matches.now)) }
    ensures { IfOk result (λ text. first_of option.now (rows_of (found_of matches.now)) ≡ Some (string_bytes text)) }
{
    String::from_str(alloc, matches.get_str(option).unwrap())
}

/// The value of an option that may not be there.
pub fn given_value(
    alloc: Global,
    matches: &ArgMatches<'_>,
    option: &str,
) -> Result<Option<String>, AllocError>
    ensures { IfOk result (λ text. first_of option.now (rows_of (found_of matches.now))
        ≡ option_map string_bytes text) }
{
    match matches.get_str(option) {
        Some(text) => Ok(Some(String::from_str(alloc, text)?)),
        None => Ok(None),
    }
}
