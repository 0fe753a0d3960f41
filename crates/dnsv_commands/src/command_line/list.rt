//! What the words of `list` ask for.
ghost use Rattle.std.specs.Prelude.{◌≡◌, ◌⊎◌, IfErr, IfOk, Some, codes};
ghost use Rattle.clap.specs.Words.{found_of, one_of, rows_of};
ghost use Rattle.dnsv_commands.specs.CommandLine.{Asks, AsksAt, AsksForAllOfRange, AsksForTwoLists, AsksWhen, AsksWithin, HasListValues, IsFlag, IsUndated, MayHaveMoments};
ghost use Rattle.dnsv_commands.specs.CommandLine.{flag_said, form_said, listing_said};
ghost use Rattle.dnsv_commands.specs.declared.command_line.CommandLineError.TheVariants.{AllOfRange, OutOfMemory, TwoLists, Undated};

use crate::command_line::CommandLineError;
use crate::command_line::values::{flag, format_asked, given_moment, given_value, value};
use crate::request::{Form, Listing, Request};
use clap::ArgMatches;
use dnsv_questions::Moment;
use std::alloc::Global;

/// The moments that a list is of.
#[derive(Clone, Copy)]
pub enum When {
    /// One moment.
    At(Moment),
    /// All from the first to the last.
    Within(Moment, Moment),
}

/// The request of the matches of `list`.
pub fn list_request(alloc: Global, list: &ArgMatches<'_>) -> Result<Request, CommandLineError>
    requires { HasListValues (rows_of (found_of list.now)) }
    ensures asks { IfOk result (Asks (codes "list") (rows_of (found_of list.now))) }
    ensures refused { IfErr result (λ error. (error ≡ OutOfMemory)
        ⊎ ((error ≡ Undated) × IsUndated (rows_of (found_of list.now)))
        ⊎ ((error ≡ TwoLists) × AsksForTwoLists (rows_of (found_of list.now)))
        ⊎ ((error ≡ AllOfRange) × AsksForAllOfRange (rows_of (found_of list.now)))) }
{
    match moments_asked(list)? {
        When::At(moment) => list_at(alloc, list, moment),
        When::Within(from, to) => list_within(alloc, list, from, to),
    }
}

/// The moments that the matches of `list` ask about.
fn moments_asked(list: &ArgMatches<'_>) -> Result<When, CommandLineError>
    requires { MayHaveMoments (rows_of (found_of list.now)) }
    ensures asks { IfOk result (AsksWhen (rows_of (found_of list.now))) }
    ensures refused { IfErr result (λ error. (error ≡ Undated) × IsUndated (rows_of (found_of list.now))) }
{
    let moment = given_moment(list, "moment");
    let from = given_moment(list, "from");
    let to = given_moment(list, "to");
    match (moment, from, to) {
        (Some(moment), None, None) => Ok(When::At(moment)),
        (None, Some(from), Some(to)) => Ok(When::Within(from, to)),
        _ => Err(CommandLineError::Undated),
    }
}

/// The list of a moment that the matches ask for.
fn list_at(
    alloc: Global,
    list: &ArgMatches<'_>,
    moment: Moment,
) -> Result<Request, CommandLineError>
    requires values { HasListValues (rows_of (found_of list.now)) }
    requires at { AsksAt (rows_of (found_of list.now)) moment }
    ensures asks { IfOk result (Asks (codes "list") (rows_of (found_of list.now))) }
    ensures refused { IfErr result (λ error. (error ≡ OutOfMemory)
        ⊎ ((error ≡ TwoLists) × AsksForTwoLists (rows_of (found_of list.now)))) }
{
    let listing = listing_asked(list)?;
    let capture = value(alloc, list, "capture")?;
    let statements = given_value(alloc, list, "statements")?;
    let format = format_asked(list);
    Ok(Request::List {
        capture,
        moment,
        statements,
        listing,
        format,
    })
}

/// What the matches of `list` want listed of a moment.
fn listing_asked(list: &ArgMatches<'_>) -> Result<Listing, CommandLineError>
    requires all { IsFlag (one_of (codes "all") (rows_of (found_of list.now))) }
    requires compact { IsFlag (one_of (codes "compact") (rows_of (found_of list.now))) }
    ensures asks { IfOk result (λ listing. listing_said (flag_said (one_of (codes "all") (rows_of (found_of list.now))))
        (flag_said (one_of (codes "compact") (rows_of (found_of list.now)))) ≡ Some listing) }
    ensures refused { IfErr result (λ error. (error ≡ TwoLists) × AsksForTwoLists (rows_of (found_of list.now))) }
{
    match (flag(list, "all"), flag(list, "compact")) {
        (false, false) => Ok(Listing::Todo(Form::Whole)),
        (false, true) => Ok(Listing::Todo(Form::Compact)),
        (true, false) => Ok(Listing::All),
        (true, true) => Err(CommandLineError::TwoLists),
    }
}

/// The list of a range that the matches ask for.
fn list_within(
    alloc: Global,
    list: &ArgMatches<'_>,
    from: Moment,
    to: Moment,
) -> Result<Request, CommandLineError>
    requires values { HasListValues (rows_of (found_of list.now)) }
    requires within { AsksWithin (rows_of (found_of list.now)) from to }
    ensures asks { IfOk result (Asks (codes "list") (rows_of (found_of list.now))) }
    ensures refused { IfErr result (λ error. (error ≡ OutOfMemory)
        ⊎ ((error ≡ AllOfRange) × AsksForAllOfRange (rows_of (found_of list.now)))) }
{
    if flag(list, "all") {
        return Err(CommandLineError::AllOfRange);
    }
    let form = form_asked(list);
    let capture = value(alloc, list, "capture")?;
    let statements = given_value(alloc, list, "statements")?;
    let format = format_asked(list);
    Ok(Request::ListRange {
        capture,
        from,
        to,
        statements,
        form,
        format,
    })
}

/// How entries are to be listed: each octet once, where the flag for it was given.
fn form_asked(list: &ArgMatches<'_>) -> Form
    requires { IsFlag (one_of (codes "compact") (rows_of (found_of list.now))) }
    ensures { form_said (flag_said (one_of (codes "compact") (rows_of (found_of list.now)))) ≡ result }
{
    if flag(list, "compact") {
        Form::Compact
    } else {
        Form::Whole
    }
}
