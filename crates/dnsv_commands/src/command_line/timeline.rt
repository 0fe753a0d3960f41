//! What the words of `timeline` ask for.
ghost use Rattle.std.specs.Prelude.{◌≡◌, ◌⊎◌, IfErr, IfOk, codes};
ghost use Rattle.clap.specs.Words.{found_of, rows_of};
ghost use Rattle.dnsv_commands.specs.CommandLine.{Asks, GoesByBoth, HasTimelineValues};
ghost use Rattle.dnsv_commands.specs.declared.command_line.CommandLineError.TheVariants.{BothKnown, OutOfMemory};

use crate::command_line::CommandLineError;
use crate::command_line::values::{flag, format_asked, known_by, moment, type_asked, value};
use crate::request::Request;
use clap::ArgMatches;
use std::alloc::Global;

/// The request of the matches of `timeline`.
pub fn timeline_request(
    alloc: Global,
    timeline: &ArgMatches<'_>,
) -> Result<Request, CommandLineError>
    requires { HasTimelineValues (rows_of (found_of timeline.now)) }
    ensures asks { IfOk result (Asks (codes "timeline") (rows_of (found_of timeline.now))) }
    ensures refused { IfErr result (λ error. (error ≡ OutOfMemory)
        ⊎ ((error ≡ BothKnown) × GoesByBoth (rows_of (found_of timeline.now)))) }
{
    let capture = value(alloc, timeline, "capture")?;
    let anchors = value(alloc, timeline, "anchors")?;
    let from = moment(timeline, "from");
    let to = moment(timeline, "to");
    let name = value(alloc, timeline, "name")?;
    let rtype = type_asked(timeline);
    let known = known_by(alloc, timeline)?;
    let kinds = flag(timeline, "kinds");
    let format = format_asked(timeline);
    Ok(Request::Timeline {
        capture,
        anchors,
        from,
        to,
        name,
        rtype,
        known,
        kinds,
        format,
    })
}
