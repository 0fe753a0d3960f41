//! The commands of the program.
ghost use Rattle.std.specs.Prelude.{◌≡◌, false, true, IfOk};
ghost use Rattle.clap.specs.Words.{app_of};
ghost use Rattle.clap.specs.declared.Command.TheViews.{out-Command as fields_of};
ghost use Rattle.dnsv_commands.specs.Commands.{asking_app, list_app, program_app, question_app, show_app, timeline_app};

pub mod options;

use crate::commands::options::{
    all_flag, anchors_option, answers_option, capture_option, compact_flag, json_flag, keys_option,
    kinds_flag, macs_option, moment_option, name_option, needed, questions_option,
    statements_option, type_option,
};
use clap::Command;
use std::alloc::{AllocError, Global};

/// The version of the program, which is that of the tools, the package and the change log.
const VERSION: &str = "0.10.0";

/// The subcommands in the order in which they are used.
const AFTER_PROGRAM: &str = "\
From captured messages to a verdict:
  dnssec_check list --capture www.cap --moment 1795348800 > todo
  dnssec_check-verify todo > statements
  dnssec_check check --capture www.cap --anchors root.anchors --statements statements \
--moment 1795348800 --name www.example. --type 1
dnssec_check-judge does all three";

/// How `show` ends, and what comes next.
const AFTER_SHOW: &str = "\
Exit status: 0 where every message is shown, 7 where the file or a message is refused,
2 for words that are no command, 1 where memory, the file or the output failed

Next:
  dnssec_check list --capture www.cap --moment 1795348800";

/// How `list` ends, and what comes next.
const AFTER_LIST: &str = "\
Exit status: 0 where the list is whole, also where it is empty, 7 where a file is refused,
2 for words that are no command, 1 where memory, a file or the output failed

Next, where the list was written to the file todo:
  dnssec_check-verify todo > statements
  dnssec_check check --capture www.cap --anchors root.anchors --statements statements \
--moment 1795348800 --name www.example. --type 1";

/// How `check` ends, a command line of it, and what comes next.
const AFTER_CHECK: &str = "\
Exit status: 0 for SecureAnswer, SecureNoName and SecureNoData, 3 for Insecure,
4 for Pending, 5 for Bogus, 6 for Indeterminate, 7 where the question or a file is refused,
2 for words that are no command, 1 where memory, a file or the output failed;
of many questions the greatest

Example:
  dnssec_check check --capture www.cap --anchors root.anchors --statements statements \
--moment 1795348800 --name www.example. --type 1

Next, where the verdict is Pending and the output was written to the file pending:
  dnssec_check-verify --from-check pending >> statements";

/// How `explain` ends, and a command line of it.
const AFTER_EXPLAIN: &str = "\
Exit status: that of check

Example:
  dnssec_check explain --capture www.cap --anchors root.anchors --statements statements \
--moment 1795348800 --name www.example. --type 1";

/// What has to be done before `timeline`, how it ends, and a command line of it.
const AFTER_TIMELINE: &str = "\
Before, to have the signatures of the range checked:
  dnssec_check list --capture www.cap --from 1795348800 --to 1795953600 > todo
  dnssec_check-verify todo > statements

Exit status: 0 where the timeline is whole, 7 where the question, the range or a file is refused,
2 for words that are no command, 1 where memory, a file or the output failed

Example:
  dnssec_check timeline --capture www.cap --anchors root.anchors --statements statements \
--from 1795348800 --to 1795953600 --name www.example. --type 1";

/// What `--moment` is.
const MOMENT: &str = "The moment in seconds since 1970, from 0 to 281474976710655";

/// What `--from` is.
const FROM: &str = "The first moment of a range, in seconds since 1970";

/// What `--to` is.
const TO: &str = "The last moment of the range, less than 2^32 seconds behind the first";

/// The program with its subcommands.
pub fn program<'a>(alloc: Global) -> Result<Command<'a>, AllocError>
    ensures { IfOk result (λ command. app_of command ≡ program_app) }
{
    Command::new(alloc, "dnssec_check")
        .about("Says what captured DNS messages prove")
        .version(VERSION)
        .after_help(AFTER_PROGRAM)
        .disable_help_subcommand(true)
        .subcommand_required(true)
        .subcommand(show(alloc)?)?
        .subcommand(list(alloc)?)?
        .subcommand(check(alloc)?)?
        .subcommand(explain(alloc)?)?
        .subcommand(timeline(alloc)?)
}

/// The subcommand `show`.
fn show<'a>(alloc: Global) -> Result<Command<'a>, AllocError>
    ensures { IfOk result (λ command. (app_of command ≡ show_app)
        × ((fields_of command).has_globals ≡ false)) }
{
    Command::new(alloc, "show")
        .about("Shows the captured messages with their questions and records")
        .after_help(AFTER_SHOW)
        .arg(capture_option(alloc))
}

/// The subcommand `list`.
fn list<'a>(alloc: Global) -> Result<Command<'a>, AllocError>
    ensures { IfOk result (λ command. (app_of command ≡ list_app)
        × ((fields_of command).has_globals ≡ false)) }
{
    Command::new(alloc, "list")
        .about("Lists the signatures that a verifier still has to check")
        .after_help(AFTER_LIST)
        .arg(capture_option(alloc))?
        .arg(moment_option(alloc, "moment", MOMENT))?
        .arg(moment_option(alloc, "from", FROM))?
        .arg(moment_option(alloc, "to", TO))?
        .arg(statements_option(alloc))?
        .arg(all_flag(alloc))?
        .arg(compact_flag(alloc))?
        .arg(json_flag(alloc))
}

/// The subcommand `check`.
fn check<'a>(alloc: Global) -> Result<Command<'a>, AllocError>
    ensures { IfOk result (λ command. (app_of command ≡ question_app false)
        × ((fields_of command).has_globals ≡ false)) }
{
    question(
        alloc,
        "check",
        "Says what the captured messages prove of a name and a type",
        AFTER_CHECK,
    )
}

/// The subcommand `explain`.
fn explain<'a>(alloc: Global) -> Result<Command<'a>, AllocError>
    ensures { IfOk result (λ command. (app_of command ≡ question_app true)
        × ((fields_of command).has_globals ≡ false)) }
{
    question(
        alloc,
        "explain",
        "Says what check says, and then why that stands",
        AFTER_EXPLAIN,
    )
}

/// A subcommand for a question by its word, with what its help says.
fn question<'a>(
    alloc: Global,
    word: &'a str,
    about: &'a str,
    after: &'a str,
) -> Result<Command<'a>, AllocError>
    ensures { IfOk result (λ command. (app_of command ≡ asking_app word.now)
        × ((fields_of command).has_globals ≡ false)) }
{
    Command::new(alloc, word)
        .about(about)
        .after_help(after)
        .arg(capture_option(alloc))?
        .arg(anchors_option(alloc))?
        .arg(needed(moment_option(alloc, "moment", MOMENT)))?
        .arg(name_option(alloc))?
        .arg(type_option(alloc))?
        .arg(questions_option(alloc))?
        .arg(statements_option(alloc))?
        .arg(answers_option(alloc))?
        .arg(keys_option(alloc))?
        .arg(macs_option(alloc))?
        .arg(json_flag(alloc))
}

/// The subcommand `timeline`.
fn timeline<'a>(alloc: Global) -> Result<Command<'a>, AllocError>
    ensures { IfOk result (λ command. (app_of command ≡ timeline_app)
        × ((fields_of command).has_globals ≡ false)) }
{
    Command::new(alloc, "timeline")
        .about("Says what check says at each moment of a range")
        .after_help(AFTER_TIMELINE)
        .arg(capture_option(alloc))?
        .arg(anchors_option(alloc))?
        .arg(needed(moment_option(alloc, "from", FROM)))?
        .arg(needed(moment_option(alloc, "to", TO)))?
        .arg(needed(name_option(alloc)))?
        .arg(needed(type_option(alloc)))?
        .arg(statements_option(alloc))?
        .arg(answers_option(alloc))?
        .arg(kinds_flag(alloc))?
        .arg(json_flag(alloc))
}
