//! The options of the commands.
ghost use Rattle.std.specs.Prelude.{◌≡◌, false};
ghost use Rattle.clap.specs.Words.{rule_of};
ghost use Rattle.dnsv_commands.specs.Commands as specs;
ghost use Rattle.dnsv_commands.specs.Commands.{all_rule, answers_rule, capture_rule, compact_rule, json_rule, keys_rule, kinds_rule, macs_rule, moment_rule, statements_rule};
ghost use Rattle.dnsv_commands.specs.Commands.{anchors_rule, name_rule, questions_rule, type_rule};

use clap::{Arg, ArgAction, value_parser};
use dnsv_questions::Moment;
use std::alloc::Global;

/// `--capture FILE`
pub fn capture_option<'a>(alloc: Global) -> Arg<'a>
    ensures rule { rule_of result ≡ capture_rule }
    ensures local { result.global ≡ false }
{
    Arg::new(alloc, "capture")
        .long("capture")
        .value_name("FILE")
        .help("The captured messages, each behind its length in two octets")
        .required(true)
}

/// `--anchors FILE`
pub fn anchors_option<'a>(alloc: Global) -> Arg<'a>
    ensures rule { rule_of result ≡ anchors_rule }
    ensures local { result.global ≡ false }
{
    Arg::new(alloc, "anchors")
        .long("anchors")
        .value_name("FILE")
        .help(
            "The trust anchors: lines `DS NAME TAG ALG TYPE HEX` or `KEY NAME FLAGS 3 ALG BASE64`",
        )
        .required(true)
}

/// `--name NAME`
pub fn name_option<'a>(alloc: Global) -> Arg<'a>
    ensures rule { rule_of result ≡ name_rule }
    ensures local { result.global ≡ false }
{
    Arg::new(alloc, "name")
        .long("name")
        .value_name("NAME")
        .help("The name that is asked for, which ends with a dot")
}

/// `--type N`
pub fn type_option<'a>(alloc: Global) -> Arg<'a>
    ensures rule { rule_of result ≡ type_rule }
    ensures local { result.global ≡ false }
{
    Arg::new(alloc, "type")
        .long("type")
        .value_name("N")
        .help("The number of the type that is asked for, from 0 to 65535")
        .value_parser(value_parser!(u64).range(0..=65_535))
}

/// `--questions FILE`
pub fn questions_option<'a>(alloc: Global) -> Arg<'a>
    ensures rule { rule_of result ≡ questions_rule }
    ensures local { result.global ≡ false }
{
    Arg::new(alloc, "questions")
        .long("questions")
        .value_name("FILE")
        .help("In place of --name and --type, many questions: lines `NAME N`")
}

/// `--WORD N`, by its word and what its help says.
pub fn moment_option<'a>(alloc: Global, word: &'a str, help: &'a str) -> Arg<'a>
    ensures rule { rule_of result ≡ moment_rule word.now }
    ensures local { result.global ≡ false }
{
    Arg::new(alloc, word)
        .long(word)
        .value_name("N")
        .help(help)
        .value_parser(value_parser!(u64).range(0..=Moment::LAST as i64))
}

/// The option, which has to be there.
pub fn needed<'a>(option: Arg<'a>) -> Arg<'a>
    ensures rule { rule_of result ≡ specs.needed (rule_of option.entry) }
    ensures local { result.global ≡ option.entry.global }
{
    option.required(true)
}

/// `--statements FILE`
pub fn statements_option<'a>(alloc: Global) -> Arg<'a>
    ensures rule { rule_of result ≡ statements_rule }
    ensures local { result.global ≡ false }
{
    Arg::new(alloc, "statements")
        .long("statements")
        .value_name("FILE")
        .help("What was checked: lines `good ALG KEY DATA SIG` or `bad ALG KEY DATA SIG`, in hex")
}

/// `--answers FILE`
pub fn answers_option<'a>(alloc: Global) -> Arg<'a>
    ensures rule { rule_of result ≡ answers_rule }
    ensures local { result.global ≡ false }
{
    Arg::new(alloc, "answers")
        .long("answers")
        .value_name("FILE")
        .help(
            "In place of --statements, an answer to each entry of list --compact: lines `good`, `bad` or `-`",
        )
}

/// `--keys FILE`
pub fn keys_option<'a>(alloc: Global) -> Arg<'a>
    ensures rule { rule_of result ≡ keys_rule }
    ensures local { result.global ≡ false }
{
    Arg::new(alloc, "keys").long("keys").value_name("FILE").help(
        "The keys by which every message was signed (TSIG): lines `NAME BASE64`",
    )
}

/// `--macs FILE`
pub fn macs_option<'a>(alloc: Global) -> Arg<'a>
    ensures rule { rule_of result ≡ macs_rule }
    ensures local { result.global ≡ false }
{
    Arg::new(alloc, "macs").long("macs").value_name("FILE").help(
        "With keys, the MAC of each message's request: lines of 64 hex digits, or `-` for none",
    )
}

/// `--all`
pub fn all_flag<'a>(alloc: Global) -> Arg<'a>
    ensures rule { rule_of result ≡ all_rule }
    ensures local { result.global ≡ false }
{
    Arg::new(alloc, "all")
        .long("all")
        .help("Lists the signed octets of every signature, whatever was checked")
        .action(ArgAction::SetTrue)
}

/// `--compact`
pub fn compact_flag<'a>(alloc: Global) -> Arg<'a>
    ensures rule { rule_of result ≡ compact_rule }
    ensures local { result.global ≡ false }
{
    Arg::new(alloc, "compact")
        .long("compact")
        .help("Lists each octet of keys, records and signatures once")
        .action(ArgAction::SetTrue)
}

/// `--kinds`
pub fn kinds_flag<'a>(alloc: Global) -> Arg<'a>
    ensures rule { rule_of result ≡ kinds_rule }
    ensures local { result.global ≡ false }
{
    Arg::new(alloc, "kinds")
        .long("kinds")
        .help("Tells moments apart by the kinds of their verdicts alone")
        .action(ArgAction::SetTrue)
}

/// `--json`
pub fn json_flag<'a>(alloc: Global) -> Arg<'a>
    ensures rule { rule_of result ≡ json_rule }
    ensures local { result.global ≡ false }
{
    Arg::new(alloc, "json")
        .long("json")
        .help("Writes one JSON object in place of lines")
        .action(ArgAction::SetTrue)
}
