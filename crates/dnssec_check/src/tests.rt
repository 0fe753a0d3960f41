//! The program on a machine in memory, by rows of text.
//!
//! Rows are parted by an empty line. Lines `PATH < HEX..` and `PATH = TEXT` are the machine's files: octets in hex, by a
//! name of `samples` or with `^N` behind them N times; or a text, in which `;` ends a line. With `!` behind the octets
//! each read behind the last one fails, and `full` says that no write is taken. The line `$ WORDS` is the command line,
//! or `octets HEX..`, a word each. Behind these lines stand those that the rows of a file share: of files with one path, and
//! of command lines, the first counts.
//! Behind them stands how the program has to end: `=> STATUS`, and then what it prints, on the standard error behind `! `;
//! or lines `~ TEXT`, which have to stand somewhere in what is printed. Only how often a verifier is asked no row can say
//! (`asking`).
use crate::samples::hex_named;
use dnsv_program::exit_status_on;
use std::alloc::Global;
use std::process::Abort;
use std::test::Fail;

mod asking;
mod desk;
mod names;
mod rows;
mod streams;
mod system;

use rows::{
    answered, captures, checking, command_line, compact, explaining, key_files, listing, misuse,
    questions, showing, signed, timelines,
};
use system::{File, Page, System};

#[test]
fn lists_as_the_rows_say(rt: HostRuntime) -> Result<(), Fail> {
    meets(&rt, "", listing::ROWS)
}

#[test]
fn lists_each_octet_once_as_the_rows_say(rt: HostRuntime) -> Result<(), Fail> {
    meets(&rt, "", compact::ROWS)
}

#[test]
fn shows_as_the_rows_say(rt: HostRuntime) -> Result<(), Fail> {
    meets(&rt, "", showing::ROWS)
}

#[test]
fn checks_as_the_rows_say(rt: HostRuntime) -> Result<(), Fail> {
    meets(&rt, "", checking::ROWS)
}

#[test]
fn explains_as_the_rows_say(rt: HostRuntime) -> Result<(), Fail> {
    meets(&rt, "", explaining::ROWS)
}

#[test]
fn answers_many_questions_as_the_rows_say(rt: HostRuntime) -> Result<(), Fail> {
    meets(&rt, questions::SHARED, questions::ROWS)
}

#[test]
fn takes_answers_by_number_as_the_rows_say(rt: HostRuntime) -> Result<(), Fail> {
    meets(&rt, answered::SHARED, answered::ROWS)
}

#[test]
fn tells_timelines_as_the_rows_say(rt: HostRuntime) -> Result<(), Fail> {
    meets(&rt, timelines::SHARED, timelines::ROWS)
}

#[test]
fn a_verifier_is_asked_once_for_each_entry(rt: HostRuntime) -> Result<(), Fail> {
    assert!(rt; asking::is_asked_once_for_each(rt.alloc())?);
    Ok(())
}

#[test]
fn a_table_asks_a_verifier_once_for_each_entry(rt: HostRuntime) -> Result<(), Fail> {
    assert!(rt; asking::is_asked_once_by_a_table(rt.alloc())?);
    Ok(())
}

#[test]
fn opens_messages_as_the_rows_say(rt: HostRuntime) -> Result<(), Fail> {
    meets(&rt, signed::SHARED, signed::ROWS)
}

#[test]
fn reads_key_files_as_the_rows_say(rt: HostRuntime) -> Result<(), Fail> {
    meets(&rt, signed::SHARED, key_files::ROWS)
}

#[test]
fn reads_command_lines_as_the_rows_say(rt: HostRuntime) -> Result<(), Fail> {
    meets(&rt, command_line::SHARED, command_line::ROWS)
}

#[test]
fn refuses_words_that_are_no_command(rt: HostRuntime) -> Result<(), Fail> {
    meets(&rt, "", misuse::ROWS)
}

#[test]
fn prints_what_others_print_of_real_answers(rt: HostRuntime) -> Result<(), Fail> {
    meets(&rt, "", captures::ROWS)
}

/// Runs the program as each row says, and compares how it ends.
fn meets<R: Abort + AllocGlobal>(rt: &R, shared: &str, rows: &str) -> Result<(), Fail> {
    let alloc = rt.alloc();
    for row in rows.split("\n\n") {
        let (own, wanted) = row.split_once("\n=> ").ok_or("a row without an end")?;
        let machine = format!(in alloc; "{own}\n{shared}")?;
        let told = outcome(alloc, machine.as_str())?;
        assert!(rt; is_met(wanted, told.as_str()), "{row}\ntold: {told}");
    }
    Ok(())
}

/// Whether the program has ended as it has to.
fn is_met(wanted: &str, told: &str) -> bool {
    match wanted.split_once("\n~ ") {
        Some((code, texts)) => {
            let mut parts = texts.split("\n~ ");
            told.starts_with(code) && parts.all(|text| told.contains(text))
        }
        None => told == wanted,
    }
}

/// The exit status of the program on the machine, and what stands on its output and then on its errors.
fn outcome(alloc: Global, machine: &str) -> Result<String, Fail> {
    let system = system_of(alloc, machine)?;
    let errors = Page::new(alloc, false);
    let code = exit_status_on(&system, &errors);
    let printed = system.output.into_text()?;
    let told = errors.into_text()?;
    let mark = if told.is_empty() { "" } else { "! " };
    let text = format!(in alloc; "{code}\n{printed}{mark}{told}")?;
    Ok(String::from_str(alloc, text.as_str().trim_end())?)
}

/// The machine that the lines describe.
fn system_of(alloc: Global, lines: &str) -> Result<System, Fail> {
    let is_full = lines.lines().any(|line| line == "full");
    let mut system = System::new(alloc, is_full);
    for line in lines.lines() {
        add(alloc, &mut system, line)?;
    }
    Ok(system)
}

/// Adds what the line says of the machine.
fn add(alloc: Global, system: &mut System, line: &str) -> Result<(), Fail> {
    if let Some(words) = line.strip_prefix("$ ") {
        if system.words.is_empty() {
            for word in words.split(' ') {
                system.words.push(Vec::from_slice(alloc, word.as_bytes())?)?;
            }
        }
    } else if let Some(words) = line.strip_prefix("octets ") {
        for word in words.split(' ') {
            system.words.push(hex::decode(alloc, word)?)?;
        }
    } else if let Some((path, text)) = line.split_once(" = ") {
        let text = text.replace(alloc, ";", "\n")?;
        let octets = Vec::from_slice(alloc, text.as_bytes())?;
        system.files.push(File::new(alloc, path, octets, false)?)?;
    } else if let Some((path, parts)) = line.split_once(" < ") {
        let (parts, fails) = match parts.split_once(" !") {
            Some((parts, _)) => (parts, true),
            None => (parts, false),
        };
        let octets = octets_of(alloc, parts)?;
        system.files.push(File::new(alloc, path, octets, fails)?)?;
    }
    Ok(())
}

/// The octets of parts that are parted by blanks.
fn octets_of(alloc: Global, parts: &str) -> Result<Vec<u8>, Fail> {
    let mut octets = Vec::new(alloc);
    for part in parts.split(' ') {
        let (hex, times) = match part.split_once('^') {
            Some((hex, times)) => (hex, times.parse::<u32>()?),
            None => (part, 1),
        };
        let once = hex::decode(alloc, hex_named(hex))?;
        for _ in 0..times {
            octets.extend_from_slice(once.as_slice())?;
        }
    }
    Ok(octets)
}
