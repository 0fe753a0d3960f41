//! The text of `show`: a captured message with its questions and records.
ghost use Rattle.std.specs.Prelude.{◌≡◌, ◌++◌, ◌+◌, ◌<◌, ◌≤◌, OnOk, length, flat_map, string_bytes};
ghost use Rattle.arrayvec.specs.ArrayString.{array_string_len};
ghost use Rattle.dnsv_evidence_texts.specs.Showing.{texts_from, message_line, question_line, record_line};
ghost use Rattle.dnsv_evidence_texts.specs.Showing.{message_text, about_text};

use crate::hex_text::push_hex_text;
use arrayvec::ArrayString;
use dnsv_message::{Class, Message, NameRef, Question, Record, Section};
use dnsv_names::{RecordType, TEXT_LIMIT};
use itoa::Buffer;
use std::alloc::{AllocError, Global};

/// How much room a name, a type and a class take in a line.
const ABOUT_LIMIT: usize = TEXT_LIMIT + 12;

/// How many octets the beginning of a line has at most: what it is about, and a word and two numbers.
const LINE_LIMIT: usize = ABOUT_LIMIT + 64;

/// A line, or its beginning up to the RDATA. It takes no memory of its own.
type Line = ArrayString<LINE_LIMIT>;

/// Adds the lines of the message with this number: its header, its questions and its records (RFC 1035 4.1), which are
/// numbered from 1 through the three sections. The error is that memory ran out.
pub fn push_message(
    alloc: Global,
    text: &mut String,
    number: usize,
    message: &Message<'_>,
) -> Result<(), AllocError>
    ensures { OnOk result (string_bytes text.new ≡ string_bytes text.old ++ message_text number message.now) }
{
    push_header(alloc, text, number, message)?;
    push_questions(text, message.questions())?;
    let answer = message.records(Section::Answer);
    let authority = message.records(Section::Authority);
    let additional = message.records(Section::Additional);
    push_records(alloc, text, 0, answer)?;
    push_records(alloc, text, answer.len(), authority)?;
    push_records(alloc, text, answer.len() + authority.len(), additional)
}

/// Adds the line of a message's header: its number, identifier and flags, and how many questions and
/// records of each section it has.
fn push_header(
    alloc: Global,
    text: &mut String,
    number: usize,
    message: &Message<'_>,
) -> Result<(), AllocError>
    ensures { OnOk result (string_bytes text.new ≡ string_bytes text.old ++ message_line number message.now) }
{
    let id = hex::encode(alloc, message.id().to_be_bytes())?;
    let flags = hex::encode(alloc, message.flags().0.to_be_bytes())?;
    let questions = message.questions().len();
    let answer = message.records(Section::Answer).len();
    let authority = message.records(Section::Authority).len();
    let additional = message.records(Section::Additional).len();
    write!(text, "message {number} {id} {flags}")?;
    writeln!(text, " {questions} {answer} {authority} {additional}")?;
    Ok(())
}

/// Adds a line for each question.
fn push_questions(text: &mut String, questions: &[Question<'_>]) -> Result<(), AllocError>
    ensures { OnOk result (string_bytes text.new ≡ string_bytes text.old ++ flat_map question_line questions.now) }
{
    for question in questions {
        push_question(text, question)?;
    }
    Ok(())
}

/// Adds the line of a question.
fn push_question(text: &mut String, question: &Question<'_>) -> Result<(), AllocError>
    ensures { OnOk result (string_bytes text.new ≡ string_bytes text.old ++ question_line question.now) }
{
    let mut line = Line::new();
    line.push_str("question ");
    push_about(&mut line, &question.name, question.rtype, question.class);
    line.push_str("\n");
    text.push_str(line.as_str())
}

/// Adds what a question or a record is about: a name as it is spelled, a type and a class.
fn push_about(line: &mut Line, name: &NameRef<'_>, rtype: RecordType, class: Class)
    requires { array_string_len line.old + ABOUT_LIMIT ≤ LINE_LIMIT }
    ensures bytes { line.new.bytes ≡ line.old.bytes ++ about_text name.now rtype.0 class.0 }
    ensures room { array_string_len line.new ≤ array_string_len line.old + ABOUT_LIMIT }
{
    name.push_text(line);
    line.push_str(" ");
    line.push_str(Buffer::new().format(rtype.0));
    line.push_str(" ");
    line.push_str(Buffer::new().format(class.0));
}

/// Adds a line for each record; so many records of the message stand before them.
fn push_records(
    alloc: Global,
    text: &mut String,
    before: usize,
    records: &[Record<'_>],
) -> Result<(), AllocError>
    requires { before + length records.now < u64.MAX }
    ensures { OnOk result (string_bytes text.new
        ≡ string_bytes text.old ++ texts_from record_line (before + 1) records.now) }
{
    let mut line = Line::new();
    for (index, resource) in records.iter().enumerate() {
        push_record(alloc, text, &mut line, before + index + 1, resource)?;
    }
    Ok(())
}

/// Adds the line of the record with this number. Its beginning is put together in `line`, whatever that had before.
fn push_record(
    alloc: Global,
    text: &mut String,
    line: &mut Line,
    number: usize,
    resource: &Record<'_>,
) -> Result<(), AllocError>
    ensures { OnOk result (string_bytes text.new ≡ string_bytes text.old ++ record_line number resource.now) }
{
    let octets = resource.rdata.octets(alloc)?;
    line.clear();
    line.push_str("record ");
    line.push_str(Buffer::new().format(number));
    line.push_str(" ");
    push_about(line, &resource.name, resource.rtype, resource.class);
    line.push_str(" ");
    line.push_str(Buffer::new().format(resource.ttl.0));
    line.push_str(" ");
    text.push_str(line.as_str())?;
    push_hex_text(text, octets.as_slice())?;
    text.push_str("\n")
}
