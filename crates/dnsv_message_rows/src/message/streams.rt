//! Calls of `dnsv_message` for streams of messages.

use bumpalo::Bump;
use dnsv_message::{Counted, Framer, ReadError, read_all, read_capture};
use dnsv_row_text::{Row, RowError};
use std::alloc::{AllocError, Global};
use std::io::Cursor;

/// What the library answers, where it has the call.
pub fn answer(row: &Row) -> Result<Option<String>, RowError> {
    if row.calls("frames") {
        return Ok(Some(frames(row)?));
    }
    if row.calls("framed") {
        return Ok(Some(framed(row)?));
    }
    if row.calls("feed") {
        return Ok(Some(feed(row)?));
    }
    if row.calls("cuts") {
        return Ok(Some(cuts(row)?));
    }
    if row.calls("read_all") {
        return Ok(Some(read_file(row)?));
    }
    Ok(None)
}

/// `frames STREAM`: `ok` and the messages of a stream, as `read_capture` gives them.
fn frames(row: &Row) -> Result<String, RowError> {
    let octets = row.octets(0)?;
    let bump = Bump::new(row.alloc());
    let mut reader = Counted::new(octets.as_slice());
    match read_capture(row.alloc(), &mut reader, &bump) {
        Ok(messages) => {
            let mut text = text_of(row.alloc(), Ok(()))?;
            for each in &messages {
                push_message(&mut text, each)?;
            }
            Ok(text)
        }
        Err(error) => Ok(text_of(row.alloc(), Err(error))?),
    }
}

fn push_messages(text: &mut String, messages: &[Vec<u8>]) -> Result<(), AllocError> {
    for each in messages {
        push_message(text, each)?;
    }
    Ok(())
}

fn push_message(text: &mut String, message: &[u8]) -> Result<(), AllocError> {
    let octets = hex::encode(*text.allocator(), message)?;
    write!(text, " {octets}")
}

/// `ok`, or the refusal.
fn text_of(alloc: Global, answered: Result<(), ReadError>) -> Result<String, AllocError> {
    match answered {
        Ok(()) => String::from_str(alloc, "ok"),
        Err(error) => Ok(format!(in alloc; "refused {}", error.code())?),
    }
}

/// `framed STREAM MESSAGE ..`: whether the stream is of these messages, as `read_capture` and a framer see it.
fn framed(row: &Row) -> Result<String, RowError> {
    let stream = row.octets(0)?;
    let wanted = messages_of(row)?;
    let bump = Bump::new(row.alloc());
    let mut reader = Counted::new(stream.as_slice());
    match read_capture(row.alloc(), &mut reader, &bump) {
        Ok(messages) => {
            let is_so = are_same(&messages, &wanted)
                && is_cut_into(row.alloc(), &stream, &[], &wanted)?;
            Ok(format!(in row.alloc(); "{is_so}")?)
        }
        Err(error) => Ok(text_of(row.alloc(), Err(error))?),
    }
}

/// Whether the messages are these.
fn are_same(messages: &[&[u8]], wanted: &[Vec<u8>]) -> bool {
    let mut pairs = messages.iter().zip(wanted.iter());
    messages.len() == wanted.len() && pairs.all(|(message, other)| *message == other.as_slice())
}

/// The messages that the row's arguments behind the first are.
fn messages_of(row: &Row) -> Result<Vec<Vec<u8>>, RowError> {
    let mut messages = Vec::new(row.alloc());
    for place in 1..row.count() {
        messages.push(row.octets(place)?)?;
    }
    Ok(messages)
}

/// Whether a framer takes just these messages out of the two pieces, and the stream may end there.
fn is_cut_into(
    alloc: Global,
    piece: &[u8],
    next: &[u8],
    wanted: &Vec<Vec<u8>>,
) -> Result<bool, AllocError> {
    let mut framer = Framer::new(alloc);
    let mut messages = Vec::new(alloc);
    let is_fed = framer.feed(piece, &mut messages).is_ok()
        && framer.feed(next, &mut messages).is_ok()
        && framer.finish().is_ok();
    Ok(is_fed && messages == *wanted)
}

/// `feed PIECE ..`: for each piece what a framer says of it, the messages that it makes whole, and whether the stream
/// may end there.
fn feed(row: &Row) -> Result<String, RowError> {
    let mut framer = Framer::new(row.alloc());
    let mut text = String::new(row.alloc());
    for place in 0..row.count() {
        if place > 0 {
            text.push_str(" / ")?;
        }
        push_fed(&mut text, &mut framer, &row.octets(place)?)?;
    }
    Ok(text)
}

fn push_fed(text: &mut String, framer: &mut Framer, piece: &[u8]) -> Result<(), AllocError> {
    let alloc = *text.allocator();
    let mut messages = Vec::new(alloc);
    let fed = text_of(alloc, framer.feed(piece, &mut messages))?;
    text.push_str(&fed)?;
    push_messages(text, &messages)?;
    let end = text_of(alloc, framer.finish())?;
    write!(text, " {end}")
}

/// `cuts STREAM MESSAGE ..`: at how many places the stream can be cut in two, so that a framer takes these messages
/// out of it.
fn cuts(row: &Row) -> Result<String, RowError> {
    let stream = row.octets(0)?;
    let wanted = messages_of(row)?;
    let mut count = 0usize;
    for cut in 0..=stream.len() {
        let (piece, next) = stream.split_at(cut);
        if is_cut_into(row.alloc(), piece, next, &wanted)? {
            count = count.saturating_add(1);
        }
    }
    Ok(format!(in row.alloc(); "{count}")?)
}

/// `read_all OCTETS`: how many octets `read_all` gives of a file, and whether they are these.
fn read_file(row: &Row) -> Result<String, RowError> {
    let octets = row.octets(0)?;
    match read_all(
        row.alloc(),
        &mut Counted::new(Cursor::new(octets.as_slice())),
    ) {
        Ok(read) => {
            let is_so = read == octets;
            Ok(format!(in row.alloc(); "{} {is_so}", read.len())?)
        }
        Err(error) => Ok(text_of(row.alloc(), Err(error))?),
    }
}
