//! Captures that rows write: messages, each behind its length in two octets (RFC 1035 4.2.2).

use bumpalo::Bump;
use dnsv_canonical::{Capture, CaptureError, Rrset, numbered};
use dnsv_message::{Framer, Message};
use dnsv_records::Rrsig;
use dnsv_row_text::{Row, RowError};
use std::alloc::Global;

/// A message that isn't added to a capture: its number, from 1 on, and why.
#[derive(Drop)]
struct Refusal {
    message: usize,
    error: CaptureError,
}

impl Refusal {
    /// How it is printed.
    fn text(&self, alloc: Global) -> Result<String, RowError> {
        let (code, message) = (self.error.code(), self.message);
        let text = format!(in alloc; "refused {code} message {message}")?;
        match self.error {
            CaptureError::BadRdata(record) => Ok(format!(in alloc; "{text} record {record}")?),
            _ => Ok(text),
        }
    }
}

/// The capture that the argument writes, or the text of the refusal of a message.
pub fn capture_or_refusal<'b>(
    row: &Row,
    place: usize,
    bump: &'b Bump,
) -> Result<Result<Capture<'b>, String>, RowError> {
    let frames = frames(row, place, bump)?;
    let messages = messages(row.alloc(), &frames)?;
    match capture_of(row.alloc(), messages.as_slice(), bump) {
        Ok(capture) => Ok(Ok(capture)),
        Err(refusal) => Ok(Err(refusal.text(row.alloc())?)),
    }
}

/// The capture that the argument writes, of which no message is refused.
pub fn capture<'b>(row: &Row, place: usize, bump: &'b Bump) -> Result<Capture<'b>, RowError> {
    let frames = frames(row, place, bump)?;
    let messages = messages(row.alloc(), &frames)?;
    match capture_of(row.alloc(), messages.as_slice(), bump) {
        Ok(capture) => Ok(capture),
        Err(_) => Err(RowError::Malformed),
    }
}

/// The capture of the messages, or the first that is refused.
fn capture_of<'b>(
    alloc: Global,
    messages: &[Message<'b>],
    bump: &'b Bump,
) -> Result<Capture<'b>, Refusal> {
    let mut capture = Capture::new(alloc, bump);
    for (place, message) in messages.iter().enumerate() {
        if let Err(error) = capture.add(message) {
            let message = place.saturating_add(1);
            return Err(Refusal { message, error });
        }
    }
    Ok(capture)
}

/// The messages that these octets are.
pub fn messages<'b>(alloc: Global, frames: &[&'b [u8]]) -> Result<Vec<Message<'b>>, RowError> {
    let mut messages = Vec::new(alloc);
    for octets in frames {
        messages.push(Message::decode(alloc, octets)?)?;
    }
    Ok(messages)
}

/// The RRset of the capture whose number, from 1 on, the argument is.
pub fn rrset<'a, 'b>(
    row: &Row,
    place: usize,
    capture: &'a Capture<'b>,
) -> Result<&'a Rrset<'b>, RowError> {
    let Ok(number) = usize::try_from(row.number(place)?) else {
        return Err(RowError::Malformed);
    };
    match capture.rrset(number) {
        Some(rrset) => Ok(rrset),
        None => Err(RowError::Malformed),
    }
}

/// The signature of the RRset whose number, from 1 on, the argument is.
pub fn signature<'a, 'b>(
    row: &Row,
    place: usize,
    rrset: &'a Rrset<'b>,
) -> Result<&'a Rrsig<'b>, RowError> {
    let Ok(number) = usize::try_from(row.number(place)?) else {
        return Err(RowError::Malformed);
    };
    match numbered(rrset.signatures(), number) {
        Some(rrsig) => Ok(rrsig),
        None => Err(RowError::Malformed),
    }
}

/// The octets of the messages that the argument writes, which are placed in the arena.
pub fn frames<'b>(row: &Row, place: usize, bump: &'b Bump) -> Result<Vec<&'b [u8]>, RowError> {
    let octets = row.octets(place)?;
    let mut frames = Vec::new(row.alloc());
    let mut framer = Framer::new(row.alloc());
    framer.feed(octets.as_slice(), &mut frames)?;
    framer.finish()?;
    let mut placed: Vec<&'b [u8]> = Vec::new(row.alloc());
    for frame in &frames {
        placed.push(bump.try_alloc_slice_copy(frame)?)?;
    }
    Ok(placed)
}
