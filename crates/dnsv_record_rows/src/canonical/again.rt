//! Calls that are made again where memory was refused: by `make faults` at each call for memory in turn, and here never.

use crate::canonical::rrsets::list;
use crate::captures::{frames, messages};
use bumpalo::Bump;
use dnsv_canonical::{Capture, CaptureError};
use dnsv_message::{Framer, Message, ReadError};
use dnsv_row_text::{Row, RowError, octets_list_text};
use std::alloc::Global;

/// What the library answers, where it has the call.
pub fn answer(row: &Row) -> Result<Option<String>, RowError> {
    if row.calls("add-again") {
        return Ok(Some(add_again(row)?));
    }
    if row.calls("feed-again") {
        return Ok(Some(feed_again(row)?));
    }
    Ok(None)
}

/// `add-again CAPTURE`: how often an `add` was refused memory, and what the capture has. Behind each refusal the capture
/// is looked at, and the message is added again.
fn add_again(row: &Row) -> Result<String, RowError> {
    let bump = Bump::new(row.alloc());
    let frames = frames(row, 0, &bump)?;
    let mut capture = Capture::new(row.alloc(), &bump);
    let mut refusals = 0usize;
    for message in &messages(row.alloc(), &frames)? {
        let refused = is_refused(row.alloc(), &mut capture, message)?;
        refusals = refusals.saturating_add(usize::from(refused));
    }
    let told = told(row.alloc(), &capture)?;
    Ok(format!(in row.alloc(); "refused {refusals}, {told}")?)
}

/// How many parameters of NSEC3 records the capture has, its RRsets, and of each the numbers of those with its owner and
/// type.
fn told(alloc: Global, capture: &Capture<'_>) -> Result<String, RowError> {
    let parameters = capture.nsec3_parameters().len();
    let rrsets = list(alloc, capture)?;
    let mut text = format!(in alloc; "{parameters} {rrsets}")?;
    for rrset in capture.rrsets() {
        let numbers = capture.at(rrset.owner(), rrset.rtype());
        push_numbers(&mut text, numbers)?;
    }
    Ok(text)
}

fn push_numbers(text: &mut String, numbers: &[usize]) -> Result<(), RowError> {
    text.push_str(" at")?;
    for number in numbers {
        write!(text, " {number}")?;
    }
    Ok(())
}

/// Whether the message was refused once, before it was added.
fn is_refused<'b>(
    alloc: Global,
    capture: &mut Capture<'b>,
    message: &Message<'b>,
) -> Result<bool, RowError> {
    let before = told(alloc, capture)?;
    match capture.add(message) {
        Ok(()) => Ok(false),
        Err(CaptureError::OutOfMemory) => {
            let is_kept = told(alloc, capture)? == before;
            if is_kept && capture.add(message).is_ok() {
                Ok(true)
            } else {
                Err(RowError::Malformed)
            }
        }
        Err(_) => Err(RowError::Malformed),
    }
}

/// `feed-again PIECE ..`: `ok` or `refused 90`, and the messages that a framer took out of the pieces. Once it was
/// refused memory, each further piece and the end have to be, and no message is added.
fn feed_again(row: &Row) -> Result<String, RowError> {
    let mut framer = Framer::new(row.alloc());
    let mut messages = Vec::new(row.alloc());
    let mut kept = None;
    for place in 0..row.count() {
        let piece = row.octets(place)?;
        let fed = framer.feed(piece.as_slice(), &mut messages);
        kept = count_kept(fed, kept, messages.len())?;
    }
    let word = match (framer.finish(), kept) {
        (Ok(()), None) => "ok",
        (Err(ReadError::OutOfMemory), Some(_)) => "refused 90",
        _ => return Err(RowError::Malformed),
    };
    let list = octets_list_text(row.alloc(), messages.as_slice())?;
    Ok(format!(in row.alloc(); "{word}, {list}")?)
}

/// How many messages there were when memory was refused first, if it was; there are `count` now.
fn count_kept(
    fed: Result<(), ReadError>,
    kept: Option<usize>,
    count: usize,
) -> Result<Option<usize>, RowError> {
    match (fed, kept) {
        (Ok(()), None) => Ok(None),
        (Err(ReadError::OutOfMemory), None) => Ok(Some(count)),
        (Err(ReadError::OutOfMemory), Some(before)) if before == count => Ok(kept),
        _ => Err(RowError::Malformed),
    }
}
