//! A capture is read as it comes.
use super::pieces::{LONG_STREAM, Pieces, STREAM};
use bumpalo::Bump;
use dnsv_message::{Counted, ReadError, read_capture};
use dnsv_names::u16_at;
use std::alloc::Global;
use std::io::ErrorKind;
use std::test::Fail;

// Whether the stream is just these messages, each behind its length.
fn is_stream_of(stream: &[u8], messages: &[&[u8]]) -> bool {
    let mut rest = stream;
    for message in messages {
        if rest.len() < 2 || usize::from(u16_at(rest, 0)) != message.len() {
            return false;
        }
        let Some(behind) = rest[2..].strip_prefix(*message) else {
            return false;
        };
        rest = behind;
    }
    rest.is_empty()
}

// Whether the messages of the stream are read where it comes in pieces of so many octets, by so many reads.
fn is_read(alloc: Global, stream: &[u8], size: usize, reads: usize) -> bool {
    let bump = Bump::new(alloc);
    let mut reader = Counted::new(Pieces::of(stream, size));
    let Ok(messages) = read_capture(alloc, &mut reader, &bump) else {
        return false;
    };
    is_stream_of(stream, &messages) && reader.failures() == 0 && reader.get_ref().reads == reads
}

#[test]
fn reads_the_same_in_any_pieces(rt: HostRuntime) {
    assert!(rt; is_read(rt.alloc(), STREAM, 1, 192));
    assert!(rt; is_read(rt.alloc(), STREAM, 3, 65));
    assert!(rt; is_read(rt.alloc(), STREAM, 191, 2));
}

#[test]
fn reads_four_pieces_and_the_end(rt: HostRuntime) -> Result<(), Fail> {
    let stream = vec![in rt.alloc(); 1; LONG_STREAM]?;
    assert!(rt; is_read(rt.alloc(), &stream, LONG_STREAM, 5));
    Ok(())
}

// Whether a read that fails so is the answer, and nothing is read after it.
fn is_refused(alloc: Global, kind: ErrorKind) -> bool {
    let bump = Bump::new(alloc);
    let mut reader = Counted::new(Pieces::failing(kind));
    let answer = read_capture(alloc, &mut reader, &bump);
    answer.err() == Some(ReadError::Read) && reader.failures() == 1 && reader.get_ref().reads == 2
}

#[test]
fn a_failed_read_is_no_end(rt: HostRuntime) {
    assert!(rt; is_refused(rt.alloc(), ErrorKind::Other));
    assert!(rt; is_refused(rt.alloc(), ErrorKind::Interrupted));
}
