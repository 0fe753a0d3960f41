//! A file is read as it comes.
use super::pieces::{LONG_STREAM, Pieces, STREAM};
use dnsv_message::{Counted, ReadError, read_all};
use std::alloc::Global;
use std::io::ErrorKind;
use std::test::Fail;

// Whether the file is read where it comes in pieces of so many octets, by so many reads.
fn is_read(alloc: Global, file: &[u8], size: usize, reads: usize) -> bool {
    let mut reader = Counted::new(Pieces::of(file, size));
    let Ok(octets) = read_all(alloc, &mut reader) else {
        return false;
    };
    octets.as_slice() == file && reader.failures() == 0 && reader.get_ref().reads == reads
}

#[test]
fn gives_the_octets_in_any_pieces(rt: HostRuntime) {
    assert!(rt; is_read(rt.alloc(), b"", 1, 1));
    assert!(rt; is_read(rt.alloc(), STREAM, 1, 192));
    assert!(rt; is_read(rt.alloc(), STREAM, 7, 29));
    assert!(rt; is_read(rt.alloc(), STREAM, 191, 2));
    assert!(rt; is_read(rt.alloc(), STREAM, 192, 2));
}

#[test]
fn reads_four_pieces_and_the_end(rt: HostRuntime) -> Result<(), Fail> {
    let file = vec![in rt.alloc(); 1; LONG_STREAM]?;
    assert!(rt; is_read(rt.alloc(), &file, LONG_STREAM, 5));
    Ok(())
}

// Whether a read that fails so is the answer, and nothing is read after it.
fn is_refused(alloc: Global, kind: ErrorKind) -> bool {
    let mut reader = Counted::new(Pieces::failing(kind));
    let answer = read_all(alloc, &mut reader);
    answer.err() == Some(ReadError::Read) && reader.failures() == 1 && reader.get_ref().reads == 2
}

#[test]
fn a_failed_read_is_no_end(rt: HostRuntime) {
    assert!(rt; is_refused(rt.alloc(), ErrorKind::Other));
    assert!(rt; is_refused(rt.alloc(), ErrorKind::Interrupted));
}
