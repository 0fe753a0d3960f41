//! A stream, and a reader that gives octets a few at a time.
use std::io;
use std::io::{ErrorKind, Read};

// A stream of two messages, each behind its length: a query for keys with its answer, and one for an address.
pub const STREAM: &[u8] =
    b"\x00\x54\x00\x01\x84\x00\x00\x01\x00\x02\x00\x00\x00\x00\x07example\x00\x00\x30\x00\x01\
\xc0\x0c\x00\x30\x00\x01\x00\x00\x0e\x10\x00\x07\x01\x00\x03\x0d\x01\x02\x03\
\xc0\x0c\x00\x2e\x00\x01\x00\x00\x0e\x10\x00\x1c\x00\x30\x0d\x01\x00\x00\x0e\x10\
\x00\x00\x07\xd0\x00\x00\x03\xe8\x08\x0f\x07example\x00\xcc\
\x00\x67\x00\x02\x84\x00\x00\x01\x00\x03\x00\x00\x00\x00\x04Host\x07Example\x00\x00\x01\x00\x01\
\xc0\x0c\x00\x01\x00\x01\x00\x00\x00\x05\x00\x04\xc0\x00\x02\x01\
\xc0\x0c\x00\x01\x00\x01\x00\x00\x00\x05\x00\x04\xc0\x00\x02\x01\
\xc0\x0c\x00\x2e\x00\x01\x00\x00\x00\x05\x00\x1d\x00\x01\x0d\x02\x00\x00\x0e\x10\
\x00\x00\x07\xd0\x00\x00\x03\xe8\x08\x0f\x07Example\x00\xaa\xbb";

// How many octets of 1 are 48 messages of 257 octets. They fill three pieces and begin a fourth.
pub const LONG_STREAM: usize = 12_432;

// Gives its octets a few at a time, and fails at one of its reads.
#[derive(Drop)]
pub struct Pieces<'a> {
    octets: &'a [u8],
    size: usize,
    pub reads: usize,
    fails_at: usize,
    kind: ErrorKind,
}

impl<'a> Pieces<'a> {
    pub fn of(octets: &'a [u8], size: usize) -> Pieces<'a> {
        Pieces {
            octets,
            size,
            reads: 0,
            fails_at: usize::MAX,
            kind: ErrorKind::Other,
        }
    }

    // The first message of the stream as a whole, and then a failure.
    pub fn failing(kind: ErrorKind) -> Pieces<'static> {
        Pieces {
            octets: STREAM,
            size: 86,
            reads: 0,
            fails_at: 2,
            kind,
        }
    }
}

impl Read for Pieces<'_> {
    fn read(&mut self, buf: &mut [u8]) -> io::Result<usize> {
        self.reads = self.reads.saturating_add(1);
        if self.reads == self.fails_at {
            return Err(io::Error::new(self.kind, "the reader fails"));
        }
        let octets = self.octets;
        let count = self.size.min(octets.len()).min(buf.len());
        buf[..count].copy_from_slice(&octets[..count]);
        self.octets = &octets[count..];
        Ok(count)
    }
}
