//! Streams of messages, as TCP carries them (RFC 1035 4.2.2): frames, captures, and the reading of files.

pub mod capture;
pub mod counted;
pub mod file;
pub mod framer;
pub mod framing;
