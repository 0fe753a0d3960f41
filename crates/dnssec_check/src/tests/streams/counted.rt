//! Calls of a reader or writer, and which of them fail.
use dnsv_message::Counted;
use std::io;
use std::io::{Read, Write};

// Takes so many octets, and then none.
#[derive(Drop)]
struct Full(usize);

impl Write for Full {
    fn write(&mut self, buf: &[u8]) -> io::Result<usize> {
        let count = self.0.min(buf.len());
        self.0 -= count;
        Ok(count)
    }

    fn flush(&mut self) -> io::Result<()> {
        Err(io::Error::other("the disk is full"))
    }
}

// Whether the writer takes so many of the octets, after which so many calls have failed.
fn takes(writer: &mut Counted<Full>, octets: &[u8], count: usize, failures: u64) -> bool {
    let taken = writer.write(octets).ok();
    taken == Some(count) && writer.failures() == failures
}

// Whether the writer neither takes all of the octets nor is flushed, after which so many calls have failed.
fn is_full(writer: &mut Counted<Full>, octets: &[u8], failures: u64) -> bool {
    writer.write_all(octets).is_err() && writer.flush().is_err() && writer.failures() == failures
}

#[test]
fn counts_failed_writes(rt: HostRuntime) {
    let mut writer = Counted::new(Full(3));
    assert!(rt; takes(&mut writer, b"ab", 2, 0));
    assert!(rt; takes(&mut writer, b"cd", 1, 0), "one octet was taken");
    assert!(rt; takes(&mut writer, b"", 0, 0), "there was none to take");
    assert!(rt; takes(&mut writer, b"d", 0, 1));
    assert!(rt; is_full(&mut writer, b"d", 3));
}

// Counts its calls, the first of which fails.
#[derive(Drop)]
struct FailsOnce(usize);

impl FailsOnce {
    fn call(&mut self) -> io::Result<usize> {
        self.0 = self.0.saturating_add(1);
        if self.0 == 1 {
            return Err(io::Error::other("the first call fails"));
        }
        Ok(1)
    }
}

impl Read for FailsOnce {
    fn read(&mut self, buf: &mut [u8]) -> io::Result<usize> {
        Ok(self.call()?.min(buf.len()))
    }
}

impl Write for FailsOnce {
    fn write(&mut self, buf: &[u8]) -> io::Result<usize> {
        Ok(self.call()?.min(buf.len()))
    }

    fn flush(&mut self) -> io::Result<()> {
        self.call()?;
        Ok(())
    }
}

#[derive(Clone, Copy)]
enum Call {
    Read,
    ReadExact,
    Write,
    WriteAll,
    Flush,
}

fn fails(once: &mut Counted<FailsOnce>, call: Call) -> bool {
    let mut octet = [0u8; 1];
    match call {
        Call::Read => once.read(&mut octet).is_err(),
        Call::ReadExact => once.read_exact(&mut octet).is_err(),
        Call::Write => once.write(&octet).is_err(),
        Call::WriteAll => once.write_all(&octet).is_err(),
        Call::Flush => once.flush().is_err(),
    }
}

// Whether the call fails with the first that it makes, makes no other, and is counted once.
fn is_tried_once(call: Call) -> bool {
    let mut once = Counted::new(FailsOnce(0));
    fails(&mut once, call) && once.get_ref().0 == 1 && once.failures() == 1
}

#[test]
fn tries_no_failed_call_again(rt: HostRuntime) {
    assert!(rt; is_tried_once(Call::Read));
    assert!(rt; is_tried_once(Call::ReadExact));
    assert!(rt; is_tried_once(Call::Write));
    assert!(rt; is_tried_once(Call::WriteAll));
    assert!(rt; is_tried_once(Call::Flush));
}

// Takes the octets that it waits for, two at most of each write, and then none.
#[derive(Drop)]
struct Slow(&'static [u8]);

impl Write for Slow {
    fn write(&mut self, buf: &[u8]) -> io::Result<usize> {
        let awaited = self.0;
        let count = awaited.len().min(buf.len()).min(2);
        if buf[..count] != awaited[..count] {
            return Err(io::Error::other("these are other octets"));
        }
        self.0 = &awaited[count..];
        Ok(count)
    }

    fn flush(&mut self) -> io::Result<()> {
        Ok(())
    }
}

// Whether all octets are written, or not, after which so many calls have failed and so many octets are awaited.
fn ends(writer: &mut Counted<Slow>, octets: &[u8], failures: u64, awaited: usize) -> bool {
    let is_counted = writer.write_all(octets).is_err() == (failures > 0);
    is_counted && writer.failures() == failures && writer.get_ref().0.len() == awaited
}

#[test]
fn writes_in_turn_until_a_write_fails(rt: HostRuntime) {
    let mut writer = Counted::new(Slow(b"abcde"));
    assert!(rt; ends(&mut writer, b"abc", 0, 2));
    assert!(rt; ends(&mut writer, b"defg", 1, 0), "the call failed once");
}

// Whether the writer gets the octets as they are, and no call has failed.
fn gets(writer: &mut Counted<Vec<u8>>, octets: &[u8]) -> bool {
    writer.write_all(octets).is_ok()
        && writer.flush().is_ok()
        && writer.failures() == 0
        && writer.get_ref().as_slice() == octets
}

#[test]
fn passes_written_octets_on(rt: HostRuntime) {
    let mut writer = Counted::new(Vec::new(rt.alloc()));
    assert!(rt; gets(&mut writer, b"abc"));
}

// Whether the reader has two octets, and they are these.
fn gives(reader: &mut Counted<&[u8]>, octets: [u8; 2]) -> bool {
    let mut two = [0u8; 2];
    reader.read_exact(&mut two).is_ok() && two == octets
}

// Whether the reader hasn't two octets any more, after which so many calls have failed.
fn runs_out(reader: &mut Counted<&[u8]>, failures: u64) -> bool {
    let mut two = [0u8; 2];
    reader.read_exact(&mut two).is_err() && reader.failures() == failures
}

#[test]
fn passes_read_octets_on(rt: HostRuntime) {
    let octets: &[u8] = b"abc";
    let mut reader = Counted::new(octets);
    assert!(rt; gives(&mut reader, *b"ab"));
    assert!(rt; runs_out(&mut reader, 1));
}
