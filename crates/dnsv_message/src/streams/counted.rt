//! Readers and writers whose failed calls are counted.
ghost use Rattle.std.specs.Prelude.{◌≡◌, is_err, IfErr, OnOk, List, ℕ};
ghost use Rattle.std.specs.Io.{ReadsAtMost, WritesAtMost};
ghost use Rattle.std.specs.Io.KnownBytes.{Appends, Consumes, Keeps, ReadConsumes, WriteAppends};
ghost use Rattle.dnsv_message.specs.Streams.Counted.{AppendsBeginning};

use std::io;
use std::io::{ErrorKind, Read, Write};

/// A reader or writer that counts those of its calls that failed.
///
/// A call fails where it answers an error of any kind, and a write also where it takes none of the
/// octets that it is given. The count stops at its greatest value.
#[derive(Debug, Drop)]
pub struct Counted<T> {
    inner: T,
    failures: u64,
}

impl<T> Counted<T> {
    ghost use Rattle.dnsv_message.specs.Streams.Counted.{inner_of, failures_of, count_after};

    /// Counts from 0 on.
    pub fn new(inner: T) -> Counted<T>
        ensures inner { inner_of result ≡ inner }
        ensures failures { failures_of result ≡ 0 }
    {
        Counted { inner, failures: 0 }
    }

    /// How many calls failed.
    pub fn failures(&self) -> u64
        ensures { result ≡ failures_of self.now }
    {
        self.failures
    }

    /// The reader or writer itself.
    pub fn get_ref(&self) -> &T
        ensures { result.now ≡ inner_of self.now }
    {
        &self.inner
    }

    /// The reader or writer, no longer counted.
    pub fn into_inner(self) -> T
        ensures { result ≡ inner_of self }
    {
        self.inner
    }

    fn count(&mut self, failed: bool)
        ensures inner { inner_of self.new ≡ inner_of self.old }
        ensures failures { failures_of self.new ≡ count_after (failures_of self.old) failed }
    {
        if failed {
            self.failures = self.failures.saturating_add(1);
        }
    }
}

impl<R: Read> Read for Counted<R> {
    ghost use Rattle.dnsv_message.specs.Streams.Counted.{inner_of, failures_of, count_after};

    ghost remaining = { λ counted. R.remaining (inner_of counted) };

    fn read(&mut self, buf: &mut [u8]) -> io::Result<usize>
        ensures bound { ReadsAtMost result buf.new }
        ensures bytes { ReadConsumes (R.remaining (inner_of self.old)) (R.remaining (inner_of self.new))
            result buf.new }
        ensures failures { failures_of self.new ≡ count_after (failures_of self.old) (is_err result) }
    {
        let result = self.inner.read(buf);
        self.count(result.is_err());
        result
    }

    fn read_exact(&mut self, buf: &mut [u8]) -> io::Result<()>
        ensures bytes { OnOk result
            (Consumes (R.remaining (inner_of self.old)) (R.remaining (inner_of self.new)) buf.new) }
        ensures failures { failures_of self.new ≡ count_after (failures_of self.old) (is_err result) }
    {
        let result = self.inner.read_exact(buf);
        self.count(result.is_err());
        result
    }
}

impl<W: Write> Write for Counted<W> {
    ghost use Rattle.dnsv_message.specs.Streams.Counted.{inner_of, failures_of, count_after, is_failed_write};

    ghost contents = { λ counted. W.contents (inner_of counted) };

    fn write(&mut self, buf: &[u8]) -> io::Result<usize>
        ensures bound { WritesAtMost result buf.now }
        ensures bytes { WriteAppends (W.contents (inner_of self.old)) (W.contents (inner_of self.new)) result buf.now }
        ensures failures { failures_of self.new ≡ count_after (failures_of self.old) (is_failed_write result buf.now) }
    {
        let result = self.inner.write(buf);
        let failed = match &result {
            Ok(taken) => *taken == 0 && !buf.is_empty(),
            Err(_) => true,
        };
        self.count(failed);
        result
    }

    fn flush(&mut self) -> io::Result<()>
        ensures bytes { Keeps (W.contents (inner_of self.old)) (W.contents (inner_of self.new)) }
        ensures failures { failures_of self.new ≡ count_after (failures_of self.old) (is_err result) }
    {
        let result = self.inner.flush();
        self.count(result.is_err());
        result
    }

    /// The first write that fails is not tried again, and so the call fails with it. It counts as one call.
    fn write_all(&mut self, buf: &[u8]) -> io::Result<()>
        ensures bytes { OnOk result
            (Appends (W.contents (inner_of self.old)) (W.contents (inner_of self.new)) buf.now) }
        ensures begun { IfErr result (λ _.
            AppendsBeginning (W.contents (inner_of self.old)) (W.contents (inner_of self.new)) buf.now) }
        ensures failures { failures_of self.new ≡ count_after (failures_of self.old) (is_err result) }
    {
        let result = write_in_turn(&mut self.inner, buf);
        self.count(result.is_err());
        result
    }
}

/// Writes the octets from the first on, until all are written or a write fails.
fn write_in_turn<W: Write>(writer: &mut W, octets: &[u8]) -> io::Result<()>
    ensures bytes { OnOk result (Appends (W.contents writer.old) (W.contents writer.new) octets.now) }
    ensures begun { IfErr result (λ _. AppendsBeginning (W.contents writer.old) (W.contents writer.new) octets.now) }
{
    let mut rest = octets;
    while !rest.is_empty() {
        let taken = writer.write(rest)?;
        if taken == 0 {
            return Err(io::Error::from(ErrorKind::WriteZero));
        }
        rest = &rest[taken..];
    }
    Ok(())
}
