//! Readers and writers whose calls are counted, and writing bytes and texts whole.
ghost use Rattle.std.specs.Prelude.{◌≡◌, ◌≤◌, ◌+◌, length, IfSome, OnOk, OnErr};
ghost use Rattle.std.specs.Io.KnownBytes.{Appends};
ghost use Rattle.gk_io.specs.Counted.{one_more, IsPrefixWritten, HasNotFailed, HasFailedOnce, IsUnflushed, IsNeverIdle, IsIdleOnce};

use std::fmt::Display;
use std::io;
use std::io::{Read, Write};
use std::marker::Model;

/// A reader or a writer whose calls are passed on and counted. Flushes are counted apart from the other calls. Calls
/// that failed and calls that moved no byte are counted, too. Each count stops rising at `u64::MAX`.
#[derive(Debug, Drop)]
pub struct Counted<T> {
    inner: T,
    calls: u64,
    flushes: u64,
    failures: u64,
    idle: u64,
}

impl<T> Model for Counted<T> {
    ghost use Rattle.gk_io.specs.Counted.{CountedValue};

    ghost Value = { CountedValue T };

    ghost view = { λ c. record {
      inner = c.inner;
      calls = c.calls;
      flushes = c.flushes;
      failures = c.failures;
      idle = c.idle;
    } };
}

// Adds one to a count; at `u64::MAX` it stays.
fn count_one(count: &mut u64)
    ensures { count.new ≡ one_more count.old }
{
    *count = count.saturating_add(1);
}

impl<T> Counted<T> {
    /// Counts the calls of `inner` from 0. Doesn't allocate.
    pub fn new(inner: T) -> Counted<T>
        ensures inner { result.inner ≡ inner }
        ensures calls { result.calls ≡ 0 }
        ensures flushes { result.flushes ≡ 0 }
        ensures failures { result.failures ≡ 0 }
        ensures idle { result.idle ≡ 0 }
    {
        Counted {
            inner,
            calls: 0,
            flushes: 0,
            failures: 0,
            idle: 0,
        }
    }

    /// Returns the number of calls of `read` and `write`. Doesn't allocate.
    pub fn calls(&self) -> u64
        ensures { result ≡ self.now.calls }
    {
        self.calls
    }

    /// Returns the number of calls of `flush`. Doesn't allocate.
    pub fn flushes(&self) -> u64
        ensures { result ≡ self.now.flushes }
    {
        self.flushes
    }

    /// Returns the number of calls that failed, including each write that took no byte of a nonempty piece. It doesn't
    /// allocate.
    pub fn failures(&self) -> u64
        ensures { result ≡ self.now.failures }
    {
        self.failures
    }

    /// Returns the number of calls of `read` and `write` that moved no byte: those with an empty piece, those that gave
    /// or took nothing, and those that failed. Doesn't allocate.
    pub fn idle(&self) -> u64
        ensures { result ≡ self.now.idle }
    {
        self.idle
    }

    /// Returns the reader or writer itself. Doesn't allocate.
    pub fn inner(&self) -> &T
        ensures { result.now ≡ self.now.inner }
    {
        &self.inner
    }
}

impl<W: Write> Write for Counted<W> {
    ghost use Rattle.std.specs.Prelude.{◌≡◌};
    ghost use Rattle.std.specs.Io.{WritesAtMost};
    ghost use Rattle.std.specs.Io.KnownBytes.{Keeps, WriteAppends};
    ghost use Rattle.gk_io.specs.Counted.{one_more, counted_write, counted_failure, counted_idle, IsCalledOnce, IsUnflushed, IsNeverIdle};

    ghost contents = { λ c. W.contents c.inner };

    fn write(&mut self, buf: &[u8]) -> io::Result<usize>
        ensures bound { WritesAtMost result buf.now }
        ensures bytes { WriteAppends
            (W.contents self.old.inner) (W.contents self.new.inner) result buf.now }
        ensures calls { IsCalledOnce self.old self.new }
        ensures flushes { IsUnflushed self.old self.new }
        ensures failures { self.new.failures
            ≡ counted_write result buf.now self.old.failures }
        ensures idle { self.new.idle ≡ counted_idle result self.old.idle }
    {
        count_one(&mut self.calls);
        let taken = self.inner.write(buf);
        match &taken {
            Ok(0) => {
                count_one(&mut self.idle);
                if !buf.is_empty() {
                    count_one(&mut self.failures);
                }
            }
            Ok(_) => {}
            Err(_) => {
                count_one(&mut self.idle);
                count_one(&mut self.failures);
            }
        }
        taken
    }

    fn flush(&mut self) -> io::Result<()>
        ensures bytes { Keeps (W.contents self.old.inner) (W.contents self.new.inner) }
        ensures calls { self.new.calls ≡ self.old.calls }
        ensures flushes { self.new.flushes ≡ one_more self.old.flushes }
        ensures failures { self.new.failures ≡ counted_failure result self.old.failures }
        ensures idle { IsNeverIdle self.old self.new }
    {
        count_one(&mut self.flushes);
        let flushed = self.inner.flush();
        if flushed.is_err() {
            count_one(&mut self.failures);
        }
        flushed
    }
}

impl<R: Read> Read for Counted<R> {
    ghost use Rattle.std.specs.Prelude.{◌≡◌};
    ghost use Rattle.std.specs.Io.{ReadsAtMost};
    ghost use Rattle.std.specs.Io.KnownBytes.{ReadConsumes};
    ghost use Rattle.gk_io.specs.Counted.{counted_failure, counted_idle, IsCalledOnce, IsUnflushed};

    ghost remaining = { λ c. R.remaining c.inner };

    fn read(&mut self, buf: &mut [u8]) -> io::Result<usize>
        ensures bound { ReadsAtMost result buf.new }
        ensures bytes { ReadConsumes
            (R.remaining self.old.inner) (R.remaining self.new.inner) result buf.new }
        ensures calls { IsCalledOnce self.old self.new }
        ensures flushes { IsUnflushed self.old self.new }
        ensures failures { self.new.failures ≡ counted_failure result self.old.failures }
        ensures idle { self.new.idle ≡ counted_idle result self.old.idle }
    {
        count_one(&mut self.calls);
        let given = self.inner.read(buf);
        match &given {
            Ok(0) => count_one(&mut self.idle),
            Ok(_) => {}
            Err(_) => {
                count_one(&mut self.idle);
                count_one(&mut self.failures);
            }
        }
        given
    }
}

/// The writer failed, or took no byte of a piece. A failure was counted.
#[derive(Clone, Copy, Debug, PartialEq, Eq, Drop)]
pub struct NotWritten;

/// Writes all the bytes, and flushes nothing. Each call offers all bytes that are left. The writer takes at least one
/// of them, or the call is the last and `NotWritten` is returned; a prefix of the bytes was written then. If no byte is
/// left, no call is made. A writer that failed isn't called again. A count of the writer that has reached `u64::MAX`
/// stays there. Doesn't allocate.
pub fn write_whole<W: Write>(out: &mut Counted<W>, bytes: &[u8]) -> Result<(), NotWritten>
    ensures ok { OnOk result
        (Appends (W.contents out.old.inner) (W.contents out.new.inner) bytes.now) }
    ensures quiet { OnOk result (HasNotFailed out.old out.new) }
    ensures cut { OnErr result (IsPrefixWritten
        (W.contents out.old.inner) (W.contents out.new.inner) bytes.now) }
    // At an error the writer failed once.
    ensures failed { OnErr result (HasFailedOnce out.old out.new) }
    // The number of calls is at most the number of bytes.
    ensures calls { out.new.calls ≤ out.old.calls + length bytes.now }
    // Each call moved at least one byte, except for the one that failed.
    ensures busy { OnOk result (IsNeverIdle out.old out.new) }
    ensures idle { OnErr result (IsIdleOnce out.old out.new) }
    ensures unflushed { IsUnflushed out.old out.new }
{
    let mut done = 0;
    while done < bytes.len() {
        match out.write(&bytes[done..]) {
            Ok(0) => return Err(NotWritten),
            Ok(n) => done += n,
            Err(_) => return Err(NotWritten),
        }
    }
    Ok(())
}

/// Writes a text as it is displayed, piece by piece, and flushes nothing. Of the calls that this takes, only a failure
/// is counted, so the counts of calls and of idle calls stay. At `NotWritten` the writer failed, and how much was
/// written isn't said. Doesn't allocate.
pub fn write_displayed<W: Write, D: Display + Drop>(
    out: &mut Counted<W>,
    text: D,
) -> Result<(), NotWritten>
    ensures ok { OnOk result (IfSome (D.output text)
        (Appends (W.contents out.old.inner) (W.contents out.new.inner))) }
    ensures quiet { OnOk result (HasNotFailed out.old out.new) }
    ensures failed { OnErr result (HasFailedOnce out.old out.new) }
    ensures calls { out.new.calls ≡ out.old.calls }
    ensures idle { IsNeverIdle out.old out.new }
    ensures unflushed { IsUnflushed out.old out.new }
{
    match out.inner.write_fmt(text) {
        Ok(()) => Ok(()),
        Err(_) => {
            count_one(&mut out.failures);
            Err(NotWritten)
        }
    }
}
