use gk_io::{Counted, write_displayed, write_whole};
use std::alloc::{AllocError, Global};
use std::io;
use std::io::Write as _;
use std::test::Fail;

/// A writer that counts its own calls. It takes at most `most` bytes in a call, and fails only in the call `fails_at`.
#[derive(Debug, Drop)]
pub(crate) struct Writer {
    most: usize,
    fails_at: usize,
    calls: usize,
    offered: usize,
    pub bytes: Vec<u8>,
}

impl io::Write for Writer {
    fn write(&mut self, buf: &[u8]) -> io::Result<usize> {
        self.calls = self.calls.saturating_add(1);
        self.offered = self.offered.max(buf.len());
        if self.calls == self.fails_at {
            return Err(io::ErrorKind::Other.into());
        }
        let taken = buf.len().min(self.most);
        self.bytes.extend_from_slice(&buf[..taken])?;
        Ok(taken)
    }

    fn flush(&mut self) -> io::Result<()> {
        self.calls = self.calls.saturating_add(1);
        if self.calls == self.fails_at {
            return Err(io::ErrorKind::Other.into());
        }
        Ok(())
    }
}

// Makes a counted writer with nothing written to it.
pub(crate) fn counted(alloc: Global, most: usize, fails_at: usize) -> Counted<Writer> {
    Counted::new(Writer {
        most,
        fails_at,
        calls: 0,
        offered: 0,
        bytes: Vec::new(alloc),
    })
}

// Formats the calls of the writer, the largest piece offered to it, the counts, and the bytes.
fn shown(alloc: Global, out: &Counted<Writer>) -> Result<String, AllocError> {
    let writer = out.inner();
    format!(in alloc;
        "{} of {}, counted {} {} {}, {:?}",
        writer.calls,
        writer.offered,
        out.calls(),
        out.failures(),
        out.flushes(),
        str::from_utf8(writer.bytes.as_slice())
    )
}

// Writes seven bytes, and formats whether all were written and what the writer shows.
fn written(alloc: Global, most: usize, fails_at: usize) -> Result<String, AllocError> {
    let mut out = counted(alloc, most, fails_at);
    let whole = write_whole(&mut out, b"1234567").is_ok();
    let shown = shown(alloc, &out)?;
    format!(in alloc; "{whole}: {shown}")
}

// How many bytes the writer takes in a call, the call that fails, and the outcome.
const WRITTEN: [(usize, usize, &str); 6] = [
    (100, 0, "true: 1 of 7, counted 1 0 0, Ok(\"1234567\")"),
    (1, 0, "true: 7 of 7, counted 7 0 0, Ok(\"1234567\")"),
    (3, 0, "true: 3 of 7, counted 3 0 0, Ok(\"1234567\")"),
    (3, 1, "false: 1 of 7, counted 1 1 0, Ok(\"\")"),
    (3, 3, "false: 3 of 7, counted 3 1 0, Ok(\"123456\")"),
    (0, 0, "false: 1 of 7, counted 1 1 0, Ok(\"\")"),
];

#[test]
fn writes_whole_and_asks_no_writer_again_that_failed(rt: HostRuntime) -> Result<(), Fail> {
    for (most, fails_at, wanted) in WRITTEN {
        let found = written(rt.alloc(), most, fails_at)?;
        assert_eq!(rt; found.as_str(), wanted);
    }
    Ok(())
}

#[test]
fn passes_each_flush_on_once(rt: HostRuntime) -> Result<(), Fail> {
    let mut out = counted(rt.alloc(), 1, 2);
    let flushed = (out.flush().is_ok(), out.flush().is_ok());
    assert_eq!(rt; flushed, (true, false));
    let shown = shown(rt.alloc(), &out)?;
    assert_eq!(rt; shown.as_str(), "2 of 0, counted 0 1 2, Ok(\"\")");
    Ok(())
}

// The number of bytes to write, how many the writer takes in a call, and the number of calls that it takes.
const LENGTHS: [(usize, usize, usize); 8] = [
    (0, usize::MAX, 0),
    (1, usize::MAX, 1),
    (65_536, usize::MAX, 1),
    (65_537, usize::MAX, 1),
    (1 << 22, usize::MAX, 1),
    ((1 << 23) + 1, usize::MAX, 1),
    (1 << 22, 65_536, 64),
    (200_000, 1, 200_000),
];

#[test]
fn offers_all_that_is_left(rt: HostRuntime) -> Result<(), Fail> {
    for (length, most, calls) in LENGTHS {
        let bytes = vec![in rt.alloc(); b'a'; length]?;
        let mut out = counted(rt.alloc(), most, 0);
        assert_eq!(rt; write_whole(&mut out, &bytes), Ok(()));
        let writer = out.inner();
        assert!(rt; writer.bytes == bytes);
        assert_eq!(rt; (writer.calls, writer.offered), (calls, length));
        let counts = (out.calls(), out.failures(), out.flushes(), out.idle());
        assert_eq!(rt; counts, (calls as u64, 0, 0, 0));
    }
    Ok(())
}

// Writes a byte, then a text of three pieces. Formats whether all of the text was written and what the writer shows.
fn displayed(alloc: Global, most: usize, fails_at: usize) -> Result<String, AllocError> {
    let mut out = counted(alloc, most, fails_at);
    let _ = write_whole(&mut out, b"x");
    let whole = write_displayed(&mut out, format_args!("{}-{}", "ab", "cd")).is_ok();
    let shown = shown(alloc, &out)?;
    format!(in alloc; "{whole}: {shown}")
}

// How many bytes the writer takes in a call, the call that fails, and the outcome.
const DISPLAYED: [(usize, usize, &str); 4] = [
    (100, 0, "true: 4 of 2, counted 1 0 0, Ok(\"xab-cd\")"),
    (1, 0, "true: 6 of 2, counted 1 0 0, Ok(\"xab-cd\")"),
    (100, 2, "false: 2 of 2, counted 1 1 0, Ok(\"x\")"),
    (100, 4, "false: 4 of 2, counted 1 1 0, Ok(\"xab-\")"),
];

#[test]
fn writes_a_text_as_it_is_displayed(rt: HostRuntime) -> Result<(), Fail> {
    for (most, fails_at, wanted) in DISPLAYED {
        let found = displayed(rt.alloc(), most, fails_at)?;
        assert_eq!(rt; found.as_str(), wanted);
    }
    Ok(())
}

// Writes two bytes the given number of times, flushes once, and formats the outcome.
fn flushed_after(alloc: Global, writes: usize, fails_at: usize) -> Result<String, AllocError> {
    let mut out = counted(alloc, usize::MAX, fails_at);
    for _ in 0..writes {
        let _ = write_whole(&mut out, b"ab");
    }
    let flushed = out.flush().is_ok();
    let shown = shown(alloc, &out)?;
    format!(in alloc; "{flushed}: {shown}")
}

// How often two bytes are written before a flush, the call that fails, and the outcome.
const FLUSHED: [(usize, usize, &str); 7] = [
    (0, 0, "true: 1 of 0, counted 0 0 1, Ok(\"\")"),
    (1, 0, "true: 2 of 2, counted 1 0 1, Ok(\"ab\")"),
    (2, 0, "true: 3 of 2, counted 2 0 1, Ok(\"abab\")"),
    (0, 1, "false: 1 of 0, counted 0 1 1, Ok(\"\")"),
    (1, 2, "false: 2 of 2, counted 1 1 1, Ok(\"ab\")"),
    (2, 3, "false: 3 of 2, counted 2 1 1, Ok(\"abab\")"),
    (1, 1, "true: 2 of 2, counted 1 1 1, Ok(\"\")"),
];

#[test]
fn passes_a_flush_on_after_writes(rt: HostRuntime) -> Result<(), Fail> {
    for (writes, fails_at, wanted) in FLUSHED {
        let found = flushed_after(rt.alloc(), writes, fails_at)?;
        assert_eq!(rt; found.as_str(), wanted);
    }
    Ok(())
}
