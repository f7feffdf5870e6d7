use gk_gherkin::LONGEST_FILE;
use gk_io::{Counted, read_source};
use std::alloc::{AllocError, Global};
use std::io;
use std::test::Fail;

/// A reader that counts its own calls. It gives at most `most` bytes in a call, each of them an `a`, and fails only in
/// the call `fails_at`.
#[derive(Debug, Drop)]
struct Reader {
    left: usize,
    most: usize,
    fails_at: usize,
    calls: usize,
    asked: usize,
}

impl io::Read for Reader {
    fn read(&mut self, buf: &mut [u8]) -> io::Result<usize> {
        self.calls = self.calls.saturating_add(1);
        self.asked = self.asked.max(buf.len());
        if self.calls == self.fails_at {
            return Err(io::ErrorKind::Other.into());
        }
        let n = buf.len().min(self.left).min(self.most);
        buf[..n].fill(b'a');
        self.left -= n;
        Ok(n)
    }
}

// Reads a source and formats the outcome: the number of bytes read or the fault, the calls of the reader, the most
// bytes that it was asked for, the counts, and the bytes left.
fn read(alloc: Global, left: usize, most: usize, fails_at: usize) -> Result<String, AllocError> {
    let mut reader = Counted::new(Reader {
        left,
        most,
        fails_at,
        calls: 0,
        asked: 0,
    });
    let read = read_source(alloc, &mut reader).map(|bytes| bytes.len());
    let inner = reader.inner();
    format!(in alloc;
        "{read:?}: {} of {}, counted {} {}, {} left",
        inner.calls,
        inner.asked,
        reader.calls(),
        reader.failures(),
        inner.left
    )
}

// The number of bytes that the reader has, how many it gives in a call, the call that fails, and the outcome.
const READ: [(usize, usize, usize, &str); 10] = [
    (0, 100, 0, "Ok(0): 1 of 16384, counted 1 0, 0 left"),
    (7, 1, 0, "Ok(7): 8 of 16384, counted 8 0, 0 left"),
    (
        16_384,
        usize::MAX,
        0,
        "Ok(16384): 2 of 16384, counted 2 0, 0 left",
    ),
    (
        40_000,
        usize::MAX,
        0,
        "Ok(40000): 4 of 16384, counted 4 0, 0 left",
    ),
    (
        40_000,
        usize::MAX,
        1,
        "Err(Device): 1 of 16384, counted 1 1, 40000 left",
    ),
    (
        40_000,
        usize::MAX,
        4,
        "Err(Device): 4 of 16384, counted 4 1, 0 left",
    ),
    (
        LONGEST_FILE,
        usize::MAX,
        0,
        "Ok(16777216): 1025 of 16384, counted 1025 0, 0 left",
    ),
    (
        LONGEST_FILE + 2,
        usize::MAX,
        0,
        "Err(TooLong): 1025 of 16384, counted 1025 0, 1 left",
    ),
    (
        200_000,
        1,
        150_000,
        "Err(Device): 150000 of 16384, counted 150000 1, 50001 left",
    ),
    (
        LONGEST_FILE + 2,
        1,
        0,
        "Err(TooLong): 16777217 of 16384, counted 16777217 0, 1 left",
    ),
];

#[test]
fn reads_whole_in_large_pieces(rt: HostRuntime) -> Result<(), Fail> {
    for (left, most, fails_at, wanted) in READ {
        let found = read(rt.alloc(), left, most, fails_at)?;
        assert_eq!(rt; found.as_str(), wanted);
    }
    Ok(())
}
