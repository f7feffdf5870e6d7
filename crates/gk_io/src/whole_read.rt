//! Reading all bytes of a reader.
ghost use Rattle.std.specs.Prelude.{◌≡◌, ◌≢◌, ◌≤◌, ◌+◌, [], Some, IfOk, IfSome, IsErrOf, vec_len};
ghost use Rattle.gk_gherkin.specs.Lines.{limit};
ghost use Rattle.gk_io.specs.Counted.{HasNotFailed, HasFailedOnce};
ghost use Rattle.gk_io.specs.WholeRead.{StopsAfter, GivesAtMost, idle_after};

use crate::counted::Counted;
use gk_gherkin::LONGEST_FILE;
use std::alloc::Global;
use std::io::Read;
use thiserror::Error;

/// Why a source couldn't be read whole.
#[derive(Clone, Copy, Debug, PartialEq, Eq, Error)]
pub enum SourceFault {
    /// The reader failed in this call.
    #[error("cannot read")]
    Device,
    /// The reader has more bytes than `gk_gherkin::LONGEST_FILE`.
    #[error("longer than 16777216 bytes")]
    TooLong,
    /// Memory couldn't be allocated.
    #[error("out of memory")]
    Memory,
}

/// The largest number of bytes that one call asks the reader for.
const PIECE: usize = 16_384;

/// Reads all bytes of a reader. At most one call gives no byte: one that finds the end, or that fails. The reader is
/// never asked for a byte after number `gk_gherkin::LONGEST_FILE` + 1, so a reader without an end gives `TooLong`. A reader
/// that failed isn't called again. A count of the reader that has reached `u64::MAX` stays there.
pub fn read_source<R: Read>(alloc: Global, reader: &mut Counted<R>) -> Result<Vec<u8>, SourceFault>
    ensures whole { IfOk result (λ v.
        IfSome (R.remaining reader.old.inner) (λ xs. v.items ≡ xs)) }
    ensures within { IfOk result (λ v. vec_len v ≤ limit) }
    ensures quiet { IfOk result (λ v. HasNotFailed reader.old reader.new) }
    // `TooLong`: a reader whose bytes are known gave one more than the limit. No reader failed.
    ensures long { IsErrOf result SourceFault.TooLong →
        StopsAfter (limit + 1)
        (R.remaining reader.old.inner) (R.remaining reader.new.inner) }
    ensures long_quiet { IsErrOf result SourceFault.TooLong → HasNotFailed reader.old reader.new }
    // At `Device` the reader failed once.
    ensures device { IsErrOf result SourceFault.Device → HasFailedOnce reader.old reader.new }
    // At `Memory` the reader didn't fail, and isn't known to be empty.
    ensures spare { IsErrOf result SourceFault.Memory → HasNotFailed reader.old reader.new }
    ensures free { IsErrOf result SourceFault.Memory → R.remaining reader.old.inner ≢ Some [] }
    // Whatever is returned, at most one call gives no byte. If the reader's bytes are known, it gives none after
    // number LONGEST_FILE + 1; for other readers `given` says nothing.
    ensures idle { reader.new.idle ≡ idle_after result reader.old.idle }
    ensures given { GivesAtMost (limit + 1)
        (R.remaining reader.old.inner) (R.remaining reader.new.inner) }
    ensures calls { IfOk result (λ v. reader.new.calls ≤ reader.old.calls + vec_len v + 1) }
    ensures bounded { reader.new.calls ≤ reader.old.calls + (limit + 1) }
{
    let mut bytes = Vec::new(alloc);
    let mut piece = [0u8; PIECE];
    while bytes.len() <= LONGEST_FILE {
        let room = (LONGEST_FILE + 1 - bytes.len()).min(PIECE);
        match reader.read(&mut piece[..room]) {
            Ok(0) => return Ok(bytes),
            Ok(n) => {
                if bytes.extend_from_slice(&piece[..n]).is_err() {
                    return Err(SourceFault::Memory);
                }
            }
            Err(_) => return Err(SourceFault::Device),
        }
    }
    Err(SourceFault::TooLong)
}
