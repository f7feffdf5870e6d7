//! Writing a text.
ghost use Rattle.std.specs.Prelude.{◌≡◌, OnOk, IfErr};
ghost use Rattle.gk_cli.specs.Writing.{device_of, IsWritten, IsStopped};
ghost use Rattle.gk_request.specs.declared.run_fault.RunFault.TheVariants as faults;

use gk_io::{Counted, write_whole};
use gk_request::RunFault;
use std::io::Write;

/// Writes a piece of a text. The number of calls is at most the number of its bytes. `Write` comes if the writer
/// failed; a prefix of the piece was written then.
pub fn write_piece<W: Write>(out: &mut Counted<W>, text: &str) -> Result<(), RunFault>
    ensures ok { OnOk result
        (IsWritten (device_of W.contents out.old) (device_of W.contents out.new) text.now) }
    ensures err { IfErr result
        (IsStopped (device_of W.contents out.old) (device_of W.contents out.new) text.now) }
    ensures only { IfErr result (λ e. e ≡ faults.Write) }
{
    match write_whole(out, text.as_bytes()) {
        Ok(()) => Ok(()),
        Err(_) => Err(RunFault::Write),
    }
}
