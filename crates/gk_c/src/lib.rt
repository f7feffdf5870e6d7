//! The program for callers in C, over files in memory. A call takes the program's arguments and the files that they name.
//! It writes the output and the errors as far as there is room. Its `Answer` has the status.
#![tactic(auto)]

ghost use Rattle.std.specs.Prelude.{◌≡◌, length, map};
ghost use Rattle.gk_c.specs.Room.{put_over};
ghost use Rattle.gk_c.specs.Call.{AreFilesPut, IsAnswer, version};
ghost use Rattle.gk_c.specs.CallerFiles.{file_value};
ghost use Rattle.gk_c.specs.Words.{text_value};

mod answer;
mod call;
mod caller_files;
mod room;
mod words;

pub use answer::Answer;
use call::{answer_call, put_files};
pub use caller_files::File;
use room::put_out;
use std::alloc::Global;
pub use words::Text;

/// Runs the program with these arguments, those after the program's name, over these files, and nothing else.
///
/// The output and the errors are what the program writes to standard output and to standard error, and the status is the
/// one that it ends with. As much of each as there is room for is written over the beginning of `out` and of `errors`;
/// what is behind stays as it was. The `Answer` has the length of both, so a second call with that much room gets all of
/// them. A name that several files have is that of the first. A file that is not among them is one that can't be read.
/// If memory is refused to a buffer of the call, the status is 4, the errors are `gherkin_run: out of memory` and a line
/// feed, and `out` has what was made of the output. Nothing of a call is kept for the next one.
#[unsafe(no_mangle)]
pub extern "C" fn gherkin_run(
    alloc: Global,
    arguments: &[Text],
    files: &[File],
    out: &mut [u8],
    errors: &mut [u8],
    answer: &mut Answer,
)
    ensures { IsAnswer (map text_value arguments.now) (map file_value files.now)
        out.old out.new errors.old errors.new answer.new }
{
    *answer = answer_call(alloc, arguments, files, out, errors);
}

/// Writes the names of the files that these arguments ask for, in the order in which the program reads them: those of
/// `--file`, the library file, the hooks file, the feature files. Each name ends with a zero byte. They are written over
/// the beginning of `room`, as far as there is room, and the length of them all is returned. There are none if the
/// arguments ask for help or the version or have a mistake. If memory was refused, nothing is written, and `usize::MAX`
/// is returned.
#[unsafe(no_mangle)]
pub extern "C" fn gherkin_run_files(alloc: Global, arguments: &[Text], room: &mut [u8]) -> usize
    ensures { AreFilesPut (map text_value arguments.now) room.old room.new result }
{
    put_files(alloc, arguments, room)
}

/// Writes the version of the library over the beginning of `room`, as far as there is room, and returns the length of
/// the whole text.
#[unsafe(no_mangle)]
pub extern "C" fn gherkin_run_version(room: &mut [u8]) -> usize
    ensures count { result ≡ length version }
    ensures written { room.new ≡ put_over version room.old }
{
    put_out(b"2.0.0", room)
}
