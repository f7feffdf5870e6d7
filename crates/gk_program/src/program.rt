//! What the program does, from its arguments to its output.
ghost use Rattle.std.specs.Prelude.{◌≡◌};
ghost use Rattle.gk_cli.specs.Writing.{device_of};
ghost use Rattle.gk_program.specs.Asked.{given_value};
ghost use Rattle.gk_program.specs.Ended.{IsEnded};
ghost use Rattle.gk_program.specs.Program.{SaysFlush, SaysRun, SaysShown};

use crate::asked::{ArgumentsFault, Asked, asked_with};
use crate::ended::{ProgramEnd, ending};
use crate::fault::{Fault, Faults, Inputs};
use crate::files::{System, read_run_files};
use crate::world_files::{put_files, put_variables};
use gk_cli::{Mode, Words, write_suite};
use gk_io::{Counted, write_whole};
use gk_request::RunFault;
use gk_world::Sandbox;
use std::alloc::Global;
use std::io::Write;

// Flushes the output of a call that returned a status, and returns that status.
fn flushed<W: Write>(written: Result<u8, RunFault>, out: &mut Counted<W>) -> Result<u8, RunFault>
    ensures { SaysFlush written
        (device_of W.contents out.old) (device_of W.contents out.new) result }
{
    let status = written?;
    match out.flush() {
        Ok(()) => Ok(status),
        Err(_) => Err(RunFault::Write),
    }
}

// Writes a text, and flushes. `Write` comes in two cases. If a write failed, a prefix of the text was written, and
// nothing was flushed. If the flush failed, all of the text was written.
fn show_text<W: Write>(text: &str, out: &mut Counted<W>) -> Result<u8, Faults>
    ensures { SaysShown text.now
        (device_of W.contents out.old) (device_of W.contents out.new) result }
{
    let written = match write_whole(out, text.as_bytes()) {
        Ok(()) => Ok(0),
        Err(_) => Err(RunFault::Write),
    };
    match flushed(written, out) {
        Ok(status) => Ok(status),
        Err(fault) => Err(Faults::from(Fault::OfRun(fault))),
    }
}

// Runs what is asked for: puts the variables and then the files of `--file` into an empty sandbox, reads the library
// file, the hooks file and the feature files, and runs the suite, or lists what is found in it. The first fault in
// this order ends it.
fn run_words<S: System, W: Write>(
    alloc: Global,
    system: &mut S,
    words: Words,
    out: &mut Counted<W>,
) -> Result<u8, Faults>
    ensures { SaysRun S.reads words system.old system.new
        (device_of W.contents out.old) (device_of W.contents out.new) result }
{
    let mut sandbox = Sandbox::new(alloc);
    put_variables(&mut sandbox, words.env)?;
    put_files(alloc, system, &mut sandbox, words.world_files)?;
    let files = read_run_files(alloc, system, words.library, words.hooks, words.files)?;
    let written = write_suite(alloc, &mut sandbox, &words.options, words.mode, &files, out);
    match flushed(written, out) {
        Ok(status) => Ok(status),
        Err(fault) => Err(Faults {
            first: Fault::OfRun(fault),
            inputs: Some(Inputs {
                tags: words.options.tags,
                files,
            }),
        }),
    }
}

/// Runs the program on its arguments, with the files of this system, and writes to `errors` why what they ask for was
/// not done. Returns the exit status, and the place of the fault if there is one.
pub fn run<S: System, W: Write, E: Write>(
    alloc: Global,
    system: &mut S,
    arguments: Result<Vec<String>, ArgumentsFault>,
    out: &mut Counted<W>,
    errors: &mut Counted<E>,
) -> ProgramEnd
    ensures { IsEnded S.reads (given_value arguments) system.old system.new
        (device_of W.contents out.old) (device_of W.contents out.new)
        (device_of E.contents errors.old) (device_of E.contents errors.new) result }
{
    match asked_with(alloc, arguments) {
        Asked::Help { text } => {
            let done = show_text(text.as_str(), out);
            ending(alloc, Mode::Report, &done, errors)
        }
        Asked::Run(words) => {
            let mode = words.mode;
            let done = run_words(alloc, system, words, out);
            ending(alloc, mode, &done, errors)
        }
        Asked::Nothing { fault, mode } => {
            let done = Err(Faults::from(fault));
            ending(alloc, mode, &done, errors)
        }
    }
}
