//! Answering a call.
ghost use Rattle.std.specs.Prelude.{◌≡◌, ◌++◌, [], Some, codes, map, IfOk, OnOk, string_bytes};
ghost use Rattle.gk_cli.specs.Writing.{device_of};
ghost use Rattle.gk_c.specs.Room.{IsPut, put_over};
ghost use Rattle.gk_c.specs.Answer.{IsAnsweredBy, IsAnsweredWith, IsRefusal, refusal};
ghost use Rattle.gk_c.specs.Call.{AreFilesPut, AreNamesListed, IsAnswer, IsRunOver, fresh, listed, one_listed};
ghost use Rattle.gk_c.specs.CallerFiles.{file_value};
ghost use Rattle.gk_c.specs.Words.{text_value};

use crate::answer::Answer;
use crate::caller_files::{File, InMemory};
use crate::room::put_out;
use crate::words::{Text, words_from};
use gk_io::Counted;
use gk_program::{ProgramEnd, files_asked, run};
use std::alloc::{AllocError, Global};

// Returns a buffer that takes a text as long as the caller's room without growing. If there is no memory for it, returns
// one that grows.
fn buffer_for(alloc: Global, room: &[u8]) -> Vec<u8>
    ensures { result.items ≡ [] }
{
    match Vec::with_capacity(alloc, room.len()) {
        Ok(buffer) => buffer,
        Err(_) => Vec::new(alloc),
    }
}

// Runs the program on the arguments of a call, over its files.
fn run_over(
    alloc: Global,
    arguments: &[Text],
    files: &[File],
    out: &mut Counted<Vec<u8>>,
    errors: &mut Counted<Vec<u8>>,
) -> ProgramEnd
    requires out { device_of (λ buffer. Some buffer.items) out.old ≡ fresh }
    requires errors { device_of (λ buffer. Some buffer.items) errors.old ≡ fresh }
    ensures { IsRunOver (map file_value files.now) (map text_value arguments.now)
        (device_of (λ buffer. Some buffer.items) out.new)
        (device_of (λ buffer. Some buffer.items) errors.new) result }
{
    let words = words_from(alloc, arguments);
    let mut system = InMemory::new(alloc, files);
    run(alloc, &mut system, words, out, errors)
}

// Answers with what the program wrote to standard error, and how it ended; or that memory was refused, if a buffer
// didn't take all that it wrote.
fn answer_with(
    ended: ProgramEnd,
    out: &Counted<Vec<u8>>,
    out_length: usize,
    errors: &Counted<Vec<u8>>,
    room: &mut [u8],
) -> Answer
    ensures out { result.out_length ≡ out_length }
    ensures answered { IsAnsweredWith (device_of (λ buffer. Some buffer.items) out.now)
        (device_of (λ buffer. Some buffer.items) errors.now) ended
        errors.now.inner.items room.old room.new result }
{
    if out.failures() == 0 && errors.failures() == 0 {
        Answer {
            out_length,
            errors_length: put_out(errors.inner().as_slice(), room),
            name_length: ended.place.name_length,
            line: ended.place.line,
            status: ended.status,
        }
    } else {
        Answer {
            out_length,
            errors_length: put_out(b"gherkin_run: out of memory\n", room),
            name_length: 0,
            line: 0,
            status: 4,
        }
    }
}

/// Runs the program, and answers with what it wrote.
pub fn answer_call(
    alloc: Global,
    arguments: &[Text],
    files: &[File],
    out: &mut [u8],
    errors: &mut [u8],
) -> Answer
    ensures { IsAnswer (map text_value arguments.now) (map file_value files.now)
        out.old out.new errors.old errors.new result }
{
    let mut output = Counted::new(buffer_for(alloc, out));
    let mut complaints = Counted::new(buffer_for(alloc, errors));
    let ended = run_over(alloc, arguments, files, &mut output, &mut complaints);
    let out_length = put_out(output.inner().as_slice(), out);
    answer_with(ended, &output, out_length, &complaints, errors)
}

// Adds a name and the zero byte that ends it.
fn add_name(text: &mut Vec<u8>, name: &str) -> Result<(), AllocError>
    ensures { OnOk result (text.new.items ≡ text.old.items ++ one_listed name.now) }
{
    text.extend_from_slice(name.as_bytes())?;
    text.extend_from_slice(b"\0")?;
    Ok(())
}

// Returns the names, each with a zero byte at its end.
fn listed_names(alloc: Global, names: &[String]) -> Result<Vec<u8>, AllocError>
    ensures { IfOk result (λ text. text.items ≡ listed (map string_bytes names.now)) }
{
    let mut text = Vec::new(alloc);
    for name in names {
        add_name(&mut text, name.as_str())?;
    }
    Ok(text)
}

// Returns the names of the files that these arguments ask for, each with a zero byte at its end.
fn names_asked(alloc: Global, arguments: &[Text]) -> Result<Vec<u8>, AllocError>
    ensures { IfOk result (λ text. AreNamesListed (map text_value arguments.now) text.items) }
{
    let names = files_asked(alloc, words_from(alloc, arguments))?;
    listed_names(alloc, names.as_slice())
}

/// Writes the names of the files that these arguments ask for, each with a zero byte at its end, and returns the length
/// of them all; or `usize::MAX`, if memory was refused.
pub fn put_files(alloc: Global, arguments: &[Text], room: &mut [u8]) -> usize
    ensures { AreFilesPut (map text_value arguments.now) room.old room.new result }
{
    match names_asked(alloc, arguments) {
        Ok(text) => put_out(text.as_slice(), room),
        Err(_) => usize::MAX,
    }
}
