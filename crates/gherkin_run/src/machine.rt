//! The files of the machine that the program runs on, and its arguments.
ghost use Rattle.std.specs.Prelude.{◌≡◌};
ghost use Rattle.std.specs.Io.{WritesAtMost};
ghost use Rattle.gherkin_run.specs.Machine as spec;

use gk_io::{Counted, SourceFault, read_source};
use gk_program::{ArgumentsFault, System};
use std::alloc::Global;
use std::env::FillError;
use std::rt::{Env, Files};
use std::{env, fs, io};

/// The files of the machine that the program runs on. A result is what some file holds, as far as a contract says what
/// a file holds. No clause says that it is the file of the requested name: `fs::open` of std has none, and `Files` has
/// no ghost item that could name a file's bytes. Nor does std say what a real file holds.
#[derive(Drop)]
pub struct Machine<'a, R: Files> {
    pub rt: &'a R,
}

// Returns the fault of a file that can't be opened, for this reason.
fn fault_of_open(kind: io::ErrorKind) -> SourceFault
    ensures { result ≡ spec.fault_of_open kind }
{
    match kind {
        io::ErrorKind::OutOfMemory => SourceFault::Memory,
        _ => SourceFault::Device,
    }
}

// Returns the fault of arguments that can't be had, for this reason.
fn fault_of_arguments(kind: io::ErrorKind) -> ArgumentsFault
    ensures { result ≡ spec.fault_of_arguments kind }
{
    match kind {
        io::ErrorKind::OutOfMemory => ArgumentsFault::Memory,
        _ => ArgumentsFault::NotUtf8,
    }
}

impl<R: Files> System for Machine<'_, R> {
    ghost use Rattle.gherkin_run.specs.Machine.{reads_some};

    ghost reads = { reads_some R.File.remaining };

    fn read(&mut self, alloc: Global, name: &str) -> Result<Vec<u8>, SourceFault> {
        match fs::open(self.rt, name) {
            Ok(file) => read_source(alloc, &mut Counted::new(file)),
            Err(error) => Err(fault_of_open(error.kind())),
        }
    }
}

/// The arguments of a machine, in which the program's own name is always `gherkin_run`.
#[derive(Drop)]
struct Renamed<'a, R> {
    rt: &'a R,
}

// Copies a name to the start of a buffer, and returns its length.
fn fill(buffer: &mut [u8], name: &str) -> Result<usize, FillError>
    ensures { WritesAtMost result buffer.new }
{
    let bytes = name.as_bytes();
    match buffer.get_mut(..bytes.len()) {
        Some(start) => {
            start.copy_from_slice(bytes);
            Ok(bytes.len())
        }
        None => Err(FillError::TooLong),
    }
}

impl<R: Env> Env for Renamed<'_, R> {
    fn arg(&self, i: usize, buf: &mut [u8]) -> Result<usize, FillError> {
        if i == 0 {
            fill(buf, "gherkin_run")
        } else {
            self.rt.arg(i, buf)
        }
    }

    fn var(&self, name: &str, buf: &mut [u8]) -> Result<usize, FillError> {
        self.rt.var(name, buf)
    }

    fn var_at(&self, i: usize, buf: &mut [u8]) -> Result<usize, FillError> {
        self.rt.var_at(i, buf)
    }
}

// Returns all arguments, the program's own name first.
fn arguments_of<R: Env + AllocGlobal>(rt: &R) -> Result<Vec<String>, ArgumentsFault> {
    match env::args(rt) {
        Ok(arguments) => match arguments.collect(rt.alloc()) {
            Ok(arguments) => Ok(arguments),
            Err(_) => Err(ArgumentsFault::Memory),
        },
        Err(error) => Err(fault_of_arguments(error.kind())),
    }
}

/// Returns the arguments of the program. If its own name isn't UTF-8, as in a folder whose name isn't, that is
/// `gherkin_run`. No clause says that these are the program's own arguments: `env::args` of std has none.
pub fn program_arguments<R: Env + AllocGlobal>(rt: &R) -> Result<Vec<String>, ArgumentsFault> {
    match arguments_of(rt) {
        Err(ArgumentsFault::NotUtf8) => arguments_of(&(Renamed { rt }, rt.alloc())),
        arguments => arguments,
    }
}
