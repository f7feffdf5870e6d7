//! Faults that end the program without a whole report: what is wrong, and in which file.
ghost use Rattle.std.specs.Prelude.{◌≡◌, Some, option_map};
ghost use Rattle.gk_request.specs.FaultLine.{line_at_fault as line_of_run};
ghost use Rattle.gk_program.specs.Fault as spec;
ghost use Rattle.gk_program.specs.Fault.{line_of, name_of, status_of};

use gk_findings::EnvMistake;
use gk_request::{NamedFault, RunFault, SuiteFiles, line_at_fault, name_at_fault};
use std::alloc::{AllocError, AllocFailed};
use std::fmt;

/// Why a file that the arguments name isn't taken.
#[derive(Clone, Copy, Debug, PartialEq, Eq)]
pub enum FileFault {
    /// The file of a `--file` isn't UTF-8.
    NotText,
    /// The file of a `--file` is longer than a text may be.
    TextTooLong,
    /// The file can't be opened or read.
    CannotRead,
    /// The file is longer than a source may be.
    TooLong,
}

impl FileFault {
    // Returns the words for the fault.
    fn text(self) -> &'static str
        ensures { result.now ≡ spec.file_fault_text self }
    {
        match self {
            FileFault::NotText => "not UTF-8",
            FileFault::TextTooLong => "longer than 1048576 bytes",
            FileFault::CannotRead => "cannot read",
            FileFault::TooLong => "longer than 16777216 bytes",
        }
    }
}

/// A reason why the program ends without a whole report.
#[derive(Debug, Drop)]
pub enum Fault {
    /// An argument isn't UTF-8.
    NotUtf8,
    /// A mistake in the arguments. The text is clap's own.
    Usage { text: String },
    /// An argument of `--env` has this mistake, and this text before its `=`.
    Env { mistake: EnvMistake, name: String },
    /// A `--file` has no `=`, or a bad name.
    File,
    /// The file of this argument isn't taken.
    OfFile { name: String, fault: FileFault },
    /// The run ended with this fault. At `Write`, a prefix of the output was written, or all of it if the flush failed.
    /// `Memory` comes also if memory was refused before the run.
    OfRun(RunFault),
}

impl Fault {
    /// Returns the status that the program ends with.
    pub fn status(&self) -> u8
        ensures { result ≡ status_of self.now }
    {
        match self {
            Fault::NotUtf8 | Fault::Usage { .. } | Fault::Env { .. } | Fault::File => 2,
            Fault::OfFile { .. } => 3,
            Fault::OfRun(fault) => fault.status(),
        }
    }

    // Returns the line in the file that has the fault, if the fault names one.
    fn line(&self) -> Option<u32>
        ensures { result ≡ spec.line_at self.now }
    {
        match self {
            Fault::OfRun(fault) => line_at_fault(*fault),
            _ => None,
        }
    }

    /// Returns the name of the file that has the fault, if a file has it. Faults of a run are those of these inputs.
    pub fn file_name<'a>(&'a self, inputs: &'a Option<Inputs>) -> Option<&'a str>
        ensures { option_map (λ name. name.now) result ≡ name_of inputs.now self.now }
    {
        match self {
            Fault::OfFile { name, .. } => Some(name.as_str()),
            Fault::OfRun(fault) => name_at_fault(&inputs.as_ref()?.files, *fault),
            _ => None,
        }
    }
}

impl From<AllocError> for Fault {
    ghost use Rattle.gk_request.specs.declared.run_fault.RunFault.TheVariants.{Memory};
    ghost use Rattle.gk_program.specs.declared.fault.Fault.TheVariants.{OfRun};

    ghost from_gives = { λ _ fault. fault ≡ OfRun Memory };

    fn from(_e: AllocError) -> Fault {
        Fault::OfRun(RunFault::Memory)
    }
}

impl<T: Drop> From<AllocFailed<T>> for Fault {
    ghost use Rattle.gk_request.specs.declared.run_fault.RunFault.TheVariants.{Memory};
    ghost use Rattle.gk_program.specs.declared.fault.Fault.TheVariants.{OfRun};

    ghost from_gives = { λ _ fault. fault ≡ OfRun Memory };

    fn from(_e: AllocFailed<T>) -> Fault {
        Fault::OfRun(RunFault::Memory)
    }
}

/// The texts of tags and the files of a run.
#[derive(Drop)]
pub struct Inputs {
    pub tags: Vec<String>,
    pub files: SuiteFiles,
}

/// Why what was asked for was not done: the first fault, and the inputs of the run if they were read.
#[derive(Drop)]
pub struct Faults {
    pub first: Fault,
    pub inputs: Option<Inputs>,
}

impl From<Fault> for Faults {
    ghost use Rattle.gk_program.specs.Fault.{alone};

    ghost from_gives = { λ fault faults. faults ≡ alone fault };

    fn from(first: Fault) -> Faults {
        Faults {
            first,
            inputs: None,
        }
    }
}

/// The place of a fault. In the fault's text, the name of its file is after `gherkin_run: `, as it is printed there.
#[derive(Clone, Copy, Debug, PartialEq, Eq)]
pub struct FaultPlace {
    /// The length of that name in bytes, or 0 if the fault is in no file.
    pub name_length: usize,
    /// The line in the file, or 0 for none.
    pub line: u32,
}

/// The place of a fault in no file.
pub const NOWHERE: FaultPlace = FaultPlace {
    name_length: 0,
    line: 0,
};

// Returns the place of a fault in a file of this name, if a file has it, on this line, if it is on one.
fn place_at(name: Option<&str>, line: Option<u32>) -> FaultPlace
    ensures { result ≡ spec.place_at (option_map (λ name. name.now) name.entry) line }
{
    match name {
        Some(name) => FaultPlace {
            name_length: name.len(),
            line: line.unwrap_or(0),
        },
        None => NOWHERE,
    }
}

/// A fault with the name of its file as it is printed, if a file has it. Displayed as its line.
#[derive(Clone, Copy, Debug)]
pub struct FaultLine<'a, 'b> {
    pub name: Option<&'a str>,
    pub fault: &'b Fault,
}

impl FaultLine<'_, '_> {
    /// Returns the place of the fault, as its line shows it.
    pub fn place(self) -> FaultPlace
        ensures { result ≡ spec.place_of
            (option_map (λ name. name.now) self.entry.name) self.entry.fault.now }
    {
        place_at(self.name, self.fault.line())
    }
}

impl fmt::Display for FaultLine<'_, '_> {
    ghost output = { λ it. Some (line_of (option_map (λ name. name.now) it.name) it.fault.now) };

    fn fmt<W: fmt::Write>(&self, f: &mut fmt::Formatter<W>) -> fmt::Result {
        match self.fault {
            Fault::NotUtf8 => f.write_str("gherkin_run: not UTF-8\n"),
            Fault::Usage { text } => f.write_str(text.as_str()),
            Fault::Env { .. } => f.write_str("gherkin_run: bad --env\n"),
            Fault::File => f.write_str("gherkin_run: bad --file\n"),
            Fault::OfFile { fault, .. } => {
                let text = fault.text();
                match self.name {
                    Some(name) => write!(f, "gherkin_run: {name}: {text}\n"),
                    None => write!(f, "gherkin_run: {text}\n"),
                }
            }
            Fault::OfRun(fault) => {
                let named = NamedFault {
                    name: self.name,
                    fault: *fault,
                };
                write!(f, "gherkin_run: {named}\n")
            }
        }
    }
}
