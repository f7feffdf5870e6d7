//! The place of a fault of a run, and its line.
ghost use Rattle.std.specs.Prelude.{◌≡◌, option_map, Some};
ghost use Rattle.std.specs.Fmt.{DisplaysOnOk};
ghost use Rattle.gk_request.specs.FaultLine as spec;
ghost use Rattle.gk_request.specs.FaultLine.{fault_line, placed};
ghost use Rattle.gk_request.specs.Request.{files_value};
ghost use Rattle.gk_request.specs.Source.{source_value};

use crate::request::SuiteFiles;
use crate::run_fault::RunFault;
use crate::source::Source;
use std::fmt;

/// Returns the file that a fault of a run is in, if it is in one. It doesn't allocate.
pub fn file_at_fault(files: &SuiteFiles, fault: RunFault) -> Option<&Source>
    ensures { option_map (λ file. source_value file.now) result
        ≡ spec.file_at_fault (files_value files.now) fault }
{
    match fault {
        RunFault::Read { input, .. } => files.sources.get(input),
        RunFault::Library(_) => files.library.as_ref(),
        RunFault::Hooks(_) => files.hooks.as_ref(),
        RunFault::Select { input, .. } => files.sources.get(input?),
        RunFault::Write | RunFault::Memory => None,
    }
}

/// Returns the name of the file that a fault of a run is in, if it is in one. It doesn't allocate.
pub fn name_at_fault(files: &SuiteFiles, fault: RunFault) -> Option<&str>
    ensures { option_map (λ name. name.now) result
        ≡ spec.name_at_fault (files_value files.now) fault }
{
    Some(file_at_fault(files, fault)?.name.as_str())
}

/// Returns the line that a fault of a run names, if it names one. It doesn't allocate.
pub fn line_at_fault(fault: RunFault) -> Option<u32>
    ensures { result ≡ spec.line_at_fault fault }
{
    match fault {
        RunFault::Read { fault, .. } | RunFault::Hooks(fault) => fault.line(),
        RunFault::Library(fault) => fault.line(),
        RunFault::Select { .. } | RunFault::Write | RunFault::Memory => None,
    }
}

/// A fault of a run, displayed as one line without its line feed. The file appears with its name instead of its number.
#[derive(Clone, Copy, Debug)]
pub struct NamedFault<'a> {
    /// The name of the file that the fault is in, if it is in one.
    pub name: Option<&'a str>,
    pub fault: RunFault,
}

// Writes the fault of a file: its name and the line, if they are known, and the text.
fn write_placed<W: fmt::Write, T: fmt::Display>(
    f: &mut fmt::Formatter<W>,
    name: Option<&str>,
    line: Option<u32>,
    text: &T,
) -> fmt::Result
    ensures { DisplaysOnOk W.write_str_gives f.old result
        (option_map (λ text. placed (option_map (λ name. name.now) name.entry) line text)
        (T.output text.now)) f.new }
{
    match name {
        Some(name) => match line {
            Some(line) => write!(f, "{name}:{line}: {text}"),
            None => write!(f, "{name}: {text}"),
        },
        None => write!(f, "{text}"),
    }
}

impl fmt::Display for NamedFault<'_> {
    ghost output = { λ it. Some (fault_line (option_map (λ name. name.now) it.name) it.fault) };

    fn fmt<W: fmt::Write>(&self, f: &mut fmt::Formatter<W>) -> fmt::Result {
        match &self.fault {
            RunFault::Read { fault, .. } => write_placed(f, self.name, fault.line(), fault),
            RunFault::Library(fault) => write_placed(f, self.name, fault.line(), fault),
            RunFault::Hooks(fault) => write_placed(f, self.name, fault.line(), fault),
            RunFault::Select {
                input: Some(_),
                fault,
            } => write_placed(f, self.name, None, fault),
            RunFault::Select { input: None, fault } => write!(f, "{fault}"),
            RunFault::Write => f.write_str("cannot write"),
            RunFault::Memory => f.write_str("out of memory"),
        }
    }
}
