//! How the program ended, and what it prints for faults.
ghost use Rattle.std.specs.Prelude.{◌≡◌, option_map, IfOk, OnOk, string_bytes};
ghost use Rattle.gk_report.specs.ReportTexts.{Pushes};
ghost use Rattle.gk_cli.specs.Writing.{device_of};
ghost use Rattle.gk_program.specs.Ended as spec;
ghost use Rattle.gk_program.specs.Ended.{AreLater, IsLineEnd, IsListing, IsPlainEnd, IsTextAt, SaysEnd};
ghost use Rattle.gk_program.specs.Fault.{name_of, place_of};

use crate::fault::{Fault, FaultLine, FaultPlace, Faults, FileFault, Inputs, NOWHERE};
use gk_cli::Mode;
use gk_explain::push_file;
use gk_findings::{push_env_notes, push_notes, push_unreadable_note};
use gk_io::{Counted, write_displayed, write_whole};
use gk_request::{RunFault, faults_after, first_bad_tags};
use gk_select::SelectFault;
use std::alloc::{AllocError, Global};
use std::io::Write;

/// How the program ended.
#[derive(Clone, Copy, Debug, PartialEq, Eq)]
pub struct ProgramEnd {
    /// The status to end with: 0 to 4.
    pub status: u8,
    /// The place of the fault that ended it, if that is a fault of a file. With `--lint` and several invalid files, it
    /// is the first fault's.
    pub place: FaultPlace,
}

// Returns whether this mode lists all faults, with notes below each.
fn has_notes(mode: Mode) -> bool
    ensures { result ≡ spec.has_notes mode }
{
    matches!(mode, Mode::Explanation | Mode::Findings { .. })
}

// Returns the name of a file as it is printed. The output of `--lint` and `--explain` may go to the log of a CI, so names
// are shown there as explanations and findings show them.
fn printed_name(alloc: Global, mode: Mode, name: Option<&str>) -> Result<Option<String>, AllocError>
    ensures { IfOk result (λ printed. option_map string_bytes printed
        ≡ spec.printed_name mode (option_map (λ name. name.now) name.entry)) }
{
    let Some(name) = name else {
        return Ok(None);
    };
    let mut printed = String::new(alloc);
    match mode {
        Mode::Report => printed.push_str(name)?,
        Mode::Explanation | Mode::Findings { .. } => push_file(&mut printed, name)?,
    }
    Ok(Some(printed))
}

// Borrows a name, if there is one.
fn borrowed(name: &Option<String>) -> Option<&str>
    ensures { option_map (λ name. name.now) result ≡ option_map string_bytes name.now }
{
    match name {
        Some(name) => Some(name.as_str()),
        None => None,
    }
}

// Appends the notes below a fault, which is that of a text of tags, if one is given.
fn push_notes_on(
    out: &mut String,
    alloc: Global,
    tags: Option<&str>,
    inputs: &Option<Inputs>,
    fault: &Fault,
) -> Result<(), AllocError>
    ensures { Pushes out.old (spec.notes_on (option_map (λ text. text.now) tags.entry)
        inputs.now fault.now) result out.new }
{
    match fault {
        Fault::Env { mistake, name } => push_env_notes(out, *mistake, name.as_str()),
        Fault::OfFile {
            fault: FileFault::CannotRead,
            ..
        } => push_unreadable_note(out),
        Fault::OfRun(fault) => match inputs {
            Some(inputs) => push_notes(out, alloc, tags, &inputs.files, *fault),
            None => Ok(()),
        },
        _ => Ok(()),
    }
}

// Appends what is printed for a fault, and returns its place there: its line, with the name of its file as it is printed,
// and its notes, if the mode has any.
fn push_fault(
    out: &mut String,
    alloc: Global,
    mode: Mode,
    tags: Option<&str>,
    inputs: &Option<Inputs>,
    fault: &Fault,
) -> Result<FaultPlace, AllocError>
    ensures pushed { Pushes out.old (spec.block mode (option_map (λ text. text.now) tags.entry)
        inputs.now fault.now) result out.new }
    ensures place { IfOk result (λ place.
        place ≡ place_of (spec.printed_name mode (name_of inputs.now fault.now)) fault.now) }
{
    let name = printed_name(alloc, mode, fault.file_name(inputs))?;
    let line = FaultLine {
        name: borrowed(&name),
        fault,
    };
    write!(out, "{line}")?;
    if has_notes(mode) {
        push_notes_on(out, alloc, tags, inputs, fault)?;
    }
    Ok(line.place())
}

// Returns the text of tags that the first fault is about, if the mode has notes.
fn bad_tags(alloc: Global, mode: Mode, faults: &Faults) -> Result<Option<&str>, AllocError>
    ensures { IfOk result (λ text. IsTextAt (spec.has_notes mode) faults.now.inputs
        faults.now.first (option_map (λ text. text.now) text)) }
{
    match &faults.inputs {
        Some(inputs) if has_notes(mode) => match &faults.first {
            Fault::OfRun(
                RunFault::Select {
                    input: None,
                    fault: SelectFault::BadTagText,
                },
            ) => first_bad_tags(alloc, inputs.tags.as_slice()),
            _ => Ok(None),
        },
        _ => Ok(None),
    }
}

// Returns the faults of the files that a run reads after the one with the first fault. Only `--lint` lists them.
fn later_faults(alloc: Global, mode: Mode, faults: &Faults) -> Result<Vec<RunFault>, AllocError>
    ensures { IfOk result (λ later.
        AreLater mode faults.now.inputs faults.now.first later.items) }
{
    match &faults.inputs {
        Some(inputs) if matches!(mode, Mode::Findings { .. }) => match &faults.first {
            Fault::OfRun(first) => faults_after(alloc, &inputs.files, *first),
            _ => Ok(Vec::new(alloc)),
        },
        _ => Ok(Vec::new(alloc)),
    }
}

// Appends what is printed for faults of files of a run, one after the other.
fn push_later(
    out: &mut String,
    alloc: Global,
    mode: Mode,
    inputs: &Option<Inputs>,
    later: &[RunFault],
) -> Result<(), AllocError>
    ensures { Pushes out.old (spec.blocks mode inputs.now later.now) result out.new }
{
    for fault in later {
        push_fault(out, alloc, mode, None, inputs, &Fault::OfRun(*fault))?;
    }
    Ok(())
}

// What is printed for faults, and the place of the first.
#[derive(Drop)]
struct Listing {
    text: String,
    place: FaultPlace,
}

// Returns what is printed for faults in this mode.
fn list_faults(alloc: Global, mode: Mode, faults: &Faults) -> Result<Listing, AllocError>
    ensures { IfOk result (λ listed.
        IsListing mode faults.now (string_bytes listed.text) listed.place) }
{
    let tags = bad_tags(alloc, mode, faults)?;
    let later = later_faults(alloc, mode, faults)?;
    let mut text = String::new(alloc);
    let place = push_fault(&mut text, alloc, mode, tags, &faults.inputs, &faults.first)?;
    push_later(&mut text, alloc, mode, &faults.inputs, later.as_slice())?;
    Ok(Listing { text, place })
}

// Writes the line of a fault piece by piece, and returns how the program ends with it.
fn print_line<E: Write>(line: FaultLine<'_, '_>, errors: &mut Counted<E>) -> ProgramEnd
    ensures { IsLineEnd (option_map (λ name. name.now) line.entry.name) line.entry.fault.now
        (device_of E.contents errors.old) (device_of E.contents errors.new) result }
{
    let _ = write_displayed(errors, line);
    ProgramEnd {
        status: line.fault.status(),
        place: line.place(),
    }
}

// Writes what is printed for faults if memory is refused for it.
fn print_plain<E: Write>(mode: Mode, faults: &Faults, errors: &mut Counted<E>) -> ProgramEnd
    ensures { IsPlainEnd mode (name_of faults.now.inputs faults.now.first) faults.now.first
        (device_of E.contents errors.old) (device_of E.contents errors.new) result }
{
    let name = faults.first.file_name(&faults.inputs);
    match (mode, name) {
        (Mode::Report, _) | (_, None) => {
            let fault = &faults.first;
            print_line(FaultLine { name, fault }, errors)
        }
        (_, Some(_)) => {
            let fault = &Fault::OfRun(RunFault::Memory);
            print_line(FaultLine { name: None, fault }, errors)
        }
    }
}

/// Writes what is printed in this mode for the faults that ended the program, if there are any, and returns how the
/// program ended. If the writer fails, there is nothing left to write to.
pub fn ending<E: Write>(
    alloc: Global,
    mode: Mode,
    done: &Result<u8, Faults>,
    errors: &mut Counted<E>,
) -> ProgramEnd
    ensures { SaysEnd mode done.now
        (device_of E.contents errors.old) (device_of E.contents errors.new) result }
{
    let faults = match done {
        Ok(status) => {
            return ProgramEnd {
                status: *status,
                place: NOWHERE,
            };
        }
        Err(faults) => faults,
    };
    match list_faults(alloc, mode, faults) {
        Ok(Listing { text, place }) => {
            let _ = write_whole(errors, text.as_bytes());
            ProgramEnd {
                status: faults.first.status(),
                place,
            }
        }
        Err(_) => print_plain(mode, faults, errors),
    }
}
