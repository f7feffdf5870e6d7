//! Reading a step library file.
ghost use Rattle.std.specs.Prelude.{◌≢◌, ◌≤◌, ℕ, List, length, IfOk, IfErr, OnOk};
ghost use Rattle.gk_gherkin.specs.ReadFault.{LinesFaultSays};
ghost use Rattle.gk_gherkin.specs.declared.read_fault.ReadFault.TheVariants.{Memory as ReadMemory};
ghost use Rattle.gk_gherkin.specs.Lines.{borrowed_value, numbered_from, lines_of, IsText};
ghost use Rattle.std.specs.Str.Lines.{lines};
ghost use Rattle.gk_steps.specs.EntryIndex.{IsIndexOf};
ghost use Rattle.gk_steps.specs.Finding.{LibraryValue, entry_values, library_value};
ghost use Rattle.gk_steps.specs.LibraryFile.{ReadsLibrary, AnswersLibrary};
ghost use Rattle.gk_steps.specs.LibraryFault.{LibraryFaultSays, LibraryLinesFaultSays};
ghost use Rattle.gk_steps.specs.LibraryLine.{AddsEntry, AddsLine, EntryFaultSays, LineFaultSays};

use crate::library::{Library, LibraryBuilder};
use crate::library_fault::LibraryFault;
use crate::library_line::{is_ignored, read_entry};
use gk_gherkin::{BorrowedLine, LONGEST_FILE, ReadFault, borrowed_line, text_of};
use std::alloc::Global;

// Converts a fault of reading the lines of a file.
fn lines_fault(fault: ReadFault) -> LibraryFault
    requires { fault ≢ ReadMemory }
    ensures says { (bytes : List ℕ) → LinesFaultSays fault bytes → LibraryFaultSays result bytes }
    ensures none { (bytes : List ℕ) → LinesFaultSays fault bytes → IsText bytes → ⊥ }
{
    match fault {
        ReadFault::TooLong => LibraryFault::TooLong,
        ReadFault::NotUtf8 { line } => LibraryFault::NotUtf8 { line },
        _ => LibraryFault::Memory,
    }
}

// Adds the entry that a line spells.
#[tactic(auto, using(std::proofs::lemmas::Grind::common_steps, crate::proofs::LibraryLineLemmas::memory_fault, crate::proofs::LibraryLineLemmas::entry_needs))]
fn add_entry(
    builder: &mut LibraryBuilder,
    alloc: Global,
    line: &BorrowedLine<'_>,
) -> Result<(), LibraryFault>
    requires { IsIndexOf builder.old.index builder.old.entries.items }
    ensures indexed { OnOk result (IsIndexOf builder.new.index builder.new.entries.items) }
    ensures fault { IfErr result (λ f.
        EntryFaultSays f (entry_values builder.old.entries.items) (borrowed_value line.now)) }
    ensures added { OnOk result (AddsEntry (entry_values builder.old.entries.items)
        (borrowed_value line.now) (entry_values builder.new.entries.items)) }
{
    let entry = read_entry(alloc, &builder.indexed(), line)?;
    builder.push(entry)?;
    Ok(())
}

// Adds the entry of a line, unless the line is ignored.
fn add_line(
    builder: &mut LibraryBuilder,
    alloc: Global,
    line: &BorrowedLine<'_>,
) -> Result<(), LibraryFault>
    requires { IsIndexOf builder.old.index builder.old.entries.items }
    ensures indexed { OnOk result (IsIndexOf builder.new.index builder.new.entries.items) }
    ensures added { OnOk result (AddsLine (entry_values builder.old.entries.items)
        (borrowed_value line.now) (entry_values builder.new.entries.items)) }
    ensures fault { IfErr result (λ f.
        LineFaultSays f (entry_values builder.old.entries.items) (borrowed_value line.now)) }
{
    if is_ignored(line) {
        return Ok(());
    }
    add_entry(builder, alloc, line)
}

// Reads the entries that the lines of a text spell.
fn read_entries(alloc: Global, text: &str) -> Result<LibraryBuilder, LibraryFault>
    requires { length text.now ≤ LONGEST_FILE }
    ensures indexed { IfOk result (λ g. IsIndexOf g.index g.entries.items) }
    ensures found { IfOk result (λ g.
        ReadsLibrary (numbered_from 1 (lines text.now)) (entry_values g.entries.items)) }
    ensures fault { IfErr result (λ f.
        LibraryLinesFaultSays f (numbered_from 1 (lines text.now))) }
{
    let mut builder = LibraryBuilder::new(alloc);
    let mut number: u32 = 1;
    for part in text.lines() {
        add_line(&mut builder, alloc, &borrowed_line(number, part))?;
        number += 1;
    }
    Ok(builder)
}

/// Reads the library that the bytes of a file spell. A line is ignored if, trimmed, it is empty or begins with `#`. Any
/// other line is a type (`given`, `when`, `then` or `step`), a space or a tab, a pattern, `=>` and an action's name. It
/// is cut at the last `=>`, and both sides are trimmed.
///
/// `TooLong` and `NotUtf8` come before any fault of a line. `Memory` comes only if a growth was refused. It also
/// requires that the first line that isn't ignored has a type, an `=>` and a pattern's text that begins with a piece:
/// no other file asks for memory. A refusal returns nothing of what was read before it.
/// (behave's documentation: step implementations)
#[tactic(auto, using(std::proofs::lemmas::Grind::common_steps, crate::proofs::LibraryFileLemmas::file_only, crate::proofs::LibraryFileLemmas::file_memory, crate::proofs::LibraryFileLemmas::file_fault))]
pub fn read_library(alloc: Global, bytes: &[u8]) -> Result<Library, LibraryFault>
    // What is returned is what the lines say.
    ensures found { IfOk result (λ l.
        IsText bytes.now × ReadsLibrary (lines_of bytes.now) (library_value l)) }
    // What the lines say is returned, unless memory runs out.
    ensures only { (entries : LibraryValue) → IsText bytes.now
        → ReadsLibrary (lines_of bytes.now) entries → AnswersLibrary result entries }
    // A returned fault holds for the bytes.
    ensures fault { IfErr result (λ e. LibraryFaultSays e bytes.now) }
{
    match text_of(bytes) {
        Ok(text) => Ok(Library::built(read_entries(alloc, text)?)),
        Err(fault) => Err(lines_fault(fault)),
    }
}
