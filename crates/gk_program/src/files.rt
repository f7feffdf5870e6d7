//! Reading the library file, the hooks file and the feature files.
ghost use Rattle.std.specs.Prelude.{◌≡◌, ◌≤◌, map, IfOk, IfErr, Ok, option_map, string_bytes, vec_len};
ghost use Rattle.gk_program.specs.Files.{AreRead, IsNotRead, StopsReading, files_in_order, name_of, names_in_order, one_of};
ghost use Rattle.gk_request.specs.Source.{source_value};
ghost use Rattle.gk_request.specs.Request.{files_value};

use crate::fault::{Fault, FileFault};
use gk_gherkin::LONGEST_FILE;
use gk_io::SourceFault;
use gk_request::{RunFault, Source, SuiteFiles};
use std::alloc::Global;

/// A system that files are read from. What is proved over a `System` holds for each one: in which order it is asked for
/// which files, and what happens to the results, as far as its `reads` distinguishes them. The code is the same for all
/// systems.
pub trait System {
    ghost use Rattle.std.specs.Prelude.{◌≤◌, ℕ, List, Result, IfOk, vec_len};
    ghost use Rattle.gk_io.specs.declared.whole_read.SourceFault.{SourceFault};
    ghost use Rattle.gk_program.specs.Files.{bytes_or_fault};

    /// In the first state, reading the file of this name returns this result, and leaves the second state.
    ghost reads: { Self → List ℕ → Result (List ℕ) SourceFault → Self → Type 0 };

    /// Returns all bytes of the file of this name, at most `LONGEST_FILE`, or why they can't be read.
    fn read(&mut self, alloc: Global, name: &str) -> Result<Vec<u8>, SourceFault>
        ensures read { reads self.old name.now (bytes_or_fault result) self.new }
        ensures within { IfOk result (λ bytes. vec_len bytes ≤ LONGEST_FILE) };
}

/// Returns all bytes of the file of this name. A file that can't be opened or read is `CannotRead`, and one with more
/// bytes than `gk_gherkin::LONGEST_FILE` has the fault `over_limit`.
pub fn read_file<S: System>(
    alloc: Global,
    system: &mut S,
    name: String,
    over_limit: FileFault,
) -> Result<Source, Fault>
    ensures named { IfOk result (λ source. name_of source ≡ string_bytes name) }
    ensures within { IfOk result (λ source. vec_len source.bytes ≤ LONGEST_FILE) }
    ensures read { IfOk result (λ source.
        S.reads system.old (string_bytes name) (Ok source.bytes.items) system.new) }
    ensures fault { IfErr result
        (IsNotRead S.reads over_limit system.old (string_bytes name) system.new) }
{
    match system.read(alloc, name.as_str()) {
        Ok(bytes) => Ok(Source { name, bytes }),
        Err(SourceFault::Memory) => Err(Fault::OfRun(RunFault::Memory)),
        Err(SourceFault::TooLong) => Err(Fault::OfFile {
            name,
            fault: over_limit,
        }),
        Err(SourceFault::Device) => Err(Fault::OfFile {
            name,
            fault: FileFault::CannotRead,
        }),
    }
}

// Reads each file completely, in order, and no other file. The fault is that of the first file that can't be read.
fn read_files<S: System>(
    alloc: Global,
    system: &mut S,
    names: Vec<String>,
) -> Result<Vec<Source>, Fault>
    ensures named { IfOk result
        (λ sources. map name_of sources.items ≡ map string_bytes names.items) }
    ensures read { IfOk result (λ sources.
        AreRead S.reads system.old (map source_value sources.items) system.new) }
    ensures fault { IfErr result
        (StopsReading S.reads system.old (map string_bytes names.items) system.new) }
{
    let mut sources = Vec::new(alloc);
    for name in names {
        let source = read_file(alloc, system, name, FileFault::TooLong)?;
        sources.push(source)?;
    }
    Ok(sources)
}

// Reads a file completely, if one is named: the library file or the hooks file. Reads no other file.
fn read_named_file<S: System>(
    alloc: Global,
    system: &mut S,
    name: Option<String>,
) -> Result<Option<Source>, Fault>
    ensures named { IfOk result
        (λ source. option_map name_of source ≡ option_map string_bytes name) }
    ensures read { IfOk result (λ source.
        AreRead S.reads system.old (one_of (option_map source_value source)) system.new) }
    ensures fault { IfErr result
        (StopsReading S.reads system.old (one_of (option_map string_bytes name)) system.new) }
{
    match name {
        Some(name) => match read_file(alloc, system, name, FileFault::TooLong) {
            Ok(source) => Ok(Some(source)),
            Err(fault) => Err(fault),
        },
        None => Ok(None),
    }
}

/// Reads the library file and the hooks file, if they are named, and then each feature file, in order, and no other
/// file. The fault is that of the first file that can't be read, and no file is read after it.
pub fn read_run_files<S: System>(
    alloc: Global,
    system: &mut S,
    library: Option<String>,
    hooks: Option<String>,
    names: Vec<String>,
) -> Result<SuiteFiles, Fault>
    ensures library { IfOk result
        (λ files. option_map name_of files.library ≡ option_map string_bytes library) }
    ensures hooks { IfOk result
        (λ files. option_map name_of files.hooks ≡ option_map string_bytes hooks) }
    ensures named { IfOk result
        (λ files. map name_of files.sources.items ≡ map string_bytes names.items) }
    // Each source has the bytes that the system returned for its name, and no other file was read.
    ensures read { IfOk result (λ files.
        AreRead S.reads system.old (files_in_order (files_value files)) system.new) }
    // The fault is that of the first file that wasn't read, in the order library, hooks, files; or memory was refused.
    ensures fault { IfErr result (StopsReading S.reads system.old
        (names_in_order library hooks names.items) system.new) }
{
    let library = read_named_file(alloc, system, library)?;
    let hooks = read_named_file(alloc, system, hooks)?;
    let sources = read_files(alloc, system, names)?;
    Ok(SuiteFiles {
        library,
        hooks,
        sources,
    })
}
