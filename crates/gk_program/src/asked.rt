//! What the arguments ask for.
ghost use Rattle.std.specs.Prelude.{◌≡◌, ◌++◌, map, IfOk, OnOk, option_map, string_bytes};
ghost use Rattle.gk_cli.specs.Arguments.{pair_value};
ghost use Rattle.gk_program.specs.Asked.{AreNamesAsked, SaysAsked, SaysError, SaysGiven, given_value, names_asked_by, nothing_asked};
ghost use Rattle.gk_program.specs.Files.{one_of};

use crate::fault::Fault;
use gk_cli::{Mode, Words, WordsFault, read_words};
use gk_findings::EnvMistake;
use gk_request::RunFault;
use std::alloc::{AllocError, Global};

/// Why there are no arguments.
#[derive(Clone, Copy, Debug, PartialEq, Eq)]
pub enum ArgumentsFault {
    /// One of them isn't UTF-8.
    NotUtf8,
    /// A growth of memory was refused.
    Memory,
}

/// What the arguments ask for: help or the version, whose text is clap's own, a run, or nothing, because of a fault, which
/// is printed in this mode.
#[derive(Debug, Drop)]
pub enum Asked {
    Help { text: String },
    Run(Words),
    Nothing { fault: Fault, mode: Mode },
}

// Returns a fault of the arguments without their mode, which isn't known, or doesn't matter.
fn nothing(fault: Fault) -> Asked
    ensures { result ≡ nothing_asked fault }
{
    Asked::Nothing {
        fault,
        mode: Mode::Report,
    }
}

// Returns clap's error as a mistake or a request for help. Clap reports both as errors.
fn asked_for(alloc: Global, error: clap::Error) -> Asked
    ensures { SaysError error result }
{
    let Ok(text) = format!(in alloc; "{error}") else {
        return nothing(Fault::OfRun(RunFault::Memory));
    };
    if error.use_stderr() {
        nothing(Fault::Usage { text })
    } else {
        Asked::Help { text }
    }
}

// Returns what these arguments ask for. The first is the program's name. A mistake is `Usage`, and comes before `Env`.
#[tactic(auto, using(crate::proofs::AskedLemmas::of_mistake))]
fn asked_by(alloc: Global, arguments: &[String]) -> Asked
    ensures { SaysAsked (map string_bytes arguments.now) result }
{
    match read_words(alloc, arguments) {
        Ok(words) => Asked::Run(words),
        Err(WordsFault::Usage(error)) => asked_for(alloc, error),
        Err(WordsFault::Env { mode, value }) => Asked::Nothing {
            fault: Fault::Env {
                mistake: EnvMistake::NoEquals,
                name: value,
            },
            mode,
        },
        Err(WordsFault::File) => nothing(Fault::File),
        Err(WordsFault::Memory) => nothing(Fault::OfRun(RunFault::Memory)),
    }
}

/// Returns what was asked for, if there are arguments.
pub fn asked_with(alloc: Global, arguments: Result<Vec<String>, ArgumentsFault>) -> Asked
    ensures { SaysGiven (given_value arguments) result }
{
    match arguments {
        Ok(arguments) => asked_by(alloc, arguments.as_slice()),
        Err(ArgumentsFault::NotUtf8) => nothing(Fault::NotUtf8),
        Err(ArgumentsFault::Memory) => nothing(Fault::OfRun(RunFault::Memory)),
    }
}

// Adds a name, if there is one.
fn push_name(names: &mut Vec<String>, name: Option<String>) -> Result<(), AllocError>
    ensures { OnOk result (map string_bytes names.new.items
        ≡ map string_bytes names.old.items ++ one_of (option_map string_bytes name)) }
{
    match name {
        Some(name) => Ok(names.push(name)?),
        None => Ok(()),
    }
}

// Returns the paths of the files that are put into the world.
fn paths_of(alloc: Global, world_files: Vec<(String, String)>) -> Result<Vec<String>, AllocError>
    ensures { IfOk result (λ paths. map string_bytes paths.items
        ≡ map (λ file. (pair_value file).text) world_files.items) }
{
    let mut paths = Vec::new(alloc);
    for file in world_files {
        paths.push(file.1)?;
    }
    Ok(paths)
}

// Returns the names of the files of a run, in the order in which they are read.
fn names_of(alloc: Global, words: Words) -> Result<Vec<String>, AllocError>
    ensures { IfOk result (λ names. map string_bytes names.items ≡ names_asked_by words) }
{
    let mut names = paths_of(alloc, words.world_files)?;
    push_name(&mut names, words.library)?;
    push_name(&mut names, words.hooks)?;
    let mut files = words.files;
    names.append(&mut files)?;
    Ok(names)
}

/// Returns the names of the files that these arguments ask for, in the order in which they are read: those of
/// `--file`, the library file, the hooks file, the feature files. There are none if the arguments ask for no run. An
/// error comes if memory was refused.
pub fn files_asked(
    alloc: Global,
    arguments: Result<Vec<String>, ArgumentsFault>,
) -> Result<Vec<String>, AllocError>
    ensures { IfOk result (λ names.
        AreNamesAsked (given_value arguments) (map string_bytes names.items)) }
{
    match asked_with(alloc, arguments) {
        Asked::Run(words) => names_of(alloc, words),
        Asked::Nothing {
            fault: Fault::OfRun(_),
            ..
        } => Err(AllocError),
        _ => Ok(Vec::new(alloc)),
    }
}
