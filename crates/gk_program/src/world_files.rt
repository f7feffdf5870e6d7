//! Putting the variables of `--env` and the files of `--file` into the world before a run.
ghost use Rattle.std.specs.Prelude.{◌≡◌, map, IfErr, OnOk, string_bytes, false};
ghost use Rattle.gk_world.specs.Refusals as refusals;
ghost use Rattle.gk_cli.specs.Arguments.{pair_value};
ghost use Rattle.gk_program.specs.WorldFiles.{ArePut, AreTaken, IsFaultOfVariable, IsNotPut, IsPut, SaysText, StopsAtVariable, StopsPutting, with_variables};

use crate::fault::{Fault, FileFault};
use crate::files::{System, read_file};
use gk_findings::EnvMistake;
use gk_request::{RunFault, Source};
use gk_world::{Sandbox, WorldFault, is_bad_name};
use std::alloc::Global;
use std::str;

// Returns the fault of a variable of this name that the world refuses, for this reason.
fn fault_of_variable(name: String, fault: WorldFault) -> Fault
    ensures { IsFaultOfVariable (string_bytes name) fault result }
{
    match fault {
        WorldFault::Memory => Fault::OfRun(RunFault::Memory),
        WorldFault::TextTooLong => Fault::Env {
            mistake: EnvMistake::LongValue,
            name,
        },
        _ => Fault::Env {
            mistake: EnvMistake::BadName,
            name,
        },
    }
}

/// Puts the variables into the world, in order. If several have the same name, the last one counts. The first that isn't
/// taken ends it: `Env` if its name is bad or its text is too long, or `Memory`.
pub fn put_variables(sandbox: &mut Sandbox, variables: Vec<(String, String)>) -> Result<(), Fault>
    ensures put { OnOk result (sandbox.new.now
        ≡ with_variables sandbox.old.now (map pair_value variables.items)) }
    ensures layers { OnOk result (sandbox.new.saved ≡ sandbox.old.saved) }
    ensures taken { OnOk result (AreTaken (map pair_value variables.items)) }
    // The variables before the one that isn't taken are in the sandbox.
    ensures fault { IfErr result (λ fault.
        (stops : StopsAtVariable (map pair_value variables.items) fault)
        × (sandbox.new.now ≡ with_variables sandbox.old.now stops.before)) }
{
    for (name, text) in variables {
        match sandbox.put_env(name.as_str(), text.as_str()) {
            Ok(()) => {}
            Err(fault) => return Err(fault_of_variable(name, fault)),
        }
    }
    Ok(())
}

// Puts the bytes of a file into the world as a text of this name.
fn put_text(sandbox: &mut Sandbox, name: &str, file: Source) -> Result<(), Fault>
    requires good { refusals.is_bad_name name.now ≡ false }
    ensures { SaysText name.now file.bytes.items (string_bytes file.name)
        sandbox.old sandbox.new result }
{
    let fault = match str::from_utf8(file.bytes.as_slice()) {
        Ok(text) => match sandbox.put_file(name, text) {
            Ok(()) => return Ok(()),
            Err(WorldFault::Memory) => return Err(Fault::OfRun(RunFault::Memory)),
            Err(_) => FileFault::TextTooLong,
        },
        Err(_) => FileFault::NotText,
    };
    Err(Fault::OfFile {
        name: file.name,
        fault,
    })
}

// Reads a file, and puts its text into the world under the name that is given with its path.
fn put_file<S: System>(
    alloc: Global,
    system: &mut S,
    sandbox: &mut Sandbox,
    file: (String, String),
) -> Result<(), Fault>
    ensures put { OnOk result
        (IsPut S.reads (pair_value file) system.old system.new sandbox.old sandbox.new) }
    ensures fault { IfErr result (IsNotPut S.reads system.old (pair_value file) system.new) }
{
    let (name, path) = file;
    if is_bad_name(name.as_str()) {
        return Err(Fault::File);
    }
    match read_file(alloc, system, path, FileFault::TextTooLong) {
        Ok(read) => put_text(sandbox, name.as_str(), read),
        Err(fault) => Err(fault),
    }
}

/// Reads each file from the system, in order, and puts its text into the world under its name. The first that can't be
/// put ends it: `File` at a bad name, before its path is read; `CannotRead`; `NotText` if the bytes aren't UTF-8;
/// `TextTooLong` if they are more than a text may have; or `Memory`.
pub fn put_files<S: System>(
    alloc: Global,
    system: &mut S,
    sandbox: &mut Sandbox,
    files: Vec<(String, String)>,
) -> Result<(), Fault>
    ensures put { OnOk result (ArePut S.reads (map pair_value files.items)
        system.old system.new sandbox.old.now sandbox.new.now) }
    ensures layers { OnOk result (sandbox.new.saved ≡ sandbox.old.saved) }
    ensures fault { IfErr result (StopsPutting S.reads (map pair_value files.items)
        system.old system.new) }
{
    for file in files {
        put_file(alloc, system, sandbox, file)?;
    }
    Ok(())
}
