//! The faults of all files of a run.
ghost use Rattle.std.specs.Prelude.{◌≡◌, ◌<◌, ◌+◌, ◌^◌, drop, length, IfOk, OnOk, Some, slice_get};
ghost use Rattle.gk_request.specs.AllFaults.{AllFaultsAreFound, AreFaultsOf, IsFoundIn, SaysOfFile, files_after, run_files};
ghost use Rattle.gk_request.specs.Request.{FilesValue, files_value};
ghost use Rattle.gk_request.specs.RunFault.{RunFile};

use crate::inputs::{read_feature_at, read_hook_file, read_step_library};
use crate::request::{SuiteFiles, bytes_of};
use crate::run_fault::RunFault;
use std::alloc::{AllocError, Global};

// Returns the number of files that a run reads until it ends with this fault. After `Write` and `Memory`, none is left.
fn files_until(first: RunFault) -> usize
    ensures { (files : FilesValue) → length (run_files files) < 2 ^ 64
        → drop result (run_files files) ≡ files_after files first }
{
    match first {
        RunFault::Select { input: None, .. } => 0,
        RunFault::Library(_) => 1,
        RunFault::Hooks(_) => 2,
        RunFault::Read { input, .. } => input.saturating_add(3),
        RunFault::Select {
            input: Some(input),
            ..
        } => input.saturating_add(3),
        RunFault::Write | RunFault::Memory => usize::MAX,
    }
}

// Checks that the file of this number reads. The library file has number 0, the hooks file 1, and the sources follow.
fn check_file(alloc: Global, files: &SuiteFiles, number: usize) -> Result<(), RunFault>
    requires { number < length files.now.sources.items + 2 }
    ensures { (file : RunFile) → slice_get (run_files (files_value files.now)) number ≡ Some file
        → SaysOfFile file result }
{
    if number == 0 {
        let _library = read_step_library(alloc, bytes_of(&files.library))?;
        return Ok(());
    }
    if number == 1 {
        let _hooks = read_hook_file(alloc, bytes_of(&files.hooks))?;
        return Ok(());
    }
    let input = number - 2;
    let _feature = read_feature_at(alloc, input, files.sources[input].bytes.as_slice())?;
    Ok(())
}

// Adds the fault that was found in a file, if there is one.
fn add_fault(faults: &mut Vec<RunFault>, read: Result<(), RunFault>) -> Result<(), AllocError>
    ensures { (file : RunFile) → SaysOfFile file read
        → OnOk result (IsFoundIn file faults.old.items faults.new.items) }
{
    match read {
        Ok(()) => Ok(()),
        Err(RunFault::Memory) => Err(AllocError),
        Err(fault) => Ok(faults.push(fault)?),
    }
}

/// Returns the faults of the files that a run reads after the one with its first fault. There is one for each file that
/// doesn't read, in the order in which a run reads them. The texts of tags are read before all files. An error comes
/// only if a growth was refused.
pub fn faults_after(
    alloc: Global,
    files: &SuiteFiles,
    first: RunFault,
) -> Result<Vec<RunFault>, AllocError>
    ensures { IfOk result (λ faults.
        AreFaultsOf (files_after (files_value files.now) first) faults.items) }
{
    let mut faults = Vec::new(alloc);
    for number in files_until(first)..files.sources.len() + 2 {
        add_fault(&mut faults, check_file(alloc, files, number))?;
    }
    Ok(faults)
}

/// Shows that, if a request doesn't read for a reason other than `Memory`, its first fault and those of the files after
/// it are the faults of all files. There is one for each file that doesn't read, and no other. A first fault of the
/// texts of tags isn't the fault of a file.
#[tactic(auto, using(crate::proofs::AllFaultsLaw::all_found))]
pub fn all_faults_are_found()
    ensures { AllFaultsAreFound }
{}
