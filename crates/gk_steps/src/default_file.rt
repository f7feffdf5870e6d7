//! The step library that is used if no file is given.
ghost use Rattle.std.specs.Prelude.{◌≡◌, IfOk};
ghost use Rattle.gk_gherkin.specs.Lines.{lines_of};
ghost use Rattle.gk_steps.specs.declared.library_fault.LibraryFault.TheVariants.{Memory};
ghost use Rattle.gk_steps.specs.Finding.{library_value};
ghost use Rattle.gk_steps.specs.LibraryFile.{ReadsLibrary};
ghost use Rattle.gk_steps.specs.DefaultFile.{default_text, default_entries};

use crate::library::Library;
use crate::library_fault::LibraryFault;
use crate::library_file::read_library;
use std::alloc::{AllocError, Global};

/// The text of the default library, in the form of a library file.
pub const DEFAULT_TEXT: &str = "step a file named \"{name}\" with: => write_file\n\
step a file named \"{name}\" containing \"{text}\" => write_file\n\
step the file \"{name}\" is extended with: => append_file\n\
step the file \"{name}\" is extended with \"{text}\" => append_file\n\
step the file \"{name}\" is removed => remove_file\n\
step the file \"{name}\" is renamed to \"{to}\" => rename_file\n\
step these files: => write_files\n\
step the file \"{name}\" should exist => file_exists\n\
step the file \"{name}\" should not exist => file_absent\n\
step the file \"{name}\" should be: => file_is\n\
step the file \"{name}\" should be \"{text}\" => file_is\n\
step the file \"{name}\" should contain: => file_contains\n\
step the file \"{name}\" should contain \"{text}\" => file_contains\n\
step the variable \"{name}\" is set to \"{text}\" => set_env\n\
step the variable \"{name}\" is unset => remove_env\n\
step the variable \"{name}\" should be \"{text}\" => env_is\n\
step the variable \"{name}\" should be unset => env_absent\n\
step the value \"{name}\" is set to \"{text}\" => set_value\n\
step the value \"{name}\" is deleted => delete_value\n\
step the value \"{name}\" should be \"{text}\" => value_is\n\
step the value \"{name}\" should be absent => value_absent\n\
step the number \"{name}\" is set to {n:d} => set_number\n\
step the number \"{name}\" grows by {n:d} => add_number\n\
step the number \"{name}\" should be {n:d} => number_is\n\
step at cleanup {step} => at_cleanup\n\
step the scenario is skipped => skip_scenario\n\
step it passes => pass\n\
step it fails => fail\n";

// Converts refused memory to std's error. The default text can cause no other fault.
fn as_alloc_error(fault: LibraryFault) -> AllocError
    requires { fault ≡ Memory }
{
    let _memory = fault;
    AllocError
}

/// Returns the library that `DEFAULT_TEXT` spells. An error comes only if a growth was refused.
pub fn default_library(alloc: Global) -> Result<Library, AllocError>
    // What is returned is what the text says.
    ensures read { IfOk result (λ l. ReadsLibrary (lines_of default_text) (library_value l)) }
    // The library has the default entries.
    ensures entries { IfOk result (λ l. library_value l ≡ default_entries) }
{
    match read_library(alloc, DEFAULT_TEXT.as_bytes()) {
        Ok(library) => Ok(library),
        Err(fault) => Err(as_alloc_error(fault)),
    }
}
