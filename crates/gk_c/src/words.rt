//! The arguments of a call.
ghost use Rattle.std.specs.Prelude.{◌≡◌, ◌++◌, ◌∷◌, [], codes, map, OnOk, string_bytes};
ghost use Rattle.gk_program.specs.Asked.{given_value};
ghost use Rattle.gk_c.specs.Words.{SaysWords, text_value};

use gk_program::ArgumentsFault;
use std::alloc::{AllocError, Global};
use std::str;

/// A text of the caller.
#[repr(C)]
#[derive(Clone, Copy)]
pub struct Text<'a> {
    pub bytes: &'a [u8],
}

// Adds a copy of a text to the words before it.
fn add_word(alloc: Global, words: &mut Vec<String>, text: &str) -> Result<(), AllocError>
    ensures { OnOk result (map string_bytes words.new.items
        ≡ map string_bytes words.old.items ++ text.now ∷ []) }
{
    words.push(String::from_str(alloc, text)?)?;
    Ok(())
}

/// Returns the program's arguments: its name and the arguments of the call.
pub fn words_from(alloc: Global, arguments: &[Text]) -> Result<Vec<String>, ArgumentsFault>
    ensures { SaysWords (map text_value arguments.now) (given_value result) }
{
    let mut words = Vec::new(alloc);
    let Ok(()) = add_word(alloc, &mut words, "gherkin_run") else {
        return Err(ArgumentsFault::Memory);
    };
    for argument in arguments {
        let Ok(text) = str::from_utf8(argument.bytes) else {
            return Err(ArgumentsFault::NotUtf8);
        };
        let Ok(()) = add_word(alloc, &mut words, text) else {
            return Err(ArgumentsFault::Memory);
        };
    }
    Ok(words)
}
