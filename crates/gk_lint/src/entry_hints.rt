//! Hints for the undefined steps of a library.
ghost use Rattle.std.specs.Prelude.{◌≡◌, option_map, IfOk};
ghost use Rattle.gk_steps.specs.Finding.{library_value, found_value};
ghost use Rattle.gk_lint.specs.EntryHints as spec;
ghost use Rattle.gk_lint.specs.Findings.{hint_value};

use crate::findings::Hint;
use crate::nearest_entry::{WordedEntry, compared_entries, nearest};
use gk_gherkin::StepType;
use gk_steps::{Found, Library};
use std::alloc::{AllocError, Global};
use std::marker::Model;

/// A library and the words of the patterns of its first 1,000 entries.
#[derive(Debug, Drop)]
pub struct EntryHints<'a> {
    library: &'a Library,
    worded: Vec<WordedEntry<'a>>,
}

impl<'a> Model for EntryHints<'a> {
    ghost use Rattle.std.specs.Prelude.{◌≡◌, map, take};
    ghost use Rattle.gk_steps.specs.Finding.{LibraryValue, entry_value, library_value};
    ghost use Rattle.gk_lint.specs.NearestEntry.{compared};

    ghost Value = { LibraryValue };

    ghost view = { λ hints. library_value hints.library.now };

    ghost invariant = { λ hints. map (λ worded. entry_value worded.entry.now) hints.worded.items
        ≡ take compared (library_value hints.library.now) };
}

impl<'a> EntryHints<'a> {
    /// Splits the patterns of a library's first 1,000 entries into words. An error comes only if a growth was refused.
    pub fn new(alloc: Global, library: &'a Library) -> Result<EntryHints<'a>, AllocError>
        ensures { IfOk result (λ hints. hints ≡ library_value library.entry.now) }
    {
        Ok(EntryHints {
            library,
            worded: compared_entries(alloc, library)?,
        })
    }

    /// Returns the library. Doesn't allocate.
    pub fn library(&self) -> &'a Library
        ensures { library_value result.now ≡ self.now }
    {
        self.library
    }

    // Returns what a text finds as a step of the first type as which it finds an entry.
    fn found(&self, alloc: Global, text: &str) -> Result<Option<Found>, AllocError>
        ensures { IfOk result (λ found.
            option_map found_value found ≡ spec.found_as_any_type self.now text.now) }
    {
        if let Some(found) = self.library.find(alloc, StepType::Given, text)? {
            return Ok(Some(found));
        }
        if let Some(found) = self.library.find(alloc, StepType::When, text)? {
            return Ok(Some(found));
        }
        self.library.find(alloc, StepType::Then, text)
    }

    /// Returns what the author of an undefined step with this text may have meant: the entry that it finds as a step of
    /// another type, and otherwise the nearest of the first 1,000. Entries are compared by their words, outside of
    /// fields. Case, articles and one wrong letter in a word don't count. An error comes only if a growth was refused.
    pub fn hint(&self, alloc: Global, text: &str) -> Result<Hint<'a>, AllocError>
        ensures { IfOk result (λ hint. hint_value hint ≡ spec.entry_hint self.now text.now) }
    {
        if let Some(found) = self.found(alloc, text)? {
            if let Some(entry) = self.library.entries.get(found.entry) {
                return Ok(Hint::OtherType(entry));
            }
        }
        nearest(alloc, &self.worded, text)
    }
}
