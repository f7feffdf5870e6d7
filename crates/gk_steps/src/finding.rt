//! The library entry that a step's text finds.
ghost use Rattle.std.specs.Prelude.{◌≡◌, ◌⊎◌, ◌≤◌, ◌+◌, List, IfOk, IfErr, MatchBool, option_map, is_some, Option, Some, None};
ghost use Rattle.gk_steps.specs.Matching.{FieldValue};
ghost use Rattle.gk_steps.specs.Finding as spec;
ghost use Rattle.gk_steps.specs.Finding.{HasCandidate, HasCandidateFor};
ghost use Rattle.gk_steps.specs.Finding.{HasTableCandidate, HasTableCandidateFor};
ghost use Rattle.gk_steps.specs.Finding.{FoundValue, LibraryValue, entry_values, library_value, found_value};
ghost use Rattle.gk_steps.specs.Captures.{IsHit, HitsWhatIsFound, hit_of};
ghost use Rattle.gk_steps.specs.FilledCells.{cells_of_type, cells_of_step};
ghost use Rattle.gk_steps.specs.EntryIndex.{AreListed};

use crate::action::Action;
use crate::captures::{Captures, NoCaptures};
use crate::entry_index::{IndexedEntries, ends_of};
use crate::filled_cells::CellCounter;
use crate::library::Library;
use crate::matching::match_fitting;
use crate::pattern::Field;
use gk_gherkin::StepType;
use std::alloc::{AllocError, Global};

/// A found entry: its position in the library, and its field values in the pattern's order.
#[derive(Debug, Drop)]
pub struct Found {
    pub entry: usize,
    pub fields: Vec<Field>,
}

// Returns whether two types are equal.
fn is_same(a: Option<StepType>, b: Option<StepType>) -> bool
    ensures { MatchBool result (a ≡ b) (a ≡ b → ⊥) }
{
    match a {
        None => b.is_none(),
        Some(a) => match b {
            None => false,
            Some(b) => a == b,
        },
    }
}

// Searches the entries of one type for a text. Returns the position of the entry, and replaces what was kept by what is
// kept of its field values. What is kept is unspecified if no entry is found, or after an error. An entry whose ends
// don't fit the text is passed over here, before a match begins.
#[inline(always)]
pub(crate) fn find_of<'t, K: Captures<'t>>(
    cells: &mut CellCounter,
    alloc: Global,
    kept: &mut K,
    indexed: &IndexedEntries<'_>,
    step_type: Option<StepType>,
    text: &'t str,
) -> Result<Option<usize>, AllocError>
    requires { AreListed indexed.now.index.now indexed.now.entries.now }
    ensures found { let entries = entry_values indexed.now.entries.now in IfOk result (λ entry.
        HitsWhatIsFound K.keeps entries step_type text.now (hit_of kept.new entry)) }
    ensures memory { IfErr result (λ e.
        HasCandidate (entry_values indexed.now.entries.now) step_type text.now) }
    ensures table { IfErr result (λ e. K.allocates
        ⊎ HasTableCandidate (entry_values indexed.now.entries.now) step_type text.now) }
    ensures most { cells.new.filled ≤ cells.old.filled
        + cells_of_type (entry_values indexed.now.entries.now) step_type text.now }
    ensures least { cells.old.filled ≤ cells.new.filled }
{
    let entries = indexed.entries;
    let ends = ends_of(text);
    let mut tries: usize = 0;
    let mut position = indexed.next(0, tries, ends, text);
    while position < entries.len() {
        let entry = &entries[position];
        if is_same(entry.step_type, step_type)
            && entry.pattern.can_match(text)
            && match_fitting(cells, alloc, kept, &entry.pattern.pieces, text)?
        {
            return Ok(Some(position));
        }
        tries = tries.saturating_add(1);
        position = indexed.next(position + 1, tries, ends, text);
    }
    Ok(None)
}

// Returns what was found, from the position of an entry and all of its fields.
#[inline(always)]
fn found_of(entry: Option<usize>, fields: Vec<Field>) -> Option<Found>
    ensures { (entries : LibraryValue) (found : Option FoundValue)
        → IsHit ⟦<Vec<Field> as Captures<'static>>⟧.keeps entries (hit_of fields entry) found
        → option_map found_value result ≡ found }
{
    match entry {
        Some(entry) => Some(Found { entry, fields }),
        None => None,
    }
}

impl Library {
    /// Returns the position of the entry that a step finds, and replaces what was kept by what is kept of its field
    /// values. What is kept is unspecified if no entry is found, or after an error. Counts the cells that it fills: at
    /// most one whole table for each entry of its type and of type `step`. Every lookup of a step uses this call.
    #[inline(always)]
    pub(crate) fn search<'t, K: Captures<'t>>(
        &self,
        alloc: Global,
        cells: &mut CellCounter,
        kept: &mut K,
        step_type: StepType,
        text: &'t str,
    ) -> Result<Option<usize>, AllocError>
        ensures found { IfOk result (λ entry.
            IsHit K.keeps (library_value self.now) (hit_of kept.new entry)
            (spec.found (library_value self.now) step_type text.now)) }
        ensures memory { IfErr result (λ e.
            HasCandidateFor (library_value self.now) step_type text.now) }
        ensures table { IfErr result (λ e. K.allocates
            ⊎ HasTableCandidateFor (library_value self.now) step_type text.now) }
        ensures most { cells.new.filled
            ≤ cells.old.filled + cells_of_step (library_value self.now) step_type text.now }
        ensures least { cells.old.filled ≤ cells.new.filled }
    {
        if self.typed == 0 {
            return self.search_any(alloc, cells, kept, text);
        }
        let typed = self.indexed(self.typed);
        if let Some(entry) = find_of(cells, alloc, kept, &typed, Some(step_type), text)? {
            return Ok(Some(entry));
        }
        self.search_any(alloc, cells, kept, text)
    }

    // Does the same among the entries of type `step` only. `find_any` uses it too.
    fn search_any<'t, K: Captures<'t>>(
        &self,
        alloc: Global,
        cells: &mut CellCounter,
        kept: &mut K,
        text: &'t str,
    ) -> Result<Option<usize>, AllocError>
        ensures found { IfOk result (λ entry.
            IsHit K.keeps (library_value self.now) (hit_of kept.new entry)
            (spec.found_any (library_value self.now) text.now)) }
        ensures memory { IfErr result (λ e. HasCandidate (library_value self.now) None text.now) }
        ensures table { IfErr result (λ e. K.allocates
            ⊎ HasTableCandidate (library_value self.now) None text.now) }
        ensures most { cells.new.filled
            ≤ cells.old.filled + cells_of_type (library_value self.now) None text.now }
        ensures least { cells.old.filled ≤ cells.new.filled }
    {
        let all = self.whole();
        find_of(cells, alloc, kept, &all, None, text)
    }

    /// Finds the preferred match of the first entry of the step's type that has a match, in library order. If there is
    /// none, finds that of the first such entry of type `step`. An entry whose ends don't fit the text is passed over
    /// without a table. At most one whole table is filled for each entry of these two types: (pieces + 1) times
    /// (characters + 1) cells. An error comes only if memory was refused, and never if all of them are passed over.
    /// (behave's documentation: step implementations)
    pub fn find(
        &self,
        alloc: Global,
        step_type: StepType,
        text: &str,
    ) -> Result<Option<Found>, AllocError>
        ensures found { IfOk result (λ found.
            option_map found_value found ≡ spec.found (library_value self.now) step_type text.now) }
        // Memory is refused only if the text fits the ends of an entry.
        ensures memory { IfErr result (λ e.
            HasCandidateFor (library_value self.now) step_type text.now) }
    {
        let mut cells = CellCounter::new();
        let mut fields = Vec::new(alloc);
        let entry = self.search(alloc, &mut cells, &mut fields, step_type, text)?;
        Ok(found_of(entry, fields))
    }

    /// Returns what `find` does, among the entries of type `step` only. At most one whole table is filled for each of
    /// them. Errors come as from `find`.
    pub fn find_any(&self, alloc: Global, text: &str) -> Result<Option<Found>, AllocError>
        ensures found { IfOk result (λ found.
            option_map found_value found ≡ spec.found_any (library_value self.now) text.now) }
        // Memory is refused only if the text fits the ends of such an entry.
        ensures memory { IfErr result (λ e. HasCandidate (library_value self.now) None text.now) }
    {
        let mut cells = CellCounter::new();
        let mut fields = Vec::new(alloc);
        let entry = self.search_any(alloc, &mut cells, &mut fields, text)?;
        Ok(found_of(entry, fields))
    }

    /// Returns whether a step finds an entry. At most one whole table is filled for each entry of its type and of
    /// type `step`. Errors come as from `find`, and only if a table may be needed.
    pub fn knows(&self, alloc: Global, step_type: StepType, text: &str) -> Result<bool, AllocError>
        ensures known { IfOk result (λ known.
            known ≡ is_some (spec.found (library_value self.now) step_type text.now)) }
        // Memory is refused only if the text fits the ends of an entry.
        ensures memory { IfErr result (λ e.
            HasCandidateFor (library_value self.now) step_type text.now) }
        // Memory is refused only if the match of such an entry may need a table.
        ensures table { IfErr result (λ e.
            HasTableCandidateFor (library_value self.now) step_type text.now) }
    {
        let mut cells = CellCounter::new();
        let entry = self.search(alloc, &mut cells, &mut NoCaptures, step_type, text)?;
        Ok(entry.is_some())
    }

    /// Returns the action of the entry at a position. Doesn't allocate.
    #[inline(always)]
    pub(crate) fn action_at(&self, entry: usize) -> Action
        ensures { (fields : List FieldValue)
            → result ≡ spec.action_of (library_value self.now) (spec.found_at entry fields) }
    {
        match self.entries.get(entry) {
            Some(entry) => entry.action,
            None => Action::Fail,
        }
    }

    /// Returns the action of what was found in this library, or `Fail` if the library has no entry at that position.
    /// Doesn't allocate.
    pub fn action(&self, found: &Found) -> Action
        ensures { result ≡ spec.action_of (library_value self.now) (found_value found.now) }
    {
        self.action_at(found.entry)
    }
}
