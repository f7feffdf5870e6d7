//! Step libraries.
ghost use Rattle.std.specs.Prelude.{◌≡◌, ◌≤◌, ◌++◌, ◌∷◌, [], length, take, IsTrue, OnOk};
ghost use Rattle.std.proofs.Props.{props};
ghost use Rattle.gk_steps.specs.Library.{IsTypedEnd, are_for_each_from, is_for_one_before};
ghost use Rattle.gk_steps.specs.EntryIndex.{AreListed, IsIndexOf};

use crate::action::Action;
use crate::entry_index::{Index, IndexedEntries};
use crate::pattern::Pattern;
use gk_gherkin::StepType;
use std::alloc::{AllocError, Global};

/// A pattern, and the action of the steps that it matches. An entry is for steps of one type, or for steps of every
/// type if `step_type` is `None`. `line` is the line of its file that spells it, counted from 1.
/// (behave's documentation: step implementations)
#[derive(Debug, Drop)]
pub struct Entry {
    pub line: u32,
    pub step_type: Option<StepType>,
    pub pattern: Pattern,
    pub action: Action,
}

/// The entries of a step library, in order.
#[derive(Debug, Drop)]
pub struct Library {
    pub entries: Vec<Entry>,
    // The end of the entries for steps of one type. Those from here on are for steps of every type, so a search for one
    // type ends here.
    pub(crate) typed: usize,
    // Which entries may match a text. It lists none if the library was not read from lines.
    index: Index,
    ghost typed_end: { IsTypedEnd typed entries.items } by { Prim.hlevel props },
    ghost listed: { AreListed index entries.items } by { Prim.hlevel props },
}

// Returns the number of entries up to and including the last one for steps of one type.
fn typed_len(entries: &[Entry]) -> usize
    ensures within { result ≤ length entries.now }
    ensures rest { IsTrue (are_for_each_from result entries.now) }
    ensures last { IsTrue (is_for_one_before result entries.now) }
{
    let mut typed = entries.len();
    while typed > 0 && entries[typed - 1].step_type.is_none() {
        typed -= 1;
    }
    typed
}

/// The entries that were read so far, with their index.
#[derive(Debug, Drop)]
pub(crate) struct LibraryBuilder {
    pub entries: Vec<Entry>,
    pub index: Index,
}

impl LibraryBuilder {
    /// Returns a builder without entries. Doesn't allocate.
    pub(crate) fn new(alloc: Global) -> LibraryBuilder
        ensures items { result.entries.items ≡ [] }
        ensures indexed { IsIndexOf result.index result.entries.items }
    {
        LibraryBuilder {
            entries: Vec::new(alloc),
            index: Index::new(alloc),
        }
    }

    /// Appends an entry, and lists it.
    pub(crate) fn push(&mut self, entry: Entry) -> Result<(), AllocError>
        requires { IsIndexOf self.old.index self.old.entries.items }
        ensures items { OnOk result
            (self.new.entries.items ≡ self.old.entries.items ++ entry ∷ []) }
        ensures indexed { OnOk result (IsIndexOf self.new.index self.new.entries.items) }
    {
        self.entries.push(entry)?;
        self.index.grow(&self.entries)?;
        Ok(())
    }

    /// Borrows the entries for a search.
    pub(crate) fn indexed(&self) -> IndexedEntries<'_>
        requires { IsIndexOf self.now.index self.now.entries.items }
        ensures entries { result.entries.now ≡ self.now.entries.items }
        ensures listed { AreListed result.index.now result.entries.now }
    {
        IndexedEntries {
            entries: &self.entries,
            index: &self.index,
        }
    }
}

impl Library {
    /// Returns the library of these entries, in this order. It has no index, so a look-up tries each of them;
    /// `read_library` makes one.
    pub fn new(entries: Vec<Entry>) -> Library
        ensures { result.entries ≡ entries }
    {
        let typed = typed_len(&entries);
        Library {
            index: Index::new(*entries.allocator()),
            entries,
            typed,
        }
    }

    /// Returns the library of the entries that were read.
    pub(crate) fn built(builder: LibraryBuilder) -> Library
        requires { IsIndexOf builder.index builder.entries.items }
        ensures { result.entries ≡ builder.entries }
    {
        let typed = typed_len(&builder.entries);
        Library {
            entries: builder.entries,
            typed,
            index: builder.index,
        }
    }

    /// Borrows all entries for a search.
    pub(crate) fn whole(&self) -> IndexedEntries<'_>
        ensures entries { result.entries.now ≡ self.now.entries.items }
        ensures listed { AreListed result.index.now result.entries.now }
    {
        IndexedEntries {
            entries: &self.entries,
            index: &self.index,
        }
    }

    /// Borrows the entries before a position for a search.
    pub(crate) fn indexed(&self, size: usize) -> IndexedEntries<'_>
        requires { size ≤ length self.now.entries.items }
        ensures entries { result.entries.now ≡ take size self.now.entries.items }
        ensures listed { AreListed result.index.now result.entries.now }
    {
        IndexedEntries {
            entries: &self.entries[..size],
            index: &self.index,
        }
    }
}
