//! Names in a list, such as the columns of a header or tags, for lookup.
ghost use Rattle.std.specs.Prelude.{◌≡◌, ◌+◌, ◌∷◌, [], ℕ, List, option_map, IfOk, OnOk};
ghost use Rattle.std.specs.List.{list_any};
ghost use Rattle.std.specs.Str.{bytes_eq};
ghost use Rattle.gk_gherkin.specs.Feature.{texts};
ghost use Rattle.gk_select.specs.Filling.{cell_of};
ghost use Rattle.gk_select.specs.Names.{position_of, IsIndexFrom};

use std::alloc::{AllocError, Global};
use std::collections::{BTreeMap, BTreeSet};
use std::marker::Model;

/// The number of names that a search goes through as fast as an index is built.
const SCANNED: usize = 16;

/// The positions of names in a list, counted from 0. Of equal names the first counts.
#[derive(Drop)]
pub struct NameIndex<'a> {
    /// The lengths of the names. A text of any other length is none of them, and isn't compared with them.
    lengths: BTreeSet<usize>,
    positions: BTreeMap<&'a str, usize>,
}

impl<'a> NameIndex<'a> {
    fn new(alloc: Global) -> NameIndex<'a>
        ensures { (first : ℕ) → IsIndexFrom first [] result }
    {
        NameIndex {
            lengths: BTreeSet::new(alloc),
            positions: BTreeMap::new(alloc),
        }
    }

    // Adds a name in front of those of the index.
    #[tactic(auto, using(std::proofs::lemmas::Map::Text::btree_map_updates_str, crate::proofs::IndexedNames::added))]
    fn add(&mut self, name: &'a str, position: usize) -> Result<(), AllocError>
        ensures { OnOk result ((names : List (List ℕ)) → IsIndexFrom (position + 1) names self.old
            → IsIndexFrom position (name.now ∷ names) self.new) }
    {
        self.lengths.insert(name.len())?;
        self.positions.insert(name, position)?;
        Ok(())
    }

    fn of(alloc: Global, list: &'a [String]) -> Result<NameIndex<'a>, AllocError>
        ensures { IfOk result (λ index. IsIndexFrom 0 (texts list.now) index) }
    {
        let mut index = NameIndex::new(alloc);
        let mut position = list.len();
        'names: while position > 0 {
            position -= 1;
            index.add(list[position].as_str(), position)?;
        }
        Ok(index)
    }

    fn find(&self, name: &str) -> Option<usize>
        ensures { (names : List (List ℕ)) → IsIndexFrom 0 names self.now
            → result ≡ position_of names name.now }
    {
        if !self.lengths.contains(&name.len()) {
            return None;
        }
        self.positions.get(name).copied()
    }
}

/// Returns the position of the first text of a list that equals `name`, if any.
fn scan(list: &[String], name: &str) -> Option<usize>
    ensures { result ≡ position_of (texts list.now) name.now }
{
    for (i, other) in list.iter().enumerate() {
        if other.as_str() == name {
            return Some(i);
        }
    }
    None
}

/// The names in a list. Contracts see their texts.
#[derive(Drop)]
pub struct Names<'a> {
    list: &'a [String],
    index: Option<NameIndex<'a>>,
}

impl<'a> Model for Names<'a> {
    ghost use Rattle.std.specs.Prelude.{ℕ, List};
    ghost use Rattle.std.specs.Option.{ForSome};
    ghost use Rattle.gk_gherkin.specs.Feature.{texts};
    ghost use Rattle.gk_select.specs.Names.{IsIndexFrom};

    ghost Value = { List (List ℕ) };

    ghost view = { λ names. texts names.list.now };

    ghost invariant = { λ names. ForSome names.index (IsIndexFrom 0 (texts names.list.now)) };
}

impl<'a> Names<'a> {
    /// Returns names without an index, for few lookups. Doesn't allocate.
    pub(crate) fn scanned(list: &'a [String]) -> Names<'a>
        ensures { result ≡ texts list.now }
    {
        Names { list, index: None }
    }

    /// Returns names. If there are many, they get an index, unless memory for it is refused.
    pub fn new(alloc: Global, list: &'a [String]) -> Names<'a>
        ensures { result ≡ texts list.now }
    {
        if list.len() <= SCANNED {
            return Names::scanned(list);
        }
        Names {
            list,
            index: NameIndex::of(alloc, list).ok(),
        }
    }

    fn position(&self, name: &str) -> Option<usize>
        ensures { result ≡ position_of self.now name.now }
    {
        match &self.index {
            Some(index) => index.find(name),
            None => scan(self.list, name),
        }
    }

    /// Returns whether the list has a name. With an index, the time that it takes hardly grows with the number of
    /// names. Doesn't allocate.
    #[tactic(auto, using(crate::proofs::IndexedNames::has_name))]
    pub(crate) fn has(&self, name: &str) -> bool
        ensures { result ≡ list_any (bytes_eq name.now) self.now }
    {
        !self.list.is_empty() && self.position(name).is_some()
    }

    /// Returns the cell of a row under the first of these headers that equals `name`, if any. It takes as long as
    /// `has`. Doesn't allocate.
    pub(crate) fn cell<'r>(&self, row: &'r [String], name: &str) -> Option<&'r str>
        ensures { option_map (λ cell. cell.now) result ≡ cell_of self.now (texts row.now) name.now }
    {
        match self.position(name) {
            Some(position) => match row.get(position) {
                Some(cell) => Some(cell.as_str()),
                None => None,
            },
            None => None,
        }
    }
}
