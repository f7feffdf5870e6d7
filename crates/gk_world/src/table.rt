//! A table of texts by name, for files or variables.
ghost use Rattle.std.specs.Prelude.{◌≡◌, List, [], IfOk, IfErr, OnOk, OnErr, None, Some, option_copied};
ghost use Rattle.gk_world.specs.Slots.{map_at, text_at, Fits, undone, NamesDiffer};
ghost use Rattle.gk_world.specs.Listing.{Lists};
ghost use Rattle.gk_world.specs.Refusals as refusals;
ghost use Rattle.gk_world.specs.Refusals.{IsReason};
ghost use Rattle.gk_world.specs.Table.{Steps, Refuses, refusal};

use crate::listing::{note, sorted};
use crate::refusals::{WorldFault, is_bad_name, is_too_long, put_refusal};
use crate::reversible::Reversible;
use crate::slots::{SlotUndo, Slots};
use std::alloc::{AllocError, Global};
use std::collections::BTreeMap;
use std::marker::Model;

/// A change of a table.
#[derive(Drop)]
pub enum TableChange {
    /// The name gets this text.
    Put(String, String),
    /// The name's text gets this at its end.
    Append(String, String),
    /// The name has no text any more.
    Remove(String),
    /// The name's text moves to the other name.
    Rename(String, String),
}

/// Texts by name, for files or variables. A removed name keeps its position.
#[derive(Drop)]
pub struct Table {
    slots: Slots<Option<String>>,
}

impl Model for Table {
    ghost use Rattle.std.specs.Prelude.{List};
    ghost use Rattle.gk_world.specs.Cells.{Slot};

    ghost Value = { List Slot };

    ghost view = { λ t. t.slots };
}

impl Table {
    /// Returns a table without names. It doesn't allocate.
    pub fn new(alloc: Global) -> Self
        ensures { result ≡ [] }
    {
        Table {
            slots: Slots::new(alloc),
        }
    }

    /// Returns the text of a name, if it has one. It doesn't allocate.
    pub fn get(&self, name: &str) -> Option<&str>
        ensures { option_copied result ≡ text_at 0 self.now name.now }
    {
        self.slots.text(name, 0)
    }

    /// Returns the reason why the text of a name can't be extended, if there is one.
    pub fn append_refusal(&self, name: &str, more: &str) -> Option<WorldFault>
        ensures { IsReason (refusals.append_refusal (text_at 0 self.now) name.now more.now) result }
    {
        if is_bad_name(name) {
            return Some(WorldFault::BadName);
        }
        let Some(text) = self.get(name) else {
            return Some(WorldFault::Absent);
        };
        if is_too_long(text, more) {
            return Some(WorldFault::TextTooLong);
        }
        None
    }

    /// Returns the reason why a name can't be removed, if there is one.
    pub fn remove_refusal(&self, name: &str) -> Option<WorldFault>
        ensures { IsReason (refusals.remove_refusal (text_at 0 self.now) name.now) result }
    {
        if is_bad_name(name) {
            return Some(WorldFault::BadName);
        }
        if self.get(name).is_none() {
            return Some(WorldFault::Absent);
        }
        None
    }

    /// Returns the reason why the text of a name can't move to another name, if there is one.
    pub fn rename_refusal(&self, name: &str, to: &str) -> Option<WorldFault>
        ensures { IsReason (refusals.rename_refusal (text_at 0 self.now) name.now to.now) result }
    {
        if is_bad_name(name) || is_bad_name(to) {
            return Some(WorldFault::BadName);
        }
        if self.get(name).is_none() {
            return Some(WorldFault::Absent);
        }
        None
    }

    /// Returns the names that have a text, each with its text, sorted by name.
    pub(crate) fn listing(&self, alloc: Global) -> Result<Vec<(String, String)>, AllocError>
        ensures { IfOk result (λ pairs. Lists (text_at 0 self.now) pairs.items) }
    {
        let mut texts = BTreeMap::new(alloc);
        for position in 0..self.slots.len() {
            let name = self.slots.name(position);
            note(alloc, &mut texts, name, self.slots.text(name, 0))?;
        }
        sorted(alloc, texts)
    }

    /// Shows that no two slots have the same name. It doesn't allocate.
    pub fn names_differ(&self)
        ensures { NamesDiffer self.now }
    {
        self.slots.names_differ();
    }

    /// Returns the reason to refuse a change, if there is one.
    fn refusal(&self, change: &TableChange) -> Option<WorldFault>
        ensures { IsReason (refusal change.now (map_at 0 self.now)) result }
    {
        match change {
            TableChange::Put(name, text) => put_refusal(name, text),
            TableChange::Append(name, more) => self.append_refusal(name, more),
            TableChange::Remove(name) => self.remove_refusal(name),
            TableChange::Rename(name, to) => self.rename_refusal(name, to),
        }
    }
}

impl Reversible for Table {
    type Change = TableChange;

    type Undo = SlotUndo;

    ghost use Rattle.std.specs.Prelude.{List};
    ghost use Rattle.gk_world.specs.Cells.{Slot};
    ghost use Rattle.gk_world.specs.Slots.{Fits, undone, Undoes};
    ghost use Rattle.gk_world.specs.Table.{Steps, Refuses};

    ghost Slots = { List Slot };

    ghost slots = { λ s. s };

    ghost fits = { Fits 1 };

    ghost undone = { undone };

    ghost undoes = { Undoes };

    ghost stepped = { Steps };

    ghost refuses = { Refuses };

    fn apply(&mut self, change: TableChange) -> Result<SlotUndo, WorldFault>
        ensures fits { IfOk result (λ u. Fits 1 u self.new) }
        ensures names { OnOk result (NamesDiffer self.new) }
        ensures before { IfOk result (λ u. undone u self.new ≡ self.old) }
        ensures done { OnOk result (Steps change self.old self.new) }
        ensures err { OnErr result (self.new ≡ self.old) }
        ensures refused { IfErr result (Refuses change self.old) }
    {
        if let Some(fault) = self.refusal(&change) {
            // No part of it was moved out, so it is dropped as a whole.
            drop(change);
            return Err(fault);
        }
        match change {
            TableChange::Put(name, text) => self.slots.put(name, 0, text),
            TableChange::Append(name, more) => self.slots.extend(&name, 0, &more),
            TableChange::Remove(name) => self.slots.remove(&name, 0).ok_or(WorldFault::Absent),
            TableChange::Rename(name, to) => self.slots.rename(&name, to, 0),
        }
    }

    fn undo(&mut self, undo: SlotUndo) {
        self.slots.undo(undo);
    }
}
