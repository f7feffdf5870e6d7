//! Values by name, in layers.
ghost use Rattle.std.specs.Prelude.{◌≡◌, ◌≤◌, List, [], IfOk, IfErr, OnOk, OnErr, None, Some, option_copied};
ghost use Rattle.gk_world.specs.State.{see};
ghost use Rattle.gk_world.specs.Listing.{Lists};
ghost use Rattle.gk_world.specs.Refusals as refusals;
ghost use Rattle.gk_world.specs.Refusals.{IsReason};
ghost use Rattle.gk_world.specs.State as state;
ghost use Rattle.gk_world.specs.Slots.{Fits, undone, NamesDiffer};
ghost use Rattle.gk_world.specs.Values.{Steps, Refuses, IsLayer, layer_of, refusal, state_at};

use crate::cells::LAYERS;
use crate::listing::{note, sorted};
use crate::refusals::{WorldFault, is_bad_name, put_refusal};
use crate::reversible::Reversible;
use crate::slots::{SlotUndo, Slots};
use std::alloc::{AllocError, Global};
use std::collections::BTreeMap;
use std::marker::Model;

/// A change of the values of a layer, from 1 for the outermost to `LAYERS`. A refusal looks only at this layer and outer
/// ones. (behave's documentation: context layers)
#[derive(Drop)]
pub enum ValueChange {
    /// The name gets this text in this layer.
    Set(usize, String, String),
    /// The name has no text in this layer any more.
    Delete(usize, String),
}

/// Values by name, with one cell for each layer. A name keeps its position.
#[derive(Drop)]
pub struct Values {
    slots: Slots<[Option<String>; LAYERS]>,
}

impl Model for Values {
    ghost use Rattle.std.specs.Prelude.{List};
    ghost use Rattle.gk_world.specs.Cells.{Slot};

    ghost Value = { List Slot };

    ghost view = { λ v. v.slots };
}

impl Values {
    /// Returns values without names. It doesn't allocate.
    pub fn new(alloc: Global) -> Self
        ensures { result ≡ [] }
    {
        Values {
            slots: Slots::new(alloc),
        }
    }

    /// Returns the visible value of a name with `layers` open layers, at most `LAYERS`, if there is one. It doesn't
    /// allocate.
    pub fn get(&self, layers: usize, name: &str) -> Option<&str>
        requires { layers ≤ state.layers }
        ensures { option_copied result ≡ see (state_at layers self.now) name.now }
    {
        for layer in (0..layers).rev() {
            if let Some(text) = self.slots.text(name, layer) {
                return Some(text);
            }
        }
        None
    }

    /// Returns the reason why a name can't be deleted in the innermost of `layers` layers, from 1 to `LAYERS`, if there
    /// is one.
    pub fn delete_refusal(&self, layers: usize, name: &str) -> Option<WorldFault>
        requires { IsLayer layers }
        ensures { IsReason (refusals.delete_refusal (state_at layers self.now) name.now) result }
    {
        if is_bad_name(name) {
            return Some(WorldFault::BadName);
        }
        if self.get(layers, name).is_none() {
            return Some(WorldFault::Absent);
        }
        if self.slots.text(name, layers - 1).is_none() {
            return Some(WorldFault::OtherLayer);
        }
        None
    }

    /// Returns the names that have a value in one of `layers` layers, each with the visible value, sorted by name.
    pub(crate) fn listing(
        &self,
        alloc: Global,
        layers: usize,
    ) -> Result<Vec<(String, String)>, AllocError>
        requires { layers ≤ state.layers }
        ensures { IfOk result (λ pairs. Lists (see (state_at layers self.now)) pairs.items) }
    {
        let mut texts = BTreeMap::new(alloc);
        for position in 0..self.slots.len() {
            let name = self.slots.name(position);
            note(alloc, &mut texts, name, self.get(layers, name))?;
        }
        sorted(alloc, texts)
    }

    /// Shows that no two slots have the same name. It doesn't allocate.
    pub fn names_differ(&self)
        ensures { NamesDiffer self.now }
    {
        self.slots.names_differ();
    }

    /// Returns the reason to refuse a change, if there is one.
    fn refusal(&self, change: &ValueChange) -> Option<WorldFault>
        requires { IsLayer (layer_of change.now) }
        ensures { IsReason (refusal change.now (state_at (layer_of change.now) self.now)) result }
    {
        match change {
            ValueChange::Set(_, name, text) => put_refusal(name, text),
            ValueChange::Delete(layer, name) => self.delete_refusal(*layer, name),
        }
    }
}

impl Reversible for Values {
    type Change = ValueChange;

    type Undo = SlotUndo;

    ghost use Rattle.std.specs.Prelude.{List};
    ghost use Rattle.gk_world.specs.Cells.{Slot};
    ghost use Rattle.gk_world.specs.Slots.{Fits, undone, Undoes};
    ghost use Rattle.gk_world.specs.State.{layers};
    ghost use Rattle.gk_world.specs.Values.{Steps, Refuses, IsLayer, layer_of};

    ghost Slots = { List Slot };

    ghost slots = { λ s. s };

    ghost fits = { Fits layers };

    ghost undone = { undone };

    ghost undoes = { Undoes };

    ghost stepped = { Steps };

    ghost refuses = { Refuses };

    ghost can_apply = { λ c. IsLayer (layer_of c) };

    fn apply(&mut self, change: ValueChange) -> Result<SlotUndo, WorldFault>
        requires { IsLayer (layer_of change) }
        ensures fits { IfOk result (λ u. Fits layers u self.new) }
        ensures names { OnOk result (NamesDiffer self.new) }
        ensures before { IfOk result (λ u. undone u self.new ≡ self.old) }
        ensures done { OnOk result (Steps change self.old self.new) }
        ensures err { OnErr result (self.new ≡ self.old) }
        ensures refused { IfErr result (Refuses change self.old) }
    {
        if let Some(fault) = self.refusal(&change) {
            // No part of it was moved out, so it is dropped as a whole.
            drop(change);
            return Err(fault);
        }
        match change {
            ValueChange::Set(layer, name, text) => self.slots.put(name, layer - 1, text),
            ValueChange::Delete(layer, name) => self
                .slots
                .remove(&name, layer - 1)
                .ok_or(WorldFault::OtherLayer),
        }
    }

    fn undo(&mut self, undo: SlotUndo) {
        self.slots.undo(undo);
    }
}
