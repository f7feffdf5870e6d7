//! Files, variables and values together.
ghost use Rattle.std.specs.Prelude.{◌≡◌, ◌≤◌, [], IfOk};
ghost use Rattle.gk_world.specs.Listing.{IsListing};
ghost use Rattle.gk_world.specs.State as state;
ghost use Rattle.gk_world.specs.State.{state_of};
ghost use Rattle.gk_world.specs.World.{contents_of, NamesDiffer};

use crate::listing::Listing;
use crate::refusals::WorldFault;
use crate::reversible::Reversible;
use crate::slots::SlotUndo;
use crate::table::{Table, TableChange};
use crate::values::{ValueChange, Values};
use std::alloc::{AllocError, Global};

/// A change of one part of the world.
#[derive(Drop)]
pub enum WorldChange {
    File(TableChange),
    Env(TableChange),
    Value(ValueChange),
}

/// The inverse of a change of one part of the world.
#[derive(Drop)]
pub enum WorldUndo {
    File(SlotUndo),
    Env(SlotUndo),
    Value(SlotUndo),
}

/// Files, variables and values.
#[derive(Drop)]
pub struct World {
    pub files: Table,
    pub env: Table,
    pub values: Values,
}

impl World {
    /// Returns an empty world. It doesn't allocate.
    pub fn new(alloc: Global) -> Self
        ensures files { result.files ≡ [] }
        ensures env { result.env ≡ [] }
        ensures values { result.values ≡ [] }
    {
        World {
            files: Table::new(alloc),
            env: Table::new(alloc),
            values: Values::new(alloc),
        }
    }

    /// Shows that no part has a name twice. It doesn't allocate.
    pub fn names_differ(&self)
        ensures { NamesDiffer self.now }
    {
        self.files.names_differ();
        self.env.names_differ();
        self.values.names_differ();
    }

    /// Returns what is visible with `layers` open layers.
    pub fn listing(&self, alloc: Global, layers: usize) -> Result<Listing, AllocError>
        requires { layers ≤ state.layers }
        ensures { IfOk result (IsListing (state_of (contents_of layers self.now))) }
    {
        Ok(Listing {
            files: self.files.listing(alloc)?,
            env: self.env.listing(alloc)?,
            values: self.values.listing(alloc, layers)?,
        })
    }
}

impl Reversible for World {
    type Change = WorldChange;

    type Undo = WorldUndo;

    ghost use Rattle.gk_world.specs.declared.world.World.{World};
    ghost use Rattle.gk_world.specs.World.{Fits, undone, Undoes, Steps, Refuses, CanApply};

    ghost Slots = { World };

    ghost slots = { λ w. w };

    ghost fits = { Fits };

    ghost undone = { undone };

    ghost undoes = { Undoes };

    ghost stepped = { Steps };

    ghost refuses = { Refuses };

    ghost can_apply = { CanApply };

    fn apply(&mut self, change: WorldChange) -> Result<WorldUndo, WorldFault> {
        match change {
            WorldChange::File(change) => Ok(WorldUndo::File(self.files.apply(change)?)),
            WorldChange::Env(change) => Ok(WorldUndo::Env(self.env.apply(change)?)),
            WorldChange::Value(change) => Ok(WorldUndo::Value(self.values.apply(change)?)),
        }
    }

    fn undo(&mut self, undo: WorldUndo) {
        match undo {
            WorldUndo::File(undo) => self.files.undo(undo),
            WorldUndo::Env(undo) => self.env.undo(undo),
            WorldUndo::Value(undo) => self.values.undo(undo),
        }
    }
}
