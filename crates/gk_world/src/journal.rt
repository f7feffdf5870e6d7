//! A journal of changes.
ghost use Rattle.std.specs.Prelude.{◌≡◌, ◌<◌, ◌≤◌, List, [], length, drop, take, IfErr, ◌⊎◌, OnOk, OnErr};
ghost use Rattle.gk_world.specs.Journal.{rewound, FitAll, Records};

use crate::refusals::WorldFault;
use crate::reversible::Reversible;
use std::alloc::Global;
use std::marker::Model;

/// The undos of the changes made so far, the oldest first.
#[derive(Drop)]
pub struct Journal<T: Reversible> {
    entries: Vec<T::Undo>,
}

impl<T: Reversible> Model for Journal<T> {
    ghost Value = { List T.Undo };

    ghost view = { λ j. j.entries.items };
}

impl<T: Reversible> Journal<T> {
    /// Returns a journal without entries. It doesn't allocate.
    pub fn new(alloc: Global) -> Self
        ensures { result ≡ [] }
    {
        Journal {
            entries: Vec::new(alloc),
        }
    }

    /// Returns the number of recorded changes. It doesn't allocate.
    pub fn len(&self) -> usize
        ensures { result ≡ length self.now }
    {
        self.entries.len()
    }

    /// Makes a change and records its undo as the newest entry. Room for the entry is reserved before the change, so
    /// `Memory` can be returned instead of another fault. A refusal changes nothing and keeps every entry.
    pub fn change(&mut self, on: &mut T, change: T::Change) -> Result<(), WorldFault>
        requires { T.can_apply change }
        ensures recorded { OnOk result (Records T.undone T.fits
            self.old (T.slots on.old) self.new (T.slots on.new)) }
        ensures done { OnOk result (T.stepped change (T.slots on.old) (T.slots on.new)) }
        ensures refused { IfErr result (λ e.
            (e ≡ WorldFault.Memory) ⊎ T.refuses change (T.slots on.old) e) }
        ensures err { OnErr result ((self.new ≡ self.old) × (T.slots on.new ≡ T.slots on.old)) }
    {
        if self.entries.reserve(1).is_err() {
            return Err(WorldFault::Memory);
        }
        let undo = on.apply(change)?;
        self.entries.push(undo).unwrap();
        Ok(())
    }

    /// Undoes all but the first `count` changes, the newest first. It doesn't allocate.
    pub fn rewind(&mut self, on: &mut T, count: usize)
        requires count { count ≤ length self.old }
        requires fit { FitAll T.undone T.fits (drop count self.old) (T.slots on.old) }
        ensures slots { T.slots on.new ≡ rewound T.undone (drop count self.old) (T.slots on.old) }
        ensures entries { self.new ≡ take count self.old }
    {
        while self.entries.len() > count {
            let undo = self.entries.pop().unwrap();
            on.undo(undo);
        }
    }
}
