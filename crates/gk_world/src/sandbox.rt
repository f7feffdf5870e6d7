//! The world that steps change: files, variables and values, in layers that a journal undoes.
ghost use Rattle.std.specs.Prelude.{◌≡◌, ◌<◌, length, None, OnOk, OnErr, IfOk, option_copied, string_bytes};
ghost use Rattle.std.specs.FinMap as finite;
ghost use Rattle.gk_world.specs.Listing.{IsListing};
ghost use Rattle.gk_world.specs.State.{see, state_of, layers};
ghost use Rattle.gk_world.specs.Refusals as refusals;
ghost use Rattle.gk_world.specs.Refusals.{append_refusal, remove_refusal, rename_refusal, delete_refusal, IsAnswer};
ghost use Rattle.gk_world.specs.World.{IsHere, changed, refusal};
ghost use Rattle.gk_world.specs.Sandbox.{PutsFile, AppendsToFile, RemovesFile, RenamesFile, PutsEnv, RemovesEnv, SetsValue, DeletesValue, new_sandbox, depth, layer_begun, EndsLayer, EndsByUndos, Becomes, UndosGiveBack, TextsAreShort, LayersGiveBack, ChangesAreOfState};

use crate::cells::LAYERS;
use crate::journal::Journal;
use crate::listing::Listing;
use crate::refusals::{WorldFault, put_refusal};
use crate::reversible::Reversible;
use crate::table::TableChange;
use crate::values::ValueChange;
use crate::world::{World, WorldChange};
use std::alloc::{AllocError, Global};
use std::marker::Model;

/// An open layer: its number, counted from 1 at the outermost. It can't be dropped, and only `Sandbox::end` consumes
/// it. (behave's documentation: context layers)
pub struct Layer {
    number: usize,
}

impl Model for Layer {
    ghost use Rattle.std.specs.Prelude.{ℕ, ◌<◌};

    ghost Value = { ℕ };

    ghost view = { λ l. l.number };

    ghost invariant = { λ l. 0 < l.number };
}

/// Files, variables and values, and layers whose end restores the contents at their beginning. Names have 1 to 255
/// bytes, texts at most 1,048,576. (behave's documentation: context layers)
#[derive(Drop)]
pub struct Sandbox {
    alloc: Global,
    world: World,
    journal: Journal<World>,
    // The number of recorded changes when each layer began, the outermost first.
    starts: [usize; LAYERS],
    depth: usize,
}

impl Model for Sandbox {
    ghost use Rattle.gk_world.specs.Sandbox.{SandboxValue, sandbox_code};
    ghost use Rattle.gk_world.specs.Stored.{value_of, open_starts, IsSound};

    ghost Value = { SandboxValue };

    ghost coded = { sandbox_code };

    ghost view = { λ s. value_of s.world s.journal (open_starts s.depth s.starts) };

    ghost invariant = { λ s. IsSound s.world s.journal (open_starts s.depth s.starts) };
}

// Copies a name and a text.
fn copied(alloc: Global, name: &str, text: &str) -> Result<(String, String), AllocError>
    ensures { IfOk result (λ copies.
        (string_bytes copies.0 ≡ name.now) × (string_bytes copies.1 ≡ text.now)) }
{
    let name = String::from_str(alloc, name)?;
    let text = String::from_str(alloc, text)?;
    Ok((name, text))
}

// Copies a name and a text, unless the text can't be put under the name.
fn copied_for_put(alloc: Global, name: &str, text: &str) -> Result<(String, String), WorldFault>
    ensures answer { IsAnswer (refusals.put_refusal name.now text.now) result }
    ensures copies { IfOk result (λ copies.
        (string_bytes copies.0 ≡ name.now) × (string_bytes copies.1 ≡ text.now)) }
{
    if let Some(fault) = put_refusal(name, text) {
        return Err(fault);
    }
    Ok(copied(alloc, name, text)?)
}

impl Sandbox {
    /// Returns an empty sandbox with no open layer. It doesn't allocate.
    pub fn new(alloc: Global) -> Sandbox
        ensures { result ≡ new_sandbox }
    {
        Sandbox {
            alloc,
            world: World::new(alloc),
            journal: Journal::new(alloc),
            starts: [0; LAYERS],
            depth: 0,
        }
    }

    /// Returns the number of open layers. It doesn't allocate.
    #[tactic(auto, using(crate::proofs::SandboxLemmas::depth_is))]
    pub fn depth(&self) -> usize
        ensures { result ≡ depth self.now }
    {
        self.depth
    }

    /// Returns the number of changes recorded in the open layers. It doesn't allocate.
    #[tactic(auto, using(crate::proofs::SandboxLemmas::recorded_is))]
    pub fn recorded(&self) -> usize
        ensures { result ≡ length self.now.entries }
    {
        self.journal.len()
    }

    /// Shows that undoing the changes recorded since an open layer began leads back to what its end restores. Each open
    /// layer has a map of values, and nothing is recorded if no layer is open.
    #[tactic(auto, using(crate::proofs::SandboxLemmas::values_are, crate::proofs::ReversibleLemmas::undos_give_back))]
    pub fn undos_give_back(&self)
        ensures undos { UndosGiveBack self.now }
        ensures values { length self.now.now.values ≡ depth self.now }
        ensures outside { depth self.now ≡ 0 → length self.now.entries ≡ 0 }
    {
        self.world.names_differ();
    }

    /// Shows that no text has more bytes than `LONGEST_TEXT`, now or after the end of an open layer.
    pub fn texts_are_short(&self)
        ensures { TextsAreShort self.now }
    {
        let _ = &self.world;
    }

    /// Begins a layer inside the open ones, of which there have to be fewer than `LAYERS`. Its number is the new depth,
    /// and it has no values yet. It doesn't allocate. (behave's documentation: context layers)
    pub fn begin(&mut self) -> Layer
        requires { depth self.old < layers }
        ensures ok { self.new ≡ layer_begun self.old }
        ensures number { result ≡ depth self.new }
    {
        self.starts[self.depth] = self.journal.len();
        self.depth += 1;
        Layer { number: self.depth }
    }

    /// Ends the innermost layer, which `layer` has to be. The contents and the number of recorded changes are again
    /// those at its beginning. It doesn't allocate. (behave's documentation: context layers)
    pub fn end(&mut self, layer: Layer)
        requires { layer ≡ depth self.old }
        ensures ends { EndsLayer self.old self.new }
        ensures undone { EndsByUndos self.old self.new }
    {
        // A layer can't be dropped; destructuring consumes it.
        let Layer { number } = layer;
        let outer = number - 1;
        self.world.names_differ();
        self.journal.rewind(&mut self.world, self.starts[outer]);
        self.depth = outer;
    }

    /// Makes a change, and records it if a layer is open. A refusal changes nothing.
    fn change(&mut self, change: WorldChange) -> Result<(), WorldFault>
        requires here { IsHere change (depth self.old) }
        requires allowed { refusal change self.old.now ≡ None }
        ensures ok { OnOk result (Becomes (changed change self.old.now) self.old self.new) }
        ensures answer { IsAnswer (refusal change self.old.now) result }
        ensures err { OnErr result (self.new ≡ self.old) }
    {
        if self.depth == 0 {
            drop(self.world.apply(change)?);
            return Ok(());
        }
        let answer = self.journal.change(&mut self.world, change);
        self.world.names_differ();
        answer
    }

    /// Puts a file. Refusals are checked in the order `BadName`, `TextTooLong`. A refusal changes nothing; `Memory` is
    /// returned only if there is no other reason.
    pub fn put_file(&mut self, name: &str, text: &str) -> Result<(), WorldFault>
        ensures ok { OnOk result (PutsFile self.old name.now text.now self.new) }
        ensures answer { IsAnswer (refusals.put_refusal name.now text.now) result }
        ensures err { OnErr result (self.new ≡ self.old) }
    {
        let (name, text) = copied_for_put(self.alloc, name, text)?;
        self.change(WorldChange::File(TableChange::Put(name, text)))
    }

    /// Appends to a file. Refusals are checked in the order `BadName`, `Absent`, `TextTooLong`. A refusal changes
    /// nothing; `Memory` is returned only if there is no other reason.
    pub fn append_file(&mut self, name: &str, more: &str) -> Result<(), WorldFault>
        ensures ok { OnOk result (AppendsToFile self.old name.now more.now self.new) }
        ensures answer { IsAnswer
            (append_refusal (finite.get self.old.now.files) name.now more.now) result }
        ensures err { OnErr result (self.new ≡ self.old) }
    {
        if let Some(fault) = self.world.files.append_refusal(name, more) {
            return Err(fault);
        }
        let (name, more) = copied(self.alloc, name, more)?;
        self.change(WorldChange::File(TableChange::Append(name, more)))
    }

    /// Sets a variable. Refusals are checked in the order `BadName`, `TextTooLong`. A refusal changes nothing; `Memory`
    /// is returned only if there is no other reason.
    pub fn put_env(&mut self, name: &str, text: &str) -> Result<(), WorldFault>
        ensures ok { OnOk result (PutsEnv self.old name.now text.now self.new) }
        ensures answer { IsAnswer (refusals.put_refusal name.now text.now) result }
        ensures err { OnErr result (self.new ≡ self.old) }
    {
        let (name, text) = copied_for_put(self.alloc, name, text)?;
        self.change(WorldChange::Env(TableChange::Put(name, text)))
    }

    /// Sets a value of the innermost layer, which hides outer values of the same name while the layer is open. Refusals
    /// are checked in the order `BadName`, `TextTooLong`. A refusal changes nothing; `Memory` is returned only if there
    /// is no other reason.
    /// (behave's documentation: context layers)
    pub fn set_value(&mut self, name: &str, text: &str) -> Result<(), WorldFault>
        requires { 0 < depth self.old }
        ensures ok { OnOk result (SetsValue self.old name.now text.now self.new) }
        ensures answer { IsAnswer (refusals.put_refusal name.now text.now) result }
        ensures err { OnErr result (self.new ≡ self.old) }
    {
        let (name, text) = copied_for_put(self.alloc, name, text)?;
        let layer = self.depth();
        self.change(WorldChange::Value(ValueChange::Set(layer, name, text)))
    }

    /// Removes a file. Refusals are checked in the order `BadName`, `Absent`. A refusal changes nothing; `Memory` is
    /// returned only if there is no other reason.
    pub fn remove_file(&mut self, name: &str) -> Result<(), WorldFault>
        ensures ok { OnOk result (RemovesFile self.old name.now self.new) }
        ensures answer { IsAnswer (remove_refusal (finite.get self.old.now.files) name.now) result }
        ensures err { OnErr result (self.new ≡ self.old) }
    {
        if let Some(fault) = self.world.files.remove_refusal(name) {
            return Err(fault);
        }
        let name = String::from_str(self.alloc, name)?;
        self.change(WorldChange::File(TableChange::Remove(name)))
    }

    /// Renames a file: its text moves to the new name, and isn't copied. A file of the new name is replaced. Equal names
    /// change nothing, but the change is recorded. Refusals are checked in the order `BadName` (of either name),
    /// `Absent`. A refusal changes nothing; `Memory` is returned only if there is no other reason.
    pub fn rename_file(&mut self, name: &str, to: &str) -> Result<(), WorldFault>
        ensures ok { OnOk result (RenamesFile self.old name.now to.now self.new) }
        ensures answer { IsAnswer
            (rename_refusal (finite.get self.old.now.files) name.now to.now) result }
        ensures err { OnErr result (self.new ≡ self.old) }
    {
        if let Some(fault) = self.world.files.rename_refusal(name, to) {
            return Err(fault);
        }
        let (name, to) = copied(self.alloc, name, to)?;
        self.change(WorldChange::File(TableChange::Rename(name, to)))
    }

    /// Removes a variable. Refusals are checked in the order `BadName`, `Absent`. A refusal changes nothing; `Memory`
    /// is returned only if there is no other reason.
    pub fn remove_env(&mut self, name: &str) -> Result<(), WorldFault>
        ensures ok { OnOk result (RemovesEnv self.old name.now self.new) }
        ensures answer { IsAnswer (remove_refusal (finite.get self.old.now.env) name.now) result }
        ensures err { OnErr result (self.new ≡ self.old) }
    {
        if let Some(fault) = self.world.env.remove_refusal(name) {
            return Err(fault);
        }
        let name = String::from_str(self.alloc, name)?;
        self.change(WorldChange::Env(TableChange::Remove(name)))
    }

    /// Deletes a value of the innermost layer. Refusals are checked in the order `BadName`, `Absent` (no layer has it),
    /// `OtherLayer` (only outer layers have it). A refusal changes nothing; `Memory` is returned only if there is no
    /// other reason.
    /// (behave's documentation: context layers)
    #[tactic(auto, using(std::proofs::lemmas::Result::err_from_is_err_and, crate::proofs::SandboxLemmas::delete_refusal_is, crate::proofs::SandboxLemmas::layer_is))]
    pub fn delete_value(&mut self, name: &str) -> Result<(), WorldFault>
        requires { 0 < depth self.old }
        ensures ok { OnOk result (DeletesValue self.old name.now self.new) }
        ensures answer { IsAnswer (delete_refusal (state_of self.old.now) name.now) result }
        ensures err { OnErr result (self.new ≡ self.old) }
    {
        let layer = self.depth();
        if let Some(fault) = self.world.values.delete_refusal(layer, name) {
            return Err(fault);
        }
        let name = String::from_str(self.alloc, name)?;
        self.change(WorldChange::Value(ValueChange::Delete(layer, name)))
    }

    /// Returns the text of a file, if it exists. It doesn't allocate.
    pub fn file(&self, name: &str) -> Option<&str>
        ensures { option_copied result ≡ finite.get self.now.now.files name.now }
    {
        self.world.files.get(name)
    }

    /// Returns the text of a variable, if it exists. It doesn't allocate.
    pub fn env(&self, name: &str) -> Option<&str>
        ensures { option_copied result ≡ finite.get self.now.now.env name.now }
    {
        self.world.env.get(name)
    }

    /// Returns the visible value of a name, if there is one. It doesn't allocate.
    /// (behave's documentation: context layers)
    pub fn value(&self, name: &str) -> Option<&str>
        ensures { option_copied result ≡ see (state_of self.now.now) name.now }
    {
        self.world.values.get(self.depth, name)
    }

    /// Lists files, variables and visible values, sorted by name. Fails only if memory can't be allocated.
    pub fn listing(&self, alloc: Global) -> Result<Listing, AllocError>
        ensures { IfOk result (IsListing (state_of self.now.now)) }
    {
        self.world.listing(alloc, self.depth)
    }
}
