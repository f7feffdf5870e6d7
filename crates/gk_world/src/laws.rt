//! Laws of this crate's definitions. Each is the contract of an empty function.
ghost use Rattle.gk_world.specs.Sandbox.{ChangesAreOfState, LayersGiveBack};
ghost use Rattle.gk_world.specs.State.{Enters, PutsText, RemovesName};

/// States that inserting a text into a finite map sets it at its name and keeps the text of each other name.
#[tactic(auto, using(crate::proofs::StateLemmas::inserted))]
pub fn put_texts()
    ensures { PutsText }
{}

/// States that removing a name from a finite map leaves no text at it and keeps the text of each other name.
#[tactic(auto, using(crate::proofs::StateLemmas::removed))]
pub fn removed_texts()
    ensures { RemovesName }
{}

/// States that a layer's beginning keeps what is visible, and that the layer has no values yet.
#[tactic(auto, using(crate::proofs::StateLemmas::entered))]
pub fn layers_enter()
    ensures { Enters }
{}

/// States how each change of the contents changes the plain state.
/// (behave's documentation: context layers)
#[tactic(auto, using(crate::proofs::SandboxLaws::of_state))]
pub fn changes_are_of_state()
    ensures { ChangesAreOfState }
{}

/// States that the end of a layer restores the contents at its beginning, and leaves the layers further out as they
/// were. It does so whatever was done in the layer: changes, refused changes, and inner layers that have ended.
/// (behave's documentation: context layers)
#[tactic(auto, using(crate::proofs::SandboxLaws::give_back))]
pub fn layers_give_back()
    ensures { LayersGiveBack }
{}
