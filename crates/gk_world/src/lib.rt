//! The world that steps change: files, variables and values, in layers. Names and texts are its only input. Each change
//! in a layer is recorded with its inverse, and the end of the layer restores exactly the contents at its beginning.
#![tactic(auto)]

// What is refused, and what is listed.
mod listing;
mod refusals;

// Changes that can be undone.
mod journal;
mod reversible;

// How texts are stored.
mod cells;
mod slots;
mod table;
mod values;
mod world;

// The sandbox, and laws.
mod laws;
mod sandbox;

pub use cells::LAYERS;
pub use journal::Journal;
pub use laws::{changes_are_of_state, layers_enter, layers_give_back, put_texts, removed_texts};
pub use listing::Listing;
pub use refusals::{LONGEST_NAME, LONGEST_TEXT, WorldFault, is_bad_name};
pub use reversible::Reversible;
pub use sandbox::{Layer, Sandbox};
pub use slots::SlotUndo;
pub use table::{Table, TableChange};
pub use values::{ValueChange, Values};
