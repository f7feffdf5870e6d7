//! Removing a file in a layer.
ghost use Rattle.std.specs.Prelude.{◌≡◌, ◌<◌};
ghost use Rattle.gk_world.specs.Sandbox.{depth};
ghost use Rattle.gk_world.specs.State.{layers};

use gk_world::{Sandbox, WorldFault};

/// The observations in the layer.
#[derive(Drop)]
pub struct Seen {
    /// The result of removing the file `f`.
    pub removal: Result<(), WorldFault>,
    /// The result of the next change, which puts the file `g`.
    pub next: Result<(), WorldFault>,
    /// Whether the file `f` existed after both.
    pub is_there: bool,
}

/// Removes the file `f` in a new layer, puts the file `g`, and ends the layer, whatever they returned.
pub fn remove_in_layer(sandbox: &mut Sandbox) -> Seen
    requires { depth sandbox.old < layers }
    ensures { sandbox.new.saved ≡ sandbox.old.saved }
{
    let layer = sandbox.begin();
    let removal = sandbox.remove_file("f");
    let next = sandbox.put_file("g", "two");
    let is_there = sandbox.file("f").is_some();
    sandbox.end(layer);
    Seen {
        removal,
        next,
        is_there,
    }
}
