//! The boundaries of a text's characters.
ghost use Rattle.std.specs.Prelude.{IfOk};
ghost use Rattle.gk_steps.specs.CharBoundaries.{AreBoundaries};

use std::alloc::{AllocError, Global};

/// Returns the character boundaries of a text, from its end to its beginning: `c` characters come after the boundary at
/// `c`.
pub(crate) fn boundaries_of(alloc: Global, text: &str) -> Result<Vec<usize>, AllocError>
    ensures { IfOk result (λ boundaries. AreBoundaries text.now boundaries.items) }
{
    let mut boundaries = Vec::new(alloc);
    boundaries.push(text.len())?;
    for after in 0..text.len() {
        let position = text.len() - 1 - after;
        if text.is_char_boundary(position) {
            boundaries.push(position)?;
        }
    }
    Ok(boundaries)
}
