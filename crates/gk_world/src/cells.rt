//! The cells of a row, each a text or absent.
ghost use Rattle.std.specs.Prelude.{◌≡◌, ℕ, ◌<◌, List, [], ◌∷◌, length, map, Some, None, option_map, option_copied, string_bytes, slice_set, slice_index_or};
ghost use Rattle.gk_world.specs.Cells.{Cell, cell_at, IsOnly};

use std::mem::replace;

/// The number of layers that can be open: run, feature, rule and scenario. (behave's documentation: context layers;
/// that of a rule is this project's profile)
pub const LAYERS: usize = 4;

/// A fixed number of cells.
pub trait Cells: Drop {
    /// The number of cells.
    ghost width: { ℕ };

    /// The content of each cell, in order.
    ghost cells: { Self → List Cell };

    /// Returns cells in which only this one has a text.
    fn only(cell: usize, text: String) -> Self
        requires { cell < width }
        ensures { IsOnly cell (Some (string_bytes text)) (cells result) };

    /// Returns the text in a cell, if it has one.
    fn text(&self, cell: usize) -> Option<&str>
        requires { cell < width }
        ensures { option_copied result ≡ cell_at cell (cells self.now) };

    /// Puts a text, or none, into a cell, and returns its old text.
    fn replace(&mut self, cell: usize, text: Option<String>) -> Option<String>
        requires { cell < width }
        ensures within { cell < length (cells self.old) }
        ensures set { cells self.new ≡
            slice_set (cells self.old) cell (option_map string_bytes text) }
        ensures old { option_map string_bytes result ≡ cell_at cell (cells self.old) };
}

/// One cell.
impl Cells for Option<String> {
    ghost width = { 1 };

    ghost cells = { λ c. option_map string_bytes c ∷ [] };

    fn only(_cell: usize, text: String) -> Self {
        Some(text)
    }

    fn text(&self, _cell: usize) -> Option<&str> {
        match self {
            Some(text) => Some(text.as_str()),
            None => None,
        }
    }

    fn replace(&mut self, _cell: usize, text: Option<String>) -> Option<String> {
        replace(self, text)
    }
}

/// Puts new content into a cell, and returns the old content.
fn exchange(cells: &mut [Option<String>], cell: usize, text: Option<String>) -> Option<String>
    requires { cell < length cells.old }
    ensures after { cells.new ≡ slice_set cells.old cell text }
    ensures old { result ≡ slice_index_or cells.old cell None }
{
    replace(&mut cells[cell], text)
}

/// One cell for each layer, the outermost first.
impl Cells for [Option<String>; LAYERS] {
    ghost use Rattle.gk_world.specs.State.{layers};

    ghost width = { layers };

    ghost cells = { λ c. map (option_map string_bytes) c };

    fn only(cell: usize, text: String) -> Self {
        let mut cells = [None, None, None, None];
        cells[cell] = Some(text);
        cells
    }

    fn text(&self, cell: usize) -> Option<&str> {
        match &self[cell] {
            Some(text) => Some(text.as_str()),
            None => None,
        }
    }

    fn replace(&mut self, cell: usize, text: Option<String>) -> Option<String> {
        exchange(self, cell, text)
    }
}
