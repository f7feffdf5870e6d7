//! The count of the cells that matches fill.
ghost use Rattle.std.specs.Prelude.{◌≡◌, ◌≤◌, ◌+◌, [], ◌∷◌, ◌++◌, if◌then◌else◌, is_ok, OnOk};
ghost use Rattle.gk_steps.specs.FilledCells.{GoesOnBy};

use std::alloc::AllocError;

/// Counts the cells of tables as matches fill them. The count stops at the largest 64-bit number.
#[derive(Debug, Drop)]
pub(crate) struct CellCounter {
    /// The number of cells filled so far.
    pub filled: u64,
}

impl CellCounter {
    /// Returns a count of 0.
    pub(crate) fn new() -> CellCounter
        ensures { result.filled ≡ 0 }
    {
        CellCounter { filled: 0 }
    }

    /// Fills a cell and counts it. No other call fills a cell of a table. The count never decreases.
    pub(crate) fn fill(&mut self, row: &mut Vec<bool>, cell: bool) -> Result<(), AllocError>
        ensures items { row.new.items
            ≡ (if is_ok result then row.old.items ++ cell ∷ [] else row.old.items) }
        ensures most { self.new.filled ≤ self.old.filled + 1 }
        ensures least { self.old.filled ≤ self.new.filled }
        ensures filled { OnOk result (GoesOnBy 1 self.old.filled self.new.filled) }
    {
        row.push(cell)?;
        if self.filled < u64::MAX {
            self.filled += 1;
        }
        Ok(())
    }
}
