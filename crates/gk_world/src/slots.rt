//! Rows of cells by name. Each cell is a text or absent, and each change can be undone.
ghost use Rattle.std.specs.Prelude.{◌≡◌, List, [], ◌+◌, ◌<◌, length, take, MatchOption, None, Some, OnOk, OnErr, IfOk, IfErr, IfSome, IfNone, is_none, true, false, option_map, option_copied, string_bytes};
ghost use Rattle.gk_world.specs.Refusals.{joined};
ghost use Rattle.gk_world.specs.Slots.{HasLonger, grown, cut_to, text_at, with_cell, with_moved, cells_of, name_at, Puts, Writes, WritesAt, Moves, Adds, IsPosition, IsMissing, IsAt, IsNew, slots_of, Fits, undone, Undoes, NamesDiffer};
ghost use Rattle.gk_world.specs.Cells.{cell_at};

use crate::cells::Cells;
use crate::refusals::WorldFault;
use indexmap::IndexMap;
use std::alloc::Global;
use std::marker::Model;

/// The inverse of one change of one row.
#[derive(Drop)]
pub enum SlotUndo {
    /// The row at a position had this text, or none, in a cell.
    Restore(usize, usize, Option<String>),
    /// The row at a position is new, and has its only text in this cell.
    Created(usize, usize),
    /// The text in a cell of the row at a position had this length, and has more at its end.
    Cut(usize, usize, usize),
    /// The text in a cell moved from the row at the first position to the row at the second, which had this text, or
    /// none. The cell comes third.
    Moved(usize, usize, usize, Option<String>),
    /// The text in a cell moved from the row at the first position to a new row at the second. The cell comes third.
    MovedToNew(usize, usize, usize),
}

/// Rows in the order in which their names were added, each name once. A row stays even if all of its cells are absent.
#[derive(Drop)]
pub struct Slots<C: Cells> {
    rows: IndexMap<String, C>,
}

impl<C: Cells> Model for Slots<C> {
    ghost use Rattle.std.specs.Prelude.{List};
    ghost use Rattle.gk_world.specs.Cells.{Slot};
    ghost use Rattle.gk_world.specs.Slots.{slots_of, NamesDiffer};

    ghost Value = { List Slot };

    ghost view = { λ s. slots_of C.cells s.rows.entries };

    ghost invariant = { λ s. NamesDiffer (slots_of C.cells s.rows.entries) };
}

impl<C: Cells> Slots<C> {
    /// Returns slots without rows. It doesn't allocate.
    pub fn new(alloc: Global) -> Self
        ensures { result ≡ [] }
    {
        Slots {
            rows: IndexMap::new(alloc),
        }
    }

    /// Returns the position of a name's row, if it has one.
    #[tactic(auto, using(crate::proofs::RowsLemmas::found_at))]
    fn position(&self, name: &str) -> Option<usize>
        ensures { MatchOption result (IsNew name.now self.now) (λ i. IsAt name.now self.now i) }
    {
        self.rows.get_index_of(name)
    }

    /// Returns the text in a cell of the row at a position, if it has one.
    fn cell(&self, position: usize, cell: usize) -> Option<&str>
        requires position { position < length self.now }
        requires cell { cell < C.width }
        ensures { option_copied result ≡ cell_at cell (cells_of self.now position) }
    {
        self.rows[position].text(cell)
    }

    /// Puts a text, or none, into a cell of the row at a position, and returns the undo.
    fn write(&mut self, position: usize, cell: usize, text: Option<String>) -> SlotUndo
        requires position { position < length self.old }
        requires cell { cell < C.width }
        ensures writes { WritesAt position cell (option_map string_bytes text) self.old self.new }
        ensures set { self.new ≡ with_cell self.old position cell (option_map string_bytes text) }
        ensures fits { Fits C.width result self.new }
        ensures before { undone result self.new ≡ self.old }
    {
        let old = self.exchange(position, cell, text);
        SlotUndo::Restore(position, cell, old)
    }

    /// Puts a text, or none, into a cell of the row at a position, and returns its old text.
    fn exchange(&mut self, position: usize, cell: usize, text: Option<String>) -> Option<String>
        requires position { position < length self.old }
        requires cell { cell < C.width }
        ensures within { cell < length (cells_of self.old position) }
        ensures set { self.new ≡ with_cell self.old position cell (option_map string_bytes text) }
        ensures old { option_map string_bytes result ≡ cell_at cell (cells_of self.old position) }
    {
        let cells = &mut self.rows[position];
        cells.replace(cell, text)
    }

    /// Moves the content of a cell from one row to another, and leaves a text, or none, in its place. Returns the old
    /// text of the other row. It doesn't allocate.
    fn carry(&mut self, from: usize, to: usize, cell: usize, left: Option<String>) -> Option<String>
        requires from { from < length self.old }
        requires to { to < length self.old }
        requires cell { cell < C.width }
        ensures within { cell < length (cells_of self.old from) }
        ensures within_to { cell < length (cells_of self.old to) }
        ensures set { self.new ≡ with_moved self.old from to cell (option_map string_bytes left) }
        ensures old { option_map string_bytes result ≡ cell_at cell
            (cells_of (with_cell self.old from cell (option_map string_bytes left)) to) }
    {
        let text = self.exchange(from, cell, left);
        self.exchange(to, cell, text)
    }

    /// Moves the text in a cell from one row to another, and returns the undo. It doesn't allocate.
    fn move_over(&mut self, from: usize, to: usize, cell: usize) -> SlotUndo
        requires from { from < length self.old }
        requires to { to < length self.old }
        requires cell { cell < C.width }
        ensures moves { Moves (name_at self.old from) (name_at self.old to) cell self.old self.new }
        ensures fits { Fits C.width result self.new }
        ensures before { undone result self.new ≡ self.old }
    {
        self.names_differ();
        let old = self.carry(from, to, cell, None);
        SlotUndo::Moved(from, to, cell, old)
    }

    /// Moves the text in a cell from the row at a position to a new row with this name, and returns the undo.
    fn move_to_new(
        &mut self,
        from: usize,
        name: String,
        cell: usize,
    ) -> Result<SlotUndo, WorldFault>
        requires missing { IsMissing (string_bytes name) self.old }
        requires from { from < length self.old }
        requires cell { cell < C.width }
        ensures moves { OnOk result
            (Moves (name_at self.old from) (string_bytes name) cell self.old self.new) }
        ensures fits { IfOk result (λ u. Fits C.width u self.new) }
        ensures before { IfOk result (λ u. undone u self.new ≡ self.old) }
        ensures err { OnErr result (self.new ≡ self.old) }
        ensures memory { IfErr result (λ e. e ≡ WorldFault.Memory) }
    {
        let position = self.rows.len();
        let empty = String::new(*self.rows.allocator());
        drop(self.push(name, cell, empty)?);
        drop(self.carry(from, position, cell, None));
        Ok(SlotUndo::MovedToNew(from, position, cell))
    }

    /// Appends to the text in a cell of the row at a position, which must have one.
    fn grow(&mut self, position: usize, cell: usize, more: &str) -> Result<SlotUndo, WorldFault>
        requires position { position < length self.old }
        requires cell { cell < C.width }
        requires text { is_none (cell_at cell (cells_of self.old position)) ≡ false }
        ensures writes { OnOk result
            (WritesAt position cell (grown (cell_at cell (cells_of self.old position)) more.now)
            self.old self.new) }
        ensures fits { IfOk result (λ u. Fits C.width u self.new) }
        ensures before { IfOk result (λ u. undone u self.new ≡ self.old) }
        ensures err { OnErr result (self.new ≡ self.old) }
        ensures memory { IfErr result (λ e. e ≡ WorldFault.Memory) }
    {
        let Some(mut text) = self.exchange(position, cell, None) else {
            return Err(WorldFault::Absent);
        };
        let kept = text.as_str().len();
        let answer = text.push_str(more);
        drop(self.exchange(position, cell, Some(text)));
        match answer {
            Ok(()) => Ok(SlotUndo::Cut(position, cell, kept)),
            Err(_) => Err(WorldFault::Memory),
        }
    }

    /// Cuts the text in a cell of the row at a position to a length. It doesn't allocate.
    fn cut(&mut self, position: usize, cell: usize, kept: usize)
        requires { HasLonger C.width self.old position cell kept }
        ensures { self.new ≡ with_cell self.old position cell
            (cut_to kept (cell_at cell (cells_of self.old position))) }
    {
        if let Some(mut text) = self.exchange(position, cell, None) {
            text.truncate(kept);
            drop(self.exchange(position, cell, Some(text)));
        }
    }

    /// Adds a row at the end, with its only text in a cell.
    fn push(&mut self, name: String, cell: usize, text: String) -> Result<SlotUndo, WorldFault>
        requires missing { IsMissing (string_bytes name) self.old }
        requires cell { cell < C.width }
        ensures adds { OnOk result
            (Adds (string_bytes name) cell (string_bytes text) self.old self.new) }
        ensures writes { OnOk result (Puts name cell text self.old self.new) }
        ensures fits { IfOk result (λ u. Fits C.width u self.new) }
        ensures before { IfOk result (λ u. undone u self.new ≡ self.old) }
        ensures err { OnErr result (self.new ≡ self.old) }
        ensures memory { IfErr result (λ e. e ≡ WorldFault.Memory) }
    {
        let position = self.rows.len();
        match self.rows.insert(name, C::only(cell, text)) {
            Ok(_) => Ok(SlotUndo::Created(position, cell)),
            Err(_) => Err(WorldFault::Memory),
        }
    }

    /// Removes the last row, which has to be at this position. It doesn't allocate.
    fn pop(&mut self, position: usize)
        requires { length self.old ≡ position + 1 }
        ensures { self.new ≡ take position self.old }
    {
        drop(self.rows.pop());
    }

    /// Moves the text in a cell of the last row back to the row at a position, and removes the last row. It doesn't
    /// allocate.
    fn move_back(&mut self, from: usize, position: usize, cell: usize)
        requires { Fits C.width (SlotUndo.MovedToNew from position cell) self.old }
        ensures { self.new ≡ undone (SlotUndo.MovedToNew from position cell) self.old }
    {
        let text = self.exchange(position, cell, None);
        self.pop(position);
        drop(self.exchange(from, cell, text));
    }

    /// Shows that no two rows have the same name. It doesn't allocate.
    pub fn names_differ(&self)
        ensures { NamesDiffer self.now }
    {
        let _ = &self.rows;
    }

    /// Returns the number of rows.
    pub fn len(&self) -> usize
        ensures { result ≡ length self.now }
    {
        self.rows.len()
    }

    /// Returns the name of the row at a position.
    pub fn name(&self, position: usize) -> &str
        requires { position < length self.now }
        ensures { result.now ≡ name_at self.now position }
    {
        match self.rows.get_index(position) {
            Some((name, _)) => name.as_str(),
            None => "",
        }
    }

    /// Returns the text in a cell of a name, if it has one.
    pub fn text(&self, name: &str, cell: usize) -> Option<&str>
        requires { cell < C.width }
        ensures { option_copied result ≡ text_at cell self.now name.now }
    {
        match self.position(name) {
            Some(position) => self.cell(position, cell),
            None => None,
        }
    }

    /// Sets the text in a cell of a name. A name without a row gets one at the end.
    pub fn put(&mut self, name: String, cell: usize, text: String) -> Result<SlotUndo, WorldFault>
        requires { cell < C.width }
        ensures writes { OnOk result (Puts name cell text self.old self.new) }
        ensures fits { IfOk result (λ u. Fits C.width u self.new) }
        ensures before { IfOk result (λ u. undone u self.new ≡ self.old) }
        ensures names { NamesDiffer self.new }
        ensures err { OnErr result (self.new ≡ self.old) }
        ensures memory { IfErr result (λ e. e ≡ WorldFault.Memory) }
    {
        let answer = match self.position(name.as_str()) {
            Some(position) => Ok(self.write(position, cell, Some(text))),
            None => self.push(name, cell, text),
        };
        self.names_differ();
        answer
    }

    /// Appends to the text in a cell of a name, which must have one.
    pub fn extend(&mut self, name: &str, cell: usize, more: &str) -> Result<SlotUndo, WorldFault>
        requires cell { cell < C.width }
        requires there { is_none (text_at cell self.old name.now) ≡ false }
        ensures writes { OnOk result
            (Writes name.now cell (Some (joined (text_at cell self.old) name.now more.now))
            self.old self.new) }
        ensures fits { IfOk result (λ u. Fits C.width u self.new) }
        ensures before { IfOk result (λ u. undone u self.new ≡ self.old) }
        ensures names { NamesDiffer self.new }
        ensures err { OnErr result (self.new ≡ self.old) }
        ensures memory { IfErr result (λ e. e ≡ WorldFault.Memory) }
    {
        let answer = match self.position(name) {
            Some(position) => self.grow(position, cell, more),
            None => Err(WorldFault::Absent),
        };
        self.names_differ();
        answer
    }

    /// Moves the text in a cell of a name, which must have one, to another name. A name without a row gets one at the
    /// end. The text isn't copied.
    pub fn rename(&mut self, name: &str, to: String, cell: usize) -> Result<SlotUndo, WorldFault>
        requires cell { cell < C.width }
        requires there { is_none (text_at cell self.old name.now) ≡ false }
        ensures moves { OnOk result (Moves name.now (string_bytes to) cell self.old self.new) }
        ensures fits { IfOk result (λ u. Fits C.width u self.new) }
        ensures before { IfOk result (λ u. undone u self.new ≡ self.old) }
        ensures names { NamesDiffer self.new }
        ensures err { OnErr result (self.new ≡ self.old) }
        ensures memory { IfErr result (λ e. e ≡ WorldFault.Memory) }
    {
        let answer = match (self.position(name), self.position(to.as_str())) {
            (None, _) => Err(WorldFault::Absent),
            (Some(from), Some(position)) => Ok(self.move_over(from, position, cell)),
            (Some(from), None) => self.move_to_new(from, to, cell),
        };
        self.names_differ();
        answer
    }

    /// Removes the text from a cell of a name, if it has one. The row stays.
    pub fn remove(&mut self, name: &str, cell: usize) -> Option<SlotUndo>
        requires { cell < C.width }
        ensures writes { IfSome result (λ _. Writes name.now cell None self.old self.new) }
        ensures fits { IfSome result (λ u. Fits C.width u self.new) }
        ensures before { IfSome result (λ u. undone u self.new ≡ self.old) }
        ensures names { NamesDiffer self.new }
        ensures found { IfSome result (λ _. is_none (text_at cell self.old name.now) ≡ false) }
        ensures absent { IfNone result (is_none (text_at cell self.old name.now) ≡ true) }
        ensures none { IfNone result (self.new ≡ self.old) }
    {
        let undo = match self.position(name) {
            Some(position) if self.cell(position, cell).is_some() => {
                Some(self.write(position, cell, None))
            }
            _ => None,
        };
        self.names_differ();
        undo
    }

    /// Undoes a change. It doesn't allocate.
    pub fn undo(&mut self, undo: SlotUndo)
        requires { Fits C.width undo self.old }
        ensures slots { self.new ≡ undone undo self.old }
        ensures maps { Undoes undo self.old self.new }
    {
        self.names_differ();
        match undo {
            SlotUndo::Restore(position, cell, old) => drop(self.write(position, cell, old)),
            SlotUndo::Created(position, _) => self.pop(position),
            SlotUndo::Cut(position, cell, kept) => self.cut(position, cell, kept),
            SlotUndo::Moved(from, to, cell, old) => drop(self.carry(to, from, cell, old)),
            SlotUndo::MovedToNew(from, position, cell) => self.move_back(from, position, cell),
        }
    }
}
