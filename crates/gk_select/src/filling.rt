//! Texts of an outline, filled from a row.
ghost use Rattle.std.specs.Prelude.{◌≡◌, ◌++◌, length, IfOk};
ghost use Rattle.std.specs.String.{string_bytes};
ghost use Rattle.gk_gherkin.specs.Feature.{texts};
ghost use Rattle.gk_select.specs.Filling as spec;
ghost use Rattle.gk_select.specs.Filling.{filled};

use crate::names::Names;
use std::alloc::{AllocError, Global};

/// Appends the filled text of `piece` and the `>` after it. `piece` itself has no `>`.
fn push_piece(
    filled: &mut String,
    piece: &str,
    columns: &Names<'_>,
    row: &[String],
) -> Result<(), AllocError>
    requires { length row.now ≡ length columns.now }
    ensures { IfOk result (λ _. string_bytes filled.new ≡ string_bytes filled.old
        ++ spec.filled_piece columns.now (texts row.now) piece.now) }
{
    let mut rest = piece;
    while let Some((before, name)) = rest.split_once('<') {
        filled.push_str(before)?;
        if let Some(cell) = columns.cell(row, name) {
            return filled.push_str(cell);
        }
        filled.push('<')?;
        rest = name;
    }
    filled.push_str(rest)?;
    filled.push('>')
}

/// Appends a text, filled as `fill` does it.
pub fn push_filled(
    filled: &mut String,
    text: &str,
    columns: &Names<'_>,
    row: &[String],
) -> Result<(), AllocError>
    requires { length row.now ≡ length columns.now }
    ensures { IfOk result (λ _. string_bytes filled.new ≡ string_bytes filled.old
        ++ spec.filled columns.now (texts row.now) text.now) }
{
    // A placeholder ends at the first `>` after its `<`, so only text before a `>` is looked up.
    let mut rest = text;
    while let Some((piece, after)) = rest.split_once('>') {
        push_piece(filled, piece, columns, row)?;
        rest = after;
    }
    filled.push_str(rest)
}

/// Returns a text with the row's cell in place of each `<h>` whose h is a header without `>`, from left to right.
///
/// The text of a cell isn't filled again. Of two equal headers the first counts. A `<` that begins no
/// placeholder stays. The row must have as many cells as the header. An error comes only if a growth was
/// refused. (Cucumber's Gherkin reference: scenario outline)
pub fn fill(
    alloc: Global,
    text: &str,
    columns: &Names<'_>,
    row: &[String],
) -> Result<String, AllocError>
    requires { length row.now ≡ length columns.now }
    ensures { IfOk result (λ s.
        string_bytes s ≡ filled columns.now (texts row.now) text.now) }
{
    // A cell may be a little longer than its placeholder.
    let room = text.len().saturating_add(8);
    let mut filled = String::with_capacity(alloc, room)?;
    push_filled(&mut filled, text, columns, row)?;
    Ok(filled)
}
