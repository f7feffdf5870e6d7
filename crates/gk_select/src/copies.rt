//! Copies of steps and texts, filled from a row or unchanged.
ghost use Rattle.std.specs.Prelude.{◌≡◌, length, map, IfOk};
ghost use Rattle.std.specs.String.{string_bytes};
ghost use Rattle.gk_gherkin.specs.Feature.{texts, block_value, step_value};
ghost use Rattle.gk_select.specs.Copies.{Appends};
ghost use Rattle.gk_select.specs.Filling.{filled, filled_block, filled_step};

use crate::filling::fill;
use crate::names::Names;
use gk_gherkin::{Block, Step};
use std::alloc::{AllocError, Global};

/// Appends copies of texts.
pub fn push_texts(alloc: Global, into: &mut Vec<String>, from: &[String]) -> Result<(), AllocError>
    ensures { Appends string_bytes result into.old.items into.new.items (texts from.now) }
{
    for text in from {
        into.push(String::from_str(alloc, text.as_str())?)?;
    }
    Ok(())
}

/// Returns copies of texts. An error comes only if a growth was refused.
pub fn copied_texts(alloc: Global, from: &[String]) -> Result<Vec<String>, AllocError>
    ensures { IfOk result (λ copies. texts copies.items ≡ texts from.now) }
{
    let mut copies = Vec::new(alloc);
    push_texts(alloc, &mut copies, from)?;
    Ok(copies)
}

fn fill_texts(
    alloc: Global,
    from: &[String],
    columns: &Names<'_>,
    row: &[String],
) -> Result<Vec<String>, AllocError>
    requires { length row.now ≡ length columns.now }
    ensures { IfOk result (λ v.
        texts v.items ≡ map (filled columns.now (texts row.now)) (texts from.now)) }
{
    let mut filled = Vec::with_capacity(alloc, from.len())?;
    for text in from {
        filled.push(fill(alloc, text.as_str(), columns, row)?)?;
    }
    Ok(filled)
}

fn fill_table(
    alloc: Global,
    from: &[Vec<String>],
    columns: &Names<'_>,
    row: &[String],
) -> Result<Vec<Vec<String>>, AllocError>
    requires { length row.now ≡ length columns.now }
    ensures { let cells = map (λ row. texts row.items) in IfOk result (λ v.
        cells v.items ≡ map (map (filled columns.now (texts row.now))) (cells from.now)) }
{
    let mut filled = Vec::with_capacity(alloc, from.len())?;
    for cells in from {
        filled.push(fill_texts(alloc, cells.as_slice(), columns, row)?)?;
    }
    Ok(filled)
}

fn fill_block(
    alloc: Global,
    block: &Block,
    columns: &Names<'_>,
    row: &[String],
) -> Result<Block, AllocError>
    requires { length row.now ≡ length columns.now }
    ensures { IfOk result (λ b.
        block_value b ≡ filled_block (filled columns.now (texts row.now)) (block_value block.now)) }
{
    match block {
        Block::Empty => Ok(Block::Empty),
        Block::Text(text) => Ok(Block::Text(fill(alloc, text.as_str(), columns, row)?)),
        Block::Table(rows) => Ok(Block::Table(fill_table(alloc, rows.as_slice(), columns, row)?)),
    }
}

/// Returns a step of an outline as it is run for a row: its text, its doc string and its table's cells are
/// filled from the row. The row must have as many cells as there are columns. An error comes only if a growth was
/// refused. (Cucumber's Gherkin reference: scenario outline)
pub fn fill_step(
    alloc: Global,
    step: &Step,
    columns: &Names<'_>,
    row: &[String],
) -> Result<Step, AllocError>
    requires { length row.now ≡ length columns.now }
    ensures { IfOk result (λ s.
        step_value s ≡ filled_step (filled columns.now (texts row.now)) (step_value step.now)) }
{
    let text = fill(alloc, step.text.as_str(), columns, row)?;
    let block = fill_block(alloc, &step.block, columns, row)?;
    Ok(Step {
        keyword: step.keyword,
        step_type: step.step_type,
        text,
        block,
        line: step.line,
    })
}

/// Appends steps, filled from a row.
pub fn push_filled_steps(
    alloc: Global,
    into: &mut Vec<Step>,
    from: &[Step],
    columns: &Names<'_>,
    row: &[String],
) -> Result<(), AllocError>
    requires { length row.now ≡ length columns.now }
    ensures { Appends step_value result into.old.items into.new.items
        (map (filled_step (filled columns.now (texts row.now))) (map step_value from.now)) }
{
    for step in from {
        into.push(fill_step(alloc, step, columns, row)?)?;
    }
    Ok(())
}

#[tactic(auto, using(gk_gherkin::proofs::Copies::step_copy))]
fn copied_step(step: &Step) -> Result<Step, AllocError>
    ensures { IfOk result (λ s. step_value s ≡ step_value step.now) }
{
    step.clone()
}

/// Appends copies of steps.
pub fn push_steps(into: &mut Vec<Step>, from: &[Step]) -> Result<(), AllocError>
    ensures { Appends step_value result into.old.items into.new.items (map step_value from.now) }
{
    for step in from {
        into.push(copied_step(step)?)?;
    }
    Ok(())
}
