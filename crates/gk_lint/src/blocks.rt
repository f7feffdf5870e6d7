//! The faults of the block under a step.
ghost use Rattle.std.specs.Prelude.{◌≡◌, ◌++◌, map, OnOk};
ghost use Rattle.gk_gherkin.specs.Feature.{texts, block_value};
ghost use Rattle.gk_lint.specs.Blocks as spec;

use crate::step_faults::StepFault;
use gk_gherkin::Block;
use gk_steps::{Takes, files_below};
use std::alloc::AllocError;

/// Adds a fault if a test holds. An error comes only if a growth was refused.
pub fn add_fault_if(
    faults: &mut Vec<StepFault>,
    holds: bool,
    fault: StepFault,
) -> Result<(), AllocError>
    ensures { OnOk result (faults.new.items ≡ faults.old.items ++ spec.fault_if holds fault) }
{
    if holds {
        faults.push(fault)?;
    }
    Ok(())
}

// Adds the faults of a table under a step whose action takes this.
fn add_table_faults(
    faults: &mut Vec<StepFault>,
    takes: Takes,
    rows: &[Vec<String>],
) -> Result<(), AllocError>
    ensures { OnOk result (faults.new.items ≡ faults.old.items
        ++ spec.table_faults takes (map (λ row. texts row.items) rows.now)) }
{
    match takes {
        Takes::Table => add_fault_if(faults, files_below(rows).is_none(), StepFault::BadTable),
        _ => add_fault_if(faults, true, StepFault::IgnoredTable),
    }
}

/// Adds the faults of the block under a step whose action takes this. `has_field` says whether the pattern of the step has
/// a field `text`. An error comes only if a growth was refused; some of the faults may have been added then.
pub fn add_block_faults(
    faults: &mut Vec<StepFault>,
    takes: Takes,
    has_field: bool,
    block: &Block,
) -> Result<(), AllocError>
    ensures { OnOk result (faults.new.items ≡ faults.old.items
        ++ spec.block_faults takes has_field (block_value block.now)) }
{
    let lacks_text = matches!(takes, Takes::Text) && !has_field;
    let takes_table = matches!(takes, Takes::Table);
    match block {
        Block::Empty => {
            add_fault_if(faults, lacks_text, StepFault::NoText)?;
            add_fault_if(faults, takes_table, StepFault::NoTable)
        }
        Block::Text(_) => {
            add_fault_if(faults, takes_table, StepFault::NoTable)?;
            add_fault_if(faults, !lacks_text, StepFault::IgnoredText)
        }
        Block::Table(rows) => {
            add_fault_if(faults, lacks_text, StepFault::NoText)?;
            add_table_faults(faults, takes, rows)
        }
    }
}
