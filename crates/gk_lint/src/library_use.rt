//! Entries of a library that nothing finds.
ghost use Rattle.std.specs.Prelude.{◌≡◌, ◌++◌, IfOk};
ghost use Rattle.std.specs.List.Sorted.{IsNonDecreasing};
ghost use Rattle.gk_steps.specs.Finding.{entry_values, library_value};
ghost use Rattle.gk_lint.specs.Findings.{finding_values};
ghost use Rattle.gk_lint.specs.LibraryUse as spec;
ghost use Rattle.gk_lint.specs.NumberSets.{is_among};

use crate::findings::{Finding, FindingKind, add_if};
use crate::number_sets::{has, rising};
use gk_steps::{Entry, Library};
use std::alloc::{AllocError, Global};

// Returns the findings of entries. The positions of the used ones are in ascending order.
fn unused_among<'a>(
    alloc: Global,
    used: &[usize],
    entries: &'a [Entry],
) -> Result<Vec<Finding<'a>>, AllocError>
    requires { IsNonDecreasing used.now }
    ensures { IfOk result (λ found. finding_values found.items
        ≡ spec.unused_from 0 (is_among used.now) (entry_values entries.now)) }
{
    let mut findings = Vec::new(alloc);
    for (position, entry) in entries.iter().enumerate() {
        let is_unused = !has(used, position);
        add_if(
            &mut findings,
            is_unused,
            entry.line,
            FindingKind::UnusedEntry,
        )?;
    }
    Ok(findings)
}

/// Returns the findings of a library, in the order of its entries: each entry that isn't used. `used` has the positions
/// of the entries that steps, hooks and their cleanups find. They may be in any order and may be repeated, as in the
/// results of `lint_steps` and `lint_hooks`. An error comes only if a growth was refused.
#[tactic(auto, using(crate::proofs::RisingNumbers::same_unused))]
pub fn lint_library<'a>(
    alloc: Global,
    library: &'a Library,
    used: &[usize],
) -> Result<Vec<Finding<'a>>, AllocError>
    // Returns all findings, and no others.
    ensures { IfOk result (λ findings. finding_values findings.items
        ≡ spec.unused_entries used.now (library_value library.now)) }
{
    let used = rising(alloc, used)?;
    unused_among(alloc, &used, &library.entries)
}
