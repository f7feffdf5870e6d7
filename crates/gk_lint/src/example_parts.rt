//! Examples of an outline with their columns.
ghost use Rattle.std.specs.Prelude.{◌≡◌, map, IfOk};
ghost use Rattle.gk_gherkin.specs.Feature.{texts, examples_value};

use gk_gherkin::Examples;
use gk_select::Names;
use std::alloc::{AllocError, Global};

/// Examples of an outline, and the columns of their header.
#[derive(Drop)]
pub struct Part<'a> {
    pub examples: &'a Examples,
    pub columns: Names<'a>,
    ghost header: { columns ≡ texts examples.now.header.items },
}

/// Returns Examples, each with its columns. An error comes only if a growth was refused.
pub fn parts_of(alloc: Global, examples: &[Examples]) -> Result<Vec<Part<'_>>, AllocError>
    ensures { IfOk result (λ parts. map (λ part. examples_value part.examples.now) parts.items
        ≡ map examples_value examples.now) }
{
    let mut parts = Vec::new(alloc);
    for part in examples {
        parts.push(Part {
            examples: part,
            columns: Names::new(alloc, &part.header),
        })?;
    }
    Ok(parts)
}
