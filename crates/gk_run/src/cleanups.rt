//! Cleanups that steps register.
ghost use Rattle.std.specs.Prelude.{◌≡◌, [], ◌∷◌, ◌++◌, length, IfOk, OnOk, OnErr};
ghost use Rattle.gk_gherkin.specs.Feature.{block_value};
ghost use Rattle.gk_steps.specs.Finding.{found_value};

use crate::results::Outcome;
use crate::section::Part;
use gk_gherkin::Block;
use gk_steps::Found;
use std::alloc::{AllocError, Global};
use std::marker::Model;

/// The place where a cleanup is registered: the part of its section that contains the step, and the
/// step's line.
#[derive(Clone, Copy, Debug, PartialEq, Eq)]
pub struct Registration {
    pub part: Part,
    pub line: u32,
}

/// A registered cleanup: what the look-up of its text found, the block of the step that registered it,
/// and the place of that step. (behave's documentation: cleanups)
#[derive(Debug, Drop)]
pub struct Cleanup {
    pub found: Found,
    pub block: Block,
    pub at: Registration,
}

/// The cleanups that are registered in a layer, in the order of their registration.
/// (behave's documentation: cleanups)
#[derive(Debug, Drop)]
pub struct Cleanups {
    pub(crate) list: Vec<Cleanup>,
    // Empty, with room for the outcome of each cleanup.
    pub(crate) outcomes: Vec<Outcome>,
}

impl Model for Cleanups {
    ghost use Rattle.std.specs.Prelude.{List, map, ◌≡◌, ◌≤◌, [], length, vec_capacity};
    ghost use Rattle.gk_run.specs.Acting.{CleanupValue, cleanup_value};

    ghost Value = { List CleanupValue };

    ghost view = { λ c. map cleanup_value c.list.items };

    ghost invariant = { λ c. (c.outcomes.items ≡ [])
        × (length c.list.items ≤ vec_capacity c.outcomes) };
}

// Returns a copy of a block.
#[tactic(auto, using(gk_gherkin::proofs::Copies::block_copy))]
fn copied_block(block: &Block) -> Result<Block, AllocError>
    ensures { IfOk result (λ b. block_value b ≡ block_value block.now) }
{
    block.clone()
}

impl Cleanups {
    /// Returns an empty list of cleanups. Doesn't allocate.
    pub fn new(alloc: Global) -> Cleanups
        ensures { result ≡ [] }
    {
        Cleanups {
            list: Vec::new(alloc),
            outcomes: Vec::new(alloc),
        }
    }

    /// Returns the number of cleanups that are registered.
    pub(crate) fn len(&self) -> usize
        ensures { result ≡ length self.now }
    {
        self.list.len()
    }

    /// Registers a cleanup after the others, with a copy of the block, and reserves room for its
    /// outcome. A refusal changes nothing. (behave's documentation: cleanups)
    pub(crate) fn add(
        &mut self,
        found: Found,
        block: &Block,
        at: Registration,
    ) -> Result<(), AllocError>
        ensures ok { OnOk result (self.new ≡ self.old ++
            record { found = found_value found; block = block_value block.now; at = at } ∷ []) }
        ensures err { OnErr result (self.new ≡ self.old) }
    {
        self.outcomes.reserve(self.list.len() + 1)?;
        self.list.reserve(1)?;
        let block = copied_block(block)?;
        self.list.push_reserved(Cleanup { found, block, at });
        Ok(())
    }

    /// Returns an empty list of outcomes, for when none of the cleanups runs.
    pub(crate) fn none(self) -> Vec<Outcome>
        ensures { result.items ≡ [] }
    {
        let Cleanups { list: _, outcomes } = self;
        outcomes
    }
}
