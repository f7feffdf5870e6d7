//! Numbers in ascending order, as sets.
ghost use Rattle.std.specs.Prelude.{◌≡◌, ℕ, IfOk};
ghost use Rattle.std.specs.List.Sorted.{IsNonDecreasing};
ghost use Rattle.gk_lint.specs.NumberSets.{is_among};

use std::alloc::{AllocError, Global};

/// Returns the same numbers in ascending order. An error comes only if a growth was refused.
pub fn rising(alloc: Global, numbers: &[usize]) -> Result<Vec<usize>, AllocError>
    ensures rising { IfOk result (λ r. IsNonDecreasing r.items) }
    ensures same { IfOk result (λ r. (n : ℕ) → is_among r.items n ≡ is_among numbers.now n) }
{
    let mut rising = Vec::new(alloc);
    rising.extend_from_slice(numbers)?;
    rising.sort_unstable();
    Ok(rising)
}

/// Returns whether a number is among numbers in ascending order. Doesn't allocate.
#[tactic(auto, using(gk_select::proofs::ChosenLines::is_among))]
pub fn has(numbers: &[usize], n: usize) -> bool
    requires { IsNonDecreasing numbers.now }
    ensures { result ≡ is_among numbers.now n }
{
    numbers.binary_search(&n).is_ok()
}
