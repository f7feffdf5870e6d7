//! Sets of texts.
ghost use Rattle.std.specs.Prelude.{◌≡◌, ◌||◌, false, not, ℕ, List, map, OnOk, IfOk};
ghost use Rattle.std.specs.Str.{bytes_eq};
ghost use Rattle.gk_lint.specs.TextSets as spec;

use std::alloc::{AllocError, Global};
use std::collections::HashSet;

/// A set of texts.
#[derive(Drop)]
pub struct TextSet<'a> {
    texts: HashSet<&'a str>,
}

impl<'a> TextSet<'a> {
    /// Returns the empty set. Doesn't allocate.
    pub fn new(alloc: Global) -> TextSet<'a>
        ensures { (text : List ℕ) → spec.in_set result text ≡ false }
    {
        TextSet {
            texts: HashSet::new(alloc),
        }
    }

    /// Adds a text, and returns whether it is new. An error comes only if a growth was refused.
    pub fn add(&mut self, text: &'a str) -> Result<bool, AllocError>
        ensures is_new { IfOk result (λ is_new. is_new ≡ not (spec.in_set self.old text.now)) }
        ensures has { OnOk result ((other : List ℕ) →
            spec.in_set self.new other ≡ (bytes_eq text.now other || spec.in_set self.old other)) }
    {
        Ok(self.texts.insert(text)?)
    }

    /// Returns whether the set has a text. Doesn't allocate.
    pub fn has(&self, text: &str) -> bool
        ensures { result ≡ spec.in_set self.now text.now }
    {
        self.texts.contains(text)
    }
}

/// Returns the set of some texts. An error comes only if a growth was refused.
pub fn set_of<'a>(alloc: Global, texts: &[&'a str]) -> Result<TextSet<'a>, AllocError>
    ensures { IfOk result (λ set. (text : List ℕ) →
        spec.in_set set text ≡ spec.is_one_of (map (λ t. t.now) texts.now) text) }
{
    let mut set = TextSet::new(alloc);
    for text in texts {
        set.add(*text)?;
    }
    Ok(set)
}
