//! An index of the hooks of a file by their tags.
ghost use Rattle.std.specs.Prelude.{◌≡◌, ◌≢◌, ◌++◌, ◌∷◌, [], ℕ, List, Option, true, length};
ghost use Rattle.std.specs.Prelude.{if◌then◌else◌};
ghost use Rattle.std.specs.Prelude.{IfOk, IfErr, OnOk, OnErr, map, option_map, option_copied, bytes_eq};
ghost use Rattle.std.specs.String.{string_bytes};
ghost use Rattle.gk_gherkin.specs.Hooks.{hook_value, is_for};
ghost use Rattle.gk_gherkin.specs.HookTable.{hook_for};
ghost use Rattle.gk_gherkin.specs.HookIndex as spec;
ghost use Rattle.gk_gherkin.specs.HookIndex.{is_among, AreListed, ListsOnly, IsFirst};

use crate::hooks::{Hook, HookKind};
use std::alloc::{AllocError, Global};
use std::collections::BTreeMap;

/// The positions of hooks in a list, counted from 0, by their tags.
#[derive(Drop)]
pub struct HookIndex {
    /// The positions of hooks without a tag.
    pub untagged: Vec<usize>,
    /// The positions of hooks with a tag, by tag.
    pub tagged: BTreeMap<String, Vec<usize>>,
}

// Adds a position to those of a tag.
#[tactic(auto, using(std::proofs::lemmas::Grind::text_groups))]
fn add_under(
    tagged: &mut BTreeMap<String, Vec<usize>>,
    tag: String,
    position: usize,
) -> Result<(), AllocError>
    ensures added { OnOk result ((t : List ℕ) → spec.positions_under tagged.new t
        ≡ (if bytes_eq t (string_bytes tag) then spec.positions_under tagged.old t ++ position ∷ []
        else spec.positions_under tagged.old t)) }
    ensures kept { OnErr result ((t : List ℕ) → spec.positions_under tagged.new t
        ≡ spec.positions_under tagged.old t) }
{
    tagged.entry(tag)?.or_default().push(position)?;
    Ok(())
}

impl HookIndex {
    /// Returns an empty index. Doesn't allocate.
    pub fn new(alloc: Global) -> HookIndex
        ensures { (t : Option (List ℕ)) → spec.positions_of result t ≡ [] }
    {
        HookIndex {
            untagged: Vec::new(alloc),
            tagged: BTreeMap::new(alloc),
        }
    }

    /// Returns the positions of the hooks for a tag, or of those without a tag.
    pub fn of(&self, tag: Option<&str>) -> &[usize]
        ensures { result.now ≡ spec.positions_of self.now (option_copied tag.entry) }
    {
        match tag {
            None => self.untagged.as_slice(),
            Some(tag) => match self.tagged.get(tag) {
                Some(positions) => positions.as_slice(),
                None => &[],
            },
        }
    }

    /// Adds the position of a hook with this tag, after the earlier ones. Positions under other
    /// tags stay as they are. A refusal of memory adds nothing.
    #[tactic(auto, using(std::proofs::lemmas::Grind::common_steps, crate::proofs::HookIndexed::added_there, crate::proofs::HookIndexed::on_ok))]
    pub fn add(&mut self, tag: &Option<String>, position: usize) -> Result<(), AllocError>
        ensures kept { (t : Option (List ℕ)) (n : ℕ) →
            is_among n (spec.positions_of self.old t) ≡ true
            → is_among n (spec.positions_of self.new t) ≡ true }
        ensures added { OnOk result (is_among position
            (spec.positions_of self.new (option_map string_bytes tag.now)) ≡ true) }
        ensures last { let t = option_map string_bytes tag.now in OnOk result
            (spec.positions_of self.new t ≡ spec.positions_of self.old t ++ position ∷ []) }
        ensures others { (t : Option (List ℕ)) → t ≢ option_map string_bytes tag.now
            → spec.positions_of self.new t ≡ spec.positions_of self.old t }
        ensures refused { OnErr result ((t : Option (List ℕ)) →
            spec.positions_of self.new t ≡ spec.positions_of self.old t) }
    {
        match tag {
            None => {
                self.untagged.push(position)?;
                Ok(())
            }
            Some(tag) => add_under(&mut self.tagged, tag.clone()?, position),
        }
    }
}

/// Returns the index of some hooks. Memory is refused only if there is a hook.
pub fn index_of(alloc: Global, hooks: &[Hook]) -> Result<HookIndex, AllocError>
    ensures ok { IfOk result (λ index. AreListed index hooks.now) }
    ensures only { IfOk result (λ index. ListsOnly index hooks.now) }
    ensures memory { IfErr result (λ _. hooks.now ≢ []) }
{
    let mut index = HookIndex::new(alloc);
    for position in 0..hooks.len() {
        index.add(&hooks[position].tag, position)?;
    }
    Ok(index)
}

// Returns the least of these positions whose hook is for this kind and this tag, or the number of
// hooks if there is none.
fn first_position(hooks: &[Hook], positions: &[usize], kind: HookKind, tag: Option<&str>) -> usize
    ensures { IsFirst (λ hook. is_for (hook_value hook) kind (option_copied tag.entry))
        hooks.now positions.now (length positions.now) result }
{
    let mut first = hooks.len();
    for k in 0..positions.len() {
        let position = positions[k];
        if position < first && hooks[position].is_for(kind, tag) {
            first = position;
        }
    }
    first
}

/// Returns the first hook for this kind and this tag; without a tag, the first for this kind that
/// has none. The time it takes hardly grows with the hooks for other tags.
pub fn find_hook<'a>(
    hooks: &'a [Hook],
    index: &HookIndex,
    kind: HookKind,
    tag: Option<&str>,
) -> Option<&'a Hook>
    requires { AreListed index.now hooks.now }
    ensures { option_map (λ hook. hook_value hook.now) result
        ≡ hook_for (map hook_value hooks.now) kind (option_copied tag.entry) }
{
    let position = first_position(hooks, index.of(tag), kind, tag);
    hooks.get(position)
}
