//! Looking up the hooks of a file by their kinds and their tags.
ghost use Rattle.std.specs.Prelude.{◌≡◌, map, option_copied, option_map};
ghost use Rattle.std.specs.Option.{ForSome};
ghost use Rattle.gk_gherkin.specs.Hooks.{hook_value, hooks_value};
ghost use Rattle.gk_gherkin.specs.HookTable.{hook_for};
ghost use Rattle.gk_gherkin.specs.HookIndex.{AreListed};

use crate::hook_index::{HookIndex, find_hook, index_of};
use crate::hooks::{Hook, HookFile, HookKind};
use std::alloc::Global;

/// The number of hooks that a search goes through as fast as an index is built.
const FEW: usize = 16;

/// The hooks of a file, for lookup by their kinds and their tags.
#[derive(Drop)]
pub struct HookTable<'a> {
    pub file: &'a HookFile,
    /// The positions of its hooks. Without an index, a lookup goes through all hooks.
    index: Option<HookIndex>,
    ghost listed: { ForSome index (λ index. AreListed index file.now.hooks.items) },
}

// Returns the first hook for this kind and this tag.
fn look_through<'a>(hooks: &'a [Hook], kind: HookKind, tag: Option<&str>) -> Option<&'a Hook>
    ensures { option_map (λ hook. hook_value hook.now) result
        ≡ hook_for (map hook_value hooks.now) kind (option_copied tag.entry) }
{
    for hook in hooks {
        if hook.is_for(kind, tag) {
            return Some(hook);
        }
    }
    None
}

impl<'a> HookTable<'a> {
    /// Returns the table of a file's hooks. If there are many of them, they get an index, unless
    /// memory for it is refused.
    pub fn new(alloc: Global, file: &'a HookFile) -> HookTable<'a>
        ensures { result.file.now ≡ file.now }
    {
        if file.hooks.len() <= FEW {
            return HookTable::without_index(file);
        }
        HookTable {
            file,
            index: index_of(alloc, &file.hooks).ok(),
        }
    }

    /// Returns the table of a file's hooks without an index, for few lookups. Doesn't allocate.
    pub fn without_index(file: &'a HookFile) -> HookTable<'a>
        ensures { result.file.now ≡ file.now }
    {
        HookTable { file, index: None }
    }

    /// Returns the first hook for this kind and this tag; without a tag, the first for this kind
    /// that has none. With an index, the time it takes hardly grows with the hooks for other tags.
    /// (this project's profile)
    pub fn hook(&self, kind: HookKind, tag: Option<&str>) -> Option<&'a Hook>
        ensures { option_map (λ hook. hook_value hook.now) result
            ≡ hook_for (hooks_value self.now.file.now) kind (option_copied tag.entry) }
    {
        match &self.index {
            Some(index) => find_hook(&self.file.hooks, index, kind, tag),
            None => look_through(&self.file.hooks, kind, tag),
        }
    }
}
