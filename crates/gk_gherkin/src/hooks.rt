//! The contents of a hooks file. Tags include their `@`. Lines are counted from 1.
ghost use Rattle.std.specs.Prelude.{option_copied, option_map, ◌≡◌};
ghost use Rattle.std.specs.String.{string_bytes};
ghost use Rattle.gk_gherkin.specs.Hooks as spec;

use crate::feature::Step;

/// When the steps of a hook run: before or after the whole run, a feature, a rule, a scenario, or
/// anything with the hook's tag. (behave's documentation: environment file functions; those of a rule
/// are this project's profile)
#[derive(Clone, Copy, Debug, PartialEq, Eq)]
pub enum HookKind {
    BeforeAll,
    AfterAll,
    BeforeFeature,
    AfterFeature,
    BeforeRule,
    AfterRule,
    BeforeScenario,
    AfterScenario,
    BeforeTag,
    AfterTag,
}

/// A hook: its kind, the tag that it is for, which `read_hooks` gives only to `BeforeTag` and
/// `AfterTag`, the line of its heading, and its steps in order. (behave's documentation: environment
/// file functions; this project's profile)
#[derive(Debug, Drop)]
pub struct Hook {
    pub kind: HookKind,
    pub tag: Option<String>,
    pub line: u32,
    pub steps: Vec<Step>,
}

/// The hooks of a file in order. `read_hooks` returns no two of the same kind and tag. Of equal ones
/// in a list made by hand, the first counts. (this project's profile)
#[derive(Debug, Drop)]
pub struct HookFile {
    pub hooks: Vec<Hook>,
}

impl Hook {
    /// Returns whether the hook is for this kind and this tag. Without a tag, returns whether it is
    /// for this kind and has no tag. (this project's profile)
    pub fn is_for(&self, kind: HookKind, tag: Option<&str>) -> bool
        ensures { result ≡ spec.is_for (spec.hook_value self.now) kind (option_copied tag.entry) }
    {
        is_same_kind(self.kind, kind) && is_same_tag(&self.tag, tag)
    }
}

fn is_same_kind(a: HookKind, b: HookKind) -> bool
    ensures { result ≡ spec.is_same_kind a b }
{
    a == b
}

fn is_same_tag(a: &Option<String>, b: Option<&str>) -> bool
    ensures { result
        ≡ spec.is_same_tag (option_map string_bytes a.now) (option_copied b.entry) }
{
    match a {
        None => b.is_none(),
        Some(tag) => match b {
            None => false,
            Some(other) => tag.as_str() == other,
        },
    }
}
