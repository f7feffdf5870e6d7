//! The cases of a feature, divided into its own and those of each rule.
ghost use Rattle.std.specs.Prelude.{◌≡◌, ◌+◌, ◌≤◌, [], length, vec_capacity};
ghost use Rattle.gk_run.specs.Chosen.{members_in, groups_in, members_of_groups};

mod dividing;
mod section_cases;

use crate::chosen::RuleHead;
use crate::results::{CaseResult, Reserved, RuleResult};
pub use dividing::divide;
use gk_select::Case;
pub use section_cases::{run_cases, selects};

/// A case, and whether it is selected.
#[derive(Drop)]
pub struct Member {
    pub case: Case,
    pub selected: bool,
}

/// A rule with its cases.
#[derive(Drop)]
pub struct RuleCases {
    pub head: RuleHead,
    pub members: Vec<Member>,
}

/// The cases of a feature that are in no rule, and its rules, none of them run yet. `results` has room
/// for the results of all cases.
#[derive(Drop)]
pub struct Content {
    pub own: Vec<Member>,
    pub rules: Reserved<RuleCases, RuleResult>,
    pub results: Vec<CaseResult>,
    ghost empty: { results.items ≡ [] },
    ghost room: { length own.items + length (members_of_groups (groups_in rules.list.items))
        ≤ vec_capacity results },
}
