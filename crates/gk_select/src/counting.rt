//! The number of steps that a feature has after expansion, counted before anything is built.
ghost use Rattle.std.specs.Prelude.{◌≡◌, ◌+◌, ◌*◌, ◌<◌, ◌^◌, not, nat_lt, length, map, sum_by, option_map, Option, Some};
ghost use Rattle.gk_gherkin.specs.Feature.{background_value, examples_value, scenario_value, rule_value, feature_value};
ghost use Rattle.gk_select.specs.Expansion.{step_count};
ghost use Rattle.gk_select.specs.Inherited.{background_steps};
ghost use Rattle.gk_select.specs.Counting.{left, examples_steps, scenario_steps, rule_steps, feature_steps};

use crate::outline::is_outline;
use gk_gherkin::{Background, Examples, Feature, Rule, Scenario};

/// The maximum number of steps that a feature may have after expansion.
pub const STEP_LIMIT: usize = 1_000_000;

/// Returns the room left after `cases` cases of `steps` steps each, or `None` if there is too little.
fn room_after(room: usize, cases: usize, steps: usize) -> Option<usize>
    ensures { result ≡ left room (cases * steps) }
{
    room.checked_sub(cases.checked_mul(steps)?)
}

/// Returns the room left after cases that each have inherited and own steps, or `None` if there is too little.
fn room_after_cases(room: usize, cases: usize, inherited: usize, own: usize) -> Option<usize>
    ensures { result ≡ left room (cases * (inherited + own)) }
{
    room_after(room_after(room, cases, inherited)?, cases, own)
}

fn room_after_examples(
    room: usize,
    inherited: usize,
    own: usize,
    parts: &[Examples],
) -> Option<usize>
    ensures { result ≡ left room
        (sum_by (examples_steps (inherited + own)) (map examples_value parts.now)) }
{
    let mut room = room;
    for examples in parts {
        room = room_after_cases(room, examples.rows.len(), inherited, own)?;
    }
    Some(room)
}

fn room_after_scenario(room: usize, inherited: usize, scenario: &Scenario) -> Option<usize>
    ensures { result ≡ left room (scenario_steps inherited (scenario_value scenario.now)) }
{
    let own = scenario.steps.len();
    if is_outline(scenario) {
        room_after_examples(room, inherited, own, &scenario.examples)
    } else {
        room_after_cases(room, 1, inherited, own)
    }
}

fn room_after_scenarios(room: usize, inherited: usize, scenarios: &[Scenario]) -> Option<usize>
    ensures { result ≡ left room
        (sum_by (scenario_steps inherited) (map scenario_value scenarios.now)) }
{
    let mut room = room;
    for scenario in scenarios {
        room = room_after_scenario(room, inherited, scenario)?;
    }
    Some(room)
}

fn background_len(background: &Option<Background>) -> usize
    ensures value { result ≡
        length (background_steps (option_map background_value background.now)) }
    ensures small { result < 2 ^ 63 }
{
    match background {
        Some(background) => background.steps.len(),
        None => 0,
    }
}

fn room_after_rule(room: usize, inherited: usize, rule: &Rule) -> Option<usize>
    requires { inherited < 2 ^ 63 }
    ensures { result ≡ left room (rule_steps inherited (rule_value rule.now)) }
{
    room_after_scenarios(
        room,
        inherited + background_len(&rule.background),
        &rule.scenarios,
    )
}

fn room_after_rules(room: usize, inherited: usize, rules: &[Rule]) -> Option<usize>
    requires { inherited < 2 ^ 63 }
    ensures { result ≡ left room (sum_by (rule_steps inherited) (map rule_value rules.now)) }
{
    let mut room = room;
    for rule in rules {
        room = room_after_rule(room, inherited, rule)?;
    }
    Some(room)
}

#[tactic(auto, using(crate::proofs::Rooms::left_add))]
fn room_after_feature(feature: &Feature) -> Option<usize>
    ensures { result ≡ left STEP_LIMIT (feature_steps (feature_value feature.now)) }
{
    let inherited = background_len(&feature.background);
    let room = room_after_scenarios(STEP_LIMIT, inherited, &feature.scenarios)?;
    room_after_rules(room, inherited, &feature.rules)
}

/// Returns whether the cases of a feature have at most `STEP_LIMIT` steps.
pub fn has_room(feature: &Feature) -> bool
    ensures { result ≡ not (nat_lt STEP_LIMIT (step_count (feature_value feature.now))) }
{
    room_after_feature(feature).is_some()
}
