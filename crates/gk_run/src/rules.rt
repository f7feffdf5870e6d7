//! Running the rules of a feature.
ghost use Rattle.std.specs.Prelude.{◌≡◌, ◌+◌, ◌<◌, ◌≤◌, suc, length, vec_capacity, IfOk, OnOk, OnErr};
ghost use Rattle.gk_world.specs.State.{state_of, layers};
ghost use Rattle.gk_world.specs.Sandbox.{depth, IsSame};
ghost use Rattle.gk_run.specs.Chosen.{group_value, groups_in, members_of_groups};
ghost use Rattle.gk_run.specs.Events.{notifies};
ghost use Rattle.gk_run.specs.PrivateContracts.{AreRulesInPart, IsRuleInPart, RunsRule, RunsRules};
ghost use Rattle.gk_run.specs.OpenSection.{run_value};

use crate::cases::{RuleCases, run_cases, selects};
use crate::ending::{both, has_passed, stays_open};
use crate::observer::Observer;
use crate::open_section::{end_around, leave_section, open_section};
use crate::results::{CaseResult, NoRoom, Reserved, RuleResult, Status};
use crate::section::{Level, Run, Section};
use gk_world::Sandbox;

/// The result of a rule without its cases.
#[derive(Drop)]
pub struct RuleEnd {
    pub around: Status,
    /// Whether what comes after it is still reached.
    pub stays_open: bool,
}

// Runs a rule of a feature, in its own layer if it is begun, and adds the results of its cases to those
// of the cases before them.
fn run_rule<O: Observer>(
    run: &Run<'_>,
    sandbox: &mut Sandbox,
    is_open: bool,
    rule: RuleCases,
    results: &mut Vec<CaseResult>,
    observer: &mut O,
) -> Result<RuleEnd, NoRoom>
    requires layer { suc (depth sandbox.old) < layers }
    requires room { length results.old.items + length rule.members.items
        ≤ vec_capacity results.old }
    ensures rule { IfOk result (RunsRule O.hears O.ends (run_value run.now)
        (state_of sandbox.old.now) is_open (group_value rule)
        results.old.items results.new.items observer.old observer.new) }
    ensures counted { OnOk result (length results.new.items
        ≡ length results.old.items + length rule.members.items) }
    ensures capacity { vec_capacity results.new ≡ vec_capacity results.old }
    ensures stopped { OnErr result (IsRuleInPart (notifies O.hears O.ends)
        (length results.old.items) (run_value run.now) (state_of sandbox.old.now) is_open
        (group_value rule) observer.old observer.new) }
    ensures same { IsSame sandbox.old sandbox.new }
{
    let RuleCases { head, members } = rule;
    if !both(is_open, selects(members.as_slice())) {
        let all_stay = run_cases(run, sandbox, false, members, results, observer)?;
        return Ok(RuleEnd {
            around: Status::Passed,
            stays_open: all_stay,
        });
    }
    let section = Section {
        level: Level::Rule,
        tags: head.tags.as_slice(),
    };
    let opened = open_section(run, sandbox, &section, observer);
    let is_ready = has_passed(opened.before);
    match run_cases(run, sandbox, is_ready, members, results, observer) {
        Err(NoRoom) => {
            leave_section(sandbox, opened);
            Err(NoRoom)
        }
        Ok(all_stay) => {
            let around = end_around(run, sandbox, &section, opened, observer);
            Ok(RuleEnd {
                around,
                stays_open: both(stays_open(run.stop, around), all_stay),
            })
        }
    }
}

/// Runs the rules of a feature, one after another, and adds the results of their cases to those of the
/// feature's own. `is_open` says whether the feature is open.
pub fn run_rules<O: Observer>(
    run: &Run<'_>,
    sandbox: &mut Sandbox,
    is_open: bool,
    rules: Reserved<RuleCases, RuleResult>,
    cases: &mut Vec<CaseResult>,
    observer: &mut O,
) -> Result<Vec<RuleResult>, NoRoom>
    requires layer { suc (depth sandbox.old) < layers }
    requires room { length cases.old.items
        + length (members_of_groups (groups_in rules.list.items)) ≤ vec_capacity cases.old }
    ensures rules { IfOk result (λ results. RunsRules O.hears O.ends (run_value run.now)
        (state_of sandbox.old.now) is_open (groups_in rules.list.items)
        cases.old.items cases.new.items results.items observer.old observer.new) }
    ensures stopped { OnErr result (AreRulesInPart (notifies O.hears O.ends)
        (length cases.old.items) (run_value run.now) (state_of sandbox.old.now) is_open
        (groups_in rules.list.items) observer.old observer.new) }
    ensures same { IsSame sandbox.old sandbox.new }
{
    let Reserved { list, mut results } = rules;
    let mut is_open = is_open;
    for rule in list {
        let line = rule.head.line;
        let end = run_rule(run, sandbox, is_open, rule, cases, observer)?;
        is_open = both(is_open, end.stays_open);
        let result = RuleResult {
            line,
            around: end.around,
        };
        observer.rule_ended(&result);
        results.push_reserved(result);
    }
    Ok(results)
}
