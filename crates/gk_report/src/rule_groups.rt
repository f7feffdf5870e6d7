//! The scenarios of a feature by its rules, in the order of the plain report.
ghost use Rattle.gk_report.specs.RuleGroups.{RulesFollowTheirScenarios};

/// States that the plain report groups the scenarios of a feature by its rules: each rule has one group, in order, and
/// the scenarios before the first group and those of the groups are all. In file order, the former are in no rule, and
/// each group is in its rule. (Cucumber's Gherkin reference: rule)
#[tactic(auto, using(crate::proofs::RuleGroupLemmas::scenarios_by_rules))]
pub fn rules_follow_their_scenarios()
    ensures { RulesFollowTheirScenarios }
{}
