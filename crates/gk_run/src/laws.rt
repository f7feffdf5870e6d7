//! Laws of this crate's definitions. Each is the contract of an empty function.
ghost use Rattle.gk_run.specs.Features.{FeaturesWithoutRulesHaveTheirCases, ResultsStandInFileOrder};
ghost use Rattle.gk_run.specs.Chosen.{FormedCasesFallIntoRules, GroupsAreAll};
ghost use Rattle.gk_run.specs.Judged.{OneList, DryRunsAreJudged, UnfinishedDryRunsAreJudged, JudgedHoldPartByPart, StepsHaveTheirResults};
ghost use Rattle.gk_run.specs.OwnResult.{ScenariosHaveTheirOwnResults, ResultsAreTheSameInEachRun, MovedScenariosComeToTheSame, ScenariosComeToTheSameAlone};
ghost use Rattle.gk_run.specs.OpenRun.{FinishedRunsAreJudged, UnfinishedRunsAreJudged};
ghost use Rattle.gk_run.specs.Walk.{StepsEndAtTheLeastStop, StoppedCasesRunNoStep, WalksEndAtTheLeastStop};

/// States that a walk through steps ends at the least step that isn't found or whose outcome isn't
/// `Passed`, with what that step left. If there is no such step, it passes whole. (behave's
/// documentation: a failed step ends its scenario)
pub fn walks_end_at_the_least_stop()
    ensures { WalksEndAtTheLeastStop }
{}

/// States that the steps of a case whose before list passed whole end at that step too: those before it
/// passed, and those after it are skipped or undefined. (behave's documentation: a failed step ends its
/// scenario)
pub fn steps_end_at_the_least_stop()
    ensures { StepsEndAtTheLeastStop }
{}

/// States that no step of a case whose before list didn't pass whole is carried out. (behave's
/// documentation: environment file functions)
#[tactic(auto, using(crate::proofs::WordsLemmas::stopped_cases))]
pub fn stopped_cases_run_no_step()
    ensures { StoppedCasesRunNoStep }
{}

/// States that results are judged exactly if `JudgedPartByPart` holds of them. It says which features
/// and rules are begun, which cases are reached, what each comes to, and what `--stop` and refused
/// memory leave of the rest. (behave's documentation: environment file functions, `--stop`)
#[tactic(auto, using(crate::proofs::JudgedPartsLemmas::judged_in_words))]
pub fn judged_results_hold_part_by_part()
    ensures { JudgedHoldPartByPart }
{}

/// States that each step of a case has one result, in order, by its mark. It is untested if its event
/// didn't happen.
pub fn steps_have_their_results()
    ensures { StepsHaveTheirResults }
{}

/// States that judged results without memory are the ones that plain maps give: there is one such list.
/// Without memory means that no case is marked memory, and no hooks and cleanups of a rule, of a feature
/// or of the run are.
#[tactic(auto, using(crate::proofs::OneList::one_list))]
pub fn without_memory_there_is_one_list()
    ensures { OneList }
{}

/// States that in judged results each scenario whose result is settled has its own result. That depends
/// on the library, the hooks file, the contents before the run, the tags of its feature and its rule,
/// and the scenario: on no other scenario, and neither on `--stop` nor on memory refused elsewhere. A
/// result is settled if it is neither untested nor memory, or if the run isn't dry, isn't to stop, and
/// nothing in it is memory. (behave's documentation: context layers, environment file functions)
pub fn scenarios_have_their_own_results()
    ensures { ScenariosHaveTheirOwnResults }
{}

/// States that a scenario whose result is settled in two runs has the same result in both. The runs have
/// the same library and hooks file, start from the same files, variables and values, and run the same
/// before hooks above the scenario. All else may differ: their features, the scenario's place, what else
/// is selected, and `--stop`.
pub fn results_are_the_same_in_each_run()
    ensures { ResultsAreTheSameInEachRun }
{}

/// States that the result of a scenario that is moved to other lines, or to another file, stays the same
/// apart from the lines, if the same before hooks run above it.
pub fn moved_scenarios_come_to_the_same()
    ensures { MovedScenariosComeToTheSame }
{}

/// States that a scenario whose result is settled in a suite has the same result if the suite is run
/// with only this scenario selected, as by `--line`, and nothing in that run is memory.
pub fn scenarios_come_to_the_same_alone()
    ensures { ScenariosComeToTheSameAlone }
{}

/// States that the results of the features of a dry run are judged, with hooks and cleanups that passed.
#[tactic(auto, using(crate::proofs::JudgedLemmas::dry_judged))]
pub fn dry_runs_are_judged()
    ensures { DryRunsAreJudged }
{}

/// States that the results of the first features of a dry run begin judged results of all of them.
#[tactic(auto, using(crate::proofs::JudgedLemmas::dry_judged_so_far))]
pub fn unfinished_dry_runs_are_judged()
    ensures { UnfinishedDryRunsAreJudged }
{}

/// States that a run that was begun, ran its features and was finished has judged results: the features'
/// results and what `Suite::finish` returns.
pub fn finished_runs_are_judged()
    ensures { FinishedRunsAreJudged }
{}

/// States that a run that was begun and isn't finished has results that begin judged results: those of
/// the features that were run, whatever features come after them.
pub fn unfinished_runs_are_judged()
    ensures { UnfinishedRunsAreJudged }
{}

/// States that if the cases of a feature fall into its rules, its own cases and then those of each rule,
/// one rule after another, are all of them, in file order.
#[tactic(auto, using(crate::proofs::GroupingLemmas::groups_all))]
pub fn groups_are_all()
    ensures { GroupsAreAll }
{}

/// States that the cases of a feature that `run_feature` accepts fall into its rules.
#[tactic(auto, using(crate::proofs::GroupingLemmas::formed_falls))]
pub fn formed_cases_fall_into_rules()
    ensures { FormedCasesFallIntoRules }
{}

/// States that a feature without rules, whose cases are in none, has the results that its cases have
/// one after another.
#[tactic(auto, using(crate::proofs::FeaturesLemmas::without_rules))]
pub fn features_without_rules_have_their_cases()
    ensures { FeaturesWithoutRulesHaveTheirCases }
{}

/// States that if the cases of a feature fall into its rules, its results are in file order: those of
/// its rules, and those of its cases.
pub fn results_stand_in_file_order()
    ensures { ResultsStandInFileOrder }
{}
