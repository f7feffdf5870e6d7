//! Running cases, features and whole runs. The input is a library, hooks, a sandbox and the cases of a
//! feature; the output is the result of each step, case and feature. Unless memory was refused in it,
//! each selected case that is reached has the result that plain maps give it alone from its section's
//! state. The others are skipped or untested. Afterwards the sandbox is as it was. In a dry run, steps
//! are only looked up.
#![tactic(auto)]

// Results.
mod results;

// What an action does and registers, and how steps end.
mod acting;
mod cleanups;
mod ending;

// The observer of a run, what stays the same during it, and its sections.
mod observer;
mod section;

// The walks through steps and hooks.
mod section_hooks;
mod walk;

// The beginning and the end of a section.
mod open_section;
mod section_end;

// A case.
mod running;

// The cases of a section.
mod cases;
mod chosen;

// Rules, and a whole feature.
mod features;
mod rules;

// A dry run, a whole run, and laws.
mod dry_run;
mod laws;
mod open_run;

pub use acting::{Arguments, Site, Used, act, used_of};
pub use chosen::{Chosen, RuleHead};
pub use cleanups::{Cleanup, Cleanups, Registration};
pub use dry_run::dry_feature;
pub use ending::{Ending, is_failed_or_memory, reason_of, status_of};
pub use features::run_feature;
pub use laws::{
    dry_runs_are_judged, features_without_rules_have_their_cases, finished_runs_are_judged,
    formed_cases_fall_into_rules, groups_are_all, judged_results_hold_part_by_part,
    moved_scenarios_come_to_the_same, results_are_the_same_in_each_run,
    results_stand_in_file_order, scenarios_come_to_the_same_alone,
    scenarios_have_their_own_results, steps_end_at_the_least_stop, steps_have_their_results,
    stopped_cases_run_no_step, unfinished_dry_runs_are_judged, unfinished_runs_are_judged,
    walks_end_at_the_least_stop, without_memory_there_is_one_list,
};
pub use observer::{Observer, StepDone, Unwatched};
pub use open_run::Suite;
pub use results::{
    CaseResult, FeatureResult, Mark, NoRoom, Outcome, Reason, RuleResult, Status, StepResult,
};
pub use running::{run_case, run_case_watched};
pub use section::{Level, Part, Stage};
