//! Laws of whole runs. Each is the contract of a function in which no code runs.
ghost use Rattle.gk_cli.specs.RowOrder.{JudgedRowsAreInFileOrder};
ghost use Rattle.gk_cli.specs.SameResult.{ScenariosComeToTheSameInEachRun};

use gk_gherkin::{hooks_reading_is_unique, reading_is_unique};
use gk_run::{results_are_the_same_in_each_run, results_stand_in_file_order};
use gk_select::{cases_are_in_file_order, cases_fall_into_rules, texts_have_one_tag_rule};
use gk_steps::library_reading_is_unique;

/// Shows that a scenario whose result is settled in two runs has the same result in both: the same verdict, statuses
/// and reasons. The runs have the same library file and the same hooks file, and start from the same files, variables
/// and values; a source of each has the same bytes, and both select the scenario. So the result is the same alone, by
/// `--line`, or as the hundredth of a suite. A result is settled if it is neither untested nor memory, or if the run
/// isn't dry, isn't to stop at a failure, and nothing in it is memory. No code runs here.
/// (Cucumber's reference: state; behave's documentation: context layers)
pub fn scenarios_come_to_the_same_in_each_run()
    ensures { ScenariosComeToTheSameInEachRun }
{
    reading_is_unique();
    texts_have_one_tag_rule();
    library_reading_is_unique();
    hooks_reading_is_unique();
    cases_fall_into_rules();
    results_are_the_same_in_each_run();
}

/// Shows that in the results that a run of a request can have, the lines of each feature's rules and those of its
/// scenarios are non-decreasing. So each scenario of a report appears with its rule, as `rules_follow_their_scenarios`
/// says. No code runs here.
pub fn judged_rows_are_in_file_order()
    ensures { JudgedRowsAreInFileOrder }
{
    cases_are_in_file_order();
    cases_fall_into_rules();
    results_stand_in_file_order();
}
