//! A run whose report is written part by part.
ghost use Rattle.std.specs.Prelude.{◌≡◌, ◌&&◌, [], map, OnOk, IfOk, IfErr};
ghost use Rattle.std.specs.List.{AllByRecursion};
ghost use Rattle.gk_select.specs.ExampleRows.{row_lists};
ghost use Rattle.gk_world.specs.Sandbox.{depth, IsSame};
ghost use Rattle.gk_run.specs.Chosen.{chosen_value, IsFormed};
ghost use Rattle.gk_run.specs.Results.{feature_row};
ghost use Rattle.gk_report.specs.Report as spec;
ghost use Rattle.gk_report.specs.Report.{is_empty, part};
ghost use Rattle.gk_request.specs.Inputs.{inputs_value};
ghost use Rattle.gk_cli.specs.ReportRun.{IsWhole, IsPrefix};
ghost use Rattle.gk_cli.specs.Suite.{run_by};
ghost use Rattle.gk_cli.specs.Writing.{device_of, IsWritten, IsStopped};

use crate::feature_loop::{CountingReporter, Reporter, close, look_up_features, run_notifying};
use crate::writing::write_piece;
use gk_gherkin::{HookTable, Step};
use gk_io::Counted;
use gk_report::{Style, Summary, head, pieces, reports_grow_by_parts, tail};
use gk_request::{Options, ReadInputs, RunFault};
use gk_run::{
    CaseResult, Cleanup, FeatureResult, Level, Observer, Outcome, RuleResult, Stage, Status,
    StepDone, dry_runs_are_judged, unfinished_dry_runs_are_judged,
};
use gk_world::Sandbox;
use std::alloc::{AllocError, Global};
use std::io::Write;

// Writes the part of a feature piece by piece. `is_first` says whether the parts before it are all empty. Returns
// whether they still are, including this one.
fn write_part<W: Write>(
    alloc: Global,
    style: Style,
    is_first: bool,
    feature: &FeatureResult,
    out: &mut Counted<W>,
) -> Result<bool, RunFault>
    ensures ok { OnOk result
        (IsWritten (device_of W.contents out.old) (device_of W.contents out.new)
        (part style is_first (feature_row feature.now))) }
    ensures still { IfOk result (λ still.
        still ≡ (is_first && is_empty (part style is_first (feature_row feature.now)))) }
    ensures err { IfErr result
        (IsStopped (device_of W.contents out.old) (device_of W.contents out.new)
        (part style is_first (feature_row feature.now))) }
{
    let mut left = pieces(style, is_first, feature);
    let mut still_first = is_first;
    while let Some(piece) = left.next(alloc)? {
        write_piece(out, piece.as_str())?;
        still_first = false;
    }
    Ok(still_first)
}

/// A report with its head and the parts of some features written. The written text isn't kept.
#[derive(Debug, Drop)]
pub struct GrowingReport {
    style: Style,
    // Whether each of these parts is empty.
    is_first: bool,
}

impl Observer for GrowingReport {
    ghost use Rattle.gk_cli.specs.ReportRun.{Stays};

    ghost hears = { Stays };

    ghost ends = { Stays };

    fn case_ended(&mut self, _index: usize, _row: &CaseResult) {}

    fn rule_ended(&mut self, _row: &RuleResult) {}

    fn step(&mut self, _stage: Stage, _step: &Step, _done: &StepDone<'_>, _sandbox: &Sandbox) {}

    fn cleanup(
        &mut self,
        _level: Level,
        _cleanup: &Cleanup,
        _outcome: Outcome,
        _sandbox: &Sandbox,
    ) {}
}

/// Writes the part of each feature in pieces. Each piece is made whole before it is written.
impl Reporter for GrowingReport {
    ghost use Rattle.gk_cli.specs.ReportRun.{Stays, AddsPart, ClosesByTail};

    ghost begins = { Stays };

    ghost adds = { AddsPart };

    ghost closes = { ClosesByTail };

    fn feature_begun(&mut self, _source: &str) {}

    fn feature_ended<W: Write>(
        &mut self,
        alloc: Global,
        feature: &FeatureResult,
        out: &mut Counted<W>,
    ) -> Result<(), RunFault> {
        self.is_first = write_part(alloc, self.style, self.is_first, feature, out)?;
        Ok(())
    }

    fn run_ended(
        self,
        alloc: Global,
        summary: &Summary,
        around: Status,
    ) -> Result<String, AllocError> {
        tail(alloc, self.style, summary, around)
    }
}

/// Runs the inputs that were read, and writes the report: the head before the run begins, the part of each feature when
/// it has ended, and the tail when the run has ended. The errors are those of `run_notifying`.
pub fn write_run<W: Write>(
    alloc: Global,
    sandbox: &mut Sandbox,
    options: &Options,
    inputs: ReadInputs,
    out: &mut Counted<W>,
) -> Result<u8, RunFault>
    requires outside { depth sandbox.old ≡ 0 }
    requires formed { AllByRecursion IsFormed inputs.features.items }
    // A report names no rows of outlines, so none were copied for it.
    requires no_rows { row_lists inputs.rows.items ≡ [] }
    ensures ok { IfOk result (IsWhole (run_by options.now (inputs_value inputs)) sandbox.old.now
        (map chosen_value inputs.features.items) options.now.style
        (device_of W.contents out.old) (device_of W.contents out.new)) }
    ensures err { IfErr result (IsPrefix (run_by options.now (inputs_value inputs)) sandbox.old.now
        (map chosen_value inputs.features.items) options.now.style
        (device_of W.contents out.old) (device_of W.contents out.new)) }
    ensures same { IsSame sandbox.old sandbox.new }
{
    // No code runs in these three: the laws say that the results of a dry run are judged, that its results so far begin
    // some judged list, and that their parts begin its report.
    dry_runs_are_judged();
    unfinished_dry_runs_are_judged();
    reports_grow_by_parts();
    let ReadInputs {
        library,
        hooks,
        features,
        rows: _,
    } = inputs;
    let text = head(alloc, options.style)?;
    write_piece(out, text.as_str())?;
    let mut counting = CountingReporter {
        alloc,
        reporter: GrowingReport {
            style: options.style,
            is_first: true,
        },
        summary: Summary::new(),
    };
    if options.dry_run {
        look_up_features(&library, &mut counting, features, out)?;
        return close(counting, Status::Passed, out);
    }
    let hooks = HookTable::new(alloc, &hooks);
    run_notifying(
        &library,
        &hooks,
        sandbox,
        options.stop,
        features,
        counting,
        out,
    )
}
