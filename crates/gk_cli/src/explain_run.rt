//! A run whose explanation is written as each feature ends.
ghost use Rattle.std.specs.Prelude.{◌≡◌, map, IfOk, IfErr};
ghost use Rattle.std.specs.List.{AllByRecursion};
ghost use Rattle.gk_select.specs.ExampleRows.{row_lists};
ghost use Rattle.gk_world.specs.Sandbox.{depth, IsSame};
ghost use Rattle.gk_run.specs.Chosen.{chosen_value, IsFormed};
ghost use Rattle.gk_request.specs.Inputs.{inputs_value};
ghost use Rattle.gk_cli.specs.Writing.{device_of};
ghost use Rattle.gk_cli.specs.ExplainRun.{IsExplained, IsExplainedUpTo, explained_by};

use crate::feature_loop::{CountingReporter, Reporter, run_notifying};
use crate::writing::write_piece;
use gk_explain::Explainer;
use gk_gherkin::HookTable;
use gk_io::Counted;
use gk_report::{Format, Style, Summary, tail};
use gk_request::{Options, ReadInputs, RunFault};
use gk_run::{FeatureResult, Status};
use gk_world::Sandbox;
use std::alloc::{AllocError, Global};
use std::io::Write;

/// The style of the closing lines.
const PLAIN: Style = Style {
    format: Format::Plain,
    no_skipped: false,
};

/// Writes what is explained of each feature when the feature has ended. The last text has what is explained of the
/// run's own hooks and cleanups, the list of failures, and the closing lines of the plain report.
impl Reporter for Explainer<'_> {
    ghost use Rattle.gk_cli.specs.ExplainRun.{Begins, Adds, Closes};

    ghost begins = { Begins };

    ghost adds = { Adds };

    ghost closes = { Closes };

    fn feature_begun(&mut self, source: &str) {
        self.begin_feature(source);
    }

    fn feature_ended<W: Write>(
        &mut self,
        alloc: Global,
        feature: &FeatureResult,
        out: &mut Counted<W>,
    ) -> Result<(), RunFault> {
        self.end_feature(feature);
        let text = self.take_ready()?;
        write_piece(out, text.as_str())
    }

    fn run_ended(
        self,
        alloc: Global,
        summary: &Summary,
        around: Status,
    ) -> Result<String, AllocError> {
        let mut explainer = self;
        explainer.end_run(around);
        let mut text = explainer.take_ready()?;
        let failures = explainer.into_failures()?;
        text.push_str(failures.as_str())?;
        let counts = tail(alloc, PLAIN, summary, around)?;
        text.push_str(counts.as_str())?;
        Ok(text)
    }
}

/// Runs the inputs that were read, and writes the explanation. When a feature has ended, it says what happened in those
/// of its scenarios that failed or ran out of memory, and names the row of each that is the case of a row. It does the
/// same for the hooks and cleanups of the feature's rules and for the feature's own and, when the run has ended, for the
/// run's own. Then come the list of all these and the closing lines of the plain report. `hooks` is the name of the
/// hooks file. The run is never dry, whatever `options` say. The errors are those of `run_notifying`.
pub fn write_explanation<W: Write>(
    alloc: Global,
    sandbox: &mut Sandbox,
    options: &Options,
    hooks: &str,
    inputs: ReadInputs,
    out: &mut Counted<W>,
) -> Result<u8, RunFault>
    requires outside { depth sandbox.old ≡ 0 }
    requires formed { AllByRecursion IsFormed inputs.features.items }
    ensures ok { IfOk result (IsExplained
        (explained_by options.now (inputs_value inputs)) hooks.now
        (row_lists inputs.rows.items) sandbox.old.now
        (map chosen_value inputs.features.items)
        (device_of W.contents out.old) (device_of W.contents out.new)) }
    ensures err { IfErr result (IsExplainedUpTo
        (explained_by options.now (inputs_value inputs)) hooks.now
        (row_lists inputs.rows.items) sandbox.old.now
        (map chosen_value inputs.features.items)
        (device_of W.contents out.old) (device_of W.contents out.new)) }
    ensures same { IsSame sandbox.old sandbox.new }
{
    let ReadInputs {
        library,
        hooks: hook_file,
        features,
        rows,
    } = inputs;
    let explainer = Explainer::new(alloc, &library, hooks, rows.as_slice());
    let table = HookTable::new(alloc, &hook_file);
    let counting = CountingReporter {
        alloc,
        reporter: explainer,
        summary: Summary::new(),
    };
    run_notifying(
        &library,
        &table,
        sandbox,
        options.stop,
        features,
        counting,
        out,
    )
}
