//! A run of feature after feature: a reporter is notified of each, and writes its text when it has ended.
ghost use Rattle.std.specs.Prelude.{◌≡◌, ℕ, List, [], true, map, IfOk, IfErr, OnOk, OnErr, string_bytes};
ghost use Rattle.std.specs.List.{AllByRecursion};
ghost use Rattle.gk_world.specs.Sandbox.{depth, IsSame};
ghost use Rattle.gk_world.specs.State.{state_of};
ghost use Rattle.gk_steps.specs.Finding.{library_value};
ghost use Rattle.gk_run.specs.Results.{FeatureRow, Results, feature_row};
ghost use Rattle.gk_run.specs.OpenSection.{run_of};
ghost use Rattle.gk_run.specs.Chosen.{chosen_value, IsFormed};
ghost use Rattle.gk_run.specs.DryRun.{AreDryFeatures};
ghost use Rattle.gk_run.specs.Features.{IsFeatureResult};
ghost use Rattle.gk_run.specs.OpenRun.{AreFeatures, IsKept, opens_features};
ghost use Rattle.gk_report.specs.Summary.{CountsOneMore, summary_of};
ghost use Rattle.gk_cli.specs.Writing.{device_of};
ghost use Rattle.gk_cli.specs.FeatureLoop.{ClosesWith, IsAdded, StopsAdding, NotifiesOfFeature, NotifiesOfDryFeature, IsNextResult, IsDryResult, WritesNext, StopsAtNext, AreWritten, AreWrittenUpTo, IsClosed, StopsClosing, IsRunWritten, IsRunWrittenUpTo, stays, stays_begun};

use crate::writing::write_piece;
use gk_gherkin::HookTable;
use gk_io::Counted;
use gk_report::Summary;
use gk_request::RunFault;
use gk_run::{
    Chosen, FeatureResult, NoRoom, Observer, Status, Suite, dry_feature, finished_runs_are_judged,
    unfinished_runs_are_judged,
};
use gk_steps::Library;
use gk_world::Sandbox;
use std::alloc::{AllocError, Global};
use std::io::Write;

/// Writes what a run has to say. A reporter observes the run. It is also notified of the beginning and the end of each
/// feature, and of the end of the run.
pub trait Reporter: Observer + Drop {
    /// What it may become when a feature of the source with this name begins.
    ghost begins: { Self → List ℕ → Self → Type 0 };

    /// The text that it may write when a feature has ended with this result, and what it may become.
    ghost adds: { Self → FeatureRow → List ℕ → Self → Type 0 };

    /// The text that it may write when a run has ended with these results.
    ghost closes: { Self → Results → List ℕ → Type 0 };

    /// Receives the name of the source of a feature that begins, before the feature's first event.
    fn feature_begun(&mut self, source: &str)
        ensures { begins self.old source.now self.new };

    /// Receives the result of a feature that has ended, and writes the text of it. `Memory` comes if the text couldn't
    /// be made, and `Write` if the writer failed. In both cases a prefix of the text was written.
    fn feature_ended<W: Write>(
        &mut self,
        alloc: Global,
        feature: &FeatureResult,
        out: &mut Counted<W>,
    ) -> Result<(), RunFault>
        ensures ok { OnOk result (IsAdded adds (feature_row feature.now) self.old self.new
            (device_of W.contents out.old) (device_of W.contents out.new)) }
        ensures err { IfErr result (StopsAdding adds (feature_row feature.now) self.old
            (device_of W.contents out.old) (device_of W.contents out.new)) };

    /// Returns the last text, when the run has ended. `summary` has the counts of the features, and `around` says how
    /// the run's own hooks and cleanups ended.
    fn run_ended(
        self,
        alloc: Global,
        summary: &Summary,
        around: Status,
    ) -> Result<String, AllocError>
        ensures { IfOk result (λ text.
            ClosesWith closes self summary.now around (string_bytes text)) };
}

/// A reporter of a run, the counts of the features that it was notified of, and the allocator of its texts.
#[derive(Drop)]
pub struct CountingReporter<R> {
    pub alloc: Global,
    pub reporter: R,
    pub summary: Summary,
}

// Notifies a reporter of the end of a feature, and counts the feature. If its text wasn't written whole, the counts stay
// as they were.
fn add_feature<R: Reporter, W: Write>(
    counting: &mut CountingReporter<R>,
    feature: &FeatureResult,
    out: &mut Counted<W>,
) -> Result<(), RunFault>
    ensures ok { OnOk result (IsAdded R.adds (feature_row feature.now)
        counting.old.reporter counting.new.reporter
        (device_of W.contents out.old) (device_of W.contents out.new)) }
    ensures counted { OnOk result
        (CountsOneMore counting.old.summary (feature_row feature.now) counting.new.summary) }
    ensures err { IfErr result (StopsAdding R.adds (feature_row feature.now) counting.old.reporter
        (device_of W.contents out.old) (device_of W.contents out.new)) }
    ensures uncounted { OnErr result (counting.new.summary ≡ counting.old.summary) }
{
    let alloc = counting.alloc;
    counting.reporter.feature_ended(alloc, feature, out)?;
    counting.summary.add(feature);
    Ok(())
}

// Runs the next feature of a run, and notifies a reporter of it. On an error it isn't counted.
#[tactic(auto, using(gk_request::proofs::ResultLemmas::on_both, gk_request::proofs::ResultLemmas::if_err, crate::proofs::FeatureLoopLemmas::next_stopped))]
fn run_next<R: Reporter, W: Write>(
    library: &Library,
    hooks: &HookTable<'_>,
    sandbox: &mut Sandbox,
    suite: &mut Suite,
    counting: &mut CountingReporter<R>,
    feature: Chosen,
    out: &mut Counted<W>,
) -> Result<(), RunFault>
    requires innermost { suite.old.layer ≡ depth sandbox.old }
    requires formed { IsFormed feature }
    ensures ok { let run = run_of library.now hooks.now.file.now suite.old.stop in
        OnOk result (WritesNext
        (NotifiesOfFeature R.hears R.ends R.begins R.adds run (state_of sandbox.old.now))
        (IsNextResult run (state_of sandbox.old.now)
        (opens_features suite.old) (opens_features suite.new) (chosen_value feature))
        (opens_features suite.old) (chosen_value feature)
        (device_of W.contents out.old) counting.old (device_of W.contents out.new) counting.new) }
    ensures err { let run = run_of library.now hooks.now.file.now suite.old.stop in
        IfErr result (StopsAtNext
        (NotifiesOfFeature R.hears R.ends R.begins R.adds run (state_of sandbox.old.now))
        (IsFeatureResult run (state_of sandbox.old.now)
        (opens_features suite.old) (chosen_value feature))
        (opens_features suite.old) (chosen_value feature)
        (device_of W.contents out.old) counting.old (device_of W.contents out.new)) }
    ensures uncounted { OnErr result (counting.new.summary ≡ counting.old.summary) }
    ensures kept { IsKept suite.old suite.new }
    ensures same { IsSame sandbox.old sandbox.new }
{
    counting.reporter.feature_begun(feature.source.as_str());
    match suite.feature_watched(
        counting.alloc,
        sandbox,
        library,
        hooks,
        feature,
        &mut counting.reporter,
    ) {
        Ok(result) => add_feature(counting, &result, out),
        Err(NoRoom) => Err(RunFault::Memory),
    }
}

// Runs the features of a run that has begun, one after another, and notifies a reporter of each. After an error its
// reporter may have been notified of a feature that isn't counted; only the end of the run may still follow.
fn run_features<R: Reporter, W: Write>(
    library: &Library,
    hooks: &HookTable<'_>,
    sandbox: &mut Sandbox,
    suite: &mut Suite,
    counting: &mut CountingReporter<R>,
    features: Vec<Chosen>,
    out: &mut Counted<W>,
) -> Result<(), RunFault>
    requires innermost { suite.old.layer ≡ depth sandbox.old }
    requires formed { AllByRecursion IsFormed features.items }
    ensures ok { let run = run_of library.now hooks.now.file.now suite.old.stop in
        OnOk result (AreWritten
        (NotifiesOfFeature R.hears R.ends R.begins R.adds run (state_of sandbox.old.now))
        (stays run)
        (AreFeatures run (state_of sandbox.old.now) (opens_features suite.old))
        (opens_features suite.old) (map chosen_value features.items)
        (device_of W.contents out.old) counting.old (device_of W.contents out.new) counting.new) }
    ensures err { let run = run_of library.now hooks.now.file.now suite.old.stop in
        IfErr result (AreWrittenUpTo
        (NotifiesOfFeature R.hears R.ends R.begins R.adds run (state_of sandbox.old.now))
        (stays run)
        (AreFeatures run (state_of sandbox.old.now) (opens_features suite.old))
        (opens_features suite.old) (map chosen_value features.items)
        (device_of W.contents out.old) counting.old (device_of W.contents out.new)) }
    ensures kept { IsKept suite.old suite.new }
    ensures same { IsSame sandbox.old sandbox.new }
{
    for feature in features {
        run_next(library, hooks, sandbox, suite, counting, feature, out)?;
    }
    Ok(())
}

// Looks up the steps of the next feature, and notifies a reporter of it. On an error it isn't counted.
#[tactic(auto, using(gk_request::proofs::ResultLemmas::on_both, gk_request::proofs::ResultLemmas::if_err, crate::proofs::FeatureLoopLemmas::next_stopped))]
fn look_up_next<R: Reporter, W: Write>(
    library: &Library,
    counting: &mut CountingReporter<R>,
    feature: Chosen,
    out: &mut Counted<W>,
) -> Result<(), RunFault>
    requires formed { IsFormed feature }
    ensures ok { OnOk result (WritesNext (NotifiesOfDryFeature R.begins R.adds)
        (IsDryResult (library_value library.now) (chosen_value feature))
        true (chosen_value feature)
        (device_of W.contents out.old) counting.old (device_of W.contents out.new) counting.new) }
    ensures err { IfErr result (StopsAtNext (NotifiesOfDryFeature R.begins R.adds)
        (IsDryResult (library_value library.now) (chosen_value feature))
        true (chosen_value feature)
        (device_of W.contents out.old) counting.old (device_of W.contents out.new)) }
    ensures uncounted { OnErr result (counting.new.summary ≡ counting.old.summary) }
{
    counting.reporter.feature_begun(feature.source.as_str());
    match dry_feature(counting.alloc, library, feature) {
        Ok(result) => add_feature(counting, &result, out),
        Err(NoRoom) => Err(RunFault::Memory),
    }
}

/// Looks up the steps of features, one after another, and notifies a reporter of each. The errors are those of
/// `run_notifying`. Drop the reporter after one: it may have been notified of a feature that isn't counted.
pub fn look_up_features<R: Reporter, W: Write>(
    library: &Library,
    counting: &mut CountingReporter<R>,
    features: Vec<Chosen>,
    out: &mut Counted<W>,
) -> Result<(), RunFault>
    requires formed { AllByRecursion IsFormed features.items }
    ensures ok { OnOk result (AreWritten (NotifiesOfDryFeature R.begins R.adds) stays_begun
        (AreDryFeatures (library_value library.now)) true (map chosen_value features.items)
        (device_of W.contents out.old) counting.old (device_of W.contents out.new) counting.new) }
    ensures err { IfErr result (AreWrittenUpTo (NotifiesOfDryFeature R.begins R.adds) stays_begun
        (AreDryFeatures (library_value library.now)) true (map chosen_value features.items)
        (device_of W.contents out.old) counting.old (device_of W.contents out.new)) }
{
    for feature in features {
        look_up_next(library, counting, feature, out)?;
    }
    Ok(())
}

/// Notifies a reporter of the end of the run, and writes its last text. Returns the status of the run.
#[tactic(auto, using(gk_request::proofs::ResultLemmas::passed_on))]
pub fn close<R: Reporter, W: Write>(
    counting: CountingReporter<R>,
    around: Status,
    out: &mut Counted<W>,
) -> Result<u8, RunFault>
    ensures ok { IfOk result (IsClosed R.closes counting around
        (device_of W.contents out.old) (device_of W.contents out.new)) }
    ensures err { IfErr result (StopsClosing R.closes counting around
        (device_of W.contents out.old) (device_of W.contents out.new)) }
{
    let CountingReporter {
        alloc,
        reporter,
        summary,
    } = counting;
    let text = reporter.run_ended(alloc, &summary, around)?;
    write_piece(out, text.as_str())?;
    Ok(summary.status(around))
}

/// Runs features as one run, and notifies a reporter of its events, of each feature, and of its end. Returns the status of
/// the run. `Memory` comes if a text couldn't be made, or if there is no room for a feature's results. `Write` comes if
/// the writer failed. In both cases the run is finished, its result is dropped, and nothing more is written.
pub fn run_notifying<R: Reporter, W: Write>(
    library: &Library,
    hooks: &HookTable<'_>,
    sandbox: &mut Sandbox,
    stop: bool,
    features: Vec<Chosen>,
    counting: CountingReporter<R>,
    out: &mut Counted<W>,
) -> Result<u8, RunFault>
    requires outside { depth sandbox.old ≡ 0 }
    requires none { counting.summary ≡ summary_of [] }
    requires formed { AllByRecursion IsFormed features.items }
    ensures ok { IfOk result (IsRunWritten R.hears
        (NotifiesOfFeature R.hears R.ends R.begins R.adds) R.closes
        (run_of library.now hooks.now.file.now stop) sandbox.old.now
        (map chosen_value features.items) counting.reporter
        (device_of W.contents out.old) (device_of W.contents out.new)) }
    ensures err { IfErr result (IsRunWrittenUpTo R.hears
        (NotifiesOfFeature R.hears R.ends R.begins R.adds) R.closes
        (run_of library.now hooks.now.file.now stop) sandbox.old.now
        (map chosen_value features.items) counting.reporter
        (device_of W.contents out.old) (device_of W.contents out.new)) }
    ensures same { IsSame sandbox.old sandbox.new }
{
    // No code runs in these two: the laws say that the results of a run are judged, and that its results so
    // far begin some judged list.
    finished_runs_are_judged();
    unfinished_runs_are_judged();
    let mut counting = counting;
    let alloc = counting.alloc;
    let reporter = &mut counting.reporter;
    let mut suite = Suite::start_watched(alloc, sandbox, library, hooks, stop, reporter);
    let written = run_features(
        library,
        hooks,
        sandbox,
        &mut suite,
        &mut counting,
        features,
        out,
    );
    let around = suite.finish_watched(alloc, sandbox, library, hooks, &mut counting.reporter);
    match written {
        Ok(()) => close(counting, around, out),
        Err(fault) => Err(fault),
    }
}
