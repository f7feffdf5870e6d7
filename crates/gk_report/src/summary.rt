//! The counts of a report, and the status that a run ends with.
ghost use Rattle.std.specs.Prelude.{◌≡◌, [], map, fold};
ghost use Rattle.gk_run.specs.Results.{step_row, case_row, feature_row};
ghost use Rattle.gk_report.specs.Summary.{summary_of, one_status_more, one_case_more};

use gk_run::{CaseResult, FeatureResult, Status, StepResult};

/// Counts by status, each at most the greatest `u64`.
#[derive(Clone, Copy, Debug, PartialEq, Eq)]
pub struct Counts {
    pub passed: u64,
    pub failed: u64,
    pub skipped: u64,
    pub undefined: u64,
    pub untested: u64,
    pub memory: u64,
}

impl Counts {
    ghost use Rattle.gk_report.specs.Summary.{counts_of, one_status_more};

    // Returns the counts of no status.
    fn new() -> Counts
        ensures { result ≡ counts_of [] }
    {
        Counts {
            passed: 0,
            failed: 0,
            skipped: 0,
            undefined: 0,
            untested: 0,
            memory: 0,
        }
    }

    // Counts one more status.
    fn add(&mut self, status: Status)
        ensures { self.new ≡ one_status_more self.old status }
    {
        match status {
            Status::Passed => self.passed = self.passed.saturating_add(1),
            Status::Failed => self.failed = self.failed.saturating_add(1),
            Status::Skipped => self.skipped = self.skipped.saturating_add(1),
            Status::Undefined => self.undefined = self.undefined.saturating_add(1),
            Status::Untested => self.untested = self.untested.saturating_add(1),
            Status::Memory => self.memory = self.memory.saturating_add(1),
        }
    }
}

/// Counts of features, scenarios and steps.
#[derive(Clone, Copy, Debug, PartialEq, Eq)]
pub struct Summary {
    pub features: Counts,
    pub scenarios: Counts,
    pub steps: Counts,
}

impl Summary {
    ghost use Rattle.gk_report.specs.Summary.{summary_of, CountsOneMore, one_feature_more, status_by, IsStatusOf};

    /// Returns the counts over no features. Doesn't allocate.
    pub fn new() -> Summary
        ensures { result ≡ summary_of [] }
    {
        Summary {
            features: Counts::new(),
            scenarios: Counts::new(),
            steps: Counts::new(),
        }
    }

    /// Counts one more feature, with its scenarios and their steps. Doesn't allocate. (behave's documentation: summary)
    pub fn add(&mut self, feature: &FeatureResult)
        ensures counts { self.new ≡ one_feature_more self.old (feature_row feature.now) }
        ensures added { CountsOneMore self.old (feature_row feature.now) self.new }
    {
        self.features.add(feature.status);
        add_cases(self, feature.cases.as_slice());
    }

    /// Returns the status that the run ends with, if its own hooks and cleanups ended with `around`. It is 4 if
    /// `around` or a verdict is memory; otherwise 1 if one of them is failed or a step is undefined; otherwise 0.
    /// Doesn't allocate.
    pub fn status(&self, around: Status) -> u8
        ensures counts { result ≡ status_by self.now around }
        ensures status { IsStatusOf self.now around result }
    {
        if around == Status::Memory || self.features.memory > 0 || self.scenarios.memory > 0 {
            return 4;
        }
        if around == Status::Failed
            || self.features.failed > 0
            || self.scenarios.failed > 0
            || self.steps.undefined > 0
        {
            return 1;
        }
        0
    }
}

fn add_steps(counts: &mut Counts, steps: &[StepResult])
    ensures { counts.new ≡
        fold one_status_more counts.old (map (λ s. s.status) (map step_row steps.now)) }
{
    for step in steps {
        counts.add(step.status);
    }
}

fn add_cases(summary: &mut Summary, cases: &[CaseResult])
    ensures { summary.new ≡ fold one_case_more summary.old (map case_row cases.now) }
{
    for case in cases {
        summary.scenarios.add(case.status);
        add_steps(&mut summary.steps, case.steps.as_slice());
    }
}
