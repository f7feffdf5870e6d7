//! The plain report: the lines of a feature, and the closing lines, which it shares with the progress report.
ghost use Rattle.std.specs.Prelude.{◌≡◌, [], ◌++◌, Some, map, option_map, codes, cond};
ghost use Rattle.gk_run.specs.Results.{step_row, case_row, rule_row, feature_row};
ghost use Rattle.gk_report.specs.ReportTexts as spec;
ghost use Rattle.gk_report.specs.ReportTexts.{is_hidden, line_feed, Pushes, AnswersText};
ghost use Rattle.gk_report.specs.RuleGroups as by_rule;
ghost use Rattle.gk_report.specs.PlainReport.{step_verdict, step_line, case_line, around_line, case_lines, rule_line, line_of, feature_line, feature_end, counted, counted_if_any, passed_part, undefined_part, count_line, closing_lines};

use crate::report_texts::{hides, push_one_line, reason_text, status_text};
use crate::summary::{Counts, Summary};
use gk_run::{CaseResult, FeatureResult, Reason, RuleResult, Status, StepResult};
use std::alloc::{AllocError, Global};

// Returns the end of a line with a status and no reason.
#[tactic(auto, unfolding(crate::specs::ReportTexts::status_text))]
fn ending_text(status: Status) -> &'static str
    ensures { result.now ≡ codes " ... " ++ spec.status_text status ++ line_feed }
{
    match status {
        Status::Passed => " ... passed\n",
        Status::Failed => " ... failed\n",
        Status::Skipped => " ... skipped\n",
        Status::Undefined => " ... undefined\n",
        Status::Untested => " ... untested\n",
        Status::Memory => " ... memory\n",
    }
}

// Appends the end of a line with a status and a reason.
fn push_reason_ending(out: &mut String, status: Status, reason: Reason) -> Result<(), AllocError>
    ensures { Pushes out.old
        (codes " ... " ++ step_verdict status (Some reason) ++ line_feed) result out.new }
{
    out.push_str(" ... ")?;
    out.push_str(status_text(status))?;
    out.push_str(": ")?;
    out.push_str(reason_text(reason))?;
    out.push_str("\n")
}

/// Appends the end of a line with a status: three dots, the status, the reason if there is one, and a line feed. An
/// error comes only if a growth was refused.
#[inline(always)]
pub fn push_ending(
    out: &mut String,
    status: Status,
    reason: Option<Reason>,
) -> Result<(), AllocError>
    ensures { Pushes out.old
        (codes " ... " ++ step_verdict status reason ++ line_feed) result out.new }
{
    match reason {
        Some(reason) => push_reason_ending(out, status, reason),
        None => out.push_str(ending_text(status)),
    }
}

// Appends a keyword after an indent, and the text behind it.
#[inline(always)]
fn push_keyword(
    out: &mut String,
    indent: &str,
    keyword: &str,
    behind: &str,
) -> Result<(), AllocError>
    ensures { Pushes out.old (indent.now ++ keyword.now ++ behind.now) result out.new }
{
    out.push_str(indent)?;
    out.push_str(keyword)?;
    out.push_str(behind)
}

#[tactic(auto, unfolding(crate::specs::PlainReport::status_line, crate::specs::PlainReport::step_line))]
fn push_step(out: &mut String, step: &StepResult) -> Result<(), AllocError>
    ensures { Pushes out.old (step_line (step_row step.now)) result out.new }
{
    push_keyword(out, "    ", step.keyword.as_str(), " ")?;
    push_one_line(out, step.text.as_str())?;
    push_ending(out, step.status, step.reason)
}

#[tactic(auto, unfolding(crate::specs::PlainReport::status_line, crate::specs::PlainReport::case_line))]
fn push_case_line(out: &mut String, case: &CaseResult) -> Result<(), AllocError>
    ensures { Pushes out.old (case_line (case_row case.now)) result out.new }
{
    push_keyword(out, "  ", case.keyword.as_str(), ": ")?;
    push_one_line(out, case.name.as_str())?;
    push_ending(out, case.status, None)
}

// Appends the line of hooks and cleanups, unless they passed.
#[tactic(auto, unfolding(crate::specs::PlainReport::status_line, crate::specs::PlainReport::around_line))]
fn push_around(out: &mut String, indent: &str, around: Status) -> Result<(), AllocError>
    ensures { Pushes out.old (around_line indent.now around) result out.new }
{
    if around == Status::Passed {
        return Ok(());
    }
    out.push_str(indent)?;
    out.push_str("(hooks and cleanups)")?;
    push_ending(out, around, None)
}

fn push_case(out: &mut String, case: &CaseResult) -> Result<(), AllocError>
    ensures { Pushes out.old (case_lines (case_row case.now)) result out.new }
{
    push_case_line(out, case)?;
    for step in &case.steps {
        push_step(out, step)?;
    }
    push_around(out, "    ", case.around)?;
    Ok(())
}

// Appends the lines of a scenario, unless it is hidden.
fn push_printed(out: &mut String, no_skipped: bool, case: &CaseResult) -> Result<(), AllocError>
    ensures { Pushes out.old
        (cond (is_hidden no_skipped case.now.status) [] (case_lines (case_row case.now)))
        result out.new }
{
    if !hides(no_skipped, case.status) {
        push_case(out, case)?;
    }
    Ok(())
}

// Returns whether the first of these rules begins above a line.
fn begins_above(rules: &[RuleResult], line: u32) -> bool
    ensures { result ≡ by_rule.begins_above (map rule_row rules.now) line }
{
    match rules.first() {
        Some(rule) => rule.line < line,
        None => false,
    }
}

// Appends the line of a rule's hooks and cleanups, unless they passed.
#[tactic(auto, unfolding(crate::specs::PlainReport::status_line, crate::specs::PlainReport::rule_line))]
fn push_rule_line(out: &mut String, rule: RuleResult) -> Result<(), AllocError>
    ensures { Pushes out.old (rule_line (rule_row rule)) result out.new }
{
    if rule.around == Status::Passed {
        return Ok(());
    }
    write!(out, "  (rule, line {}: hooks and cleanups)", rule.line)?;
    push_ending(out, rule.around, None)
}

// Appends the line of the rule that scenarios are in, if they are in one.
fn push_line_of(out: &mut String, rule: Option<RuleResult>) -> Result<(), AllocError>
    ensures { Pushes out.old (line_of (option_map rule_row rule)) result out.new }
{
    match rule {
        Some(rule) => push_rule_line(out, rule),
        None => Ok(()),
    }
}

/// The lines that are left of a feature's scenarios and rules.
#[derive(Clone, Copy, Debug)]
pub struct LinesLeft<'a> {
    // The rule that the next scenario is in, if it is in one.
    rule: Option<RuleResult>,
    // The rules that follow.
    rules: &'a [RuleResult],
    cases: &'a [CaseResult],
}

impl<'a> LinesLeft<'a> {
    ghost use Rattle.std.specs.Prelude.{◌≡◌, ◌<◌, ◌+◌, [], Bool, false, length, map, IfOk, IsTrue};
    ghost use Rattle.gk_run.specs.Results.{case_row, rule_row, feature_row};
    ghost use Rattle.gk_report.specs.ReportTexts.{PushesSome};
    ghost use Rattle.gk_report.specs.RuleGroups.{cases_before};
    ghost use Rattle.gk_report.specs.PlainReport.{scenario_lines, lines_left, lines_to_go};

    /// Returns all lines of a feature's scenarios and rules. Doesn't allocate.
    pub fn new(feature: &'a FeatureResult) -> LinesLeft<'a>
        ensures lines { (no_skipped : Bool) → let f = feature_row feature.now in
            lines_left no_skipped result ≡ scenario_lines no_skipped f.rules f.cases }
        ensures to_go { lines_to_go result
            ≡ length feature.now.rules.items + length feature.now.cases.items }
    {
        LinesLeft {
            rule: None,
            rules: feature.rules.as_slice(),
            cases: feature.cases.as_slice(),
        }
    }

    // Appends the line of the rule that ends. Returns whether another rule begins.
    fn push_rule(&mut self, out: &mut String, no_skipped: bool) -> Result<bool, AllocError>
        requires { cases_before
            (map rule_row self.old.rules.now) (map case_row self.old.cases.now) ≡ [] }
        ensures pushed { PushesSome out.old (lines_left no_skipped self.old)
            result out.new (lines_left no_skipped self.new) }
        ensures fewer { IfOk result (λ more.
            IsTrue more → lines_to_go self.new < lines_to_go self.old) }
        ensures over { IfOk result (λ more. more ≡ false → lines_left no_skipped self.new ≡ []) }
    {
        push_line_of(out, self.rule)?;
        match self.rules.split_first() {
            Some((rule, others)) => {
                self.rule = Some(*rule);
                self.rules = others;
                Ok(true)
            }
            None => {
                self.rule = None;
                Ok(false)
            }
        }
    }

    /// Appends the lines of the next scenario, or the line of the rule that ends before it. Returns whether more may be
    /// left. An error comes only if a growth was refused.
    pub fn push_next(&mut self, out: &mut String, no_skipped: bool) -> Result<bool, AllocError>
        ensures pushed { PushesSome out.old (lines_left no_skipped self.old)
            result out.new (lines_left no_skipped self.new) }
        ensures fewer { IfOk result (λ more.
            IsTrue more → lines_to_go self.new < lines_to_go self.old) }
        ensures over { IfOk result (λ more. more ≡ false → lines_left no_skipped self.new ≡ []) }
    {
        match self.cases.split_first() {
            Some((case, others)) => {
                if begins_above(self.rules, case.line) {
                    return self.push_rule(out, no_skipped);
                }
                push_printed(out, no_skipped, case)?;
                self.cases = others;
                Ok(true)
            }
            None => self.push_rule(out, no_skipped),
        }
    }
}

/// Appends the text before the scenarios of a feature. An error comes only if a growth was refused.
#[tactic(auto, unfolding(crate::specs::PlainReport::status_line, crate::specs::PlainReport::feature_line))]
pub fn push_feature_line(out: &mut String, feature: &FeatureResult) -> Result<(), AllocError>
    ensures { Pushes out.old (feature_line (feature_row feature.now)) result out.new }
{
    out.push_str("Feature: ")?;
    push_one_line(out, feature.name.as_str())?;
    push_ending(out, feature.status, None)
}

/// Appends the text after the scenarios of a feature. An error comes only if a growth was refused.
pub fn push_feature_end(out: &mut String, around: Status) -> Result<(), AllocError>
    ensures { Pushes out.old (feature_end around) result out.new }
{
    push_around(out, "  ", around)?;
    out.push_str("\n")
}

#[tactic(auto, unfolding(crate::specs::PlainReport::counted))]
fn push_counted(out: &mut String, count: u64, word: &str) -> Result<(), AllocError>
    ensures { Pushes out.old (counted count word.now) result out.new }
{
    write!(out, ", {count} {word}")?;
    Ok(())
}

fn push_counted_if_any(out: &mut String, count: u64, word: &str) -> Result<(), AllocError>
    ensures { Pushes out.old (counted_if_any count word.now) result out.new }
{
    if count != 0 {
        push_counted(out, count, word)?;
    }
    Ok(())
}

fn push_passed(out: &mut String, noun: &str, passed: u64) -> Result<(), AllocError>
    ensures { Pushes out.old (passed_part noun.now passed) result out.new }
{
    let plural = if passed == 1 { "" } else { "s" };
    write!(out, "{passed} {noun}{plural} passed")?;
    Ok(())
}

fn push_undefined(out: &mut String, count: u64, of_steps: bool) -> Result<(), AllocError>
    ensures { Pushes out.old
        (cond of_steps (counted count (codes "undefined")) []) result out.new }
{
    if of_steps {
        push_counted(out, count, "undefined")?;
    }
    Ok(())
}

// Appends a line of counts. A line for steps has the undefined ones, too.
#[tactic(auto, using(crate::proofs::PushLemmas::written_after), unfolding(crate::specs::PlainReport::count_line))]
fn push_count_line(
    out: &mut String,
    noun: &str,
    counts: &Counts,
    of_steps: bool,
) -> Result<(), AllocError>
    ensures { Pushes out.old
        (count_line noun.now counts.now (undefined_part of_steps counts.now)) result out.new }
{
    push_passed(out, noun, counts.passed)?;
    push_counted(out, counts.failed, "failed")?;
    push_counted(out, counts.skipped, "skipped")?;
    push_undefined(out, counts.undefined, of_steps)?;
    push_counted_if_any(out, counts.untested, "untested")?;
    push_counted_if_any(out, counts.memory, "memory")?;
    out.push_str("\n")?;
    Ok(())
}

/// Returns the closing lines: how the run's own hooks and cleanups ended (`around`), and the counts of a summary. An
/// error comes only if a growth was refused.
#[tactic(auto, unfolding(crate::specs::PlainReport::closing_lines))]
pub fn closing_text(alloc: Global, summary: &Summary, around: Status) -> Result<String, AllocError>
    ensures { AnswersText result (closing_lines summary.now around) }
{
    let mut out = String::new(alloc);
    push_around(&mut out, "", around)?;
    push_count_line(&mut out, "feature", &summary.features, false)?;
    push_count_line(&mut out, "scenario", &summary.scenarios, false)?;
    push_count_line(&mut out, "step", &summary.steps, true)?;
    Ok(out)
}
