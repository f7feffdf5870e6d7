//! The JSON report: one document, whose objects `serde_json` writes directly from the results.
ghost use Rattle.std.specs.Prelude.{◌≡◌, [], ◌++◌, codes, map, Some, IfOk, string_bytes};
ghost use Rattle.serde.specs.Event.{Log};
ghost use Rattle.serde_json.specs.Data.{string, member};
ghost use Rattle.serde_json.specs.Events.{SendsValue};
ghost use Rattle.serde_json.specs.Sent.{IsTextOf};
ghost use Rattle.serde_json.specs.Written.{compact_text};
ghost use Rattle.gk_run.specs.Results.{step_row, case_row, rule_row, feature_row};
ghost use Rattle.gk_report.specs.Summary.{status_by};
ghost use Rattle.gk_report.specs.ReportTexts.{Pushes, AnswersText};
ghost use Rattle.gk_report.specs.JsonReport as spec;
ghost use Rattle.gk_report.specs.JsonReport.{number_data, status_data, array_data, reason_and, step_data, case_data, rule_data, rules_data, summary_data, comma_unless, rules_member, object_start, object_end, WritesMembers, WritesValue, undefined_and, counts_data_of, tail_of};

use crate::report_texts::{hides, reason_text, status_text};
use crate::summary::{Counts, Summary};
use gk_run::{CaseResult, FeatureResult, Reason, RuleResult, Status, StepResult};
use serde::{Described, Serialize, Serializer};
use std::alloc::{AllocError, Global};

// A scenario as an object.
#[derive(Clone, Copy)]
struct CaseObject<'a> {
    case: &'a CaseResult,
}

impl Described for CaseObject<'_> {
    ghost writes = { λ c. SendsValue (case_data (case_row c.case.now)) };
}

impl Serialize for CaseObject<'_> {
    fn serialize<S: Serializer>(&self, out: &mut S) -> Result<(), S::Error> {
        write_case(out, self.case)
    }
}

// The rules of a feature as an array.
#[derive(Clone, Copy)]
struct RulesArray<'a> {
    rules: &'a [RuleResult],
}

impl Described for RulesArray<'_> {
    ghost writes = { λ r. SendsValue (rules_data (map rule_row r.rules.now)) };
}

impl Serialize for RulesArray<'_> {
    fn serialize<S: Serializer>(&self, out: &mut S) -> Result<(), S::Error> {
        write_rules(out, self.rules)
    }
}

// All counts as an object.
#[derive(Clone, Copy)]
struct SummaryObject {
    summary: Summary,
}

impl Described for SummaryObject {
    ghost writes = { λ s. SendsValue (summary_data s.summary) };
}

impl Serialize for SummaryObject {
    fn serialize<S: Serializer>(&self, out: &mut S) -> Result<(), S::Error> {
        write_summary(out, &self.summary)
    }
}

#[inline(always)]
fn write_text<S: Serializer>(out: &mut S, key: &str, text: &str) -> Result<(), S::Error>
    ensures { WritesMembers S.written out.old (member key.now (string text.now)) result out.new }
{
    out.key(key)?;
    out.str(text)
}

#[inline(always)]
fn write_number<S: Serializer>(out: &mut S, key: &str, number: u64) -> Result<(), S::Error>
    ensures { WritesMembers S.written out.old (member key.now (number_data number)) result out.new }
{
    out.key(key)?;
    out.u64(number)
}

#[inline(always)]
fn write_status<S: Serializer>(out: &mut S, key: &str, status: Status) -> Result<(), S::Error>
    ensures { WritesMembers S.written out.old (member key.now (status_data status)) result out.new }
{
    write_text(out, key, status_text(status))
}

// Writes the reason of a step that failed.
fn write_reason<S: Serializer>(out: &mut S, reason: Option<Reason>) -> Result<(), S::Error>
    ensures { WritesMembers S.written out.old (reason_and reason) result out.new }
{
    match reason {
        Some(reason) => write_text(out, "reason", reason_text(reason)),
        None => Ok(()),
    }
}

// Returns the number of members of a step's object.
fn step_members(reason: Option<Reason>) -> usize
    ensures { result ≡ spec.step_members reason }
{
    match reason {
        Some(_) => 5,
        None => 4,
    }
}

fn write_step<S: Serializer>(out: &mut S, step: &StepResult) -> Result<(), S::Error>
    ensures { WritesValue S.written out.old (step_data (step_row step.now)) result out.new }
{
    out.begin_map(Some(step_members(step.reason)))?;
    write_text(out, "keyword", step.keyword.as_str())?;
    write_number(out, "line", u64::from(step.line))?;
    write_reason(out, step.reason)?;
    write_status(out, "status", step.status)?;
    write_text(out, "text", step.text.as_str())?;
    out.end_map()
}

fn write_steps<S: Serializer>(out: &mut S, steps: &[StepResult]) -> Result<(), S::Error>
    ensures { WritesMembers S.written out.old
        (member (codes "steps") (array_data (map step_data (map step_row steps.now))))
        result out.new }
{
    out.key("steps")?;
    out.begin_seq(Some(steps.len()))?;
    for step in steps {
        write_step(out, step)?;
    }
    out.end_seq()
}

fn write_case<S: Serializer>(out: &mut S, case: &CaseResult) -> Result<(), S::Error>
    ensures { WritesValue S.written out.old (case_data (case_row case.now)) result out.new }
{
    out.begin_map(Some(6))?;
    write_status(out, "around", case.around)?;
    write_text(out, "keyword", case.keyword.as_str())?;
    write_number(out, "line", u64::from(case.line))?;
    write_text(out, "name", case.name.as_str())?;
    write_status(out, "status", case.status)?;
    write_steps(out, case.steps.as_slice())?;
    out.end_map()
}

fn write_rule<S: Serializer>(out: &mut S, rule: RuleResult) -> Result<(), S::Error>
    ensures { WritesValue S.written out.old (rule_data (rule_row rule)) result out.new }
{
    out.begin_map(Some(2))?;
    write_status(out, "around", rule.around)?;
    write_number(out, "line", u64::from(rule.line))?;
    out.end_map()
}

fn write_rules<S: Serializer>(out: &mut S, rules: &[RuleResult]) -> Result<(), S::Error>
    ensures { WritesValue S.written out.old (rules_data (map rule_row rules.now)) result out.new }
{
    out.begin_seq(Some(rules.len()))?;
    for rule in rules {
        write_rule(out, *rule)?;
    }
    out.end_seq()
}

// Writes the undefined ones, for steps only.
fn write_undefined<S: Serializer>(out: &mut S, count: u64, of_steps: bool) -> Result<(), S::Error>
    ensures { WritesMembers S.written out.old (undefined_and of_steps count) result out.new }
{
    if !of_steps {
        return Ok(());
    }
    write_number(out, "undefined", count)
}

// Returns the number of members of an object of counts.
fn count_members(of_steps: bool) -> usize
    ensures { result ≡ spec.count_members of_steps }
{
    if of_steps { 6 } else { 5 }
}

fn write_counts<S: Serializer>(
    out: &mut S,
    key: &str,
    counts: &Counts,
    of_steps: bool,
) -> Result<(), S::Error>
    ensures { WritesMembers S.written out.old
        (member key.now (counts_data_of of_steps counts.now)) result out.new }
{
    out.key(key)?;
    out.begin_map(Some(count_members(of_steps)))?;
    write_number(out, "failed", counts.failed)?;
    write_number(out, "memory", counts.memory)?;
    write_number(out, "passed", counts.passed)?;
    write_number(out, "skipped", counts.skipped)?;
    write_undefined(out, counts.undefined, of_steps)?;
    write_number(out, "untested", counts.untested)?;
    out.end_map()
}

fn write_summary<S: Serializer>(out: &mut S, summary: &Summary) -> Result<(), S::Error>
    ensures { WritesValue S.written out.old (summary_data summary.now) result out.new }
{
    out.begin_map(Some(3))?;
    write_counts(out, "features", &summary.features, false)?;
    write_counts(out, "scenarios", &summary.scenarios, false)?;
    write_counts(out, "steps", &summary.steps, true)?;
    out.end_map()
}

// Returns the text of a value. Writing a value of this module fails only if a growth is refused.
fn json_text<T: Serialize>(alloc: Global, value: &T) -> Result<String, AllocError>
    ensures { IfOk result (λ text.
        (log : Log) × T.writes value.now (Some []) log × IsTextOf log (string_bytes text)) }
{
    match serde_json::to_string(alloc, value) {
        Ok(text) => Ok(text),
        Err(_) => Err(AllocError),
    }
}

fn case_text(alloc: Global, case: &CaseResult) -> Result<String, AllocError>
    ensures { AnswersText result (compact_text (case_data (case_row case.now))) }
{
    let object = CaseObject { case };
    json_text(alloc, &object)
}

fn rules_text(alloc: Global, rules: &[RuleResult]) -> Result<String, AllocError>
    ensures { AnswersText result (compact_text (rules_data (map rule_row rules.now))) }
{
    let array = RulesArray { rules };
    json_text(alloc, &array)
}

fn summary_text(alloc: Global, summary: &Summary) -> Result<String, AllocError>
    ensures { AnswersText result (compact_text (summary_data summary.now)) }
{
    json_text(alloc, &SummaryObject { summary: *summary })
}

#[tactic(auto, using(serde_json::proofs::FreeTexts::text_of_str))]
fn string_text(alloc: Global, text: &str) -> Result<String, AllocError>
    ensures { AnswersText result (compact_text (string text.now)) }
{
    json_text(alloc, &text)
}

fn push_string(out: &mut String, alloc: Global, text: &str) -> Result<(), AllocError>
    ensures { Pushes out.old (compact_text (string text.now)) result out.new }
{
    let quoted = string_text(alloc, text)?;
    out.push_str(quoted.as_str())
}

fn push_status(out: &mut String, alloc: Global, status: Status) -> Result<(), AllocError>
    ensures { Pushes out.old (compact_text (status_data status)) result out.new }
{
    push_string(out, alloc, status_text(status))
}

// Appends the member with the rules of a feature, if it has any.
fn push_rules(out: &mut String, alloc: Global, rules: &[RuleResult]) -> Result<(), AllocError>
    ensures { Pushes out.old (rules_member (map rule_row rules.now)) result out.new }
{
    if rules.is_empty() {
        return Ok(());
    }
    let array = rules_text(alloc, rules)?;
    out.push_str(",\"rules\":")?;
    out.push_str(array.as_str())
}

// Appends a comma, unless nothing comes before it.
fn push_comma(out: &mut String, first: bool) -> Result<(), AllocError>
    ensures { Pushes out.old (comma_unless first) result out.new }
{
    if !first {
        out.push_str(",")?;
    }
    Ok(())
}

fn push_object(
    out: &mut String,
    alloc: Global,
    first: bool,
    case: &CaseResult,
) -> Result<(), AllocError>
    ensures { Pushes out.old (comma_unless first ++ compact_text (case_data (case_row case.now)))
        result out.new }
{
    let object = case_text(alloc, case)?;
    push_comma(out, first)?;
    out.push_str(object.as_str())
}

/// Returns the text before the features. An error comes only if a growth was refused.
#[tactic(auto, unfolding(crate::specs::JsonReport::json_head))]
pub fn json_head(alloc: Global) -> Result<String, AllocError>
    ensures { AnswersText result spec.json_head }
{
    Ok(String::from_str(alloc, "{\"features\":[")?)
}

/// Appends the text before the scenarios in the object of a feature, after a comma unless the object is the first that
/// is printed. An error comes only if a growth was refused.
#[tactic(auto, using(crate::proofs::JsonReportLemmas::start_written), unfolding(crate::specs::JsonReport::object_start))]
pub fn push_object_start(
    out: &mut String,
    alloc: Global,
    first: bool,
    feature: &FeatureResult,
) -> Result<(), AllocError>
    ensures { Pushes out.old (object_start first (feature_row feature.now)) result out.new }
{
    push_comma(out, first)?;
    out.push_str("{\"around\":")?;
    push_status(out, alloc, feature.around)?;
    write!(out, ",\"line\":{},\"name\":", feature.line)?;
    push_string(out, alloc, feature.name.as_str())?;
    push_rules(out, alloc, feature.rules.as_slice())?;
    out.push_str(",\"scenarios\":[")?;
    Ok(())
}

/// Appends the text after the scenarios in the object of a feature. An error comes only if a growth was refused.
#[tactic(auto, unfolding(crate::specs::JsonReport::object_end))]
pub fn push_object_end(
    out: &mut String,
    alloc: Global,
    feature: &FeatureResult,
) -> Result<(), AllocError>
    ensures { Pushes out.old (object_end (feature_row feature.now)) result out.new }
{
    out.push_str("],\"source\":")?;
    push_string(out, alloc, feature.source.as_str())?;
    out.push_str(",\"status\":")?;
    push_status(out, alloc, feature.status)?;
    out.push_str("}")?;
    Ok(())
}

/// The objects that are left of a feature's scenarios.
#[derive(Clone, Copy, Debug)]
pub struct ObjectsLeft<'a> {
    // Whether no scenario before these is printed.
    first: bool,
    cases: &'a [CaseResult],
}

impl<'a> ObjectsLeft<'a> {
    ghost use Rattle.std.specs.Prelude.{◌≡◌, ◌<◌, [], Bool, true, false, length, IfOk, IsTrue};
    ghost use Rattle.gk_run.specs.Results.{feature_row};
    ghost use Rattle.gk_report.specs.ReportTexts.{PushesSome};
    ghost use Rattle.gk_report.specs.JsonReport.{objects_text, objects_left, objects_to_go};

    /// Returns the objects of all scenarios of a feature. Doesn't allocate.
    pub fn new(feature: &'a FeatureResult) -> ObjectsLeft<'a>
        ensures objects { (no_skipped : Bool) → objects_left no_skipped result
            ≡ objects_text no_skipped true (feature_row feature.now).cases }
        ensures to_go { objects_to_go result ≡ length feature.now.cases.items }
    {
        ObjectsLeft {
            first: true,
            cases: feature.cases.as_slice(),
        }
    }

    /// Appends the object of the next scenario, after a comma unless the object is the first that is printed. Returns
    /// whether there was a next scenario, printed or hidden. An error comes only if a growth was refused.
    pub fn push_next(
        &mut self,
        out: &mut String,
        alloc: Global,
        no_skipped: bool,
    ) -> Result<bool, AllocError>
        ensures pushed { PushesSome out.old (objects_left no_skipped self.old)
            result out.new (objects_left no_skipped self.new) }
        ensures fewer { IfOk result (λ more.
            IsTrue more → objects_to_go self.new < objects_to_go self.old) }
        ensures over { IfOk result (λ more.
            more ≡ false → objects_left no_skipped self.new ≡ []) }
    {
        match self.cases.split_first() {
            Some((case, others)) => {
                self.cases = others;
                if hides(no_skipped, case.status) {
                    return Ok(true);
                }
                push_object(out, alloc, self.first, case)?;
                self.first = false;
                Ok(true)
            }
            None => Ok(false),
        }
    }
}

#[tactic(auto, unfolding(crate::specs::JsonReport::tail_of))]
fn tail_text(alloc: Global, run: &str, status: u8, counts: &str) -> Result<String, AllocError>
    ensures { AnswersText result (tail_of run.now status counts.now) }
{
    let mut out = String::new(alloc);
    out.push_str("],\"run\":")?;
    out.push_str(run)?;
    write!(out, ",\"status\":{status},\"summary\":")?;
    out.push_str(counts)?;
    out.push_str("}\n")?;
    Ok(out)
}

/// Returns the text after the features: how the run's own hooks and cleanups ended (`around`), the status that the run
/// ends with, and the counts of a summary. An error comes only if a growth was refused.
pub fn json_tail(alloc: Global, summary: &Summary, around: Status) -> Result<String, AllocError>
    ensures { AnswersText result
        (spec.json_tail around (status_by summary.now around) summary.now) }
{
    let run = string_text(alloc, status_text(around))?;
    let counts = summary_text(alloc, summary)?;
    let status = summary.status(around);
    tail_text(alloc, run.as_str(), status, counts.as_str())
}
