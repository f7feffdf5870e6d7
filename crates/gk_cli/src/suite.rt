//! A whole run of a suite, with its report, with an explanation in its place, or with the findings before any run.
ghost use Rattle.std.specs.Prelude.{◌≡◌, IfOk, IfErr};
ghost use Rattle.gk_world.specs.Sandbox.{depth, IsSame};
ghost use Rattle.gk_request.specs.Request.{asked, files_value, request_of_files, library_name, hooks_name};
ghost use Rattle.gk_cli.specs.Modes.{lint_status, IsWrittenAs, Linted, LintedInPart, SaysFaultAs};
ghost use Rattle.gk_cli.specs.Suite.{JudgedReport, OnlyReport, Reported, ReportedInPart, SaysFault, SaysFaultBy};
ghost use Rattle.gk_cli.specs.ExplainRun.{Explained, ExplainedInPart};
ghost use Rattle.gk_cli.specs.Writing.{UsesWriter, device_of};

use crate::arguments::Mode;
use crate::explain_run::write_explanation;
use crate::report_run::write_run;
use crate::writing::write_piece;
use gk_findings::findings_text;
use gk_io::Counted;
use gk_request::{
    Options, RunFault, Source, SuiteFiles, bytes_of, inputs_are_unique, name_of, read_inputs,
};
use gk_run::without_memory_there_is_one_list;
use gk_world::Sandbox;
use std::alloc::Global;
use std::io::Write;

/// Reads the request, runs the selected scenarios of the features in order, and writes the report. The hooks and
/// cleanups of the run and of each feature, rule and scenario run around them. The head of the report is written before
/// the run begins, the part of each feature when the feature has ended, and the tail when the run has ended. A
/// feature's result is counted and dropped once its part is written. Without `library` the steps are those of the
/// default library; without `hooks` there are no hooks. A dry run runs no hook, step or cleanup.
///
/// Returns the status of the run: 0 if nothing failed, 1 if a scenario, a hook or a cleanup failed or a step is
/// undefined, 4 if one of these ran out of memory. `RunFault` says when each error comes and what was written. Whatever
/// is returned, files, variables, values and layers of the sandbox are as they were, and nothing is flushed. No layer
/// of the sandbox may be open. A count of the writer that has reached `u64::MAX` stays there, so that one more failure
/// goes unnoticed.
pub fn run_suite<W: Write>(
    alloc: Global,
    sandbox: &mut Sandbox,
    options: &Options,
    library: Option<&[u8]>,
    hooks: Option<&[u8]>,
    sources: &[Source],
    out: &mut Counted<W>,
) -> Result<u8, RunFault>
    requires outside { depth sandbox.old ≡ 0 }

    // The report that was written and the status that is returned are those of one list of results.
    ensures reported { IfOk result (Reported options.now.style
        (device_of W.contents out.old) (device_of W.contents out.new)) }
    // That list is judged: each selected scenario that was reached has in it the verdict and the step statuses that
    // plain maps give it alone from its section's state. Rows marked memory are excepted.
    ensures judged { IfOk result (JudgedReport
        (asked options.now library.entry hooks.entry sources.now) sandbox.old.now
        (device_of W.contents out.old) (device_of W.contents out.new)) }
    // At each status except 4 that list is the one that plain maps give, and no other judged list has this status.
    ensures plain { IfOk result (OnlyReport
        (asked options.now library.entry hooks.entry sources.now) sandbox.old.now
        (device_of W.contents out.old) (device_of W.contents out.new)) }
    // Whatever is returned, files, variables, values and layers are as they were.
    ensures same { IsSame sandbox.old sandbox.new }
    // The fault, and what was written.
    ensures fault { IfErr result (SaysFault
        (asked options.now library.entry hooks.entry sources.now) sandbox.old.now
        (device_of W.contents out.old) (device_of W.contents out.new)) }
    // The writer isn't flushed. With a status, it didn't fail, and each call moved at least one byte.
    ensures used { UsesWriter result
        (device_of W.contents out.old) (device_of W.contents out.new) }
{
    // No code runs in these two: the laws say that a request reads in only one way, and that results without a mark of
    // memory are the plain ones.
    inputs_are_unique();
    without_memory_there_is_one_list();
    let inputs = read_inputs(alloc, options, false, library, hooks, sources)?;
    write_run(alloc, sandbox, options, inputs, out)
}

// Runs these files and writes an explanation.
fn explain_suite<W: Write>(
    alloc: Global,
    sandbox: &mut Sandbox,
    options: &Options,
    files: &SuiteFiles,
    out: &mut Counted<W>,
) -> Result<u8, RunFault>
    requires outside { depth sandbox.old ≡ 0 }
    ensures explained { IfOk result (Explained
        (request_of_files options.now (files_value files.now))
        (hooks_name (files_value files.now)) sandbox.old.now
        (device_of W.contents out.old) (device_of W.contents out.new)) }
    ensures fault { IfErr result (SaysFaultBy (ExplainedInPart
        (request_of_files options.now (files_value files.now))
        (hooks_name (files_value files.now)) sandbox.old.now
        (device_of W.contents out.old) (device_of W.contents out.new))
        (request_of_files options.now (files_value files.now))
        (device_of W.contents out.old) (device_of W.contents out.new)) }
    ensures same { IsSame sandbox.old sandbox.new }
    ensures used { UsesWriter result
        (device_of W.contents out.old) (device_of W.contents out.new) }
{
    let library = bytes_of(&files.library);
    let hooks = bytes_of(&files.hooks);
    let sources = files.sources.as_slice();
    let inputs = read_inputs(alloc, options, true, library, hooks, sources)?;
    write_explanation(alloc, sandbox, options, name_of(&files.hooks), inputs, out)
}

// Returns the status of a lint that writes this text.
fn lint_status(text: &str) -> u8
    ensures { result ≡ lint_status text.now }
{
    if text.is_empty() { 0 } else { 1 }
}

// Reads the request, runs nothing, and writes the findings.
#[tactic(auto, using(gk_request::proofs::ResultLemmas::passed_on, crate::proofs::ModesLemmas::part_of_lint))]
fn lint_suite<W: Write>(
    alloc: Global,
    options: &Options,
    steps: bool,
    files: &SuiteFiles,
    out: &mut Counted<W>,
) -> Result<u8, RunFault>
    ensures linted { IfOk result (Linted steps
        (request_of_files options.now (files_value files.now))
        (library_name (files_value files.now))
        (hooks_name (files_value files.now))
        (device_of W.contents out.old) (device_of W.contents out.new)) }
    ensures fault { IfErr result (SaysFaultBy (LintedInPart steps
        (request_of_files options.now (files_value files.now))
        (library_name (files_value files.now))
        (hooks_name (files_value files.now))
        (device_of W.contents out.old) (device_of W.contents out.new))
        (request_of_files options.now (files_value files.now))
        (device_of W.contents out.old) (device_of W.contents out.new)) }
    ensures used { UsesWriter result
        (device_of W.contents out.old) (device_of W.contents out.new) }
{
    let text = findings_text(alloc, options, steps, files)?;
    write_piece(out, text.as_str())?;
    Ok(lint_status(text.as_str()))
}

/// Reads these files, and writes what the mode asks for.
///
/// `Report`: runs them by `run_suite`, with the same results and the same errors.
///
/// `Explanation`: runs them in the same way, and writes an explanation instead of the report. When a feature has ended,
/// each of its scenarios that failed or ran out of memory gets a heading with its place and status. Below the heading
/// is the row of the Examples, if the scenario is the case of a row, and a line for each of its events, in order. The
/// hooks and cleanups of each of its rules, and the feature's own, get the same if they failed or ran out of memory.
/// When the run has ended, so do its own. Then the headings appear as a list, followed by the closing lines of the plain
/// report. Scenarios that passed, are skipped or aren't reached are only counted. Of the options, `dry_run` and `style`
/// are ignored.
///
/// `Findings`: runs nothing, and writes the findings, each as a line `NAME:LINE: TEXT`. Those of the hooks file come
/// first, then those of each source in order, each in the order of its lines. Then there is a line for each tag of
/// `--tags` that occurs nowhere, as often as it is named, and for each `--line` that chooses no scenario. The unused
/// entries of the library file come last, with a line that counts them. Below an undefined step are its text and the
/// entry that may be meant. Findings are silently ignored parts of a file, steps that can't work because an entry, a
/// text or a table is missing, unused items, and scenarios that share a name. Without `steps`, no step is looked up, and
/// neither steps nor entries have findings. Of the options, only `tags` and `lines` are looked at.
///
/// Returns the status of the results, as `run_suite` does; with `Findings`, 0 if nothing was found, and 1 otherwise.
/// `RunFault` says when each error comes and what was written. Whatever is returned, files, variables, values and layers
/// of the sandbox are as they were, and nothing is flushed. No layer of the sandbox may be open. A count of the writer
/// that has reached `u64::MAX` stays there.
#[tactic(auto, using(crate::proofs::ModesLemmas::fault_in_mode, crate::proofs::ModesLemmas::in_mode))]
pub fn write_suite<W: Write>(
    alloc: Global,
    sandbox: &mut Sandbox,
    options: &Options,
    mode: Mode,
    files: &SuiteFiles,
    out: &mut Counted<W>,
) -> Result<u8, RunFault>
    requires outside { depth sandbox.old ≡ 0 }

    // The output and the status: the report of a judged list, which at each status except 4 is the one that plain maps
    // give, the explanation of a run with judged results, or all findings and no others.
    ensures written { IfOk result (IsWrittenAs mode (files_value files.now)
        (request_of_files options.now (files_value files.now)) sandbox.old.now
        (device_of W.contents out.old) (device_of W.contents out.new)) }
    // The fault, and what was written.
    ensures fault { IfErr result (SaysFaultAs mode (files_value files.now)
        (request_of_files options.now (files_value files.now)) sandbox.old.now
        (device_of W.contents out.old) (device_of W.contents out.new)) }
    // Whatever is returned, files, variables, values and layers are as they were.
    ensures same { IsSame sandbox.old sandbox.new }
    // The writer isn't flushed. With a status, it didn't fail, and each call moved at least one byte.
    ensures used { UsesWriter result
        (device_of W.contents out.old) (device_of W.contents out.new) }
{
    match mode {
        Mode::Report => {
            let library = bytes_of(&files.library);
            let hooks = bytes_of(&files.hooks);
            let sources = files.sources.as_slice();
            run_suite(alloc, sandbox, options, library, hooks, sources, out)
        }
        Mode::Explanation => explain_suite(alloc, sandbox, options, files, out),
        Mode::Findings { steps } => lint_suite(alloc, options, steps, files, out),
    }
}
