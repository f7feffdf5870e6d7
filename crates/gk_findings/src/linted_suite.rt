//! The findings in a whole request, before any run.
ghost use Rattle.std.specs.Prelude.{◌≡◌, ◌++◌, map, option_map, string_bytes, IfOk, IfErr};
ghost use Rattle.gk_gherkin.specs.Feature.{feature_value};
ghost use Rattle.gk_gherkin.specs.Hooks.{hooks_value};
ghost use Rattle.gk_report.specs.ReportTexts.{Pushes};
ghost use Rattle.gk_lint.specs.Findings.{AreInOrder, finding_values};
ghost use Rattle.gk_request.specs.Request as of_files;
ghost use Rattle.gk_request.specs.Request.{files_value, request_of_files, library_name, hooks_name};
ghost use Rattle.gk_request.specs.Source.{source_value};
ghost use Rattle.gk_findings.specs.FindingLines.{noted_library_value};
ghost use Rattle.gk_findings.specs.LintedSuite as spec;
ghost use Rattle.gk_request.specs.RunFault.{IsUnread};
ghost use Rattle.gk_lint.specs.TagUse.{hooks_of_no_tag};
ghost use Rattle.gk_lint.specs.WrittenSteps.{of_hooks, found_in, used_in};
ghost use Rattle.gk_findings.specs.LintedSources.{looked_up, used_by};
ghost use Rattle.gk_findings.specs.LintedSuite.{AreTexts, IsTextOf, read_of, IsLinted};

use crate::finding_lines::{
    NotedLibrary, push_count_line, push_findings, push_idle_lines, push_noted_findings,
    push_tag_lines,
};
use crate::linted_sources::{LintSoFar, known_text, lint_sources, no_steps, with_findings};
use crate::notes::text_lines;
use gk_gherkin::{Feature, HookFile};
use gk_lint::{
    EntryHints, StepFindings, lines_without_scenario, lint_hook_tags, lint_hooks, lint_library,
    tags_that_stand_nowhere,
};
use gk_request::{
    Options, ReadBefore, RunFault, Source, SuiteFiles, bytes_of, name_of, read_before,
};
use std::alloc::{AllocError, Global};

// Returns the lines of a hooks file.
fn lines_of_hooks(alloc: Global, file: &Option<Source>) -> Result<Vec<&str>, AllocError>
    requires { AreTexts (of_files.bytes_of (option_map source_value file.now)) }
    ensures { IfOk result (λ found. map (λ line. line.now) found.items
        ≡ spec.lines_of_hooks (of_files.bytes_of (option_map source_value file.now))) }
{
    match file {
        Some(source) => text_lines(alloc, known_text(source.bytes.as_slice())),
        None => Ok(Vec::new(alloc)),
    }
}

// Appends the lines of a library, if a file of it is given and steps are looked up in it, given the places of its
// entries that are used.
fn push_library_lines(
    out: &mut String,
    alloc: Global,
    library: &NotedLibrary<'_>,
    file: &Option<Source>,
    used: &[usize],
) -> Result<(), AllocError>
    ensures { Pushes out.old
        (spec.library_lines (of_files.bytes_of (option_map source_value file.now))
        (noted_library_value library.now) used.now) result out.new }
{
    if file.is_none() || !library.steps {
        return Ok(());
    }
    let entries = library.hints.library();
    let findings = lint_library(alloc, entries, used)?;
    push_findings(out, alloc, library.name, &findings)?;
    push_count_line(out, library.name, findings.len(), entries.entries.len())
}

// Returns the findings of the steps of hooks, if steps are looked up.
fn findings_of_hook_steps<'a>(
    alloc: Global,
    library: &NotedLibrary<'a>,
    hooks: &HookFile,
) -> Result<StepFindings<'a>, AllocError>
    ensures found { IfOk result (λ r. AreInOrder (found_in library.now.hints
        (looked_up library.now.steps (of_hooks (hooks_value hooks.now))))
        (finding_values r.findings.items)) }
    ensures used { IfOk result (λ r. r.used.items ≡ used_in library.now.hints
        (looked_up library.now.steps (of_hooks (hooks_value hooks.now)))) }
{
    if library.steps {
        lint_hooks(alloc, &library.hints, hooks)
    } else {
        Ok(no_steps(alloc))
    }
}

// Returns the findings of hooks, given these features, in the order of lines. Also returns the places of the entries
// that the hooks' steps use.
fn findings_of_hooks<'a>(
    alloc: Global,
    library: &NotedLibrary<'a>,
    hooks: &'a HookFile,
    features: &[Feature],
) -> Result<StepFindings<'a>, AllocError>
    ensures found { IfOk result (λ r. AreInOrder
        (hooks_of_no_tag (map feature_value features.now) (hooks_value hooks.now)
        ++ found_in library.now.hints
        (looked_up library.now.steps (of_hooks (hooks_value hooks.now))))
        (finding_values r.findings.items)) }
    ensures used { IfOk result (λ r. r.used.items ≡ used_in library.now.hints
        (looked_up library.now.steps (of_hooks (hooks_value hooks.now)))) }
{
    let idle = lint_hook_tags(alloc, hooks, features)?;
    let of_steps = findings_of_hook_steps(alloc, library, hooks)?;
    with_findings(idle, of_steps)
}

// Makes the text of all findings.
fn whole_text(
    alloc: Global,
    options: &Options,
    files: &SuiteFiles,
    library: &NotedLibrary<'_>,
    before: &ReadBefore,
    so_far: LintSoFar,
) -> Result<String, AllocError>
    requires hooks { AreTexts (of_files.bytes_of (option_map source_value files.now.hooks)) }
    requires used { so_far.used.items ≡ used_by (noted_library_value library.now)
        (map feature_value so_far.features.items) }
    ensures { IfOk result (λ text. IsTextOf
        (request_of_files options.now (files_value files.now))
        (hooks_name (files_value files.now))
        (read_of (noted_library_value library.now) before.now so_far) (string_bytes text)) }
{
    let LintSoFar {
        text: of_sources,
        used,
        features,
    } = so_far;
    let mut of_hooks = findings_of_hooks(alloc, library, &before.hooks, features.as_slice())?;
    let mut used = used;
    of_hooks.used.append(&mut used)?;
    let mut text = String::new(alloc);
    let lines = lines_of_hooks(alloc, &files.hooks)?;
    push_noted_findings(
        &mut text,
        alloc,
        library.name,
        name_of(&files.hooks),
        &lines,
        of_hooks.findings.as_slice(),
    )?;
    text.push_str(of_sources.as_str())?;
    let tags = tags_that_stand_nowhere(alloc, before.rules.as_slice(), features.as_slice())?;
    push_tag_lines(&mut text, tags.as_slice())?;
    let idle = lines_without_scenario(alloc, options.lines.as_slice(), features.as_slice())?;
    push_idle_lines(&mut text, idle.as_slice())?;
    push_library_lines(
        &mut text,
        alloc,
        library,
        &files.library,
        of_hooks.used.as_slice(),
    )?;
    Ok(text)
}

/// Reads the request, runs nothing, and returns the text of all its findings. `steps` says whether steps are looked up
/// in the library; without that, neither steps nor entries have findings. An error says why the request doesn't read;
/// `Memory` comes only if a growth was refused.
pub fn findings_text(
    alloc: Global,
    options: &Options,
    steps: bool,
    files: &SuiteFiles,
) -> Result<String, RunFault>
    ensures linted { IfOk result (λ text. IsLinted steps
        (request_of_files options.now (files_value files.now))
        (library_name (files_value files.now))
        (hooks_name (files_value files.now)) (string_bytes text)) }
    ensures fault { IfErr result (λ e. IsUnread
        (request_of_files options.now (files_value files.now)) e) }
{
    let library = bytes_of(&files.library);
    let hooks = bytes_of(&files.hooks);
    let before = match read_before(alloc, options, library, hooks) {
        Ok(before) => before,
        Err(fault) => return Err(fault),
    };
    let noted = NotedLibrary {
        hints: EntryHints::new(alloc, &before.library)?,
        steps,
        name: name_of(&files.library),
    };
    match lint_sources(alloc, &noted, files.sources.as_slice()) {
        Ok(so_far) => Ok(whole_text(alloc, options, files, &noted, &before, so_far)?),
        Err(fault) => Err(fault),
    }
}
