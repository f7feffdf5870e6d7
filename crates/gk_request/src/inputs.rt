//! Reading a request: the tag rules, the step library, the hooks, and the features with their cases and the choice
//! among them.
ghost use Rattle.std.specs.Prelude.{◌≡◌, [], map, option_map, string_bytes, IfOk, IfErr, OnOk, Some};
ghost use Rattle.std.specs.List.{AllByRecursion};
ghost use Rattle.gk_gherkin.specs.Feature.{feature_value, rule_value, texts};
ghost use Rattle.gk_gherkin.specs.Hooks.{hooks_value};
ghost use Rattle.gk_select.specs.Choice.{chosen_by, is_chosen};
ghost use Rattle.gk_select.specs.ExampleRows.{row_lists};
ghost use Rattle.gk_select.specs.Expansion.{IsExpandable};
ghost use Rattle.gk_select.specs.OwnTags.{untagged_rule};
ghost use Rattle.gk_steps.specs.Finding.{library_value};
ghost use Rattle.gk_run.specs.Chosen.{chosen_value, head_value, IsFormed};
ghost use Rattle.gk_request.specs.Source.{source_value};
ghost use Rattle.gk_request.specs.Request.{asked, asked_of};
ghost use Rattle.gk_request.specs.Inputs as spec;
ghost use Rattle.gk_request.specs.Inputs.{InputsAreUnique, IsBadText, IsFirstBadText, IsReadAs, AreRules, IsLibrary, AreHooks, AreRead, AreRowsIf, AreInputs, IsReadBefore, IsReadOnto, inputs_value};
ghost use Rattle.gk_request.specs.RunFault.{IsUnread, IsUnreadBefore, SaysFile, SaysSources, hooks_file, library_file, source_at};

use crate::request::Options;
use crate::run_fault::RunFault;
use crate::source::Source;
use gk_gherkin::{
    Feature, HookFile, ReadFault, Rule, hooks_reading_is_unique, read_feature, read_hooks,
    reading_is_unique,
};
use gk_run::{Chosen, RuleHead};
use gk_select::{
    Choice, ExampleRow, SelectFault, TagRule, cases_fall_into_rules, cases_keep_without_tags,
    has_room, into_cases, outline_rows, read_features_are_expandable, read_tags, selected_cases,
    texts_have_one_tag_rule,
};
use gk_steps::{Library, LibraryFault, default_library, library_reading_is_unique, read_library};
use std::alloc::{AllocError, Global};
use std::mem::replace;

/// The inputs of a run, as they were read.
#[derive(Debug, Drop)]
pub struct ReadInputs {
    pub library: Library,
    pub hooks: HookFile,
    pub features: Vec<Chosen>,
    /// The rows of each feature's cases, in the order of `features`. If they weren't asked for, there is no list.
    pub rows: Vec<Vec<Option<ExampleRow>>>,
}

// Reads texts of tags. The first that spells no rule is the inner error.
fn read_rules(alloc: Global, tags: &[String]) -> Result<Result<Vec<TagRule>, &str>, AllocError>
    ensures rules { IfOk result (λ read.
        IfOk read (λ rules. AreRules (texts tags.now) rules.items)) }
    ensures bad { IfOk result (λ read.
        IfErr read (λ text. IsFirstBadText (texts tags.now) text.now)) }
{
    let mut rules = Vec::new(alloc);
    for text in tags {
        match read_tags(alloc, text.as_str()) {
            Ok(rule) => rules.push(rule)?,
            Err(SelectFault::BadTagText) => return Ok(Err(text.as_str())),
            Err(_) => return Err(AllocError),
        }
    }
    Ok(Ok(rules))
}

/// Returns the first of some texts of tags that spells no rule, if there is one. An error comes only if a growth was
/// refused. (behave's documentation: tag expressions)
pub fn first_bad_tags(alloc: Global, tags: &[String]) -> Result<Option<&str>, AllocError>
    ensures { IfOk result (λ found.
        IsBadText (texts tags.now) (option_map (λ text. text.now) found)) }
{
    match read_rules(alloc, tags)? {
        Ok(_rules) => Ok(None),
        Err(text) => Ok(Some(text)),
    }
}

/// Reads the library file, or the default library if none is given. An error says why the file doesn't read.
pub fn read_step_library(alloc: Global, library: Option<&[u8]>) -> Result<Library, RunFault>
    ensures read { IfOk result (λ l.
        IsLibrary (option_map (λ bytes. bytes.now) library.entry) (library_value l)) }
    ensures fault { IfErr result
        (SaysFile (library_file (option_map (λ bytes. bytes.now) library.entry))) }
{
    match library {
        Some(bytes) => match read_library(alloc, bytes) {
            Ok(library) => Ok(library),
            Err(LibraryFault::Memory) => Err(RunFault::Memory),
            Err(fault) => Err(RunFault::Library(fault)),
        },
        None => Ok(default_library(alloc)?),
    }
}

/// Reads the hooks file; without it, there are no hooks. An error says why the file doesn't read.
pub fn read_hook_file(alloc: Global, hooks: Option<&[u8]>) -> Result<HookFile, RunFault>
    ensures read { IfOk result (λ file.
        AreHooks (option_map (λ bytes. bytes.now) hooks.entry) (hooks_value file)) }
    ensures fault { IfErr result
        (SaysFile (hooks_file (option_map (λ bytes. bytes.now) hooks.entry))) }
{
    match hooks {
        None => Ok(HookFile {
            hooks: Vec::new(alloc),
        }),
        Some(bytes) => match read_hooks(alloc, bytes) {
            Ok(hooks) => Ok(hooks),
            Err(ReadFault::Memory) => Err(RunFault::Memory),
            Err(fault) => Err(RunFault::Hooks(fault)),
        },
    }
}

/// Reads the feature, if there is one, from the bytes of the source at a place, and counts the steps of its cases
/// without building them. An error says why they don't read; `Memory` comes only if a growth was refused.
pub fn read_feature_at(
    alloc: Global,
    input: usize,
    bytes: &[u8],
) -> Result<Option<Feature>, RunFault>
    ensures read { IfOk result (λ feature.
        IsReadAs bytes.now (option_map feature_value feature)) }
    ensures fault { IfErr result (SaysFile (source_at input bytes.now)) }
{
    match read_feature(alloc, bytes) {
        Ok(Some(feature)) => {
            if has_room(&feature) {
                Ok(Some(feature))
            } else {
                Err(RunFault::Select {
                    input: Some(input),
                    fault: SelectFault::TooMany,
                })
            }
        }
        Ok(None) => Ok(None),
        Err(ReadFault::Memory) => Err(RunFault::Memory),
        Err(fault) => Err(RunFault::Read { input, fault }),
    }
}

// Returns the headings of rules, and moves the tags of the rules into them.
fn headings(alloc: Global, rules: &mut Vec<Rule>) -> Result<Vec<RuleHead>, AllocError>
    ensures headings { IfOk result (λ headings. map head_value headings.items
        ≡ map spec.head_of (map rule_value rules.old.items)) }
    ensures taken { OnOk result (map rule_value rules.new.items
        ≡ map untagged_rule (map rule_value rules.old.items)) }
{
    let mut headings = Vec::new(alloc);
    let mut untagged = Vec::new(alloc);
    for rule in replace(rules, Vec::new(alloc)) {
        let mut rule = rule;
        let tags = replace(&mut rule.tags, Vec::new(alloc));
        headings.push(RuleHead {
            line: rule.line,
            tags,
        })?;
        untagged.push(rule)?;
    }
    *rules = untagged;
    Ok(headings)
}

// Chooses among the cases of a feature before they are built, so that they need only their own tags. The cases have at
// most as many steps as the limit allows.
fn chosen_of(
    alloc: Global,
    choice: &Choice,
    source: &str,
    feature: Feature,
) -> Result<Chosen, AllocError>
    requires { IsExpandable (feature_value feature) }
    ensures chosen { IfOk result (λ c. chosen_value c
        ≡ spec.chosen_of (chosen_by choice.now) source.now (feature_value feature)) }
    ensures formed { IfOk result IsFormed }
{
    let mut feature = feature;
    let source = String::from_str(alloc, source)?;
    let name = String::from_str(alloc, feature.name.as_str())?;
    let line = feature.line;
    let selected = selected_cases(alloc, choice, &feature)?;
    let rules = headings(alloc, &mut feature.rules)?;
    let tags = replace(&mut feature.tags, Vec::new(alloc));
    // No code runs here: the laws say what the cases are now, and that they fall into the rules.
    cases_keep_without_tags();
    cases_fall_into_rules();
    let Ok(cases) = into_cases(alloc, feature) else {
        return Err(AllocError);
    };
    Ok(Chosen {
        source,
        name,
        line,
        tags,
        rules,
        cases,
        selected,
    })
}

// What is read of sources: their features, and the rows of each feature's cases, if they are wanted.
#[derive(Drop)]
struct ReadSources {
    features: Vec<Chosen>,
    rows: Vec<Vec<Option<ExampleRow>>>,
}

// Adds the rows of a feature's cases after those of other features, if they are wanted.
fn add_rows(
    alloc: Global,
    with_rows: bool,
    feature: &Feature,
    rows: &mut Vec<Vec<Option<ExampleRow>>>,
) -> Result<(), AllocError>
    ensures { OnOk result (row_lists rows.new.items ≡ spec.rows_onto
        with_rows (Some (feature_value feature.now)) (row_lists rows.old.items)) }
{
    if with_rows {
        rows.push(outline_rows(alloc, feature)?)?;
    }
    Ok(())
}

// Reads the source at a place, and adds its feature, if it has one, after those of other sources.
fn read_onto(
    alloc: Global,
    choice: &Choice,
    with_rows: bool,
    input: usize,
    source: &Source,
    read: &mut ReadSources,
) -> Result<(), RunFault>
    ensures ok { OnOk result (IsReadOnto (chosen_by choice.now) with_rows
        (source_value source.now) read.old read.new) }
    ensures fault { IfErr result (SaysFile (source_at input source.now.bytes.items)) }
{
    // No code runs here: the law says that what was read can be expanded.
    read_features_are_expandable();
    let Some(feature) = read_feature_at(alloc, input, source.bytes.as_slice())? else {
        return Ok(());
    };
    add_rows(alloc, with_rows, &feature, &mut read.rows)?;
    let chosen = chosen_of(alloc, choice, source.name.as_str(), feature)?;
    read.features.push(chosen)?;
    Ok(())
}

// Reads sources.
fn read_sources(
    alloc: Global,
    choice: &Choice,
    with_rows: bool,
    sources: &[Source],
) -> Result<ReadSources, RunFault>
    ensures read { IfOk result (λ r. AreRead (chosen_by choice.now)
        (map source_value sources.now) (map chosen_value r.features.items)) }
    ensures rows { IfOk result (λ r. AreRowsIf with_rows
        (map source_value sources.now) (row_lists r.rows.items)) }
    ensures formed { IfOk result (λ r. AllByRecursion IsFormed r.features.items) }
    ensures fault { IfErr result (SaysSources (chosen_by choice.now)
        (map source_value sources.now)) }
{
    let mut read = ReadSources {
        features: Vec::new(alloc),
        rows: Vec::new(alloc),
    };
    for (input, source) in sources.iter().enumerate() {
        read_onto(alloc, choice, with_rows, input, source, &mut read)?;
    }
    Ok(read)
}

/// The inputs that are read before the sources.
#[derive(Drop)]
pub struct ReadBefore {
    pub rules: Vec<TagRule>,
    pub library: Library,
    pub hooks: HookFile,
}

/// Reads the request without its sources: first the texts of tags, then the library, then the hooks. An error names the
/// first that doesn't read.
pub fn read_before(
    alloc: Global,
    options: &Options,
    library: Option<&[u8]>,
    hooks: Option<&[u8]>,
) -> Result<ReadBefore, RunFault>
    ensures read { IfOk result (λ before. IsReadBefore
        (asked_of options.now library.entry hooks.entry []) before) }
    ensures fault { IfErr result (λ e. IsUnreadBefore
        options.now library.entry hooks.entry e) }
{
    let Ok(rules) = read_rules(alloc, options.tags.as_slice())? else {
        return Err(RunFault::Select {
            input: None,
            fault: SelectFault::BadTagText,
        });
    };
    let library = read_step_library(alloc, library)?;
    let hooks = read_hook_file(alloc, hooks)?;
    Ok(ReadBefore {
        rules,
        library,
        hooks,
    })
}

/// Reads the request: first the texts of tags, then the library, then the hooks, then each source. An error names the
/// first that doesn't read. The rows that cases come from are copied only if
/// `with_rows` asks for them.
pub fn read_inputs(
    alloc: Global,
    options: &Options,
    with_rows: bool,
    library: Option<&[u8]>,
    hooks: Option<&[u8]>,
    sources: &[Source],
) -> Result<ReadInputs, RunFault>
    ensures read { IfOk result (λ inputs. AreInputs
        (asked options.now library.entry hooks.entry sources.now) (inputs_value inputs)) }
    ensures rows { IfOk result (λ inputs. AreRowsIf with_rows
        (map source_value sources.now) (row_lists inputs.rows.items)) }
    ensures formed { IfOk result (λ inputs. AllByRecursion IsFormed inputs.features.items) }
    ensures fault { IfErr result (λ e. IsUnread
        (asked options.now library.entry hooks.entry sources.now) e) }
{
    let before = read_before(alloc, options, library, hooks)?;
    let lines = Vec::from_slice(alloc, options.lines.as_slice())?;
    let choice = Choice::new(before.rules, lines);
    let ReadSources { features, rows } = read_sources(alloc, &choice, with_rows, sources)?;
    Ok(ReadInputs {
        library: before.library,
        hooks: before.hooks,
        features,
        rows,
    })
}

/// Shows that a request reads in only one way. No code runs here.
pub fn inputs_are_unique()
    ensures { InputsAreUnique }
{
    reading_is_unique();
    texts_have_one_tag_rule();
    library_reading_is_unique();
    hooks_reading_is_unique();
}
