//! The command-line arguments.
ghost use Rattle.std.specs.Prelude.{◌≡◌, IfOk, codes, fold, is_some, map, option_map, string_bytes};
ghost use Rattle.std.specs.List.{All, list_any};
ghost use Rattle.clap.specs.Words.{found_of, kind_of, rows_of, with_rule};
ghost use Rattle.clap.specs.declared.error.kind.ErrorKind.TheVariants.{ArgumentConflict, InvalidValue};
ghost use Rattle.gk_cli.specs.Arguments as spec;
ghost use Rattle.gk_cli.specs.OptionTable.{option_value, rule_of_option};
ghost use Rattle.gk_report.specs.Report.{format_name};
ghost use Rattle.gk_cli.specs.Arguments.{mode_asked, files_rule, command, HasRule, IsCommand, is_set, IsLineNumber, line_number, format_asked, SaysPair, SaysPairs, AreAsked, SaysMatches, SaysArguments};

use crate::option_table::{OPTIONS, OptionRow, OptionTakes};
use clap::builder::ValueParser;
use clap::error::ErrorKind;
use clap::{Arg, ArgAction, ArgMatches, Command};
use gk_report::{FORMATS, Format, Style, format_named};
use gk_request::Options;
use std::alloc::{AllocError, AllocFailed, Global};
use thiserror::Error;

const EXAMPLE: &str =
    "Example:\n  gherkin_run --tags @smoke --stop --format progress login.feature cart.feature";

const FILES_HELP: &str = "Feature files, run in this order";

const VERSION: &str = "2.0.0";

/// What is written: the report or an explanation of a run, or the findings in its files, for which nothing runs.
#[derive(Clone, Copy, Debug, PartialEq, Eq)]
pub enum Mode {
    /// The report.
    Report,
    /// What happened in each scenario, and in the hooks and cleanups of each section, that failed or ran out of memory.
    Explanation,
    /// The findings in the files; nothing runs.
    Findings {
        /// Whether steps are looked up in the library. Without that, there are no findings of steps, hooks' steps and
        /// entries.
        steps: bool,
    },
}

/// What the command-line arguments ask for.
#[derive(Debug, Drop)]
pub struct Words {
    pub options: Options,
    pub mode: Mode,
    /// The library file, instead of the default library.
    pub library: Option<String>,
    /// The hooks file, if there is one.
    pub hooks: Option<String>,
    /// The names and values of `--env`, in order.
    pub env: Vec<(String, String)>,
    /// The names and paths of `--file`, in order.
    pub world_files: Vec<(String, String)>,
    /// The feature files, in the order of the arguments; at least one.
    pub files: Vec<String>,
}

/// Why the arguments don't describe a run.
#[derive(Debug, Drop, Error)]
pub enum WordsFault {
    /// A mistake in the arguments, or a request for help. The text is clap's.
    #[error("{0}")]
    Usage(clap::Error),
    /// The value of an `--env` has no `=`.
    #[error("bad --env")]
    Env {
        /// What was to be written.
        mode: Mode,
        value: String,
    },
    /// The value of a `--file` has no `=`.
    #[error("bad --file")]
    File,
    /// Memory couldn't be allocated.
    #[error("out of memory")]
    Memory,
}

impl From<AllocError> for WordsFault {
    ghost use Rattle.std.specs.Prelude.{◌≡◌};
    ghost use Rattle.gk_cli.specs.declared.arguments.WordsFault.TheVariants.{Memory};

    ghost from_gives = { λ _ e. e ≡ Memory };

    fn from(_e: AllocError) -> WordsFault {
        WordsFault::Memory
    }
}

impl<T: Drop> From<AllocFailed<T>> for WordsFault {
    ghost use Rattle.std.specs.Prelude.{◌≡◌};
    ghost use Rattle.gk_cli.specs.declared.arguments.WordsFault.TheVariants.{Memory};

    ghost from_gives = { λ _ e. e ≡ Memory };

    fn from(_e: AllocFailed<T>) -> WordsFault {
        WordsFault::Memory
    }
}

impl From<clap::Error> for WordsFault {
    ghost use Rattle.gk_cli.specs.Arguments.{IsFaultBy};

    ghost from_gives = { IsFaultBy };

    fn from(e: clap::Error) -> WordsFault {
        if e.kind() == ErrorKind::OutOfMemory {
            WordsFault::Memory
        } else {
            WordsFault::Usage(e)
        }
    }
}

fn files_arg<'a>(alloc: Global) -> Arg<'a>
    ensures { HasRule files_rule result }
{
    Arg::new(alloc, "files")
        .value_name("FILE")
        .help(FILES_HELP)
        .required(true)
        .num_args(1..)
        .action(ArgAction::Append)
}

// Makes the argument of an option.
fn arg_of<'a>(alloc: Global, row: &OptionRow) -> Arg<'a>
    ensures { HasRule (rule_of_option (option_value row.now)) result }
{
    let arg = Arg::new(alloc, row.name)
        .long(row.name)
        .help(row.help)
        .help_heading(row.heading);
    match row.takes {
        OptionTakes::Nothing => arg.action(ArgAction::SetTrue),
        OptionTakes::Text => arg.value_name(row.value_name).action(ArgAction::Set),
        OptionTakes::Texts => arg.value_name(row.value_name).action(ArgAction::Append),
        OptionTakes::Lines => arg
            .value_name(row.value_name)
            .action(ArgAction::Append)
            .value_parser(ValueParser::unsigned(1, 4_294_967_295)),
    }
}

// Makes the command without its options.
#[tactic(auto, using(crate::proofs::ArgumentsLemmas::begins, crate::proofs::ArgumentsLemmas::adds, crate::proofs::ArgumentsLemmas::texts_apart, crate::proofs::ArgumentsLemmas::versioned))]
fn command_of_files<'a>(alloc: Global) -> Result<Command<'a>, AllocError>
    ensures { IfOk result (IsCommand spec.command_of_files) }
{
    Command::new(alloc, "gherkin_run")
        .about("Runs the scenarios of feature files")
        .version(VERSION)
        .after_help(EXAMPLE)
        .arg(files_arg(alloc))
}

// Makes the command that reads the arguments, with the options of these rows.
fn with_options<'a>(alloc: Global, rows: &[OptionRow]) -> Result<Command<'a>, AllocError>
    ensures { IfOk result (IsCommand (fold with_rule spec.command_of_files
        (map rule_of_option (map option_value rows.now)))) }
{
    let mut command = command_of_files(alloc)?;
    for row in rows {
        command = command.arg(arg_of(alloc, row))?;
    }
    Ok(command)
}

// Returns the values of an option, or the files, in order.
#[tactic(auto, using(crate::proofs::ArgumentsLemmas::taken))]
fn values_of<'a>(matches: &'a ArgMatches, name: &str) -> &'a [&'a str]
    ensures { map (λ text. text.now) result.now
        ≡ spec.values_of name.now (rows_of (found_of matches.now)) }
{
    matches.get_strs(name).unwrap_or(&[])
}

fn copied(alloc: Global, texts: &[&str]) -> Result<Vec<String>, AllocError>
    ensures { IfOk result (λ copies. map string_bytes copies.items
        ≡ map (λ text. text.now) texts.now) }
{
    let mut copies = Vec::new(alloc);
    for text in texts {
        copies.push(String::from_str(alloc, text)?)?;
    }
    Ok(copies)
}

#[tactic(auto, using(crate::proofs::ArgumentsLemmas::is_accepted, crate::proofs::ArgumentsLemmas::line_at, crate::proofs::ArgumentsLemmas::number_read, crate::proofs::ArgumentsLemmas::one_number_more))]
fn numbers(alloc: Global, texts: &[&str]) -> Result<Vec<u32>, AllocError>
    requires { All IsLineNumber (map (λ text. text.now) texts.now) }
    ensures { IfOk result (λ numbers. numbers.items
        ≡ map line_number (map (λ text. text.now) texts.now)) }
{
    let mut numbers = Vec::new(alloc);
    for text in texts {
        numbers.push(text.parse::<u32>().unwrap())?;
    }
    Ok(numbers)
}

// Splits a text at its first `=`. A text without `=` has no parts.
fn pair(alloc: Global, text: &str) -> Result<Option<(String, String)>, AllocError>
    ensures { IfOk result (SaysPair text.now) }
{
    match text.split_once('=') {
        Some((name, value)) => Ok(Some((
            String::from_str(alloc, name)?,
            String::from_str(alloc, value)?,
        ))),
        None => Ok(None),
    }
}

// Splits each text at its first `=`. If a text has no `=`, the first such text is the error.
fn pairs(alloc: Global, texts: &[&str]) -> Result<Result<Vec<(String, String)>, String>, AllocError>
    ensures { IfOk result (SaysPairs (map (λ text. text.now) texts.now)) }
{
    let mut pairs = Vec::new(alloc);
    for text in texts {
        match pair(alloc, text)? {
            Some(pair) => pairs.push(pair)?,
            None => return Ok(Err(String::from_str(alloc, text)?)),
        }
    }
    Ok(Ok(pairs))
}

fn copied_text(alloc: Global, text: Option<&str>) -> Result<Option<String>, AllocError>
    ensures { IfOk result (λ copy. option_map string_bytes copy
        ≡ option_map (λ text. text.now) text.entry) }
{
    match text {
        Some(text) => Ok(Some(String::from_str(alloc, text)?)),
        None => Ok(None),
    }
}

// Returns whether a flag is among the arguments.
fn flag(matches: &ArgMatches, name: &str) -> bool
    ensures { result ≡ is_set name.now (rows_of (found_of matches.now)) }
{
    matches.get_one::<bool>(name).unwrap_or(false)
}

// Makes the error for an unknown format, in clap's words.
fn unknown_format(
    alloc: Global,
    command: &mut Command,
    name: &str,
) -> Result<clap::Error, AllocError>
    ensures { IfOk result (λ error. kind_of error ≡ InvalidValue) }
{
    let mut message = format!(in alloc;
        "invalid value '{name}' for '--format <F>'\n  [possible values: "
    )?;
    let mut between = "";
    for format in &FORMATS {
        message.push_str(between)?;
        message.push_str(format.name())?;
        between = ", ";
    }
    message.push_str("]")?;
    command.error(ErrorKind::InvalidValue, message.as_str())
}

// Returns what is to be written.
fn mode_of(matches: &ArgMatches) -> Mode
    ensures { result ≡ mode_asked (rows_of (found_of matches.now)) }
{
    if flag(matches, "explain") {
        Mode::Explanation
    } else if flag(matches, "lint") {
        Mode::Findings {
            steps: !flag(matches, "no-steps"),
        }
    } else {
        Mode::Report
    }
}

// Returns whether an option is among the arguments, with a value.
fn is_given(matches: &ArgMatches, name: &str) -> bool
    ensures { result ≡ spec.is_given name.now (rows_of (found_of matches.now)) }
{
    matches.get_str(name).is_some()
}

// Returns whether an option is among the arguments.
fn is_among(matches: &ArgMatches, row: &OptionRow) -> bool
    ensures { result ≡ spec.is_among (rows_of (found_of matches.now)) (option_value row.now) }
{
    match row.takes {
        OptionTakes::Nothing => flag(matches, row.name),
        _ => is_given(matches, row.name),
    }
}

// Returns whether an option may accompany the output that the arguments ask for.
fn is_accepted(matches: &ArgMatches, row: &OptionRow) -> bool
    ensures { result ≡ spec.is_accepted (rows_of (found_of matches.now)) (option_value row.now) }
{
    if flag(matches, "explain") {
        row.beside_explain
    } else if !flag(matches, "lint") {
        row.beside_report
    } else if flag(matches, "no-steps") {
        row.beside_no_steps
    } else {
        row.beside_lint
    }
}

// Returns whether an option is among the arguments and may not accompany the output that they ask for.
fn is_excluded(matches: &ArgMatches, row: &OptionRow) -> bool
    ensures { result ≡ spec.is_excluded (rows_of (found_of matches.now)) (option_value row.now) }
{
    let among = is_among(matches, row);
    let accepted = is_accepted(matches, row);
    among && !accepted
}

// Returns the name of the first of these options that is excluded.
fn first_excluded(matches: &ArgMatches, rows: &[OptionRow]) -> Option<&'static str>
    ensures { is_some result ≡ list_any (spec.is_excluded (rows_of (found_of matches.now)))
        (map option_value rows.now) }
{
    for row in rows {
        if is_excluded(matches, row) {
            return Some(row.name);
        }
    }
    None
}

// Makes the error for an option that may not accompany the output that the arguments ask for, in clap's words.
fn clash(
    alloc: Global,
    command: &mut Command,
    matches: &ArgMatches,
    name: &str,
) -> Result<clap::Error, AllocError>
    ensures { IfOk result (λ error. kind_of error ≡ ArgumentConflict) }
{
    let asked_by = if flag(matches, "explain") {
        "explain"
    } else if flag(matches, "no-steps") {
        "no-steps"
    } else {
        "lint"
    };
    let message = if asked_by == name {
        format!(in alloc; "the argument '--{name}' needs '--lint'")?
    } else {
        format!(in alloc; "the argument '--{asked_by}' cannot be used with '--{name}'")?
    };
    command.error(ErrorKind::ArgumentConflict, message.as_str())
}

fn options_of(alloc: Global, matches: &ArgMatches, format: Format) -> Result<Options, AllocError>
    requires lines { All IsLineNumber
        (spec.values_of (codes "line") (rows_of (found_of matches.now))) }
    requires format { format_name format ≡ format_asked (rows_of (found_of matches.now)) }
    ensures { IfOk result (AreAsked (rows_of (found_of matches.now))) }
{
    let tags = copied(alloc, values_of(matches, "tags"))?;
    let lines = numbers(alloc, values_of(matches, "line"))?;
    let no_skipped = flag(matches, "no-skipped");
    Ok(Options {
        tags,
        lines,
        dry_run: flag(matches, "dry-run"),
        stop: flag(matches, "stop"),
        style: Style { format, no_skipped },
    })
}

fn words_of(alloc: Global, matches: &ArgMatches, format: Format) -> Result<Words, WordsFault>
    requires lines { All IsLineNumber
        (spec.values_of (codes "line") (rows_of (found_of matches.now))) }
    requires format { format_name format ≡ format_asked (rows_of (found_of matches.now)) }
    ensures { SaysMatches (rows_of (found_of matches.now)) result }
{
    let files = copied(alloc, values_of(matches, "files"))?;
    let options = options_of(alloc, matches, format)?;
    let library = copied_text(alloc, matches.get_str("library"))?;
    let hooks = copied_text(alloc, matches.get_str("hooks"))?;
    let env = match pairs(alloc, values_of(matches, "env"))? {
        Ok(env) => env,
        Err(value) => {
            let mode = mode_of(matches);
            return Err(WordsFault::Env { mode, value });
        }
    };
    let world_files = match pairs(alloc, values_of(matches, "file"))? {
        Ok(world_files) => world_files,
        Err(_) => return Err(WordsFault::File),
    };
    Ok(Words {
        options,
        mode: mode_of(matches),
        library,
        hooks,
        env,
        world_files,
        files,
    })
}

// Reads the arguments with the command.
fn words_by<'a>(
    alloc: Global,
    reader: &mut Command<'a>,
    words: &'a [String],
) -> Result<Words, WordsFault>
    requires { IsCommand command reader.old }
    ensures { SaysArguments (map string_bytes words.now) result }
{
    let matches = reader.try_get_matches_from_mut(words)?;
    if let Some(name) = first_excluded(&matches, &OPTIONS) {
        return Err(WordsFault::Usage(clash(alloc, reader, &matches, name)?));
    }
    let name = matches.get_str("format").unwrap_or("plain");
    match format_named(name) {
        Some(format) => words_of(alloc, &matches, format),
        None => Err(WordsFault::Usage(unknown_format(alloc, reader, name)?)),
    }
}

/// Reads the command-line arguments. The first is the program's name.
///
/// `OPTIONS` lists the options. `--tags T`, `--line N` (1 to 4,294,967,295), `--env NAME=VALUE` and `--file NAME=PATH`
/// can be given several times, and the others at most once. `--format` is the name of one of `FORMATS`; `plain` by
/// default. A report, `--explain`, `--lint` and `--lint --no-steps` exclude the options that their column of the table
/// says. Options and files can be in any order, and `--opt=value` is the same as `--opt value`.
///
/// Every other argument that doesn't begin with `-`, or is only `-`, is a feature file. So is every argument after the
/// first `--`. At least one feature file is required.
///
/// `--help` and `-h` ask for help, `--version` and `-V` for the version; they return `Usage` with the exit code 0. A
/// mistake also returns `Usage`, which comes before `Env`, and that before `File`. `Memory` can come instead of any
/// other result.
pub fn read_words(alloc: Global, words: &[String]) -> Result<Words, WordsFault>
    ensures { SaysArguments (map string_bytes words.now) result }
{
    let mut reader = with_options(alloc, &OPTIONS)?;
    let read = words_by(alloc, &mut reader, words);
    // No part of the command was moved out, so it is dropped as a whole.
    drop(reader);
    read
}
