//! What is asked of a run: its options and its files.
ghost use Rattle.std.specs.Prelude.{◌≡◌, option_map};
ghost use Rattle.gk_request.specs.Request as spec;
ghost use Rattle.gk_request.specs.Source.{source_value};

use crate::source::Source;
use gk_report::{Format, Style};
use std::alloc::Global;

/// Which scenarios run, how they run, and how the report is written.
#[derive(Debug, Drop)]
pub struct Options {
    /// The texts of `--tags`, in order. All of them have to hold; without any, every scenario is chosen.
    pub tags: Vec<String>,
    /// The numbers of `--line`, in order, each at least 1. One of them has to be a scenario's; without any, every
    /// scenario is chosen.
    pub lines: Vec<u32>,
    /// Whether steps are only looked up in the library, and no step, hook or cleanup runs.
    /// (behave's documentation: command line arguments)
    pub dry_run: bool,
    /// Whether the run stops at the first failure. After a scenario, a rule or a feature that failed or ran out of
    /// memory, later scenarios are untested, and later rules and features are not begun.
    /// (behave's documentation: command line arguments)
    pub stop: bool,
    /// The format of the report, and whether the report omits what was skipped.
    /// (behave's documentation: command line arguments)
    pub style: Style,
}

impl Options {
    ghost use Rattle.std.specs.Prelude.{◌≡◌, [], None};
    ghost use Rattle.gk_request.specs.Request.{request_of, plain_request};

    /// Returns the options of a run without any: each scenario runs, and the report is plain and omits nothing. Doesn't
    /// allocate.
    pub fn plain(alloc: Global) -> Options
        ensures { request_of result None None [] ≡ plain_request [] }
    {
        Options {
            tags: Vec::new(alloc),
            lines: Vec::new(alloc),
            dry_run: false,
            stop: false,
            style: Style {
                format: Format::Plain,
                no_skipped: false,
            },
        }
    }
}

/// The files of a run, each with its name.
#[derive(Drop)]
pub struct SuiteFiles {
    /// The library file; without it, the steps are those of the default library.
    pub library: Option<Source>,
    /// The hooks file; without it, there are no hooks.
    pub hooks: Option<Source>,
    pub sources: Vec<Source>,
}

/// Returns the bytes of a file, if it is given. Doesn't allocate.
pub fn bytes_of(file: &Option<Source>) -> Option<&[u8]>
    ensures { option_map (λ bytes. bytes.now) result
        ≡ spec.bytes_of (option_map source_value file.now) }
{
    Some(file.as_ref()?.bytes.as_slice())
}

/// Returns the name of a file, or an empty name if it isn't given. Doesn't allocate.
pub fn name_of(file: &Option<Source>) -> &str
    ensures { result.now ≡ spec.name_of (option_map source_value file.now) }
{
    match file {
        Some(source) => source.name.as_str(),
        None => "",
    }
}
