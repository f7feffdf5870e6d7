//! The table of options. Clap's rules, the help, and what each option excludes are made from its rows.

/// What is given with an option, and how often.
#[derive(Clone, Copy, Debug, PartialEq, Eq)]
pub enum OptionTakes {
    /// No value: a flag, given at most once.
    Nothing,
    /// One value, given at most once.
    Text,
    /// One value each time it is given.
    Texts,
    /// A line number each time it is given: 1 to 4,294,967,295.
    Lines,
}

/// A row of the table of options.
#[derive(Clone, Copy, Debug)]
pub struct OptionRow {
    /// The name without its dashes.
    pub name: &'static str,
    pub takes: OptionTakes,
    /// What the help calls the value; empty for a flag.
    pub value_name: &'static str,
    /// The heading of the help that lists the option.
    pub heading: &'static str,
    pub help: &'static str,
    /// Whether a report accepts the option.
    pub beside_report: bool,
    /// Whether `--explain` accepts the option beside itself.
    pub beside_explain: bool,
    /// Whether `--lint` accepts the option beside itself.
    pub beside_lint: bool,
    /// Whether `--lint --no-steps` accepts the option beside itself.
    pub beside_no_steps: bool,
}

const CHOICE: &str = "Which scenarios run";

const RUN: &str = "How they run";

const REPORT: &str = "Report";

/// The options, in the order of the help. The comment above a row is what the man page says of it below its help.
pub static OPTIONS: [OptionRow; 13] = [
    // A comma means or, and ~ means not.
    OptionRow {
        name: "tags",
        takes: OptionTakes::Texts,
        value_name: "T",
        heading: CHOICE,
        help: "Run only scenarios whose tags fit T, as @a,~@b or '@a or not @b'; each --tags has to fit",
        beside_report: true,
        beside_explain: true,
        beside_lint: true,
        beside_no_steps: true,
    },
    // N is the line of a scenario's heading, or of a row of an outline's examples.
    OptionRow {
        name: "line",
        takes: OptionTakes::Lines,
        value_name: "N",
        heading: CHOICE,
        help: "Run only the scenarios at line N of a file; of several lines, one has to fit",
        beside_report: true,
        beside_explain: true,
        beside_lint: true,
        beside_no_steps: true,
    },
    OptionRow {
        name: "library",
        takes: OptionTakes::Text,
        value_name: "FILE",
        heading: RUN,
        help: "Take the steps from FILE in place of the built-in steps",
        beside_report: true,
        beside_explain: true,
        beside_lint: true,
        beside_no_steps: false,
    },
    OptionRow {
        name: "hooks",
        takes: OptionTakes::Text,
        value_name: "FILE",
        heading: RUN,
        help: "Run the hooks in FILE around the run, its features, rules and scenarios",
        beside_report: true,
        beside_explain: true,
        beside_lint: true,
        beside_no_steps: false,
    },
    // Steps see no variable of the real environment.
    OptionRow {
        name: "env",
        takes: OptionTakes::Texts,
        value_name: "NAME=VALUE",
        heading: RUN,
        help: "Set a variable before the run; of equal names the last counts",
        beside_report: true,
        beside_explain: true,
        beside_lint: true,
        beside_no_steps: false,
    },
    // PATH is read before the run, and never written. Its text is UTF-8 and has at most 1048576 bytes.
    OptionRow {
        name: "file",
        takes: OptionTakes::Texts,
        value_name: "NAME=PATH",
        heading: RUN,
        help: "Give steps the text of PATH as file NAME; of equal names the last counts",
        beside_report: true,
        beside_explain: true,
        beside_lint: false,
        beside_no_steps: false,
    },
    OptionRow {
        name: "dry-run",
        takes: OptionTakes::Nothing,
        value_name: "",
        heading: RUN,
        help: "Look up the steps in the library, and run no step, hook or cleanup",
        beside_report: true,
        beside_explain: false,
        beside_lint: false,
        beside_no_steps: false,
    },
    OptionRow {
        name: "stop",
        takes: OptionTakes::Nothing,
        value_name: "",
        heading: RUN,
        help: "Stop at the first failure, and leave later scenarios untested",
        beside_report: true,
        beside_explain: true,
        beside_lint: false,
        beside_no_steps: false,
    },
    OptionRow {
        name: "format",
        takes: OptionTakes::Text,
        value_name: "F",
        heading: REPORT,
        help: "Write the report as plain, progress or json [default: plain]",
        beside_report: true,
        beside_explain: false,
        beside_lint: false,
        beside_no_steps: false,
    },
    OptionRow {
        name: "no-skipped",
        takes: OptionTakes::Nothing,
        value_name: "",
        heading: REPORT,
        help: "Leave skipped features and scenarios out of the report",
        beside_report: true,
        beside_explain: false,
        beside_lint: false,
        beside_no_steps: false,
    },
    // Failed hooks and cleanups are explained, too.
    OptionRow {
        name: "explain",
        takes: OptionTakes::Nothing,
        value_name: "",
        heading: REPORT,
        help: "In place of the report, say what happened in each scenario that failed",
        beside_report: true,
        beside_explain: true,
        beside_lint: false,
        beside_no_steps: false,
    },
    // Each finding is a line NAME:LINE: TEXT. Tags of --tags that appear in no file, and each --line that chooses
    // nothing, are listed, too. If the lines of a file can't be read, standard error has the first fault of each such
    // file, the faulty line and a fix.
    OptionRow {
        name: "lint",
        takes: OptionTakes::Nothing,
        value_name: "",
        heading: REPORT,
        help: "In place of a run, list ignored lines, steps that can't work and unused entries",
        beside_report: true,
        beside_explain: false,
        beside_lint: true,
        beside_no_steps: true,
    },
    // No step is looked up, so neither a library nor a hooks file is read. What is found goes by the grammar alone.
    OptionRow {
        name: "no-steps",
        takes: OptionTakes::Nothing,
        value_name: "",
        heading: REPORT,
        help: "With --lint: look no step up, for a suite of another runner",
        beside_report: false,
        beside_explain: false,
        beside_lint: true,
        beside_no_steps: true,
    },
];
