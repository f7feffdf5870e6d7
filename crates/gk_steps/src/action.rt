//! The built-in actions.
ghost use Rattle.std.specs.Prelude.{◌≡◌, find, map, option_copied, option_map};
ghost use Rattle.std.specs.Str.{bytes_eq};
ghost use Rattle.gk_steps.specs.Action.{action_row, action_row_value, action_table, row_among, row_of};

/// The action of a step that finds an entry: what it does, and the reasons for which it fails, in the order in which
/// they are looked for. An action that takes a text fails before all of these with `no text` if it has none.
/// `tools/tables.py` writes these into the guide.
#[derive(Clone, Copy, Debug, PartialEq, Eq)]
pub enum Action {
    /// Writes the file, replacing an old text. Reasons: bad name, text too long.
    WriteFile,
    /// Appends the text. Reasons: bad name, absent, text too long.
    AppendFile,
    /// Removes the file. Reasons: bad name, absent.
    RemoveFile,
    /// Renames the file, replacing an old `TO`. Reasons: absent, bad name (of `TO`).
    RenameFile,
    /// Writes a file for each row of a table with the header `name`, `text`. Reasons: no table, bad table, bad name,
    /// text too long.
    WriteFiles,
    /// Checks that the file exists. Reasons: absent.
    FileExists,
    /// Checks that there is no such file. Reasons: present.
    FileAbsent,
    /// Compares the file's whole text. Reasons: absent, differs.
    FileIs,
    /// Looks for the text in the file. Reasons: absent, differs.
    FileContains,
    /// Sets the variable. Reasons: bad name, text too long.
    SetEnv,
    /// Removes the variable. Reasons: bad name, absent.
    RemoveEnv,
    /// Compares the variable's text. Reasons: absent, differs.
    EnvIs,
    /// Checks that there is no such variable. Reasons: present.
    EnvAbsent,
    /// Sets the value in the step's layer. Reasons: bad name, text too long.
    SetValue,
    /// Deletes the value from the step's layer. Reasons: bad name, absent, other layer.
    DeleteValue,
    /// Compares the value's text. Reasons: absent, differs.
    ValueIs,
    /// Checks that no layer has the value. Reasons: present.
    ValueAbsent,
    /// Sets the value to the number. Reasons: bad name.
    SetNumber,
    /// Adds `N` to the value, and sets the sum in the step's layer. Reasons: bad name, absent, not a number, out of range.
    AddNumber,
    /// Compares the value as a number. Reasons: absent, not a number, differs.
    NumberIs,
    /// Registers `STEP` to run as a cleanup when the layer ends. Reasons: not allowed here, no such step.
    AtCleanup,
    /// Skips the scenario. Reasons: not allowed here.
    SkipScenario,
    /// Does nothing.
    Pass,
    /// Fails. Reasons: fail step.
    Fail,
}

/// What an action does.
#[derive(Clone, Copy, Debug, PartialEq, Eq)]
pub enum Does {
    /// It changes the sandbox.
    Changes,
    /// It passes or fails, and changes nothing.
    Checks,
    /// It registers a cleanup, where that is allowed. (behave's documentation: cleanups)
    Registers,
    /// It skips the scenario, where that is allowed. (behave's documentation: skipping scenarios)
    Skips,
}

/// What an action acts on.
#[derive(Clone, Copy, Debug, PartialEq, Eq)]
pub enum ActsOn {
    /// A file.
    File,
    /// A variable.
    Variable,
    /// A value: the visible one, or that of the innermost layer. `at_cleanup`, `skip_scenario`, `pass` and `fail`,
    /// which act on nothing, have it, too.
    Value,
}

/// What an action takes besides its other fields.
#[derive(Clone, Copy, Debug, PartialEq, Eq)]
pub enum Takes {
    /// Neither a text nor a table.
    Nothing,
    /// A text: that of the field `text` if the pattern has one, and otherwise the doc string.
    Text,
    /// A table.
    Table,
}

/// A row of the table of actions.
#[derive(Clone, Copy, Debug)]
pub struct ActionRow {
    /// The name, as a library writes it.
    pub name: &'static str,
    /// The action.
    pub action: Action,
    /// What it does.
    pub does: Does,
    /// What it acts on.
    pub acts_on: ActsOn,
    /// What it takes besides its other fields.
    pub takes: Takes,
    /// The names of the fields that a pattern must have.
    pub needs: &'static [&'static str],
    /// The names of all fields that have an effect.
    pub uses: &'static [&'static str],
}

// A row of the table, by its columns in order.
macro_rules! row {
    ($name:literal, $action:ident, $does:ident, $acts_on:ident, $takes:ident, $needs:expr, $uses:expr) => {
        ActionRow {
            name: $name,
            action: Action::$action,
            does: Does::$does,
            acts_on: ActsOn::$acts_on,
            takes: Takes::$takes,
            needs: &$needs,
            uses: &$uses,
        }
    };
}

// The row of an action that takes neither a text nor a table, and uses only the fields that it needs.
macro_rules! plain_row {
    ($name:literal, $action:ident, $does:ident, $acts_on:ident, $needs:expr) => {
        row!($name, $action, $does, $acts_on, Nothing, $needs, $needs)
    };
}

// The row of an action that needs `name` and takes a text.
macro_rules! text_row {
    ($name:literal, $action:ident, $does:ident, $acts_on:ident) => {
        row!($name, $action, $does, $acts_on, Text, ["name"], ["name", "text"])
    };
}

// The table of actions, in the order of the variants.
static ACTIONS: [ActionRow; 24] = [
    text_row!("write_file", WriteFile, Changes, File),
    text_row!("append_file", AppendFile, Changes, File),
    plain_row!("remove_file", RemoveFile, Changes, File, ["name"]),
    plain_row!("rename_file", RenameFile, Changes, File, ["name", "to"]),
    row!("write_files", WriteFiles, Changes, File, Table, [], []),
    plain_row!("file_exists", FileExists, Checks, File, ["name"]),
    plain_row!("file_absent", FileAbsent, Checks, File, ["name"]),
    text_row!("file_is", FileIs, Checks, File),
    text_row!("file_contains", FileContains, Checks, File),
    text_row!("set_env", SetEnv, Changes, Variable),
    plain_row!("remove_env", RemoveEnv, Changes, Variable, ["name"]),
    text_row!("env_is", EnvIs, Checks, Variable),
    plain_row!("env_absent", EnvAbsent, Checks, Variable, ["name"]),
    text_row!("set_value", SetValue, Changes, Value),
    plain_row!("delete_value", DeleteValue, Changes, Value, ["name"]),
    text_row!("value_is", ValueIs, Checks, Value),
    plain_row!("value_absent", ValueAbsent, Checks, Value, ["name"]),
    plain_row!("set_number", SetNumber, Changes, Value, ["name", "n"]),
    plain_row!("add_number", AddNumber, Changes, Value, ["name", "n"]),
    plain_row!("number_is", NumberIs, Checks, Value, ["name", "n"]),
    plain_row!("at_cleanup", AtCleanup, Registers, Value, ["step"]),
    plain_row!("skip_scenario", SkipScenario, Skips, Value, []),
    plain_row!("pass", Pass, Checks, Value, []),
    plain_row!("fail", Fail, Checks, Value, []),
];

impl Action {
    /// Returns the action's row of the table.
    pub fn row(self) -> &'static ActionRow
        ensures { action_row_value result.now ≡ row_of self }
    {
        &ACTIONS[self as usize]
    }
}

fn is_named(row: &ActionRow, name: &str) -> bool
    ensures { result ≡ bytes_eq row.now.name.now name.now }
{
    row.name == name
}

// Returns the first of some rows that has this name.
fn first_named<'a>(rows: &'a [ActionRow], name: &str) -> Option<&'a ActionRow>
    ensures { option_copied result ≡ find (λ row. bytes_eq row.name.now name.now) rows.now }
{
    rows.iter().find(|row| is_named(*row, name))
}

fn row_in(rows: &[ActionRow], name: &str) -> Option<ActionRow>
    ensures { option_map action_row_value result
        ≡ row_among (map action_row_value rows.now) name.now }
{
    first_named(rows, name).copied()
}

/// Returns the row of the action of this name, or `None` if no action has it.
#[tactic(auto, using(std::proofs::lemmas::Grind::common_steps), unfolding(crate::specs::Action::action_row))]
pub fn row_named(name: &str) -> Option<ActionRow>
    ensures { option_map action_row_value result ≡ action_row name.now }
{
    row_in(&ACTIONS, name)
}

/// Returns the table of actions.
pub fn action_rows() -> &'static [ActionRow]
    ensures { map action_row_value result.now ≡ action_table }
{
    &ACTIONS
}
