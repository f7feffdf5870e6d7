//! Actions on files.
ghost use Rattle.std.specs.Prelude.{◌≡◌, map};
ghost use Rattle.gk_gherkin.specs.Feature.{texts};
ghost use Rattle.gk_steps.specs.declared.action.Action.TheVariants as actions;
ghost use Rattle.gk_world.specs.State.{state_of};
ghost use Rattle.gk_run.specs.Acting as words;
ghost use Rattle.gk_run.specs.Acting.{IsActed, WritesFile, Performs};

use crate::acting::{Arguments, outcome_of};
use crate::results::{Outcome, Reason};
use gk_gherkin::Block;
use gk_steps::files_below;
use gk_world::{Sandbox, is_bad_name};

// Writes a text to a file.
#[tactic(auto, using(crate::proofs::ActingLemmas::acted, crate::proofs::ActingLemmas::put_tests, crate::proofs::ActingLemmas::file_put, crate::proofs::ActingLemmas::file_written))]
fn put(sandbox: &mut Sandbox, name: &str, text: &str) -> Outcome
    ensures acted { IsActed (words.put (state_of sandbox.old.now) name.now text.now
        (words.with_file (state_of sandbox.old.now) name.now text.now))
        sandbox.old result sandbox.new }
    ensures written { WritesFile (name.now, text.now) sandbox.old result sandbox.new }
{
    outcome_of(sandbox.put_file(name, text))
}

#[tactic(auto, using(crate::proofs::ActingLemmas::acted, crate::proofs::ActingLemmas::remove_tests, crate::proofs::ActingLemmas::file_removed))]
pub fn remove_file(sandbox: &mut Sandbox, name: &str) -> Outcome
    ensures { IsActed (words.remove_file (state_of sandbox.old.now) name.now)
        sandbox.old result sandbox.new }
{
    outcome_of(sandbox.remove_file(name))
}

pub fn write_file(sandbox: &mut Sandbox, arguments: &Arguments<'_>) -> Outcome
    ensures { Performs actions.WriteFile arguments.now sandbox.old result sandbox.new }
{
    match arguments.text {
        None => Outcome::Failed(Reason::NoText),
        Some(text) => put(sandbox, arguments.name, text),
    }
}

#[tactic(auto, using(crate::proofs::ActingLemmas::acted, crate::proofs::ActingLemmas::append_tests, crate::proofs::ActingLemmas::file_extended))]
pub fn append_file(sandbox: &mut Sandbox, arguments: &Arguments<'_>) -> Outcome
    ensures { Performs actions.AppendFile arguments.now sandbox.old result sandbox.new }
{
    match arguments.text {
        None => Outcome::Failed(Reason::NoText),
        Some(text) => outcome_of(sandbox.append_file(arguments.name, text)),
    }
}

#[tactic(auto, using(crate::proofs::ActingLemmas::file_moved))]
pub fn rename_file(sandbox: &mut Sandbox, arguments: &Arguments<'_>) -> Outcome
    ensures { Performs actions.RenameFile arguments.now sandbox.old result sandbox.new }
{
    // A bad name belongs to no file.
    if is_bad_name(arguments.name) || sandbox.file(arguments.name).is_none() {
        return Outcome::Failed(Reason::Absent);
    }
    if arguments.name == arguments.to {
        return Outcome::Passed;
    }
    outcome_of(sandbox.rename_file(arguments.name, arguments.to))
}

// Writes a row as a file.
fn write_row(sandbox: &mut Sandbox, row: &[String]) -> Outcome
    ensures acted { IsActed (words.write_row (state_of sandbox.old.now) (texts row.now))
        sandbox.old result sandbox.new }
    ensures written { WritesFile (words.row_file (texts row.now)) sandbox.old result sandbox.new }
{
    match row {
        [name, text] => put(sandbox, name.as_str(), text.as_str()),
        _ => Outcome::Failed(Reason::BadTable),
    }
}

// Writes rows as files, one after another, up to the first that is refused.
fn write_rows(sandbox: &mut Sandbox, rows: &[Vec<String>]) -> Outcome
    ensures { IsActed
        (words.write_rows (state_of sandbox.old.now) (map (λ row. texts row.items) rows.now))
        sandbox.old result sandbox.new }
{
    'rows: for row in rows {
        let written = write_row(sandbox, row);
        match written {
            Outcome::Passed => {}
            _ => return written,
        }
    }
    Outcome::Passed
}

pub fn write_files(sandbox: &mut Sandbox, arguments: &Arguments<'_>) -> Outcome
    ensures { Performs actions.WriteFiles arguments.now sandbox.old result sandbox.new }
{
    let Block::Table(rows) = arguments.block else {
        return Outcome::Failed(Reason::NoTable);
    };
    match files_below(rows) {
        Some(files) => write_rows(sandbox, files),
        None => Outcome::Failed(Reason::BadTable),
    }
}
