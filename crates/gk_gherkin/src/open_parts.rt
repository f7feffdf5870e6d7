//! The effect of each line on the last parts of what was read so far.
ghost use Rattle.std.specs.Prelude.{None, option_map, map, Ok, ◌≡◌, ◌++◌, ◌∷◌, []};
ghost use Rattle.std.specs.List.{last_or};
ghost use Rattle.std.specs.String.{string_bytes};
ghost use Rattle.gk_gherkin.specs.Lines.{borrowed_value};
ghost use Rattle.gk_gherkin.specs.Feature.{texts, block_value, step_value};
ghost use Rattle.gk_gherkin.specs.Feature.{examples_value, scenario_value, background_value};
ghost use Rattle.gk_gherkin.specs.Results.{Agrees};
ghost use Rattle.gk_gherkin.specs.Class as words;
ghost use Rattle.gk_gherkin.specs.OpenParts as spec;
ghost use Rattle.gk_gherkin.specs.OpenParts.Views.{children_value};
ghost use Rattle.gk_gherkin.specs.declared.class.Class.TheVariants.{ScenarioHeading, StepLine};
ghost use Rattle.gk_gherkin.specs.declared.read_fault.ReadFault.TheVariants.{Unexpected};

use crate::class::{Class, heading_name, scenario_keyword, step_parts};
use crate::feature::{Background, Block, Examples, Row, Scenario, Step, StepType};
use crate::lines::BorrowedLine;
use crate::read_fault::ReadFault;
use crate::rows::cells_of;
use crate::step_types::type_after;
use std::alloc::Global;

/// Replaces a value and drops the old one.
pub fn put<T: Drop>(slot: &mut T, next: T)
    ensures { slot.new ≡ next }
{
    *slot = next;
}

/// Returns the fault of a line that is out of place.
pub fn unexpected(line: &BorrowedLine<'_>) -> ReadFault
    ensures { result ≡ Unexpected line.now.place.line }
{
    ReadFault::Unexpected {
        line: line.place.line,
    }
}

fn step_from(alloc: Global, before: StepType, line: &BorrowedLine<'_>) -> Result<Step, ReadFault>
    requires { words.class (borrowed_value line.now) ≡ StepLine }
    ensures { Agrees step_value result (Ok (spec.step_from before (borrowed_value line.now))) }
{
    let (keyword, text) = step_parts(line);
    let step_type = type_after(before, keyword);
    let text = String::from_str(alloc, text)?;
    Ok(Step {
        keyword,
        step_type,
        text,
        block: Block::Empty,
        line: line.place.line,
    })
}

#[tactic(auto, unfolding(crate::specs::OpenParts::on_row))]
fn on_row(
    alloc: Global,
    width: Option<usize>,
    line: &BorrowedLine<'_>,
) -> Result<Vec<String>, ReadFault>
    ensures { Agrees (λ v. texts v.items) result (spec.on_row width (borrowed_value line.now)) }
{
    match cells_of(alloc, width.unwrap_or(0), line)? {
        Some(cells) => match width {
            Some(width) => {
                if cells.len() == width {
                    Ok(cells)
                } else {
                    Err(ReadFault::CellCount {
                        line: line.place.line,
                    })
                }
            }
            None => Ok(cells),
        },
        None => Err(ReadFault::BadRow {
            line: line.place.line,
        }),
    }
}

fn width_of(rows: &Vec<Vec<String>>) -> Option<usize>
    ensures { result ≡ spec.width_of (map (λ row. texts row.items) rows.now.items) }
{
    match rows.first() {
        Some(first) => Some(first.len()),
        None => None,
    }
}

#[tactic(auto, unfolding(crate::specs::OpenParts::on_block))]
fn on_block(alloc: Global, block: &mut Block, line: &BorrowedLine<'_>) -> Result<(), ReadFault>
    ensures { Agrees (λ _. block_value block.new) result
        (spec.on_block (block_value block.old) (borrowed_value line.now)) }
{
    match block {
        Block::Empty => {
            let cells = on_row(alloc, None, line)?;
            let mut rows = Vec::new(alloc);
            rows.push(cells)?;
            put(block, Block::Table(rows));
            Ok(())
        }
        Block::Table(rows) => {
            let width = width_of(rows);
            let cells = on_row(alloc, width, line)?;
            rows.push(cells)?;
            Ok(())
        }
        Block::Text(_) => Err(unexpected(line)),
    }
}

// Returns the type of the last step, or `Given` if there is none.
#[tactic(auto, using(crate::proofs::LastItems::last_is))]
fn last_type(steps: &Vec<Step>) -> StepType
    ensures { result ≡ spec.last_type (map step_value steps.now.items) }
{
    match steps.last() {
        Some(step) => step.step_type,
        None => StepType::Given,
    }
}

// Takes a step.
fn step_after(
    alloc: Global,
    steps: &mut Vec<Step>,
    line: &BorrowedLine<'_>,
) -> Result<(), ReadFault>
    requires { words.class (borrowed_value line.now) ≡ StepLine }
    ensures { let old = map step_value steps.old.items in
        Agrees (λ _. map step_value steps.new.items) result
        (Ok (old ++ spec.step_from (spec.last_type old) (borrowed_value line.now) ∷ [])) }
{
    let step = step_from(alloc, last_type(steps), line)?;
    steps.push(step)?;
    Ok(())
}

// Takes a row under the last step.
#[tactic(auto, using(crate::proofs::LastItems::get_last, crate::proofs::LastItems::set_last))]
fn row_below(alloc: Global, steps: &mut Vec<Step>, line: &BorrowedLine<'_>) -> Result<(), ReadFault>
    ensures { let old = map step_value steps.old.items in
        Agrees (λ _. map step_value steps.new.items) result
        (spec.row_under_last (last_or None old) old (borrowed_value line.now)) }
{
    match steps.last_mut() {
        Some(step) => on_block(alloc, &mut step.block, line),
        None => Err(unexpected(line)),
    }
}

/// Takes a line after steps. The line isn't content of a doc string.
#[tactic(auto, unfolding(crate::specs::OpenParts::on_steps))]
pub fn on_steps(
    alloc: Global,
    steps: &mut Vec<Step>,
    line: &BorrowedLine<'_>,
    class: Class,
) -> Result<(), ReadFault>
    requires { class ≡ words.class (borrowed_value line.now) }
    ensures { let old = map step_value steps.old.items in
        Agrees (λ _. map step_value steps.new.items) result
        (spec.on_steps old (borrowed_value line.now) class) }
{
    match class {
        Class::StepLine => step_after(alloc, steps, line),
        Class::RowLine => row_below(alloc, steps, line),
        _ => Err(unexpected(line)),
    }
}

// Takes a line after the heading of a background or a scenario, or after its steps.
#[tactic(auto, unfolding(crate::specs::OpenParts::on_body))]
fn on_body(
    alloc: Global,
    steps: &mut Vec<Step>,
    line: &BorrowedLine<'_>,
    class: Class,
) -> Result<(), ReadFault>
    requires { class ≡ words.class (borrowed_value line.now) }
    ensures { Agrees (λ _. map step_value steps.new.items) result
        (spec.on_body (map step_value steps.old.items) (borrowed_value line.now) class) }
{
    match class {
        Class::RowLine | Class::FenceLine(_) | Class::Other => {
            if steps.is_empty() {
                Ok(())
            } else {
                on_steps(alloc, steps, line, class)
            }
        }
        _ => on_steps(alloc, steps, line, class),
    }
}

// Takes a row of examples. The first is the header.
fn row_in(alloc: Global, examples: &mut Examples, line: &BorrowedLine<'_>) -> Result<(), ReadFault>
    ensures { let old = examples_value examples.old in
        Agrees (λ _. examples_value examples.new) result
        (spec.row_in old.header old (borrowed_value line.now)) }
{
    if examples.header.is_empty() {
        let header = on_row(alloc, None, line)?;
        put(&mut examples.header, header);
    } else {
        let cells = on_row(alloc, Some(examples.header.len()), line)?;
        let line = line.place.line;
        examples.rows.push(Row { line, cells })?;
    }
    Ok(())
}

#[tactic(auto, unfolding(crate::specs::OpenParts::on_examples))]
fn on_examples(
    alloc: Global,
    examples: &mut Examples,
    line: &BorrowedLine<'_>,
    class: Class,
) -> Result<(), ReadFault>
    ensures { let old = examples_value examples.old in
        Agrees (λ _. examples_value examples.new) result
        (spec.on_examples old (borrowed_value line.now) class) }
{
    match class {
        Class::RowLine => row_in(alloc, examples, line),
        Class::StepLine | Class::FenceLine(_) | Class::Other => {
            if examples.header.is_empty() {
                Ok(())
            } else {
                Err(unexpected(line))
            }
        }
        _ => Err(unexpected(line)),
    }
}

#[tactic(auto, using(crate::proofs::LastItems::get_last, crate::proofs::LastItems::set_last))]
fn on_scenario(
    alloc: Global,
    scenario: &mut Scenario,
    line: &BorrowedLine<'_>,
    class: Class,
) -> Result<(), ReadFault>
    requires { class ≡ words.class (borrowed_value line.now) }
    ensures { let old = scenario_value scenario.old in
        Agrees (λ _. scenario_value scenario.new) result
        (spec.on_scenario old (borrowed_value line.now) class) }
{
    match scenario.examples.last_mut() {
        Some(examples) => on_examples(alloc, examples, line, class),
        None => on_body(alloc, &mut scenario.steps, line, class),
    }
}

#[tactic(auto, unfolding(crate::specs::OpenParts::on_background))]
fn on_background(
    alloc: Global,
    background: &mut Option<Background>,
    line: &BorrowedLine<'_>,
    class: Class,
) -> Result<(), ReadFault>
    requires { class ≡ words.class (borrowed_value line.now) }
    ensures { let old = option_map background_value background.old in
        Agrees (λ _. option_map background_value background.new) result
        (spec.on_background old (borrowed_value line.now) class) }
{
    match background {
        Some(background) => on_body(alloc, &mut background.steps, line, class),
        None => match class {
            Class::BackgroundHeading => {
                let line = line.place.line;
                let steps = Vec::new(alloc);
                put(background, Some(Background { line, steps }));
                Ok(())
            }
            Class::StepLine | Class::RowLine | Class::FenceLine(_) | Class::Other => Ok(()),
            _ => Err(unexpected(line)),
        },
    }
}

/// Takes a line that takes no tags, in a feature or a rule with this background and these
/// scenarios. The line isn't content of a doc string.
#[tactic(auto, using(crate::proofs::LastItems::get_last, crate::proofs::LastItems::set_last))]
pub fn on_children(
    alloc: Global,
    background: &mut Option<Background>,
    scenarios: &mut Vec<Scenario>,
    line: &BorrowedLine<'_>,
    class: Class,
) -> Result<(), ReadFault>
    requires { class ≡ words.class (borrowed_value line.now) }
    ensures { let old = children_value background.old scenarios.old in
        Agrees (λ _. children_value background.new scenarios.new) result
        (spec.on_children old (borrowed_value line.now) class) }
{
    match scenarios.last_mut() {
        Some(scenario) => on_scenario(alloc, scenario, line, class),
        None => on_background(alloc, background, line, class),
    }
}

#[inline(never)]
fn scenario_from(
    alloc: Global,
    tags: Vec<String>,
    line: &BorrowedLine<'_>,
) -> Result<Scenario, ReadFault>
    requires { words.class (borrowed_value line.now) ≡ ScenarioHeading }
    ensures { Agrees scenario_value result
        (Ok (spec.scenario_from (texts tags.items) (borrowed_value line.now))) }
{
    Ok(Scenario {
        keyword: scenario_keyword(line),
        name: String::from_str(alloc, heading_name(line))?,
        line: line.place.line,
        tags,
        steps: Vec::new(alloc),
        examples: Vec::new(alloc),
    })
}

#[inline(never)]
fn examples_from(
    alloc: Global,
    tags: Vec<String>,
    line: &BorrowedLine<'_>,
) -> Result<Examples, ReadFault>
    ensures { Agrees examples_value result
        (Ok (spec.examples_from (texts tags.items) (borrowed_value line.now))) }
{
    Ok(Examples {
        name: String::from_str(alloc, heading_name(line))?,
        line: line.place.line,
        tags,
        header: Vec::new(alloc),
        rows: Vec::new(alloc),
    })
}

// Takes the heading of examples.
fn examples_under(
    alloc: Global,
    scenarios: &mut Vec<Scenario>,
    tags: Vec<String>,
    line: &BorrowedLine<'_>,
) -> Result<(), ReadFault>
    ensures { let old = map scenario_value scenarios.old.items in
        Agrees (λ _. map scenario_value scenarios.new.items) result
        (spec.examples_under (last_or None old) old (texts tags.items) (borrowed_value line.now)) }
{
    match scenarios.last_mut() {
        Some(scenario) => {
            scenario.examples.push(examples_from(alloc, tags, line)?)?;
            Ok(())
        }
        None => Err(unexpected(line)),
    }
}

/// Takes a heading with the tags above it, in a feature or a rule with these scenarios.
#[tactic(auto, unfolding(crate::specs::OpenParts::heading_in))]
pub fn heading_in(
    alloc: Global,
    scenarios: &mut Vec<Scenario>,
    tags: Vec<String>,
    line: &BorrowedLine<'_>,
    class: Class,
) -> Result<(), ReadFault>
    requires { class ≡ words.class (borrowed_value line.now) }
    ensures { let old = map scenario_value scenarios.old.items in
        Agrees (λ _. map scenario_value scenarios.new.items) result
        (spec.heading_in old (texts tags.items) (borrowed_value line.now) class) }
{
    match class {
        Class::ScenarioHeading => {
            scenarios.push(scenario_from(alloc, tags, line)?)?;
            Ok(())
        }
        Class::ExamplesHeading => examples_under(alloc, scenarios, tags, line),
        _ => Err(unexpected(line)),
    }
}

fn is_empty(block: &Block) -> bool
    ensures { result ≡ spec.is_empty (block_value block.now) }
{
    matches!(block, Block::Empty)
}

/// Returns whether a doc string is allowed under the last of these steps.
#[tactic(auto, using(crate::proofs::LastItems::last_is))]
pub fn steps_take_text(steps: &Vec<Step>) -> bool
    ensures { result ≡ spec.steps_take_text (map step_value steps.now.items) }
{
    match steps.last() {
        Some(step) => is_empty(&step.block),
        None => false,
    }
}

/// Puts a doc string under the last of these steps, if there is one.
#[tactic(auto, using(crate::proofs::LastItems::get_last, crate::proofs::LastItems::set_last))]
pub fn put_text(steps: &mut Vec<Step>, text: String)
    ensures { map step_value steps.new.items
        ≡ spec.steps_with_text (map step_value steps.old.items) (string_bytes text) }
{
    if let Some(step) = steps.last_mut() {
        put(&mut step.block, Block::Text(text));
    }
}

// Returns whether a doc string is allowed under the steps of a scenario.
fn scenario_takes_text(scenario: &Scenario) -> bool
    ensures { let s = scenario_value scenario.now in
        result ≡ spec.scenario_takes_text s.examples s }
{
    scenario.examples.is_empty() && steps_take_text(&scenario.steps)
}

/// Returns whether a doc string is allowed under the last step of a feature or a rule with this
/// background and these scenarios.
#[tactic(auto, using(crate::proofs::LastItems::last_is))]
pub fn children_take_text(background: &Option<Background>, scenarios: &Vec<Scenario>) -> bool
    ensures { result ≡ spec.children_take_text (children_value background.now scenarios.now) }
{
    match scenarios.last() {
        Some(scenario) => scenario_takes_text(scenario),
        None => match background {
            Some(background) => steps_take_text(&background.steps),
            None => false,
        },
    }
}

/// Puts a doc string under the last step of a feature or a rule with this background and these
/// scenarios, if there is a step.
#[tactic(auto, using(crate::proofs::LastItems::get_last, crate::proofs::LastItems::set_last))]
pub fn put_text_in(background: &mut Option<Background>, scenarios: &mut Vec<Scenario>, text: String)
    ensures { let old = children_value background.old scenarios.old in
        children_value background.new scenarios.new
        ≡ spec.children_with_text old (string_bytes text) }
{
    match scenarios.last_mut() {
        Some(scenario) => put_text(&mut scenario.steps, text),
        None => {
            if let Some(background) = background {
                put_text(&mut background.steps, text);
            }
        }
    }
}
