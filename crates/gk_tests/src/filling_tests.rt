use crate::checks::{equal, holds, same};
use gk_gherkin::{Block, Examples, Keyword, Scenario, Step, StepType};
use gk_select::{Names, copied_texts, fill_step, is_outline};
use std::alloc::{AllocError, Global};
use std::test::Fail;

// Owned copies of texts.
fn owned(alloc: Global, texts: &[&str]) -> Result<Vec<String>, AllocError> {
    let mut copies = Vec::new(alloc);
    for text in texts {
        copies.push(String::from_str(alloc, text)?)?;
    }
    Ok(copies)
}

#[test]
fn texts_are_copied(rt: HostRuntime) -> Result<(), AllocError> {
    let texts = owned(rt.alloc(), &["@a", "", "é"])?;
    let copies = copied_texts(rt.alloc(), &texts)?;
    let shown = format!(in rt.alloc(); "{copies:?}")?;
    same(&rt, shown.as_str(), "[\"@a\", \"\", \"é\"]");
    Ok(())
}

// A step of an outline, with this block.
fn step_with(alloc: Global, text: &str, block: Block) -> Result<Step, AllocError> {
    Ok(Step {
        keyword: Keyword::And,
        step_type: StepType::When,
        text: String::from_str(alloc, text)?,
        block,
        line: 7,
    })
}

// Shows a step filled from a row with `1` under `a` and `<a>` under `b`.
fn filled(alloc: Global, step: &Step) -> Result<String, Fail> {
    let header = owned(alloc, &["a", "b"])?;
    let row = owned(alloc, &["1", "<a>"])?;
    if header.len() != row.len() {
        return Err("another number of cells".into());
    }
    let filled = fill_step(alloc, step, &Names::new(alloc, &header), &row)?;
    Ok(format!(in alloc; "{filled:?}")?)
}

#[test]
fn steps_are_filled(rt: HostRuntime) -> Result<(), Fail> {
    let block = Block::Text(String::from_str(rt.alloc(), "<a> < <b>\n<c>")?);
    let step = step_with(rt.alloc(), "<b> of <a<a>>", block)?;
    same(
        &rt,
        filled(rt.alloc(), &step)?.as_str(),
        "Step { keyword: And, step_type: When, text: \"<a> of <a1>\", block: Text(\"1 < <a>\\n<c>\"), line: 7 }",
    );
    let mut rows = Vec::new(rt.alloc());
    rows.push(owned(rt.alloc(), &["<a>", "a"])?)?;
    let step = step_with(rt.alloc(), "<A>", Block::Table(rows))?;
    same(
        &rt,
        filled(rt.alloc(), &step)?.as_str(),
        "Step { keyword: And, step_type: When, text: \"<A>\", block: Table([[\"1\", \"a\"]]), line: 7 }",
    );
    Ok(())
}

// A scenario of this keyword, with these Examples.
fn scenario_with(alloc: Global, keyword: Keyword, examples: Vec<Examples>) -> Scenario {
    Scenario {
        keyword,
        name: String::new(alloc),
        line: 1,
        tags: Vec::new(alloc),
        steps: Vec::new(alloc),
        examples,
    }
}

// Keywords, and whether a scenario of each is an outline without Examples.
const KEYWORDS: [(Keyword, bool); 4] = [
    (Keyword::Scenario, false),
    (Keyword::Example, false),
    (Keyword::ScenarioOutline, true),
    (Keyword::ScenarioTemplate, true),
];

#[test]
fn outlines_are_messages_from_scenarios(rt: HostRuntime) -> Result<(), AllocError> {
    for (keyword, wanted) in KEYWORDS {
        let scenario = scenario_with(rt.alloc(), keyword, Vec::new(rt.alloc()));
        equal(&rt, &is_outline(&scenario), &wanted);
    }
    let mut examples = Vec::new(rt.alloc());
    examples.push(Examples {
        name: String::new(rt.alloc()),
        line: 2,
        tags: Vec::new(rt.alloc()),
        header: Vec::new(rt.alloc()),
        rows: Vec::new(rt.alloc()),
    })?;
    let scenario = scenario_with(rt.alloc(), Keyword::Scenario, examples);
    holds(&rt, is_outline(&scenario));
    Ok(())
}
