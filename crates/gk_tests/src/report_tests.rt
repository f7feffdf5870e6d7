use crate::checks::{equal, holds, same};
use crate::run_tests::result_of;
use crate::steps_tests::repeated;
use crate::suite_tests::ran;
use gk_report::{
    Counts, FORMATS, Format, PartPieces, Style, Summary, format_named, head, pieces, push_ending,
    push_one_line, tail,
};
use gk_run::{FeatureResult, Reason, Status};
use std::alloc::{AllocError, Global};
use std::test::Fail;

// Writes names on one line, and the ends of lines.
fn written(alloc: Global) -> Result<String, AllocError> {
    let mut out = String::new(alloc);
    push_one_line(&mut out, "a\nb\\c\n")?;
    push_ending(&mut out, Status::Failed, Some(Reason::Differs))?;
    push_one_line(&mut out, "d")?;
    push_ending(&mut out, Status::Undefined, None)?;
    Ok(out)
}

#[test]
fn lines_are_written(rt: HostRuntime) -> Result<(), AllocError> {
    let out = written(rt.alloc())?;
    same(
        &rt,
        out.as_str(),
        "a\\nb\\c\\n ... failed: differs\nd ... undefined\n",
    );
    Ok(())
}

const PLAIN: Style = Style {
    format: Format::Plain,
    no_skipped: false,
};

const PROGRESS: Style = Style {
    format: Format::Progress,
    no_skipped: true,
};

const JSON: Style = Style {
    format: Format::Json,
    no_skipped: false,
};

// What reports of the feature end with if the run's own hooks and cleanups failed.
const CLOSING: &str =
    "(hooks and cleanups) ... failed\n0 features passed, 1 failed, 0 skipped\n3 scenarios passed, 1 failed, 1 skipped\n3 steps passed, 1 failed, 1 skipped, 0 undefined\n";

// The same in JSON if they passed.
const JSON_TAIL: &str =
    "],\"run\":\"passed\",\"status\":1,\"summary\":{\"features\":{\"failed\":1,\"memory\":0,\"passed\":0,\"skipped\":0,\"untested\":0},\"scenarios\":{\"failed\":1,\"memory\":0,\"passed\":3,\"skipped\":1,\"untested\":0},\"steps\":{\"failed\":1,\"memory\":0,\"passed\":3,\"skipped\":1,\"undefined\":0,\"untested\":0}}}\n";

// What reports of each format begin with.
const HEADS: [(Style, &str); 3] = [(PLAIN, ""), (PROGRESS, ""), (JSON, "{\"features\":[")];

#[test]
fn reports_begin(rt: HostRuntime) -> Result<(), AllocError> {
    for (style, wanted) in HEADS {
        same(&rt, head(rt.alloc(), style)?.as_str(), wanted);
    }
    Ok(())
}

#[test]
fn formats_have_names(rt: HostRuntime) {
    equal(&rt, &FORMATS.len(), &3);
    same(&rt, Format::Progress.name(), "progress");
    equal(&rt, &format_named("json"), &Some(Format::Json));
    equal(&rt, &format_named("JSON"), &None);
}

// Returns the counts of the feature.
fn counted(alloc: Global) -> Result<Summary, Fail> {
    let feature = result_of(alloc, "~@out", false)?;
    let mut summary = Summary::new();
    summary.add(&feature);
    Ok(summary)
}

// How the run's own hooks and cleanups ended, and what reports of each format end with then.
const TAILS: [(Style, Status, &str); 3] = [
    (PLAIN, Status::Failed, CLOSING),
    (PROGRESS, Status::Failed, CLOSING),
    (JSON, Status::Passed, JSON_TAIL),
];

#[test]
fn reports_end(rt: HostRuntime) -> Result<(), Fail> {
    let summary = counted(rt.alloc())?;
    for (style, around, wanted) in TAILS {
        same(
            &rt,
            tail(rt.alloc(), style, &summary, around)?.as_str(),
            wanted,
        );
    }
    Ok(())
}

const NONE: Counts = Counts {
    passed: 0,
    failed: 0,
    skipped: 0,
    undefined: 0,
    untested: 0,
    memory: 0,
};

#[test]
fn features_are_counted(rt: HostRuntime) -> Result<(), Fail> {
    let mut summary = Summary::new();
    let nothing = Summary {
        features: NONE,
        scenarios: NONE,
        steps: NONE,
    };
    equal(&rt, &summary, &nothing);
    equal(&rt, &Summary::status(&summary, Status::Passed), &0);
    equal(&rt, &Summary::status(&summary, Status::Failed), &1);
    equal(&rt, &Summary::status(&summary, Status::Memory), &4);
    let feature = result_of(rt.alloc(), "~@out", true)?;
    summary.add(&feature);
    summary.add(&feature);
    let counted = Summary {
        features: Counts { failed: 2, ..NONE },
        scenarios: Counts {
            passed: 4,
            failed: 2,
            skipped: 2,
            untested: 2,
            ..NONE
        },
        steps: Counts {
            passed: 4,
            failed: 2,
            skipped: 2,
            untested: 2,
            ..NONE
        },
    };
    equal(&rt, &summary, &counted);
    equal(&rt, &Summary::status(&summary, Status::Passed), &1);
    Ok(())
}

// Appends the next piece of a part and a line below it, or a line if none is left.
fn push_next(alloc: Global, out: &mut String, left: &mut PartPieces) -> Result<(), AllocError> {
    if let Some(piece) = PartPieces::next(left, alloc)? {
        out.push_str(piece.as_str())?;
        return out.push_str("--\n");
    }
    out.push_str("none\n")
}

// Shows the first three pieces of a part.
fn shown_pieces(
    alloc: Global,
    style: Style,
    feature: &FeatureResult,
) -> Result<String, AllocError> {
    let mut out = String::new(alloc);
    let mut left = pieces(style, true, feature);
    for _ in 0..3 {
        push_next(alloc, &mut out, &mut left)?;
    }
    Ok(out)
}

// Shows the first three pieces of the part of a text's feature.
fn pieces_of(alloc: Global, style: Style, text: &str) -> Result<String, Fail> {
    let feature = ran(alloc, text)?;
    Ok(shown_pieces(alloc, style, &feature)?)
}

// Features, each with a format and its pieces in it.
const PIECES: [(&str, Style, &str); 2] = [
    (
        "Feature: f\n  Scenario: a\n    Given it passes\n",
        PLAIN,
        "Feature: f ... passed\n  Scenario: a ... passed\n    Given it passes ... passed\n\n--\nnone\nnone\n",
    ),
    (
        "Feature: f\n  @out\n  Scenario: a\n",
        PROGRESS,
        "none\nnone\nnone\n",
    ),
];

#[test]
fn small_parts_come_in_one_piece(rt: HostRuntime) -> Result<(), Fail> {
    for (text, style, wanted) in PIECES {
        same(&rt, pieces_of(rt.alloc(), style, text)?.as_str(), wanted);
    }
    Ok(())
}

// Returns the pieces of a feature with a scenario of this name and another.
fn pieces_with(alloc: Global, name: &str) -> Result<String, Fail> {
    let text = format!(in alloc; "Feature: f\n  Scenario: {name}\n  Scenario: b\n")?;
    pieces_of(alloc, PLAIN, text.as_str())
}

// Returns the pieces that it should have if the name is long.
fn wanted_with(alloc: Global, name: &str) -> Result<String, AllocError> {
    format!(in alloc;
        "Feature: f ... passed\n  Scenario: {name} ... passed\n--\n  Scenario: b ... passed\n\n--\nnone\n"
    )
}

// The letters of the name before its last one, with which the lines before the second scenario have 16,384 bytes, or more.
const LETTERS: [usize; 2] = [16_337, 16_384];

#[test]
fn large_parts_come_in_pieces(rt: HostRuntime) -> Result<(), Fail> {
    for letters in LETTERS {
        let name = repeated(rt.alloc(), 'a', letters, 'a')?;
        let shown = pieces_with(rt.alloc(), name.as_str())?;
        let wanted = wanted_with(rt.alloc(), name.as_str())?;
        holds(&rt, shown == wanted);
    }
    Ok(())
}
