//! The lines in which two texts first differ.
ghost use Rattle.gk_explain.specs.DifferingLines.{DifferingLinesAreShown};

/// If two UTF-8 texts are compared, each of them has a line with the number of the line in which they first differ.
/// This line of the expected text and this line of the found text are shown, however long the texts are.
#[tactic(auto, using(crate::proofs::DifferingLinesLemmas::both_shown))]
pub fn differing_lines_are_shown()
    ensures { DifferingLinesAreShown }
{}
