//! The part of a feature in a report, made whole or in pieces of bounded size.
ghost use Rattle.std.specs.Prelude.{◌≡◌, ◌≢◌, [], IfErr};
ghost use Rattle.gk_run.specs.Results.{feature_row};
ghost use Rattle.gk_report.specs.Report as spec;
ghost use Rattle.gk_report.specs.ReportTexts.{AnswersText};
ghost use Rattle.gk_report.specs.PartPieces.{rest};

use crate::json_report::{ObjectsLeft, push_object_end, push_object_start};
use crate::plain_report::{LinesLeft, push_feature_end, push_feature_line};
use crate::progress_report::push_progress_line;
use crate::report::{Format, Style};
use crate::report_texts::hides;
use gk_run::FeatureResult;
use std::alloc::{AllocError, Global};

// A piece with this number of bytes is complete.
const PIECE_BYTES: usize = 16 * 1024;

// What is left of a part.
#[derive(Clone, Copy, Debug)]
enum Left<'a> {
    // All of it, and whether it is the first that is printed.
    Whole(bool),
    // The lines of scenarios, and the text after them.
    Lines(LinesLeft<'a>),
    // The objects of scenarios, and the text after them.
    Objects(ObjectsLeft<'a>),
    Nothing,
}

/// The part of a feature, made piece by piece. A piece ends with the first scenario at which it has at least 16 KB, and
/// the last one ends with the part. In the progress format the part is one piece. In JSON the list of the feature's
/// rules is in the first piece.
#[derive(Clone, Copy, Debug)]
pub struct PartPieces<'a> {
    style: Style,
    feature: &'a FeatureResult,
    left: Left<'a>,
}

/// Returns the part of a feature, before any piece of it is made. `first` is true as long as each earlier part of the
/// report was empty. Doesn't allocate.
#[tactic(auto, unfolding(crate::specs::PartPieces::rest))]
pub fn pieces(style: Style, first: bool, feature: &FeatureResult) -> PartPieces<'_>
    ensures { rest result ≡ spec.part style first (feature_row feature.now) }
{
    PartPieces {
        style,
        feature,
        left: Left::Whole(first),
    }
}

impl<'a> PartPieces<'a> {
    ghost use Rattle.std.specs.Prelude.{◌≡◌, ◌≢◌, ◌<◌, ◌+◌, ◌++◌, [], false, length, IfOk, IfErr, IfNone, IfSome, IsTrue, OnOk, OnErr, string_bytes};
    ghost use Rattle.gk_run.specs.Results.{feature_row};
    ghost use Rattle.gk_report.specs.Report as spec;
    ghost use Rattle.gk_report.specs.ReportTexts.{PushesSome};
    ghost use Rattle.gk_report.specs.PlainReport.{lines_to_go};
    ghost use Rattle.gk_report.specs.JsonReport.{objects_to_go};
    ghost use Rattle.gk_report.specs.PartPieces.{rest, to_go, whole_to_go, lines_and_end, objects_and_end, IsPiece};

    // Appends the text before the scenarios of a part that is whole. Returns whether more may be left.
    #[tactic(auto, unfolding(crate::specs::PartPieces::rest, crate::specs::PlainReport::plain_part, crate::specs::ProgressReport::progress_part, crate::specs::JsonReport::json_part))]
    fn push_start(
        &mut self,
        out: &mut String,
        alloc: Global,
        first: bool,
    ) -> Result<bool, AllocError>
        ensures pushed { PushesSome out.old
            (spec.part self.old.style first (feature_row self.old.feature.now))
            result out.new (rest self.new) }
        ensures fewer { IfOk result (λ more.
            IsTrue more → to_go self.new < whole_to_go self.old.feature.now) }
        ensures over { IfOk result (λ more. more ≡ false → rest self.new ≡ []) }
        ensures needed { IfErr result (λ e.
            spec.part self.old.style first (feature_row self.old.feature.now) ≢ []) }
    {
        if hides(self.style.no_skipped, self.feature.status) {
            self.left = Left::Nothing;
            return Ok(false);
        }
        match self.style.format {
            Format::Plain => {
                push_feature_line(out, self.feature)?;
                self.left = Left::Lines(LinesLeft::new(self.feature));
                Ok(true)
            }
            Format::Progress => {
                push_progress_line(out, self.style.no_skipped, self.feature)?;
                self.left = Left::Nothing;
                Ok(false)
            }
            Format::Json => {
                push_object_start(out, alloc, first, self.feature)?;
                self.left = Left::Objects(ObjectsLeft::new(self.feature));
                Ok(true)
            }
        }
    }

    // Appends the next of these lines, or the text after them. Returns whether more may be left.
    #[tactic(auto, using(crate::proofs::PartPiecesLemmas::if_err, crate::proofs::PartPiecesLemmas::some_lines), unfolding(crate::specs::PartPieces::rest))]
    fn push_lines(&mut self, out: &mut String, lines: LinesLeft<'a>) -> Result<bool, AllocError>
        ensures pushed { PushesSome out.old (lines_and_end self.old lines.entry)
            result out.new (rest self.new) }
        ensures fewer { IfOk result (λ more.
            IsTrue more → to_go self.new < lines_to_go lines.entry + 1) }
        ensures over { IfOk result (λ more. more ≡ false → rest self.new ≡ []) }
        ensures needed { IfErr result (λ e. lines_and_end self.old lines.entry ≢ []) }
    {
        let mut lines = lines;
        if lines.push_next(out, self.style.no_skipped)? {
            self.left = Left::Lines(lines);
            return Ok(true);
        }
        push_feature_end(out, self.feature.around)?;
        self.left = Left::Nothing;
        Ok(false)
    }

    // Appends the next of these objects, or the text after them. Returns whether more may be left.
    #[tactic(auto, using(crate::proofs::PartPiecesLemmas::if_err, crate::proofs::PartPiecesLemmas::some_objects), unfolding(crate::specs::PartPieces::rest))]
    fn push_objects(
        &mut self,
        out: &mut String,
        alloc: Global,
        objects: ObjectsLeft<'a>,
    ) -> Result<bool, AllocError>
        ensures pushed { PushesSome out.old (objects_and_end self.old objects.entry)
            result out.new (rest self.new) }
        ensures fewer { IfOk result (λ more.
            IsTrue more → to_go self.new < objects_to_go objects.entry + 1) }
        ensures over { IfOk result (λ more. more ≡ false → rest self.new ≡ []) }
        ensures needed { IfErr result (λ e. objects_and_end self.old objects.entry ≢ []) }
    {
        let mut objects = objects;
        if objects.push_next(out, alloc, self.style.no_skipped)? {
            self.left = Left::Objects(objects);
            return Ok(true);
        }
        push_object_end(out, alloc, self.feature)?;
        self.left = Left::Nothing;
        Ok(false)
    }

    // Appends some of what is left: at most one scenario. Returns whether more may be left.
    #[tactic(auto, unfolding(crate::specs::PartPieces::rest))]
    fn push_next(&mut self, out: &mut String, alloc: Global) -> Result<bool, AllocError>
        ensures pushed { PushesSome out.old (rest self.old) result out.new (rest self.new) }
        ensures fewer { IfOk result (λ more. IsTrue more → to_go self.new < to_go self.old) }
        ensures over { IfOk result (λ more. more ≡ false → rest self.new ≡ []) }
        ensures needed { IfErr result (λ e. rest self.old ≢ []) }
    {
        match self.left {
            Left::Whole(first) => self.push_start(out, alloc, first),
            Left::Lines(lines) => self.push_lines(out, lines),
            Left::Objects(objects) => self.push_objects(out, alloc, objects),
            Left::Nothing => Ok(false),
        }
    }

    // Appends what is left, up to the end of a piece.
    #[tactic(auto, using(crate::proofs::PartPiecesLemmas::if_err, crate::proofs::PartPiecesLemmas::some_after))]
    fn push_piece(&mut self, out: &mut String, alloc: Global) -> Result<(), AllocError>
        ensures pushed { PushesSome out.old (rest self.old) result out.new (rest self.new) }
        ensures full { OnOk result
            (length (string_bytes out.new) < PIECE_BYTES → rest self.new ≡ []) }
        ensures needed { IfErr result (λ e. string_bytes out.old ++ rest self.old ≢ []) }
    {
        while out.len() < PIECE_BYTES {
            if !self.push_next(out, alloc)? {
                return Ok(());
            }
        }
        Ok(())
    }

    /// Makes and returns the next piece, which is never empty. A piece of fewer than 16 KB is the last one. Returns
    /// `None` if nothing is left, or if the style hides the feature; then nothing is left in later calls either. An
    /// error comes only if a growth was refused, never if nothing is left, and it leaves the rest of the part as it
    /// was.
    pub fn next(&mut self, alloc: Global) -> Result<Option<String>, AllocError>
        ensures piece { IfOk result (λ piece. IfSome piece (λ text.
            IsPiece (rest self.old) (string_bytes text) (rest self.new))) }
        ensures none { IfOk result (λ piece. IfNone piece (rest self.old ≡ [])) }
        ensures ended { IfOk result (λ piece. IfNone piece (rest self.new ≡ [])) }
        ensures err { OnErr result (rest self.new ≡ rest self.old) }
        ensures needed { IfErr result (λ e. rest self.old ≢ []) }
    {
        let mut later = *self;
        let mut out = String::new(alloc);
        later.push_piece(&mut out, alloc)?;
        *self = later;
        if out.is_empty() {
            Ok(None)
        } else {
            Ok(Some(out))
        }
    }
}

/// Returns the part of a feature. `first` is true as long as each earlier part of the report was empty. The text is
/// empty if the style hides the feature. An error comes only if a growth was refused, and never in place of an empty
/// text. (behave's documentation: `--no-skipped`)
pub fn part(
    alloc: Global,
    style: Style,
    first: bool,
    feature: &FeatureResult,
) -> Result<String, AllocError>
    ensures text { AnswersText result (spec.part style first (feature_row feature.now)) }
    ensures needed { IfErr result (λ e. spec.part style first (feature_row feature.now) ≢ []) }
{
    let mut out = String::new(alloc);
    let mut left = pieces(style, first, feature);
    while left.push_next(&mut out, alloc)? {}
    Ok(out)
}
