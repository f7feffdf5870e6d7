//! Files whose lines end with CR alone, so that they are read as one line.
ghost use Rattle.std.specs.Prelude.{◌≡◌, ◌++◌, map, OnOk};
ghost use Rattle.std.specs.List.{list_any};
ghost use Rattle.gk_lint.specs.Findings.{finding_values};
ghost use Rattle.gk_lint.specs.LineEnds as spec;

use crate::findings::{Finding, FindingKind, add_if};
use std::alloc::AllocError;

fn has_cr(line: &str) -> bool
    ensures { result ≡ spec.has_cr line.now }
{
    line.as_bytes().iter().any(|byte| *byte == b'\r')
}

fn have_cr(lines: &[&str]) -> bool
    ensures { result ≡ list_any spec.has_cr (map (λ line. line.now) lines.now) }
{
    for line in lines {
        if has_cr(*line) {
            return true;
        }
    }
    false
}

/// Adds that the lines of a file end with CR alone, if they do: they are read as one line, which has a CR. An error
/// comes only if a growth was refused.
pub fn add_cr_alone(findings: &mut Vec<Finding<'_>>, lines: &[&str]) -> Result<(), AllocError>
    ensures { OnOk result (finding_values findings.new.items
        ≡ finding_values findings.old.items
        ++ spec.cr_alone (map (λ line. line.now) lines.now)) }
{
    let is_one = lines.len() == 1 && have_cr(lines);
    add_if(findings, is_one, 1, FindingKind::CrAlone)
}
