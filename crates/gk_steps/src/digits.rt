//! Runs of digits, scanned from a column on.
ghost use Rattle.std.specs.Prelude.{◌≡◌, ◌<◌, ◌≤◌, ◌+◌, ◌-◌, ◌*◌, length, MatchOption};
ghost use Rattle.gk_steps.specs.CharBoundaries.{AreBoundaries};
ghost use Rattle.gk_steps.specs.Advances.{HasDigits, IsLongest};
ghost use Rattle.gk_steps.specs.Digits.{KnowsDigits, HasNumber};

use crate::decimal::LARGEST;

// Returns a value with one more digit, or `None` if it exceeds a limit.
fn grown(value: u64, digit: u8, most: u64) -> Option<u64>
    requires { (48 ≤ digit) × (digit < 58) }
    ensures { let more = value * 10 + (digit - 48) in
        MatchOption result (most < more) (λ r. (r ≡ more) × (r ≤ most)) }
{
    let more = value.checked_mul(10)?.checked_add(u64::from(digit - b'0'))?;
    if more <= most { Some(more) } else { None }
}

/// Returns whether there are digits at a column, with a value up to a limit, after which the rest matches.
pub(crate) fn has_digits(
    most: u64,
    text: &str,
    boundaries: &[usize],
    below: &[bool],
    column: usize,
) -> bool
    requires boundaries { AreBoundaries text.now boundaries.now }
    requires column { column < length boundaries.now }
    requires width { length below.now ≡ length boundaries.now }
    ensures { HasDigits most text.now boundaries.now below.now column result }
{
    let bytes = text.as_bytes();
    let mut value: u64 = 0;
    for back in 0..column {
        let byte = bytes[boundaries[column - back]];
        if !byte.is_ascii_digit() {
            return false;
        }
        match grown(value, byte, most) {
            Some(more) => value = more,
            None => return false,
        }
        if below[column - back - 1] {
            return true;
        }
    }
    false
}

/// Returns the longest advance over digits with a value up to a limit, after which the rest matches.
pub(crate) fn longest_digits(
    most: u64,
    text: &str,
    boundaries: &[usize],
    below: &[bool],
    column: usize,
) -> Option<usize>
    requires boundaries { AreBoundaries text.now boundaries.now }
    requires column { column < length boundaries.now }
    requires width { length below.now ≡ length boundaries.now }
    ensures { IsLongest most text.now boundaries.now below.now column result }
{
    let bytes = text.as_bytes();
    let mut value: u64 = 0;
    let mut longest = None;
    for back in 0..column {
        let byte = bytes[boundaries[column - back]];
        if !byte.is_ascii_digit() {
            return longest;
        }
        match grown(value, byte, most) {
            Some(more) => value = more,
            None => return longest,
        }
        let next = column - back - 1;
        if below[next] {
            longest = Some(next);
        }
    }
    longest
}

/// What is known about the digits at a column: whether the rest matches after some that spell a number with a plus, and
/// after some that spell one with a minus.
#[derive(Clone, Copy, Debug, PartialEq, Eq)]
pub(crate) struct Digits {
    pub positive: bool,
    pub negative: bool,
}

// Returns what `has_digits` does, from its result at the column after: a leading zero changes no value.
fn digits_at(
    most: u64,
    text: &str,
    boundaries: &[usize],
    below: &[bool],
    column: usize,
    after: bool,
) -> bool
    requires boundaries { AreBoundaries text.now boundaries.now }
    requires column { column < length boundaries.now }
    requires width { length below.now ≡ length boundaries.now }
    requires after { HasDigits most
        text.now boundaries.now below.now (column - 1) after }
    ensures { HasDigits most text.now boundaries.now below.now column result }
{
    if column > 0 && text.as_bytes()[boundaries[column]] == b'0' {
        if below[column - 1] {
            return true;
        }
        return after;
    }
    has_digits(most, text, boundaries, below, column)
}

impl Digits {
    /// Returns what is known at a column, from what is known at the column after.
    pub(crate) fn next(
        &self,
        text: &str,
        boundaries: &[usize],
        below: &[bool],
        column: usize,
    ) -> Digits
        requires boundaries { AreBoundaries text.now boundaries.now }
        requires column { column < length boundaries.now }
        requires width { length below.now ≡ length boundaries.now }
        requires after { KnowsDigits
            text.now boundaries.now below.now (column - 1) self.now }
        ensures { KnowsDigits text.now boundaries.now below.now column result }
    {
        Digits {
            positive: digits_at(LARGEST, text, boundaries, below, column, self.positive),
            negative: digits_at(LARGEST + 1, text, boundaries, below, column, self.negative),
        }
    }
}

/// Returns whether there is an advance over a number from a column, with or without a sign.
pub(crate) fn has_number(
    text: &str,
    boundaries: &[usize],
    below: &[bool],
    column: usize,
    after: Digits,
    here: Digits,
) -> bool
    requires boundaries { AreBoundaries text.now boundaries.now }
    requires column { column < length boundaries.now }
    requires after { KnowsDigits
        text.now boundaries.now below.now (column - 1) after }
    requires here { KnowsDigits text.now boundaries.now below.now column here }
    ensures { HasNumber text.now boundaries.now below.now column result }
{
    if column == 0 {
        return false;
    }
    let byte = text.as_bytes()[boundaries[column]];
    if byte == b'+' {
        return after.positive;
    }
    if byte == b'-' {
        return after.negative;
    }
    here.positive
}
