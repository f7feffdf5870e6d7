//! The first difference of two texts.
ghost use Rattle.std.specs.Prelude.{◌≡◌, ◌<◌};
ghost use Rattle.gk_explain.specs.Differences as spec;

/// A line of a text and a character in it, each counted from 1.
#[derive(Clone, Copy, Debug, PartialEq, Eq)]
pub struct Position {
    pub line: usize,
    pub column: usize,
}

// Returns the position after one more character.
fn after(position: Position, c: char) -> Position
    requires line { position.line < 18446744073709551615 }
    requires column { position.column < 18446744073709551615 }
    ensures { result ≡ spec.position_after position c }
{
    if c == '\n' {
        Position {
            line: position.line + 1,
            column: 1,
        }
    } else {
        Position {
            line: position.line,
            column: position.column + 1,
        }
    }
}

/// Returns the position at which two texts first differ: the one after all characters that they have in common
/// at the start. It may be at the end of one of them. Doesn't allocate.
pub fn first_difference(expected: &str, found: &str) -> Position
    ensures { result ≡ spec.first_difference expected.now found.now }
{
    let mut position = Position { line: 1, column: 1 };
    let mut others = found.chars();
    for c in expected.chars() {
        let Some(other) = others.next() else {
            return position;
        };
        if other != c {
            return position;
        }
        position = after(position, c);
    }
    position
}
