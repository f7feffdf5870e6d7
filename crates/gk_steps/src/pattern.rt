//! Patterns of step texts.
ghost use Rattle.std.specs.Prelude.{◌≡◌};
ghost use Rattle.gk_steps.specs.declared.pattern.PatternFault.TheVariants.{Memory};

use gk_gherkin::AllocationError;

/// The kind of a field: `{name}` or `{name:d}`. (behave's documentation: step parameters; the form of a number is this
/// project's profile)
#[derive(Clone, Copy, Debug, PartialEq, Eq)]
pub enum FieldKind {
    /// Takes one or more characters, as few as possible.
    Plain,
    /// Takes an optional `+` or `-` and ASCII digits with a value in an `i64`, as many digits as possible.
    Decimal,
}

/// A run of literal characters, or a field. (behave's documentation: step parameters)
#[derive(Debug, Drop)]
pub enum Piece {
    Literal(String),
    Field { name: String, kind: FieldKind },
}

/// A pattern of step texts: its pieces, in order.
#[derive(Debug, Drop)]
pub struct Pattern {
    pub pieces: Vec<Piece>,
}

/// The value of a field.
#[derive(Debug, Drop)]
pub enum Field {
    Text(String),
    Number(i64),
}

/// Why a pattern could not be read.
#[derive(Clone, Copy, Debug, PartialEq, Eq)]
pub enum PatternFault {
    /// The text spells no pattern.
    BadPattern,
    /// A growth of memory was refused.
    Memory,
}

impl<E: AllocationError> From<E> for PatternFault {
    ghost from_gives = { λ _ e. e ≡ Memory };

    fn from(_refused: E) -> PatternFault {
        PatternFault::Memory
    }
}
