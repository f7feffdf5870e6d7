//! Numbers in decimal digits.
ghost use Rattle.std.specs.Prelude.{◌≡◌};
ghost use Rattle.gk_steps.specs.Decimal as spec;

/// The largest value of digits without a minus before them. With a minus it is one more.
pub(crate) const LARGEST: u64 = 9_223_372_036_854_775_807;

/// Returns the number that a text spells. The whole text must be an optional `+` or `-` and one or more ASCII digits,
/// with a value in an `i64`. Returns `None` for any other text. Doesn't allocate.
#[tactic(auto, using(crate::proofs::DecimalLemmas::number_parsed))]
pub fn number_of(text: &str) -> Option<i64>
    ensures { result ≡ spec.number_of text.now }
{
    text.parse::<i64>().ok()
}
