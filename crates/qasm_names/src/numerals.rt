//! Whole numbers as texts spell them.

ghost use Rattle.std.specs.Prelude.{◌≡◌, ◌-◌, ◌^◌, ◌∷◌, List, ℕ, min};
ghost use Rattle.qasm_scope.specs.Scope.{numeral};
ghost use Rattle.qasm_scope.specs.Internal.Numerals.{numeral_from};

/// The number that a text spells, or the largest one where that is larger.
#[tactic(auto, unfolding(qasm_scope::specs::Scope::numeral))]
pub fn number(text: &[u8]) -> usize
    ensures { result ≡ min (numeral text.now) (2 ^ 64 - 1) }
{
    let mut number: usize = 0;
    for digit in text {
        number = with_digit(number, *digit);
    }
    number
}

/// A number as one of 16 bits, or the largest of these where it is larger.
pub fn clamped(number: usize) -> u16
    ensures { result ≡ min number (2 ^ 16 - 1) }
{
    u16::try_from(number).unwrap_or(u16::MAX)
}

// A number with one more digit, or the largest one where that is larger.
fn with_digit(number: usize, digit: u8) -> usize
    ensures { (rest : List ℕ)
        → min (numeral_from result rest) (2 ^ 64 - 1)
        ≡ min (numeral_from number (digit ∷ rest)) (2 ^ 64 - 1) }
{
    number
        .saturating_mul(10)
        .saturating_add(usize::from(digit.saturating_sub(b'0')))
}
