//! The digits of a number.

ghost use Rattle.std.specs.Prelude.{◌≡◌, ◌+◌, ◌*◌, ◌^◌, ◌<◌, ◌≤◌, List, ℕ, [], ◌∷◌, true, false, nat_lt, length, IfSome, IfNone};
ghost use Rattle.qasm_angle.specs.Literals.{digits_of, number_of, significant, most_significant};
ghost use Rattle.qasm_angle.specs.Internal.Significands.{IsSignificand, DecidesAlike};

// The most digits from the first one other than 0 to the last one other than 0.
const MOST_SIGNIFICANT: u32 = 38;

// Digits, as the whole number `prefix` with `zeros` zeros after it.
#[derive(Clone, Copy)]
pub(crate) struct Significand {
    // The first digits, without leading zeros, as a number.
    pub(crate) leading: u128,
    // How many digits that number has; 0 for the number 0.
    pub(crate) count: u32,
    // How many zeros follow it.
    pub(crate) zeros: usize,
}

impl Significand {
    // With one more digit; none where that is one significant digit too many.
    fn push(self, digit: u8) -> Option<Significand>
        requires digit { digit < 10 }
        requires valid { IsSignificand self }
        requires room { self.zeros < 2 ^ 63 }
        ensures valid { IfSome result (λ s. IsSignificand s) }
        ensures zeros { IfSome result (λ s. s.zeros ≤ self.zeros + 1) }
        ensures some { IfSome result (λ s. (rest digits : List ℕ) → DecidesAlike self (digit ∷ rest) digits
            → DecidesAlike s rest digits) }
        ensures none { IfNone result ((rest digits : List ℕ) → DecidesAlike self (digit ∷ rest) digits
            → nat_lt most_significant (significant digits) ≡ true) }
    {
        if self.count < MOST_SIGNIFICANT {
            let leading = self.leading * 10 + u128::from(digit);
            Some(Significand {
                leading,
                count: if leading > 0 { self.count + 1 } else { 0 },
                zeros: 0,
            })
        } else if digit == 0 {
            Some(Significand {
                leading: self.leading,
                count: self.count,
                zeros: self.zeros + 1,
            })
        } else {
            None
        }
    }

    // With one more byte, which is passed over where it is no digit.
    fn push_byte(self, byte: u8) -> Option<Significand>
        requires valid { IsSignificand self }
        requires room { self.zeros < 2 ^ 63 }
        ensures valid { IfSome result (λ s. IsSignificand s) }
        ensures zeros { IfSome result (λ s. s.zeros ≤ self.zeros + 1) }
        ensures some { IfSome result (λ s. (rest digits : List ℕ)
            → DecidesAlike self (digits_of (byte ∷ rest)) digits → DecidesAlike s (digits_of rest) digits) }
        ensures none { IfNone result ((rest digits : List ℕ)
            → DecidesAlike self (digits_of (byte ∷ rest)) digits
            → nat_lt most_significant (significant digits) ≡ true) }
    {
        if byte.is_ascii_digit() {
            self.push(byte - b'0')
        } else {
            Some(self)
        }
    }
}

// The digits of a mantissa; none where too many are significant.
pub(crate) fn read_digits(mantissa: &[u8]) -> Option<Significand>
    ensures number { IfSome result (λ s. number_of (digits_of mantissa.now)
        ≡ s.leading * 10 ^ s.zeros) }
    ensures small { IfSome result (λ s. s.leading < 10 ^ 38) }
    ensures zeros { IfSome result (λ s. s.zeros < 2 ^ 63) }
    ensures some { IfSome result (λ _. nat_lt most_significant
        (significant (digits_of mantissa.now)) ≡ false) }
    ensures none { IfNone result (nat_lt most_significant (significant (digits_of mantissa.now))
        ≡ true) }
{
    let mut significand = Significand {
        leading: 0,
        count: 0,
        zeros: 0,
    };
    for b in mantissa {
        significand = significand.push_byte(*b)?;
    }
    Some(significand)
}
