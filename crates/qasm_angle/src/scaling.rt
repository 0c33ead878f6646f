//! Whole numbers times and divided by powers of ten.

ghost use Rattle.std.specs.Prelude.{◌≡◌, ◌+◌, ◌*◌, ◌^◌, ◌<◌, ◌≤◌, pos};
ghost use Rattle.qasm_angle.specs.Ratio.{lowest, limited};

use crate::fraction::{Fraction, LARGEST, gcd, reduced};

// The most digits that a prefix of a number has.
const DIGITS: u128 = 38;

// The number times 10^raised, divided by 10^lowered; none where that is past the limit.
pub(crate) fn scaled(leading: u128, raised: u128, lowered: u128) -> Option<Fraction>
    requires { leading < 10 ^ 38 }
    ensures { result ≡ limited (lowest (pos (leading * 10 ^ raised)) (10 ^ lowered)) }
{
    if leading == 0 {
        Some(Fraction::zero())
    } else if lowered <= raised {
        raised_by(leading, raised - lowered)
    } else {
        lowered_by(leading, lowered - raised)
    }
}

// The number times a power of ten.
fn raised_by(leading: u128, tens: u128) -> Option<Fraction>
    requires { 0 < leading }
    ensures { result ≡ limited (lowest (pos (leading * 10 ^ tens)) 1) }
{
    // 10^19 is past the limit.
    if leading > LARGEST || tens > 18 {
        return None;
    }
    reduced((leading * power_of_ten(tens)) as i128, 1)
}

// The number divided by a power of ten.
fn lowered_by(leading: u128, tens: u128) -> Option<Fraction>
    requires some { 0 < leading }
    requires few_digits { leading < 10 ^ 38 }
    ensures { result ≡ limited (lowest (pos leading) (10 ^ tens)) }
{
    if tens <= DIGITS {
        reduced(leading as i128, power_of_ten(tens))
    } else if tens - DIGITS <= 18 {
        lowered_twice(leading, power_of_ten(DIGITS), power_of_ten(tens - DIGITS))
    } else {
        // The quotient is less than 10^-19, so the denominator is past the limit.
        None
    }
}

// The number divided by one number and then by another, where the product may not fit.
fn lowered_twice(leading: u128, first: u128, second: u128) -> Option<Fraction>
    requires small { leading < 2 ^ 127 }
    requires first { 0 < first }
    requires second { 0 < second }
    requires small_second { second ≤ 10 ^ 18 }
    ensures { result ≡ limited (lowest (pos leading) (first * second)) }
{
    let divisor = gcd(leading, first);
    let below = first / divisor;
    if below > LARGEST {
        return None;
    }
    reduced((leading / divisor) as i128, below * second)
}

// A power of ten.
fn power_of_ten(tens: u128) -> u128
    requires { tens ≤ 38 }
    ensures value { result ≡ 10 ^ tens }
    ensures positive { 0 < result }
{
    10u128.pow(tens as u32)
}
