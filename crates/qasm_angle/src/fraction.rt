//! Fractions in lowest terms.

ghost use Rattle.std.specs.Prelude.{◌≡◌, ◌*◌, ◌%◌, ◌^◌, ◌<◌, ◌≤◌, false, pos, ◌*ℤ◌, unsigned_abs};
ghost use Rattle.qasm_angle.specs.Ratio.{Ratio, gcd, lowest, limited, largest, whole, is_zero, opposite, sum, product, quotient, IsFraction};
ghost use Rattle.qasm_angle.specs.Internal.Signs.{signed};

use std::marker::Model;

// The size that no numerator and no denominator exceeds: 2^60.
pub(crate) const LARGEST: u128 = 1 << 60;

// The largest number that fits into a word of the machine: division of larger ones is slow.
const LONGEST_WORD: u128 = u64::MAX as u128;

/// A fraction in lowest terms, whose numerator and denominator have at most the size 2^60. Zero is 0/1.
#[derive(Clone, Copy, Debug, PartialEq, Eq)]
pub struct Fraction {
    numerator: i64,
    denominator: u64,
}

impl Model for Fraction {
    ghost use Rattle.qasm_angle.specs.Ratio.{Ratio, IsFraction};

    ghost Value = { Ratio };

    ghost view = { λ f. record { numerator = f.numerator; denominator = f.denominator } };

    ghost invariant = { λ f. IsFraction (record { numerator = f.numerator; denominator = f.denominator }) };

    ghost inverse = { λ r. record { numerator = r.numerator; denominator = r.denominator } };
}

impl Fraction {
    /// The whole number 0.
    #[tactic(auto, unfolding(crate::specs::Ratio::gcd))]
    pub fn zero() -> Fraction
        ensures { result ≡ whole (pos 0) }
    {
        Fraction {
            numerator: 0,
            denominator: 1,
        }
    }

    /// The whole number 1.
    #[tactic(auto, unfolding(crate::specs::Ratio::gcd))]
    pub fn one() -> Fraction
        ensures { result ≡ whole (pos 1) }
    {
        Fraction {
            numerator: 1,
            denominator: 1,
        }
    }

    /// The number above the line.
    pub fn numerator(self) -> i64
        ensures value { result ≡ self.numerator }
        ensures lowest { IsFraction self }
    {
        self.numerator
    }

    /// The number below the line, at least 1.
    pub fn denominator(self) -> u64
        ensures value { result ≡ self.denominator }
        ensures lowest { IsFraction self }
    {
        self.denominator
    }

    /// Whether it is 0.
    pub fn is_zero(self) -> bool
        ensures { result ≡ is_zero self }
    {
        self.numerator == 0
    }

    /// The fraction with the other sign.
    pub fn opposite(self) -> Fraction
        ensures { result ≡ opposite self }
    {
        Fraction {
            numerator: -self.numerator,
            denominator: self.denominator,
        }
    }

    /// The sum, or none where it is past the limit.
    pub fn checked_add(self, other: Fraction) -> Option<Fraction>
        ensures { result ≡ limited (sum self other) }
    {
        let is_common = self.denominator == other.denominator;
        if other.numerator == 0 {
            Some(self)
        } else if self.numerator == 0 {
            Some(other)
        } else if is_common {
            self.common_sum(other)
        } else {
            self.cross_sum(other)
        }
    }

    // The sum over the denominator that both have.
    fn common_sum(self, other: Fraction) -> Option<Fraction>
        requires { self.denominator ≡ other.denominator }
        ensures { result ≡ limited (sum self other) }
    {
        reduced(
            i128::from(self.numerator) + i128::from(other.numerator),
            u128::from(self.denominator),
        )
    }

    // The sum over the least common multiple of the denominators. What divides both terms of it divides what the
    // denominators share.
    fn cross_sum(self, other: Fraction) -> Option<Fraction>
        ensures { result ≡ limited (sum self other) }
    {
        let shared = gcd_of_words(self.denominator, other.denominator);
        let left = self.denominator / shared;
        let right = other.denominator / shared;
        let above = cross(self.numerator, right as i64) + cross(other.numerator, left as i64);
        let rest = above.unsigned_abs() % u128::from(shared);
        let divisor = gcd_of_words(shared, rest as u64);
        divided(
            above,
            u128::from(left) * u128::from(other.denominator),
            u128::from(divisor),
        )
    }

    /// The product, or none where it is past the limit.
    pub fn checked_mul(self, other: Fraction) -> Option<Fraction>
        ensures { result ≡ limited (product self other) }
    {
        if self.numerator == 0 || other.numerator == 0 {
            return Some(Fraction::zero());
        }
        // With exchanged denominators they have the same product, which is in lowest terms once they are.
        let left = lowest_words(self.numerator, other.denominator);
        let right = lowest_words(other.numerator, self.denominator);
        within(
            cross(left.numerator, right.numerator),
            u128::from(left.denominator) * u128::from(right.denominator),
        )
    }

    /// The quotient, or none where it is past the limit.
    pub fn checked_div(self, other: Fraction) -> Option<Fraction>
        requires { is_zero other ≡ false }
        ensures { result ≡ limited (quotient self other) }
    {
        self.checked_mul(other.inverse())
    }

    // The fraction by which a product is the quotient by this one.
    fn inverse(self) -> Fraction
        requires { is_zero self ≡ false }
        ensures { (x : Ratio) → 0 < x.denominator → product x result ≡ quotient x self }
    {
        Fraction {
            numerator: signed(self.numerator < 0, u128::from(self.denominator)),
            denominator: self.numerator.unsigned_abs(),
        }
    }
}

// The quotient of two numbers of fractions in lowest terms.
fn lowest_words(numerator: i64, denominator: u64) -> Fraction
    requires positive { 0 < denominator }
    requires numerator { unsigned_abs numerator ≤ largest }
    requires denominator { denominator ≤ largest }
    ensures { result ≡ lowest numerator denominator }
{
    let size = numerator.unsigned_abs();
    let divisor = gcd_of_words(size, denominator);
    let above = size / divisor;
    Fraction {
        numerator: signed(numerator < 0, u128::from(above)),
        denominator: denominator / divisor,
    }
}

// The quotient of two numbers without a common divisor, or none where it is past the limit.
fn within(numerator: i128, denominator: u128) -> Option<Fraction>
    requires positive { 0 < denominator }
    requires lowest { gcd (unsigned_abs numerator) denominator ≡ 1 }
    ensures { result ≡ limited (lowest numerator denominator) }
{
    if numerator.unsigned_abs() > LARGEST || denominator > LARGEST {
        return None;
    }
    Some(Fraction {
        numerator: numerator as i64,
        denominator: denominator as u64,
    })
}

// The product of two numbers of a fraction.
pub(crate) fn cross(a: i64, b: i64) -> i128
    requires first { unsigned_abs a ≤ largest }
    requires second { unsigned_abs b ≤ largest }
    ensures value { result ≡ a *ℤ b }
    ensures small { unsigned_abs result ≤ largest * largest }
{
    i128::from(a) * i128::from(b)
}

// The quotient of a whole number and a natural number in lowest terms, or none where it is past the limit.
pub(crate) fn reduced(numerator: i128, denominator: u128) -> Option<Fraction>
    requires { 0 < denominator }
    ensures { result ≡ limited (lowest numerator denominator) }
{
    divided(
        numerator,
        denominator,
        gcd(numerator.unsigned_abs(), denominator),
    )
}

// The quotient of a whole number and a natural number, both divided by their greatest common divisor, or none where it
// is past the limit.
fn divided(numerator: i128, denominator: u128, divisor: u128) -> Option<Fraction>
    requires positive { 0 < denominator }
    requires divisor { divisor ≡ gcd (unsigned_abs numerator) denominator }
    ensures { result ≡ limited (lowest numerator denominator) }
{
    let above = numerator.unsigned_abs() / divisor;
    let below = denominator / divisor;
    if above > LARGEST || below > LARGEST {
        return None;
    }
    Some(Fraction {
        numerator: signed(numerator < 0, above),
        denominator: below as u64,
    })
}

// The number of that size with that sign.
fn signed(negative: bool, size: u128) -> i64
    requires { size ≤ largest }
    ensures { result ≡ signed negative size }
{
    let size = size as i64;
    if negative { -size } else { size }
}

// The greatest common divisor.
pub(crate) fn gcd(a: u128, b: u128) -> u128
    ensures { result ≡ gcd a b }
{
    let mut larger = a;
    let mut smaller = b;
    while smaller > LONGEST_WORD {
        let rest = larger % smaller;
        larger = smaller;
        smaller = rest;
    }
    if smaller == 0 {
        return larger;
    }
    u128::from(gcd_of_words(smaller as u64, (larger % smaller) as u64))
}

// The greatest common divisor of numbers that fit into a word of the machine. After two divisions, which serve where one
// of them is small, it goes on by differences: these are quicker than divisions.
fn gcd_of_words(a: u64, b: u64) -> u64
    ensures { result ≡ gcd a b }
{
    if b == 0 {
        return a;
    }
    let rest = a % b;
    if rest == 0 {
        return b;
    }
    let last = b % rest;
    if last == 0 {
        return rest;
    }
    gcd_of_halves(halves_of(rest), halves_of(last))
}

// A number other than 0, as a power of 2 times an odd number.
#[derive(Clone, Copy)]
struct Halves {
    // The exponent.
    twos: u32,
    // The odd number.
    odd: u64,
}

// The number as a power of 2 times an odd number.
fn halves_of(number: u64) -> Halves
    requires { 0 < number }
    ensures value { 2 ^ result.twos * result.odd ≡ number }
    ensures odd { result.odd % 2 ≡ 1 }
    ensures twos { result.twos < 64 }
{
    let twos = number.trailing_zeros();
    Halves {
        twos,
        odd: number >> twos,
    }
}

// The greatest common divisor of such numbers that fit into a word.
fn gcd_of_halves(a: Halves, b: Halves) -> u64
    requires odd { (a.odd % 2 ≡ 1) × (b.odd % 2 ≡ 1) }
    requires twos { (a.twos < 64) × (b.twos < 64) }
    requires fits { (2 ^ a.twos * a.odd < 2 ^ 64) × (2 ^ b.twos * b.odd < 2 ^ 64) }
    ensures { result ≡ gcd (2 ^ a.twos * a.odd) (2 ^ b.twos * b.odd) }
{
    let odd = gcd_of_odd(a.odd, b.odd);
    if a.twos < b.twos {
        odd << a.twos
    } else {
        odd << b.twos
    }
}

// The greatest common divisor of odd numbers.
fn gcd_of_odd(a: u64, b: u64) -> u64
    requires { (a % 2 ≡ 1) × (b % 2 ≡ 1) }
    ensures { result ≡ gcd a b }
{
    let mut left = a;
    let mut right = b;
    while left != right {
        let apart = halves_of(left.abs_diff(right));
        left = left.min(right);
        right = apart.odd;
    }
    left
}
