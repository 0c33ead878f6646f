//! Numbers as a text spells them.

ghost use Rattle.std.specs.Prelude.{◌≡◌, ◌+◌, ◌-◌, ◌^◌, ◌≤◌, List, ℕ, ◌∷◌, length, drop, position, min};
ghost use Rattle.std.specs.List.{position_or_len};
ghost use Rattle.qasm_angle.specs.Literals.{is_point, is_exponent_mark, is_negative, exponent_size, places_of, decimal, digits_of, number_from, value_of_parts, literal_value};

use crate::fraction::Fraction;
use crate::scaling::scaled;
use crate::significand::read_digits;
use std::marker::Model;

/// A number as a text spells it: its value, or none where it is past the limits.
#[derive(Clone, Copy, Debug)]
pub struct Literal {
    value: Option<Fraction>,
}

impl Model for Literal {
    ghost use Rattle.std.specs.Prelude.{Option};
    ghost use Rattle.qasm_angle.specs.Ratio.{Ratio};

    ghost Value = { Option Ratio };

    ghost view = { λ l. l.value };

    ghost inverse = { λ v. record { value = v } };
}

impl Literal {
    /// The number that a text spells, as `12`, `0.25`, `.5` or `2.5e-3`. Bytes that don't belong to such a
    /// spelling are passed over.
    pub fn read(text: &[u8]) -> Literal
        ensures { result ≡ literal_value text.now }
    {
        Literal {
            value: literal_value(text),
        }
    }

    /// Its value; none where that has in lowest terms a numerator or denominator above 2^60, or where the number
    /// is spelled with more than 38 digits from the first one other than 0 to the last one other than 0.
    pub fn value(self) -> Option<Fraction>
        ensures { result ≡ self }
    {
        self.value
    }
}

// The value of the number that a text spells.
#[tactic(auto, unfolding(crate::specs::Literals::literal_value))]
fn literal_value(text: &[u8]) -> Option<Fraction>
    ensures { result ≡ literal_value text.now }
{
    let mark = exponent_mark(text);
    value_of_parts(&text[..mark], after(text, mark))
}

// The value of digits with a point, and an exponent with its sign.
fn value_of_parts(mantissa: &[u8], exponent: &[u8]) -> Option<Fraction>
    ensures { result ≡ value_of_parts mantissa.now exponent.now }
{
    let places = places(mantissa);
    let size = size(exponent);
    if is_negative(exponent) {
        decimal(mantissa, 0, u128::from(size) + places as u128)
    } else {
        decimal(mantissa, u128::from(size), places as u128)
    }
}

// The digits of a mantissa as a whole number, times 10^raised, divided by 10^lowered.
#[tactic(auto, unfolding(crate::specs::Literals::decimal))]
fn decimal(mantissa: &[u8], raised: u128, lowered: u128) -> Option<Fraction>
    requires { raised ≤ 2 ^ 64 }
    ensures { result ≡ decimal (digits_of mantissa.now) raised lowered }
{
    let digits = read_digits(mantissa)?;
    scaled(digits.leading, digits.zeros as u128 + raised, lowered)
}

// The place of the mark that an exponent begins with, or the end.
fn exponent_mark(text: &[u8]) -> usize
    ensures place { result ≡ position_or_len is_exponent_mark text.now }
    ensures within { result ≤ length text.now }
{
    first_exponent_mark(text).unwrap_or(text.len())
}

// The place of the point, or the end.
fn point(text: &[u8]) -> usize
    ensures place { result ≡ position_or_len is_point text.now }
    ensures within { result ≤ length text.now }
{
    first_point(text).unwrap_or(text.len())
}

// The place of the first mark that an exponent begins with.
fn first_exponent_mark(text: &[u8]) -> Option<usize>
    ensures { result ≡ position is_exponent_mark text.now }
{
    text.iter().position(|b| *b == b'e' || *b == b'E')
}

// The place of the first point.
fn first_point(text: &[u8]) -> Option<usize>
    ensures { result ≡ position is_point text.now }
{
    text.iter().position(|b| *b == b'.')
}

// What follows the byte at a place; nothing where that is the end.
fn after(text: &[u8], mark: usize) -> &[u8]
    requires { mark ≤ length text.now }
    ensures { result.now ≡ drop (mark + 1) text.now }
{
    if mark < text.len() {
        &text[mark + 1..]
    } else {
        &text[mark..]
    }
}

// How many digits stand after the point.
fn places(mantissa: &[u8]) -> usize
    ensures places { result ≡ places_of mantissa.now }
    ensures most { result ≤ length mantissa.now }
{
    count_digits(after(mantissa, point(mantissa)))
}

// How many bytes are digits.
fn count_digits(text: &[u8]) -> usize
    ensures count { result ≡ length (digits_of text.now) }
    ensures most { result ≤ length text.now }
{
    let mut count = 0;
    for b in text {
        if b.is_ascii_digit() {
            count += 1;
        }
    }
    count
}

// Whether an exponent begins with a minus.
fn is_negative(exponent: &[u8]) -> bool
    ensures { result ≡ is_negative exponent.now }
{
    !exponent.is_empty() && exponent[0] == b'-'
}

// The size of an exponent, or the largest number where that is larger.
fn size(exponent: &[u8]) -> u64
    ensures { result ≡ min (exponent_size exponent.now) (2 ^ 64 - 1) }
{
    let mut size: u64 = 0;
    for b in exponent {
        size = with_byte(size, *b);
    }
    size
}

// A size with one more byte, which is passed over where it is no digit; the largest number where that is larger.
fn with_byte(size: u64, byte: u8) -> u64
    ensures { (rest : List ℕ) → min (number_from result (digits_of rest)) (2 ^ 64 - 1)
        ≡ min (number_from size (digits_of (byte ∷ rest))) (2 ^ 64 - 1) }
{
    if byte.is_ascii_digit() {
        size.saturating_mul(10)
            .saturating_add(u64::from(byte - b'0'))
    } else {
        size
    }
}
