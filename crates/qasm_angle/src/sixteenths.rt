//! Angles as whole numbers of sixteenth turns.

ghost use Rattle.std.specs.Prelude.{◌≡◌, ℤ, IfSome, IfNone};
ghost use Rattle.qasm_angle.specs.Ratio.{IsFraction};
ghost use Rattle.qasm_angle.specs.Sixteenths.{IsSixteenths, sixteenths_of_multiple, sixteenths_of, phase_of_angle, within_a_turn};

use crate::angle::Angle;
use crate::fraction::{Fraction, cross};
use zx_model::Sixteenth;

/// The phase of an angle that is a whole number of sixteenth turns, modulo a whole turn; none for
/// other angles.
#[tactic(auto, unfolding(crate::specs::Sixteenths::phase_of_angle))]
pub fn to_sixteenth(a: &Angle) -> Option<Sixteenth>
    ensures phase { result ≡ phase_of_angle a.now }
    ensures some { IfSome result (λ phase. (n : ℤ) × IsSixteenths a.now n
        × (phase ≡ within_a_turn n)) }
    ensures none { IfNone result ((n : ℤ) → IsSixteenths a.now n → ⊥) }
{
    let turns = sixteenths_of(a)?;
    Some(phase(turns))
}

// The n for which the angle is n*pi/8.
fn sixteenths_of(a: &Angle) -> Option<i128>
    ensures sixteenths { result ≡ sixteenths_of a.now }
    ensures some { IfSome result (λ n. IsSixteenths a.now n) }
    ensures none { IfNone result ((n : ℤ) → IsSixteenths a.now n → ⊥) }
{
    if a.rational.is_zero() {
        sixteenths_of_multiple(a.multiple)
    } else {
        None
    }
}

// How many sixteenth turns the multiple of pi is, where that is whole. It may be past 64 bits.
fn sixteenths_of_multiple(s: Fraction) -> Option<i128>
    ensures value { result ≡ sixteenths_of_multiple s }
    ensures lowest { IsFraction s }
{
    let below = s.denominator();
    let half_turn = u64::from(Sixteenth::half_turn().get());
    if half_turn % below == 0 {
        Some(cross(s.numerator(), (half_turn / below) as i64))
    } else {
        None
    }
}

// The phase of that many sixteenth turns.
fn phase(turns: i128) -> Sixteenth
    ensures { result ≡ within_a_turn turns }
{
    let half_turn = i128::from(Sixteenth::half_turn().get());
    Sixteenth::new(turns.rem_euclid(2 * half_turn) as u8)
}
