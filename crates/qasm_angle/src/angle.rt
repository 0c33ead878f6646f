//! Angles and their operations.

ghost use Rattle.std.specs.Prelude.{◌≡◌, false};
ghost use Rattle.qasm_angle.specs.Ratio.{is_zero, quotient, limited};
ghost use Rattle.qasm_angle.specs.Values.{number, pi, of_parts, opposite_angle, sum_of_angles, scaled, divided, product_of_angles, quotient_of_angles, applied};

use crate::errors::AngleFault;
use crate::expression::Operation;
use crate::fraction::Fraction;

/// The angle `rational + multiple * pi`.
#[derive(Clone, Copy, Debug, PartialEq, Eq)]
pub struct Angle {
    /// The part without pi.
    pub rational: Fraction,
    /// How many times pi the other part is.
    pub multiple: Fraction,
}

impl Angle {
    /// A number without pi.
    pub fn number(rational: Fraction) -> Angle
        ensures { result ≡ number rational }
    {
        Angle {
            rational,
            multiple: Fraction::zero(),
        }
    }

    /// The number pi.
    pub fn pi() -> Angle
        ensures { result ≡ pi }
    {
        Angle {
            rational: Fraction::zero(),
            multiple: Fraction::one(),
        }
    }

    /// The angle with the other sign.
    pub fn opposite(&self) -> Angle
        ensures { result ≡ opposite_angle self.now }
    {
        Angle {
            rational: self.rational.opposite(),
            multiple: self.multiple.opposite(),
        }
    }

    /// What the operation gives for this angle and another, or why it gives no angle.
    #[tactic(auto, unfolding(crate::specs::Values::applied))]
    pub fn apply(&self, operator: Operation, other: &Angle) -> Result<Angle, AngleFault>
        ensures { result ≡ applied operator self.now other.now }
    {
        match operator {
            Operation::Add => sum_of_angles(self, other),
            Operation::Subtract => sum_of_angles(self, &other.opposite()),
            Operation::Multiply => product_of_angles(self, other),
            Operation::Divide => quotient_of_angles(self, other),
        }
    }
}

fn sum_of_angles(a: &Angle, b: &Angle) -> Result<Angle, AngleFault>
    ensures { result ≡ sum_of_angles a.now b.now }
{
    let rational = a.rational.checked_add(b.rational);
    of_parts(rational, a.multiple.checked_add(b.multiple))
}

fn product_of_angles(a: &Angle, b: &Angle) -> Result<Angle, AngleFault>
    ensures { result ≡ product_of_angles a.now b.now }
{
    if b.multiple.is_zero() {
        scaled(a, b.rational)
    } else if a.multiple.is_zero() {
        scaled(b, a.rational)
    } else {
        Err(AngleFault::NotAnAngle)
    }
}

fn quotient_of_angles(a: &Angle, b: &Angle) -> Result<Angle, AngleFault>
    ensures { result ≡ quotient_of_angles a.now b.now }
{
    if b.multiple.is_zero() {
        divided(a, b.rational)
    } else {
        Err(AngleFault::NotAnAngle)
    }
}

// The quotient of an angle by a number.
fn divided(a: &Angle, divisor: Fraction) -> Result<Angle, AngleFault>
    ensures { result ≡ divided a.now divisor }
{
    if divisor.is_zero() {
        return Err(AngleFault::Divide);
    }
    let rational = a.rational.checked_div(divisor);
    of_parts(rational, a.multiple.checked_div(divisor))
}

// The product of an angle and a number.
fn scaled(a: &Angle, factor: Fraction) -> Result<Angle, AngleFault>
    ensures { result ≡ scaled a.now factor }
{
    let rational = a.rational.checked_mul(factor);
    of_parts(rational, a.multiple.checked_mul(factor))
}

// The angle of two parts, or too large where one of them is none.
fn of_parts(rational: Option<Fraction>, multiple: Option<Fraction>) -> Result<Angle, AngleFault>
    ensures { result ≡ of_parts rational multiple }
{
    match (rational, multiple) {
        (Some(rational), Some(multiple)) => Ok(Angle { rational, multiple }),
        _ => Err(AngleFault::TooLarge),
    }
}
