//! Why an expression has no angle.

ghost use Rattle.std.specs.Prelude.{◌≡◌};
ghost use Rattle.qasm_angle.specs.Errors.{error_of};
ghost use Rattle.qasm_angle.specs.declared.errors.AngleError.TheVariants.{NoMemory};

use std::alloc::AllocFailed;
use thiserror::Error;

/// Why an expression has no angle.
#[derive(Debug, Clone, Copy, PartialEq, Eq)]
pub enum AngleFault {
    /// A division by 0.
    Divide,
    /// A number past the limits: in lowest terms its numerator or denominator has a size above 2^60, or it is
    /// spelled with more than 38 significant digits.
    TooLarge,
    /// A product of two factors with pi, a division by one with pi, or a parameter that is given no angle.
    NotAnAngle,
}

/// Why the angle of an expression is not given.
#[derive(Debug, Clone, Copy, PartialEq, Eq, Error)]
pub enum AngleError {
    /// A division by 0.
    #[error("division by zero")]
    Divide,
    /// A number past the limits: in lowest terms its numerator or denominator has a size above 2^60, or it is
    /// spelled with more than 38 significant digits.
    #[error("too large")]
    TooLarge,
    /// A product of two factors with pi, a division by one with pi, or a parameter that is given no angle.
    #[error("not an angle")]
    NotAnAngle,
    /// There was no memory for the intermediate angles.
    #[error("no memory")]
    NoMemory,
}

impl<T: Drop> From<AllocFailed<T>> for AngleError {
    ghost from_gives = { λ _ e. e ≡ NoMemory };

    fn from(_error: AllocFailed<T>) -> AngleError {
        AngleError::NoMemory
    }
}

impl From<AngleFault> for AngleError {
    ghost from_gives = { λ cause e. e ≡ error_of cause };

    fn from(cause: AngleFault) -> AngleError {
        match cause {
            AngleFault::Divide => AngleError::Divide,
            AngleFault::TooLarge => AngleError::TooLarge,
            AngleFault::NotAnAngle => AngleError::NotAnAngle,
        }
    }
}
