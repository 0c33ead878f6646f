//! Why a step of the parser stopped.

ghost use Rattle.std.specs.Prelude.{◌≡◌};
ghost use Rattle.qasm_reader.specs.declared.step_error.StepError.TheVariants.{NoMemory};

use std::alloc::{AllocError, AllocFailed};

// Why a step of the parser stopped.
#[derive(Debug, Clone, Copy)]
pub(crate) enum StepError {
    // The tokens don't begin with what is read there.
    Misfit,
    // There was no memory.
    NoMemory,
}

impl From<AllocError> for StepError {
    ghost from_gives = { λ _ e. e ≡ NoMemory };

    fn from(_error: AllocError) -> StepError {
        StepError::NoMemory
    }
}

impl<T: Drop> From<AllocFailed<T>> for StepError {
    ghost from_gives = { λ _ e. e ≡ NoMemory };

    fn from(_error: AllocFailed<T>) -> StepError {
        StepError::NoMemory
    }
}
