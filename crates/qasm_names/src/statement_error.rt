//! Why a statement isn't taken in.

ghost use Rattle.std.specs.Prelude.{◌≡◌};
ghost use Rattle.qasm_names.specs.declared.statement_error.StatementError.TheVariants.{NoMemory};

use qasm_scope::Cause;
use std::alloc::{AllocError, AllocFailed};

/// Why a statement isn't taken in.
#[derive(Clone, Copy, Debug, PartialEq, Eq)]
pub enum StatementError {
    /// This is wrong with it.
    Wrong(Cause),
    /// Memory ran out.
    NoMemory,
}

impl From<AllocError> for StatementError {
    ghost from_gives = { λ _ stopped. stopped ≡ NoMemory };

    fn from(_error: AllocError) -> StatementError {
        StatementError::NoMemory
    }
}

impl<T: Drop> From<AllocFailed<T>> for StatementError {
    ghost from_gives = { λ _ stopped. stopped ≡ NoMemory };

    fn from(_error: AllocFailed<T>) -> StatementError {
        StatementError::NoMemory
    }
}
