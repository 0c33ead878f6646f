//! Why a step isn't done.

ghost use Rattle.std.specs.Prelude.{◌≡◌};
ghost use Rattle.flow_rewrites.specs.declared.refusal.StepRefused.TheVariants.{NoMemory};

use std::alloc::AllocError;
use thiserror::Error;

/// Why a step wasn't done.
#[derive(Debug, Clone, Copy, PartialEq, Eq, Error)]
pub enum StepRefused {
    /// An id isn't that of a vertex, or the side condition of the step fails.
    #[error("the step isn't allowed")]
    NotAllowed,
    /// There was no memory for the step.
    #[error("no memory")]
    NoMemory,
}

impl From<AllocError> for StepRefused {
    ghost from_gives = { λ _ e. e ≡ NoMemory };

    fn from(_error: AllocError) -> StepRefused {
        StepRefused::NoMemory
    }
}
