//! Why a text has no tokens.

ghost use Rattle.std.specs.Prelude.{◌≡◌};
ghost use Rattle.qasm_lexer.specs.declared.errors.LexError.TheVariants.{NoMemory};

use std::alloc::AllocError;
use thiserror::Error;

/// Why a text wasn't cut into tokens.
#[derive(Debug, Clone, Copy, PartialEq, Eq, Error)]
pub enum LexError {
    /// At this place of the text, counted in bytes from 0, no token, white space or comment begins.
    #[error("bad byte at {at}")]
    BadByte {
        /// The first such place.
        at: usize,
    },
    /// There was no memory for the tokens.
    #[error("no memory")]
    NoMemory,
}

impl From<AllocError> for LexError {
    ghost from_gives = { λ _ e. e ≡ NoMemory };

    fn from(_error: AllocError) -> LexError {
        LexError::NoMemory
    }
}
