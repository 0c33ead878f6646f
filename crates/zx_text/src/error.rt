//! Why a text isn't a file.

ghost use Rattle.std.specs.Prelude.{◌≡◌};
ghost use Rattle.zx_text.specs.declared.error.TextError.TheVariants.{NoMemory};

use std::alloc::AllocError;
use thiserror::Error;

/// Why a text wasn't read as a file.
#[derive(Debug, Clone, Copy, PartialEq, Eq, Error)]
pub enum TextError {
    /// The lines before this one can begin a file, but it can't follow them, or the text ends there.
    #[error("bad line {line}")]
    BadLine {
        /// The number of the line, counted from 1.
        line: usize,
    },
    /// The text has more bytes than are read.
    #[error("text too long")]
    TooLong,
    /// There was no memory for the graph or its flow.
    #[error("no memory")]
    NoMemory,
}

impl From<AllocError> for TextError {
    ghost from_gives = { λ _ e. e ≡ NoMemory };

    fn from(_error: AllocError) -> TextError {
        TextError::NoMemory
    }
}
